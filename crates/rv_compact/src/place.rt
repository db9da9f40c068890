//! Placing a word: at the first place from its home on that holds it or is vacant.
ghost use Rattle.std.specs.Prelude.{◌≡◌, ◌≢◌, ◌<◌, ◌≤◌, ◌^◌, ◌+◌, ◌%◌, length};
ghost use Rattle.rel_model.specs.Words.{IsSound, home_sum, most_bits, stored_count};
ghost use Rattle.rv_compact.specs.Copies.{Places};

use pair_table::home_of;

/// The next of `count` places in a ring.
fn next(place: usize, count: usize) -> usize
    requires { place < count }
    ensures { result ≡ (place + 1) % count }
{
    if place + 1 == count { 0 } else { place + 1 }
}

/// The name of a word, which is placed if it stands nowhere yet. There must be a vacant place.
pub(crate) fn place_word(nodes: &mut [u64], bits: u32, word: u64) -> u32
    requires sound { IsSound nodes.old }
    requires size { length nodes.old ≡ 2 ^ bits }
    requires few { bits ≤ most_bits }
    requires vacant { stored_count nodes.old + 2 < length nodes.old }
    requires some { word ≢ 0 }
    ensures { Places nodes.old nodes.new word result }
{
    let count = nodes.len() - 2;
    let mut place = home_of(word, bits, count);
    'places: for _step in 0..count {
        let found = nodes[2 + place];
        if found == 0 {
            nodes[2 + place] = word;
            return (2 + place) as u32;
        }
        if found == word {
            return (2 + place) as u32;
        }
        place = next(place, count);
    }
    0
}
