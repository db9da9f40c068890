//! The probe for a word: it is found, or placed.
ghost use Rattle.std.specs.Prelude.{◌≡◌, ◌≢◌, ◌<◌, ◌≤◌, ◌^◌, ◌+◌, ◌%◌, length};
ghost use Rattle.rel_model.specs.Words.{IsDistinct, most_bits};
ghost use Rattle.rel_model.specs.Equations.{memo_slots};
ghost use Rattle.pair_table.specs.Tells.{InternsFor};

use crate::Missed;
use crate::home::home_of;
use crate::rule::{Known, Order, Start};
use crate::steps::{exchange_word, load_word};
use atomic_table::{Seat, Shared};

/// The next of `count` places in a ring.
fn next(place: usize, count: usize) -> usize
    requires { place < count }
    ensures { result ≡ (place + 1) % count }
{
    if place + 1 == count { 0 } else { place + 1 }
}

/// The one name of a word: from its home on, the first place that holds the word, or at which it can be placed.
pub fn intern_word(
    table: &Shared<(), Known, Start, Order>,
    seat: &mut Seat<(), Known>,
    bits: u32,
    count: usize,
    word: u64,
) -> Result<u32, Missed>
    requires of { seat.old.table_id ≡ table.now.table_id }
    requires live { seat.old.me.0.parts ≢ 0 }
    requires room { table.now.table_id.words ≡ 2 ^ table.now.key.bits + memo_slots }
    requires words { 2 ^ table.now.key.bits ≡ count + 2 }
    requires bits { 2 ^ bits ≡ count + 2 }
    requires few { bits ≤ most_bits }
    requires size { length seat.old.me.0.words ≡ count + 2 }
    requires small { count + 2 ≤ 2 ^ most_bits }
    requires not_none { 0 < count }
    requires canonical { IsDistinct seat.old.me.0.words }
    requires some { word ≢ 0 }
    ensures interns { InternsFor seat.old.me.0 seat.new.me.0 word result }
    ensures of { seat.new.table_id ≡ seat.old.table_id }
    ensures held { seat.new.me.1 ≡ seat.old.me.1 }
{
    let mut place = home_of(word, bits, count);
    'places: for _step in 0..count {
        let mut found = load_word(table, seat, 2 + place);
        if found == 0 {
            found = exchange_word(table, seat, 2 + place, word);
            if found == 0 {
                return Ok((2 + place) as u32);
            }
        }
        if found == word {
            return Ok((2 + place) as u32);
        }
        place = next(place, count);
    }
    Err(Missed)
}
