//! The home of a word, where the probe for it begins, computed without a division.
ghost use Rattle.std.specs.Prelude.{◌≡◌, ◌<◌, ◌≤◌, ◌+◌, ◌/◌, ◌%◌, ◌^◌};
ghost use Rattle.rel_model.specs.Words.{home_sum, most_bits};

/// The factors by which the two halves of a word are multiplied.
const FIRST_FACTOR: u64 = 2654435761;

const SECOND_FACTOR: u64 = 2246822519;

/// The hash value of a word: its remainder by the number of places from 2 on gives the home.
fn mixed(word: u64) -> u64
    ensures { result ≡ home_sum word }
{
    let first = word >> 32;
    let second = word % (1 << 32);
    (first * FIRST_FACTOR).wrapping_add(second * SECOND_FACTOR)
}

/// A smaller number with the same remainder: `2^bits` is 2 more than `count`, so the bits above count twice.
fn folded(sum: u64, bits: u32, count: u64) -> u64
    requires size { 2 ^ bits ≡ count + 2 }
    requires few { bits ≤ most_bits }
    requires some { 0 < count }
    requires above { 2 ≤ sum / 2 ^ bits }
    ensures same { result % count ≡ sum % count }
    ensures smaller { result < sum }
{
    (sum >> bits) * 2 + (sum & (count + 1))
}

/// The home of a word among `count` places in a ring.
pub fn home_of(word: u64, bits: u32, count: usize) -> usize
    requires size { 2 ^ bits ≡ count + 2 }
    requires few { bits ≤ most_bits }
    requires some { 0 < count }
    ensures { result ≡ home_sum word % count }
{
    let places = count as u64;
    let mut rest = mixed(word);
    'folds: while rest >> bits >= 2 {
        rest = folded(rest, bits, places);
    }
    'rounds: while rest >= places {
        rest -= places;
    }
    rest as usize
}
