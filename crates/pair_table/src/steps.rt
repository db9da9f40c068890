//! Each kind of atomic step of a table, under the rule.
ghost use Rattle.std.specs.Prelude.{◌≡◌, ◌≢◌, ◌<◌, ◌≤◌, ◌^◌, ◌+◌, [], length};
ghost use Rattle.rel_model.specs.Words.{IsDistinct, most_bits};
ghost use Rattle.rel_model.specs.Equations.{IsMemo, memo_slots};
ghost use Rattle.pair_table.specs.Probe.{IsNext};
ghost use Rattle.pair_table.specs.Tells.{SeesWord, TriesWord, SeesMemo, StoresMemo, IsLeft, IsRight, IsBoth};

use crate::rule::{Both, Cut, Halves, Known, Load, MemoLoad, MemoStore, Order, Place, Start};
use atomic_table::{Seat, Shared};

/// Loads a node word.
pub fn load_word(
    table: &Shared<(), Known, Start, Order>,
    seat: &mut Seat<(), Known>,
    place: usize,
) -> u64
    requires of { seat.old.table_id ≡ table.now.table_id }
    requires live { seat.old.me.0.parts ≢ 0 }
    requires room { table.now.table_id.words ≡ 2 ^ table.now.key.bits + memo_slots }
    requires within { place < 2 ^ table.now.key.bits }
    ensures sees { SeesWord place result seat.old.me.0 seat.new.me.0 }
    ensures of { seat.new.table_id ≡ seat.old.table_id }
    ensures held { seat.new.me.1 ≡ seat.old.me.1 }
{
    table.load::<Load>(seat, place)
}

/// Places a node word by a compare-exchange from 0.
pub fn exchange_word(
    table: &Shared<(), Known, Start, Order>,
    seat: &mut Seat<(), Known>,
    place: usize,
    word: u64,
) -> u64
    requires of { seat.old.table_id ≡ table.now.table_id }
    requires live { seat.old.me.0.parts ≢ 0 }
    requires room { table.now.table_id.words ≡ 2 ^ table.now.key.bits + memo_slots }
    requires within { place < 2 ^ table.now.key.bits }
    requires next { IsNext seat.old.me.0.words word place }
    requires some { word ≢ 0 }
    ensures tries { TriesWord place word result seat.old.me.0 seat.new.me.0 }
    ensures of { seat.new.table_id ≡ seat.old.table_id }
    ensures held { seat.new.me.1 ≡ seat.old.me.1 }
{
    table.compare_exchange::<Place>(seat, place, 0, word)
}

/// Loads a memo word; memo words follow the `size` node words.
pub fn load_memo(
    table: &Shared<(), Known, Start, Order>,
    seat: &mut Seat<(), Known>,
    size: usize,
    slot: usize,
) -> u64
    requires of { seat.old.table_id ≡ table.now.table_id }
    requires live { seat.old.me.0.parts ≢ 0 }
    requires room { table.now.table_id.words ≡ 2 ^ table.now.key.bits + memo_slots }
    requires size { size ≡ 2 ^ table.now.key.bits }
    requires small { size ≤ 2 ^ most_bits }
    requires seen { length seat.old.me.0.words ≡ size }
    requires slot { slot < memo_slots }
    ensures sees { SeesMemo slot result seat.old.me.0 seat.new.me.0 }
    ensures of { seat.new.table_id ≡ seat.old.table_id }
    ensures held { seat.new.me.1 ≡ seat.old.me.1 }
{
    table.load::<MemoLoad>(seat, size + slot)
}

/// Stores a memo word, which must be a true equation; memo words follow the `size` node words.
pub fn store_memo(
    table: &Shared<(), Known, Start, Order>,
    seat: &mut Seat<(), Known>,
    size: usize,
    slot: usize,
    word: u64,
)
    requires of { seat.old.table_id ≡ table.now.table_id }
    requires live { seat.old.me.0.parts ≢ 0 }
    requires room { table.now.table_id.words ≡ 2 ^ table.now.key.bits + memo_slots }
    requires size { size ≡ 2 ^ table.now.key.bits }
    requires small { size ≤ 2 ^ most_bits }
    requires seen { length seat.old.me.0.words ≡ size }
    requires slot { slot < memo_slots }
    requires canonical { IsDistinct seat.old.me.0.words }
    requires holds { IsMemo seat.old.me.0.words slot word }
    ensures stores { StoresMemo slot word seat.old.me.0 seat.new.me.0 }
    ensures of { seat.new.table_id ≡ seat.old.table_id }
    ensures held { seat.new.me.1 ≡ seat.old.me.1 }
{
    table.store::<MemoStore>(seat, size + slot, word)
}

/// Splits off a second seat, which gets `spare` spare seats.
pub fn cut_off(
    table: &Shared<(), Known, Start, Order>,
    seat: &mut Seat<(), Known>,
    spare: u64,
) -> Seat<(), Known>
    requires of { seat.old.table_id ≡ table.now.table_id }
    requires room { table.now.table_id.words ≡ 2 ^ table.now.key.bits + memo_slots }
    requires words { 0 < 2 ^ table.now.key.bits }
    requires fewer { spare + 1 < seat.old.me.0.parts }
    ensures first { IsLeft spare seat.old.me.0 seat.new.me.0 }
    ensures second { IsRight spare seat.new.me.0 result.me.0 }
    ensures of { seat.new.table_id ≡ seat.old.table_id }
    ensures second_of { result.table_id ≡ seat.old.table_id }
    ensures held { seat.new.me.1 ≡ seat.old.me.1 }
    ensures second_held { result.me.1 ≡ [] }
{
    // A split has no operand, so this step writes into the view how many seats go with it.
    table.compare_exchange::<Cut>(seat, 0, spare, spare);
    table.split_seat::<Halves>(seat)
}

/// Joins another seat to this one.
pub fn take_in(
    table: &Shared<(), Known, Start, Order>,
    seat: &mut Seat<(), Known>,
    other: Seat<(), Known>,
)
    requires of { seat.old.table_id ≡ table.now.table_id }
    requires other_of { other.table_id ≡ table.now.table_id }
    requires room { table.now.table_id.words ≡ 2 ^ table.now.key.bits + memo_slots }
    requires words { 0 < 2 ^ table.now.key.bits }
    requires live { seat.old.me.0.parts ≢ 0 }
    requires other_live { other.me.0.parts ≢ 0 }
    requires empty { other.me.1 ≡ [] }
    ensures both { IsBoth seat.old.me.0 other.me.0 seat.new.me.0 }
    ensures of { seat.new.table_id ≡ seat.old.table_id }
    ensures held { seat.new.me.1 ≡ seat.old.me.1 }
{
    table.join_seat::<Both>(seat, other);
    // A join names no word, so this step turns the words that the joined seat had seen into words that this seat has
    // seen.
    load_word(table, seat, 0);
}
