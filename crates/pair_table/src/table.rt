//! The table, whose words any number of seats share by single atomic steps.
ghost use Rattle.std.specs.Prelude.{◌≡◌, ◌≢◌, ◌<◌, ◌≤◌, ◌+◌, ◌-◌, ◌*◌, ◌/◌, ◌%◌, ◌^◌, slice_index, IfOk};
ghost use Rattle.std.specs.Mem.Slots.{slots_items, slots_len, IsFull};
ghost use Rattle.rel_model.specs.Words.{most_bits};
ghost use Rattle.rel_model.specs.Trees.{first_of, second_of};
ghost use Rattle.rel_model.specs.Equations.{IsMemo, IsSoundTable, memo_slots};
ghost use Rattle.rel_model.specs.Views.{Table, View, IsOf, IsKnown, Reads, IsFresh, Interns, Loads, Splits, Joins, IsClosed};
ghost use Rattle.pair_table.specs.Memos.{Stores, IsStillTaken, IsStillThere};
ghost use Rattle.pair_table.specs.Opened.{IsOpened};

use crate::probe::intern_word;
use crate::rule::{Known, Order, Start};
use crate::seats::Seat;
use crate::steps::{cut_off, load_memo, load_word, store_memo, take_in};
use crate::{LEAST_BITS, MEMO_SLOTS, MOST_BITS, Missed};
use rel_model::NoMemory;
use std::alloc::{AllocError, Global};
use std::marker::Model;

/// The node table: `2^bits` node words and `2^20` memo words of 8 bytes each, on the heap.
#[derive(Drop)]
pub struct PairTable {
    table: atomic_table::Table<(), Known, Start, Order, Global>,
    alloc: Global,
    count: usize,
    bits: u32,
    seats: u32,
}

impl Model for PairTable {
    ghost use Rattle.rel_model.specs.Views.{Table};
    ghost use Rattle.pair_table.specs.Held.{IsTable, house_of};

    ghost Value = { Table };

    ghost view = { λ t. record { house = house_of t.table.shared.table_id; bits = t.bits; seats = t.seats } };

    ghost invariant = { λ t. IsTable t.table.shared.table_id t.table.shared.key t.count t.bits t.seats };
}

#[tactic(auto, using(crate::proofs::Wrapping::one_table, crate::proofs::Wrapping::still_seat))]
impl PairTable {
    /// A table with `2^bits` vacant node words, and its first seat, from which `seats - 1` others may be split off.
    /// Refused only if memory runs out.
    pub fn make(alloc: Global, bits: u32, seats: u32) -> Result<(PairTable, Seat), NoMemory>
        requires low { LEAST_BITS ≤ bits }
        requires high { bits ≤ MOST_BITS }
        requires some { 1 ≤ seats }
        ensures { IfOk result (IsFresh bits seats) }
    {
        let size = size_of_bits(bits) + MEMO_SLOTS as usize;
        let Ok(words) = vec![in alloc; 0u64; size] else {
            return Err(NoMemory);
        };
        PairTable::open_words(alloc, bits, words, seats)
    }

    /// A table over the words left by another one, node words followed by memo words, and its first seat, which has
    /// seen all node words and counts the stored ones as made. `seats - 1` others may be split off. Refused only if
    /// memory runs out.
    pub fn open_words(
        alloc: Global,
        bits: u32,
        words: Vec<u64>,
        seats: u32,
    ) -> Result<(PairTable, Seat), NoMemory>
        requires low { LEAST_BITS ≤ bits }
        requires high { bits ≤ MOST_BITS }
        requires some { 1 ≤ seats }
        requires sound { IsSoundTable bits words.items }
        ensures { IfOk result (IsOpened bits words.items seats) }
    {
        let count = size_of_bits(bits) - 2;
        let start = Start { bits, seats, words };
        let Ok((table, inner)) = atomic_table::Table::of_words(alloc, &start.words, &start) else {
            return Err(NoMemory);
        };
        Ok((
            PairTable {
                table,
                alloc,
                count,
                bits,
                seats,
            },
            Seat {
                inner,
                spare: seats - 1,
                refused: 0,
            },
        ))
    }

    /// The one name of a word. Refused only if every place holds another word, and the seat counts each refusal.
    fn intern_any(&self, seat: &mut Seat, word: u64) -> Result<u32, Missed>
        requires of { IsOf seat.old self.now }
        requires some { word ≢ 0 }
        ensures interns { Interns seat.old seat.new word result }
        ensures of { IsOf seat.new self.now }
    {
        match intern_word(
            &self.table.shared,
            &mut seat.inner,
            self.bits,
            self.count,
            word,
        ) {
            Ok(name) => Ok(name),
            Err(Missed) => {
                seat.refused = seat.refused.saturating_add(1);
                Err(Missed)
            }
        }
    }

    /// The one name of a pair of names. Refused only if every place holds another word, which the seat counts.
    pub fn intern(&self, seat: &mut Seat, left: u32, right: u32) -> Result<u32, Missed>
        requires of { IsOf seat.old self.now }
        requires left_in { IsKnown seat.old left }
        requires right_in { IsKnown seat.old right }
        requires some { left + right ≢ 0 }
        ensures interns { Interns seat.old seat.new (left * 2 ^ 32 + right) result }
        ensures of { IsOf seat.new self.now }
    {
        let word = ((left as u64) << 32) + right as u64;
        self.intern_any(seat, word)
    }

    /// The one name of a block of 64 cells. Refused only if every place holds another word, which the seat counts.
    pub fn intern_block(&self, seat: &mut Seat, bits: u64) -> Result<u32, Missed>
        requires of { IsOf seat.old self.now }
        requires some { bits ≢ 0 }
        ensures interns { Interns seat.old seat.new bits result }
        ensures of { IsOf seat.new self.now }
    {
        self.intern_any(seat, bits)
    }

    /// The word of a name, which is a block's 64 cells if it names a block.
    pub fn block_of(&self, seat: &mut Seat, name: u32) -> u64
        requires of { IsOf seat.old self.now }
        requires known { slice_index seat.old.words name ≢ 0 }
        ensures word { result ≡ slice_index seat.old.words name }
        ensures reads { Reads seat.old seat.new }
        ensures of { IsOf seat.new self.now }
    {
        load_word(&self.table.shared, &mut seat.inner, name as usize)
    }

    /// The two names in the word of a name.
    pub fn kids(&self, seat: &mut Seat, name: u32) -> (u32, u32)
        requires of { IsOf seat.old self.now }
        requires known { slice_index seat.old.words name ≢ 0 }
        ensures first { result.0 ≡ first_of (slice_index seat.old.words name) }
        ensures second { result.1 ≡ second_of (slice_index seat.old.words name) }
        ensures reads { Reads seat.old seat.new }
        ensures of { IsOf seat.new self.now }
    {
        let word = self.block_of(seat, name);
        ((word >> 32) as u32, (word % (1 << 32)) as u32)
    }

    /// The memo word of a slot: 0 or a true equation.
    pub fn memo_load(&self, seat: &mut Seat, slot: u32) -> u64
        requires of { IsOf seat.old self.now }
        requires within { slot < memo_slots }
        ensures loads { Loads slot result seat.old seat.new }
        ensures of { IsOf seat.new self.now }
    {
        load_memo(
            &self.table.shared,
            &mut seat.inner,
            self.count + 2,
            slot as usize,
        )
    }

    /// Stores a memo word, which must be a true equation at home in this slot.
    pub fn memo_store(&self, seat: &mut Seat, slot: u32, word: u64)
        requires of { IsOf seat.old self.now }
        requires within { slot < memo_slots }
        requires holds { IsMemo seat.old.words slot word }
        ensures stores { Stores slot word seat.old seat.new }
        ensures of { IsOf seat.new self.now }
    {
        store_memo(
            &self.table.shared,
            &mut seat.inner,
            self.count + 2,
            slot as usize,
            word,
        );
    }

    /// Splits off a second seat, which knows the same, gets `spare` spare seats, and was refused nothing.
    pub fn split(&self, seat: &mut Seat, spare: u32) -> Seat
        requires of { IsOf seat.old self.now }
        requires fewer { spare < seat.old.spare }
        ensures splits { Splits spare seat.old seat.new result }
        ensures of { IsOf seat.new self.now }
        ensures second_of { IsOf result self.now }
    {
        let inner = cut_off(&self.table.shared, &mut seat.inner, spare as u64);
        seat.spare -= spare + 1;
        Seat {
            inner,
            spare,
            refused: 0,
        }
    }

    /// How many seats may still be split off.
    pub fn spare(&self, seat: &Seat) -> u32
        ensures { result ≡ seat.now.spare }
    {
        seat.spare
    }

    /// Joins another seat of the same table into this one, which then knows what either knew and counts the refusals of
    /// both.
    pub fn join(&self, seat: &mut Seat, other: Seat)
        requires of { IsOf seat.old self.now }
        requires other_of { IsOf other self.now }
        ensures joins { Joins seat.old other seat.new }
        ensures of { IsOf seat.new self.now }
    {
        let Seat {
            inner,
            spare,
            refused,
        } = other;
        take_in(&self.table.shared, &mut seat.inner, inner);
        seat.spare = seat.spare + spare + 1;
        seat.refused = seat.refused.saturating_add(refused);
    }

    /// Closes the table, and gives its words: node words followed by memo words. All seats must have been joined into
    /// this one. Refused only if memory runs out.
    pub fn close(self, seat: Seat) -> Result<Vec<u64>, NoMemory>
        requires of { IsOf seat self }
        requires whole { seat.spare + 1 ≡ self.seats }
        ensures closed { IfOk result (λ v. IsClosed self.bits seat v.items) }
        ensures taken { IfOk result (λ v. IsStillTaken self.bits v.items seat.last) }
        ensures there { self.seats ≡ 1 → IfOk result (λ v. IsStillThere self.bits v.items seat.last) }
    {
        let PairTable {
            table,
            alloc,
            count,
            bits: _,
            seats: _,
        } = self;
        let Seat {
            inner,
            spare: _,
            refused: _,
        } = seat;
        let closed = table.close_with(inner);
        let words = copied(alloc, &closed, count + 2 + MEMO_SLOTS as usize);
        closed.free();
        match words {
            Ok(words) => Ok(words),
            Err(_) => Err(NoMemory),
        }
    }
}

/// How many node words a table has.
fn size_of_bits(bits: u32) -> usize
    requires low { LEAST_BITS ≤ bits }
    requires high { bits ≤ MOST_BITS }
    ensures size { result ≡ 2 ^ bits }
    ensures large { 2 ≤ result }
    ensures small { result ≤ 2 ^ most_bits }
{
    1 << bits
}

/// A copy of the words of a closed table.
fn copied(
    alloc: Global,
    closed: &atomic_table::Closed<(), Global>,
    size: usize,
) -> Result<Vec<u64>, AllocError>
    requires full { IsFull closed.now.words }
    requires length { size ≡ slots_len closed.now.words }
    ensures { IfOk result (λ v. v.items ≡ slots_items closed.now.words) }
{
    let mut words = Vec::with_capacity(alloc, size)?;
    'words: for i in 0..size {
        words.push(closed.word(i))?;
    }
    Ok(words)
}
