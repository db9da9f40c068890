ghost use Rattle.std.specs.Prelude.{◌≡◌, ◌≢◌, ◌<◌, ◌≤◌, ◌+◌, ◌-◌, ◌*◌, ◌/◌, ◌%◌, ◌^◌, IfOk, slice_index};
ghost use Rattle.rel_model.specs.Cells.{block_cells, no_cells};
ghost use Rattle.rel_model.specs.Trees.{paired};
ghost use Rattle.rel_model.specs.Equations.{IsSoundTable};
ghost use Rattle.rel_model.specs.Views.{Table, View, IsOf, IsKnown, IsSet};

use pair_table::{MEMO_SLOTS, Missed, PairTable, Seat};
use std::alloc::Global;
use std::process::Abort;
use std::test::Fail;
use std::thread;

/// A table of 2^10 node words, and its first seat.
fn small_table(rt: &impl Abort, alloc: Global, seats: u32) -> (PairTable, Seat)
    requires { 1 ≤ seats }
    ensures { IsOf result.1 result.0 × (result.1.spare + 1 ≡ seats) × (result.0.seats ≡ seats) × (result.0.bits ≡ 10) }
{
    match PairTable::make(alloc, 10, seats) {
        Ok(made) => made,
        Err(_) => panic!(rt; "no memory"),
    }
}

/// The name of a block; asserts that it reads back as the block.
fn name_of_block(rt: &impl Abort, table: &PairTable, seat: &mut Seat, bits: u64) -> u32
    requires of { IsOf seat.old table.now }
    requires some { bits ≢ 0 }
    ensures of { IsOf seat.new table.now }
    ensures known { slice_index seat.new.words result ≢ 0 }
    ensures spare { seat.new.spare ≡ seat.old.spare }
{
    let Ok(name) = table.intern_block(seat, bits) else {
        panic!(rt; "block {bits} has no name")
    };
    assert!(rt; table.block_of(seat, name) == bits);
    name
}

/// The names of the blocks from 1 to `count`.
fn names_of_blocks(
    rt: &impl Abort,
    alloc: Global,
    table: &PairTable,
    seat: &mut Seat,
    count: u64,
) -> Vec<u32>
    requires { IsOf seat.old table.now }
    ensures { IsOf seat.new table.now }
{
    let mut names = Vec::new(alloc);
    'each_block: for bits in 0..count {
        names
            .push(name_of_block(rt, table, seat, bits + 1))
            .expect(rt, "memory");
    }
    names
}

#[test]
fn a_full_table_misses_one_more_and_still_answers_the_old_names(rt: HostRuntime) {
    let alloc = rt.alloc();
    let (table, mut seat) = small_table(&rt, alloc, 1);
    let names = names_of_blocks(&rt, alloc, &table, &mut seat, 1022);
    assert!(rt; table.intern_block(&mut seat, 1023) == Err(Missed));
    let again = names_of_blocks(&rt, alloc, &table, &mut seat, 1022);
    assert!(rt; names == again);
    assert!(rt; table.intern_block(&mut seat, 1023) == Err(Missed));
}

#[test]
fn a_pair_and_a_block_with_one_word_have_one_name(rt: HostRuntime) {
    let (table, mut seat) = small_table(&rt, rt.alloc(), 1);
    let left = name_of_block(&rt, &table, &mut seat, 5);
    let pair = name_of_pair(&rt, &table, &mut seat, left, 6);
    let right = name_of_block(&rt, &table, &mut seat, 6);
    let word = ((left as u64) << 32) + right as u64;
    let block = name_of_block(&rt, &table, &mut seat, word);
    assert!(rt; block == pair);
    assert!(rt; table.kids(&mut seat, block) == (left, right));
}

/// Interns `count` pairs, each of the last name and a new block, and gives their names.
fn names_of_pairs(
    rt: &impl Abort,
    alloc: Global,
    table: &PairTable,
    mut seat: Seat,
    count: u64,
) -> (Seat, Vec<u32>)
    requires { IsOf seat table.now }
    ensures { IsOf result.0 table.now }
{
    let mut names = Vec::new(alloc);
    let mut left = 0;
    'each_pair: for bits in 0..count {
        left = name_of_pair(rt, table, &mut seat, left, bits + 1);
        names.push(left).expect(rt, "memory");
    }
    (seat, names)
}

/// The name of a pair of a name and a block; asserts that it reads back as the pair.
fn name_of_pair(rt: &impl Abort, table: &PairTable, seat: &mut Seat, left: u32, bits: u64) -> u32
    requires of { IsOf seat.old table.now }
    requires known { IsKnown seat.old left }
    requires some { bits ≢ 0 }
    ensures of { IsOf seat.new table.now }
    ensures known { slice_index seat.new.words result ≢ 0 }
{
    let Ok(right) = table.intern_block(seat, bits) else {
        panic!(rt; "block {bits} has no name")
    };
    let Ok(name) = table.intern(seat, left, right) else {
        panic!(rt; "the pair {left}, {right} has no name")
    };
    assert!(rt; table.kids(seat, name) == (left, right));
    name
}

/// Two callers at once, each with its own seat; the seats are joined at the end.
fn two_callers<R: Abort + thread::Threads + Sync>(
    rt: &R,
    alloc: Global,
    table: &PairTable,
    mut seat: Seat,
    count: u64,
) -> (Seat, Vec<u32>, Vec<u32>)
    requires of { IsOf seat table.now }
    requires room { 0 < seat.spare }
    ensures { IsOf result.0 table.now }
{
    let second = table.split(&mut seat, 0);
    let ((mut first, ours), (second, theirs)) = thread::join(
        rt,
        move || -> (Seat, Vec<u32>)
            requires { IsOf seat table.now }
            ensures { IsOf result.0 table.entry.now }
        { names_of_pairs(rt, alloc, table, seat, count) },
        move || -> (Seat, Vec<u32>)
            requires { IsOf second table.now }
            ensures { IsOf result.0 table.entry.now }
        { names_of_pairs(rt, alloc, table, second, count) },
    );
    table.join(&mut first, second);
    (first, ours, theirs)
}

#[test]
fn four_callers_on_threads_of_their_own_agree_on_the_names_of_500_pairs(rt: HostRuntime) {
    let alloc = rt.alloc();
    let (table, mut seat) = small_table(&rt, alloc, 4);
    let other = table.split(&mut seat, 1);
    let shared = &table;
    let ((mut first, a, b), (second, c, d)) = thread::join(
        &rt,
        || -> (Seat, Vec<u32>, Vec<u32>)
            requires { IsOf seat shared.now × (0 < seat.spare) }
            ensures { IsOf result.0 shared.entry.now }
        { two_callers(&rt, alloc, shared, seat, 500) },
        || -> (Seat, Vec<u32>, Vec<u32>)
            requires { IsOf other shared.now × (0 < other.spare) }
            ensures { IsOf result.0 shared.entry.now }
        { two_callers(&rt, alloc, shared, other, 500) },
    );
    table.join(&mut first, second);
    assert!(rt; a.len() == 500 && a == b && a == c && a == d);
    let (_seat, alone) = names_of_pairs(&rt, alloc, &table, first, 500);
    assert!(rt; a == alone);
}

/// The name of a word in a plain list of words and names.
fn listed(list: &[(u64, u32)], word: u64) -> Option<u32> {
    list.iter()
        .find(|entry| entry.0 == word)
        .map(|entry| entry.1)
}

/// Adds a word and its name to the list; asserts that no other word has the name.
fn list_new(rt: &impl Abort, list: &mut Vec<(u64, u32)>, word: u64, name: u32) {
    assert!(rt; list.iter().all(|entry| entry.1 != name), "at {word}");
    list.push((word, name)).expect(rt, "memory");
}

/// Interns a block, and compares the answer with a plain list of all words in the table.
fn interned_as_listed(
    rt: &impl Abort,
    table: &PairTable,
    seat: &mut Seat,
    list: &mut Vec<(u64, u32)>,
    word: u64,
)
    requires of { IsOf seat.old table.now }
    requires some { word ≢ 0 }
    ensures of { IsOf seat.new table.now }
{
    match (table.intern_block(seat, word), listed(list, word)) {
        (Ok(name), Some(old)) => assert!(rt; name == old, "at {word}"),
        (Ok(name), None) => list_new(rt, list, word, name),
        (Err(Missed), found) => assert!(rt; found.is_none() && list.len() == 1022, "at {word}"),
    }
}

#[test]
fn pseudo_random_words_are_named_as_in_a_slow_list(rt: HostRuntime) {
    let (table, mut seat) = small_table(&rt, rt.alloc(), 1);
    let mut list = Vec::new(rt.alloc());
    let mut state: u64 = 1;
    'each_round: for _round in 0..4000 {
        state = state
            .wrapping_mul(6364136223846793005)
            .wrapping_add(1442695040888963407);
        // 1,100 words with different halves, more than there are places
        let first = (state >> 33) % 100 + 1;
        let second = (state >> 48) % 11;
        interned_as_listed(&rt, &table, &mut seat, &mut list, (first << 32) + second);
    }
    assert!(rt; list.len() == 1022);
}

/// Asserts that the words of a closed table are vacant except for a block and the first memo word.
fn assert_words(rt: &impl Abort, words: &[u64], name: u32, block: u64, union: u64) {
    assert!(rt; words.len() == 1024 + MEMO_SLOTS as usize);
    for (at, word) in words.iter().enumerate() {
        let want = if at == name as usize {
            block
        } else if at == 1024 {
            union
        } else {
            0
        };
        assert!(rt; *word == want, "at {at}");
    }
}

/// Stores a memo word, asserts that none was there before, and gives it.
fn stored(rt: &impl Abort, table: &PairTable, seat: &mut Seat) -> u64
    requires { IsOf seat.old table.now }
    ensures { IsOf seat.new table.now × (seat.new.spare ≡ seat.old.spare) }
{
    assert!(rt; table.memo_load(seat, 0) == 0);
    let union = store_empty_union(table, seat);
    assert!(rt; table.memo_load(seat, 0) == union);
    union
}

#[test]
fn close_gives_all_words_and_the_memo_word_that_was_stored(rt: HostRuntime) {
    let (table, mut seat) = small_table(&rt, rt.alloc(), 3);
    let second = table.split(&mut seat, 0);
    assert!(rt; table.spare(&seat) == 1 && table.spare(&second) == 0);
    let name = name_of_block(&rt, &table, &mut seat, 77);
    let union = stored(&rt, &table, &mut seat);
    table.join(&mut seat, second);
    assert!(rt; table.spare(&seat) == 2);
    match table.close(seat) {
        Ok(words) => assert_words(&rt, words.as_slice(), name, 77, union),
        Err(_) => panic!(rt; "no memory"),
    }
}

/// Stores that at height 3 the union of the empty set with itself is empty, and gives the memo word: the number 1 of
/// the operator five bits up, plus the height.
fn store_empty_union(table: &PairTable, seat: &mut Seat) -> u64
    requires { IsOf seat.old table.now }
    ensures { IsOf seat.new table.now × (seat.new.spare ≡ seat.old.spare) }
{
    let word = (1 << 5) + 3;
    table.memo_store(seat, 0, word);
    word
}

/// The name of a wide set of depth 1: a block on the left, and the empty set on the right.
fn block_and_nothing(table: &PairTable, seat: &mut Seat, bits: u64) -> Result<u32, Missed>
    requires of { IsOf seat.old table.now }
    requires some { bits ≢ 0 }
    ensures of { IsOf seat.new table.now }
    ensures set { IfOk result (λ n. IsSet seat.new 1 n (paired 0 (block_cells bits) no_cells)) }
    ensures at_most_two { seat.new.made ≤ seat.old.made + 2 }
{
    let left = table.intern_block(seat, bits)?;
    table.intern(seat, left, 0)
}

#[test]
fn a_block_beside_nothing_is_one_name_however_often_it_is_made(rt: HostRuntime) {
    let (table, mut seat) = small_table(&rt, rt.alloc(), 1);
    let first = block_and_nothing(&table, &mut seat, 9);
    assert!(rt; first.is_ok());
    assert!(rt; block_and_nothing(&table, &mut seat, 9) == first);
}

/// The words of a table all of whose seats are joined.
fn closed(rt: &impl Abort, table: PairTable, seat: Seat) -> Vec<u64>
    requires of { IsOf seat table }
    requires whole { seat.spare + 1 ≡ table.seats }
    ensures { IsSoundTable table.bits result.items }
{
    match table.close(seat) {
        Ok(words) => words,
        Err(_) => panic!(rt; "no memory"),
    }
}

/// A table over words, and its first seat.
fn opened(rt: &impl Abort, alloc: Global, words: Vec<u64>, seats: u32) -> (PairTable, Seat)
    requires sound { IsSoundTable 10 words.items }
    requires some { 1 ≤ seats }
    ensures { IsOf result.1 result.0 × (result.1.spare + 1 ≡ seats) × (result.0.seats ≡ seats) × (result.0.bits ≡ 10) }
{
    match PairTable::open_words(alloc, 10, words, seats) {
        Ok(made) => made,
        Err(_) => panic!(rt; "no memory"),
    }
}

/// How many words are not 0.
fn taken(words: &[u64]) -> usize {
    words.iter().filter(|word| **word != 0).count()
}

#[test]
fn a_table_opened_over_words_answers_the_old_names_and_goes_on(rt: HostRuntime) {
    let alloc = rt.alloc();
    let (table, seat) = small_table(&rt, alloc, 1);
    let (seat, names) = names_of_pairs(&rt, alloc, &table, seat, 300);
    assert!(rt; table.spare(&seat) == 0);
    let words = closed(&rt, table, seat);
    // Block 1 is at its home 489, so the pair of the empty set and block 1 is not one of the blocks up to 400.
    assert!(rt; taken(&words) == 600);
    let before = words.clone().expect(&rt, "memory");
    let (table, mut seat) = opened(&rt, alloc, words, 3);
    let second = table.split(&mut seat, 0);
    let (mut seat, again) = names_of_pairs(&rt, alloc, &table, seat, 300);
    let (second, more) = names_of_pairs(&rt, alloc, &table, second, 400);
    assert!(rt; again == names && more.starts_with(&names));
    table.join(&mut seat, second);
    assert!(rt; table.spare(&seat) == 2);
    let after = closed(&rt, table, seat);
    assert!(rt; taken(&after) == 800);
    assert!(rt;
        before
            .iter()
            .zip(after.iter())
            .all(|pair| *pair.0 == 0 || pair.0 == pair.1)
    );
}
