//! Power sets, compared with the slow evaluator: random scripts, and searches among the subsets of nine elements.
use crate::made::table;
use crate::subsets::script;
use crate::table::{append, assert_none, differing, lines, note};
use fork_quads::{Crew, OpenGate};
use rel_engine::Works;
use rel_slices::Remembers;
use std::alloc::Global;
use std::ops::Range;
use std::process::Abort;
use std::thread::Threads;

/// Compares the scripts of some seeds, and notes those with a wrong answer.
fn note_scripts<E: Remembers>(
    rt: &impl Abort,
    alloc: Global,
    engine: &mut E,
    wrong: &mut String,
    sizes: (u32, u32),
    seeds: Range<u64>,
) {
    'seeds: for seed in seeds {
        let text = script(rt, alloc, seed, sizes, sizes.0 < 9);
        if let Some(given) = differing(rt, alloc, engine, text.as_slice(), seed % 12) {
            note(rt, alloc, wrong, seed as usize, given.as_str());
        }
    }
}

/// Asserts that an engine over a new table answers the scripts of some seeds as the slow evaluator does.
fn assert_scripts<R: Threads + Abort + Sync>(
    rt: &R,
    alloc: Global,
    sizes: (u32, u32),
    seeds: Range<u64>,
) {
    let (table, seat) = table(rt, alloc, 20);
    let gate = OpenGate;
    let mut engine = Works::new(Crew::new(rt, &table, seat, 1, &gate));
    let mut wrong = String::new(alloc);
    note_scripts(rt, alloc, &mut engine, &mut wrong, sizes, seeds);
    assert_none(rt, wrong.as_str());
}

#[test]
fn scripts_of_subsets_by_chance_come_to_what_the_slow_evaluator_says(rt: HostRuntime) {
    let alloc = rt.alloc();
    'sizes: for (elements, subsets, first, last) in [
        (0, 1, 1, 6),
        (1, 2, 6, 16),
        (3, 8, 16, 56),
        (5, 32, 56, 96),
        (7, 128, 96, 106),
        (8, 256, 106, 116),
        (9, 512, 116, 136),
    ] {
        assert_scripts(&rt, alloc, (elements, subsets), first..last);
    }
}

/// Definitions for searches among the subsets of nine elements: maximal independent sets and cliques, and minimal
/// dominating, hitting and winning sets. G is a graph, a cycle with two chords. M has twelve sets as columns. C gives
/// each element its votes, eight of which win. Less leads from each of the sums 1 to 8 to the one below.
const FRONT: &str =
    "MAXIMAL(Order, v) = v & -((Order & -I(Order))*v). MINIMAL(Order, v) = v & -((Order & -I(Order))^*v). Independent(G, e) = MAXIMAL(e\\e, -ran(e & G*e)). Cliques(G, e) = MAXIMAL(e\\e, -ran(e & -(G|I(G))*e)). Dominating(G, e) = MINIMAL(e\\e, -ran(-(e|G*e))). Hitting(M, e) = MINIMAL(e\\e, -ran(-(M^*e))). Winning(C, Less, e) DECL sums, vote BEG sums = On1(Less)*O1n(e); vote = init(ran(C)); WHILE -empty(vote) DO sums = sums | (Less*sums | init(dom(Less))*L1n(e)) & Ln1(Less)*((C*vote)^*e); vote = next(vote) OD RETURN sums^*-ran(Less) END. Wins(C, Less, e) = MINIMAL(e\\e, Winning(C, Less, e)). S(R) DECL e BEG e = epsi(Ln1(R)) RETURN e*inj(Independent(R, e))^ END. Q(R) DECL e BEG e = epsi(Ln1(R)) RETURN e*inj(Cliques(R, e))^ END. D(R) DECL e BEG e = epsi(Ln1(R)) RETURN e*inj(Dominating(R, e))^ END. H(R) DECL e BEG e = epsi(Ln1(R)) RETURN e*inj(Hitting(R, e))^ END. W(R, Less) DECL e BEG e = epsi(Ln1(R)) RETURN e*inj(Wins(R, Less, e))^ END. REL G 9 9 {1:2,5,9; 2:1,3; 3:2,4,7; 4:3,5; 5:1,4,6; 6:5,7; 7:3,6,8; 8:7,9; 9:1,8}. REL M 9 12 {1:1,5,9; 2:1,2,10; 3:2,6,11; 4:3,7,12; 5:3,4,9; 6:4,8,10; 7:5,6,11; 8:7,8,12; 9:2,4,6}. REL C 9 15 {1:1,2,3,4; 2:5,6,7; 3:8,9; 4:10; 5:11; 6:12; 7:13; 8:14; 9:15}. REL Less 8 8 {2:1; 3:2; 4:3; 5:4; 6:5; 7:6; 8:7}. LIST ";

/// One expression per line.
const EXPRESSIONS: &str = "
S(G)
Q(G)
Q(-G)
D(G)
H(M)
H(G)
W(C,Less)
";

/// Compares each search, and notes those with a wrong answer.
fn note_searches<E: Remembers>(rt: &impl Abort, alloc: Global, engine: &mut E, wrong: &mut String) {
    let all = lines(rt, alloc, EXPRESSIONS);
    let mut number: usize = 0;
    'lines: for line in all.as_slice() {
        number = number.wrapping_add(1);
        let mut text = Vec::new(alloc);
        append(rt, &mut text, FRONT.as_bytes());
        append(rt, &mut text, line.as_slice());
        append(rt, &mut text, b".");
        if let Some(given) = differing(rt, alloc, engine, text.as_slice(), 100) {
            note(rt, alloc, wrong, number, given.as_str());
        }
    }
}

#[test]
fn searches_among_the_subsets_of_nine_elements_find_what_the_slow_evaluator_finds(rt: HostRuntime) {
    let alloc = rt.alloc();
    let (table, seat) = table(&rt, alloc, 20);
    let gate = OpenGate;
    let mut engine = Works::new(Crew::new(&rt, &table, seat, 1, &gate));
    let mut wrong = String::new(alloc);
    note_searches(&rt, alloc, &mut engine, &mut wrong);
    assert_none(&rt, wrong.as_str());
}
