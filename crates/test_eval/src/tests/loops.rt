//! Random scripts of definitions and loops, compared with the slow evaluator, with few turns.
use crate::made::table;
use crate::scripts::script;
use crate::table::{assert_none, differing, note};
use fork_quads::{Crew, OpenGate};
use rel_engine::Works;
use rel_slices::Remembers;
use std::alloc::Global;
use std::ops::Range;
use std::process::Abort;

/// Compares the scripts of some seeds, and notes those with a wrong answer.
fn note_scripts<E: Remembers>(
    rt: &impl Abort,
    alloc: Global,
    engine: &mut E,
    wrong: &mut String,
    elements: u32,
    seeds: Range<u64>,
) {
    'seeds: for seed in seeds {
        let text = script(rt, alloc, seed, elements);
        let turns = seed % 7;
        if let Some(given) = differing(rt, alloc, engine, text.as_slice(), turns) {
            note(rt, alloc, wrong, seed as usize, given.as_str());
        }
    }
}

#[test]
fn scripts_by_chance_come_to_what_the_slow_evaluator_says(rt: HostRuntime) {
    let alloc = rt.alloc();
    let (table, seat) = table(&rt, alloc, 20);
    let gate = OpenGate;
    let mut engine = Works::new(Crew::new(&rt, &table, seat, 8, &gate));
    let mut wrong = String::new(alloc);
    'sizes: for (elements, first, last) in [
        (0, 1, 11),
        (1, 11, 31),
        (2, 31, 81),
        (3, 81, 161),
        (5, 161, 201),
    ] {
        note_scripts(&rt, alloc, &mut engine, &mut wrong, elements, first..last);
    }
    assert_none(&rt, wrong.as_str());
}
