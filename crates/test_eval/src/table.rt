//! Tables of cases as text, one case per line.
ghost use Rattle.std.specs.Prelude.{◌<◌, length, IfSome};

use crate::answer::{answer, answers, checked_of, slow_answers};
use crate::made::table as new_table;
use crate::texts::{add, made};
use fork_quads::{Crew, OpenGate};
use rel_engine::Works;
use rel_slices::Remembers;
use rv_types::Checked;
use std::alloc::Global;
use std::process::Abort;
use std::thread::Threads;

/// What separates a script from its answer.
const ARROW: &[u8] = b" => ";

/// The index at which the arrow of a line begins.
fn arrow(line: &[u8]) -> Option<usize>
    ensures { IfSome result (λ place. place < length line.now) }
{
    'places: for place in 0..line.len() {
        if line[place..].starts_with(ARROW) {
            return Some(place);
        }
    }
    None
}

/// Appends bytes.
pub(crate) fn append(rt: &impl Abort, bytes: &mut Vec<u8>, more: &[u8]) {
    if bytes.extend_from_slice(more).is_err() {
        panic!(rt; "no memory");
    }
}

/// The lines of a table.
pub(crate) fn lines(rt: &impl Abort, alloc: Global, table: &str) -> Vec<Vec<u8>> {
    let mut found = Vec::new(alloc);
    let mut line: Vec<u8> = Vec::new(alloc);
    'bytes: for byte in table.as_bytes() {
        if *byte != b'\n' {
            append(rt, &mut line, &[*byte]);
        } else if !line.is_empty() {
            let done = std::mem::replace(&mut line, Vec::new(alloc));
            if found.push(done).is_err() {
                panic!(rt; "no memory");
            }
        }
    }
    found
}

/// The answer to the script of a line, if it is not the one on the line.
fn other_answer<E: Remembers>(
    rt: &impl Abort,
    alloc: Global,
    engine: &mut E,
    line: &[u8],
    turns: u64,
) -> Option<String> {
    let Some(place) = arrow(line) else {
        panic!(rt; "no arrow");
    };
    let given = answer(rt, alloc, engine, &line[..place], turns);
    if line[place..].strip_prefix(ARROW) == Some(given.as_bytes()) {
        None
    } else {
        Some(given)
    }
}

/// Notes a wrong answer, with the number of its case.
pub(crate) fn note(
    rt: &impl Abort,
    alloc: Global,
    wrong: &mut String,
    number: usize,
    answer: &str,
) {
    let text = made(rt, format!(in alloc; "{number}: {answer}; "));
    add(rt, wrong, text.as_str());
}

/// The lines of a table with a wrong answer, each with its number and that answer.
pub(crate) fn wrong_lines<E: Remembers>(
    rt: &impl Abort,
    alloc: Global,
    engine: &mut E,
    table: &str,
    turns: u64,
) -> String {
    let mut wrong = String::new(alloc);
    let mut number: usize = 0;
    let all = lines(rt, alloc, table);
    'lines: for line in all.as_slice() {
        number = number.wrapping_add(1);
        if let Some(given) = other_answer(rt, alloc, engine, line.as_slice(), turns) {
            note(rt, alloc, &mut wrong, number, given.as_str());
        }
    }
    wrong
}

/// Asserts that nothing was noted.
pub(crate) fn assert_none(rt: &impl Abort, wrong: &str) {
    assert!(rt; wrong.is_empty(), "{wrong}");
}

/// Asserts that an engine over a new table answers each line of a table of cases as it says.
pub(crate) fn assert_lines<R: Threads + Abort + Sync>(
    rt: &R,
    alloc: Global,
    cases: &str,
    turns: u64,
) {
    let (table, seat) = new_table(rt, alloc, 20);
    let gate = OpenGate;
    let mut engine = Works::new(Crew::new(rt, &table, seat, 1, &gate));
    let wrong = wrong_lines(rt, alloc, &mut engine, cases, turns);
    assert_none(rt, wrong.as_str());
}

/// An engine's answer to a checked script, if the slow evaluator's is different.
fn differing_answers<E: Remembers>(
    rt: &impl Abort,
    alloc: Global,
    engine: &mut E,
    checked: &Checked,
    turns: u64,
) -> Option<String> {
    let given = answers(rt, alloc, engine, checked, turns);
    let wanted = slow_answers(rt, alloc, checked, turns);
    let (given, wanted) = (given.as_str(), wanted.as_str());
    if given == wanted {
        None
    } else {
        Some(made(rt, format!(in alloc; "{given} for {wanted}")))
    }
}

/// An engine's answer to a script, if the slow evaluator's is different.
pub(crate) fn differing<E: Remembers>(
    rt: &impl Abort,
    alloc: Global,
    engine: &mut E,
    text: &[u8],
    turns: u64,
) -> Option<String> {
    match checked_of(rt, alloc, text) {
        Ok(checked) => differing_answers(rt, alloc, engine, &checked, turns),
        Err(fault) => Some(fault),
    }
}
