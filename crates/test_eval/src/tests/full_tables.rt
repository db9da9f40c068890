//! Evaluations that find the table full, at each point at which it can be.
ghost use Rattle.rel_model.specs.Worker.{Stands, Keeps};

use crate::answer::{checked_of, put, slow_answers};
use crate::listed::{Listed, none_of, put as put_pair};
use crate::made::{offered, pairs_of, table, told};
use crate::operators::spelled;
use crate::texts::pairs_text;
use fork_quads::{Crew, OpenGate};
use lang_model::syntax::{Command, Expr, Item, Name};
use rel_engine::Works;
use rel_model::{Lack, Rel};
use rel_slices::Remembers;
use rv_eval::{Refused, eval};
use rv_types::Checked;
use std::alloc::Global;
use std::process::Abort;
use std::thread::Threads;

/// A script over the directed cycle of 20 elements: which of them are joined by a walk, but not by one step.
const SCRIPT: &str =
    "REL A 20 20 {1:2; 2:3; 3:4; 4:5; 5:6; 6:7; 7:8; 8:9; 9:10; 10:11; 11:12; 12:13; 13:14; 14:15; 15:16; 16:17; 17:18; 18:19; 19:20; 20:1}. PRINT trans(A)&-A.";

/// A script over the directed cycle of 8 elements: its kernels, among all 256 sets of elements. Membership is one tree.
const KERNELS: &str =
    "KERNELS(G) DECL e, breaks BEG e = epsi(Ln1(G)); breaks = (e & G*e) | -(e | G*e); RETURN e*inj(-ran(breaks))^ END. REL A 8 8 {1:2; 2:3; 3:4; 4:5; 5:6; 6:7; 7:8; 8:1}. PRINT KERNELS(A).";

/// The same, with a ninth element that leads to the first. The membership of 9 elements is kept as lines.
const KERNELS_BY_LINES: &str =
    "KERNELS(G) DECL e, breaks BEG e = epsi(Ln1(G)); breaks = (e & G*e) | -(e | G*e); RETURN e*inj(-ran(breaks))^ END. REL A 9 9 {1:2; 2:3; 3:4; 4:5; 5:6; 6:7; 7:8; 8:1; 9:1}. PRINT KERNELS(A).";

/// The directed cycle of the first `around` elements; every further element leads to the first.
fn ring(rt: &impl Abort, alloc: Global, around: u32, elements: u32) -> Listed {
    let mut list = none_of(alloc, elements, elements);
    'elements: for i in 0..elements {
        let next = i.wrapping_add(1);
        put_pair(rt, &mut list, i, if next < around { next } else { 0 });
    }
    list
}

/// A relation of 8 by 8, which is one block, with the bits of this word as its lowest bits.
fn block(rt: &impl Abort, alloc: Global, word: u32) -> Listed {
    let mut list = none_of(alloc, 8, 8);
    'bits: for bit in 0..32u32 {
        if (word >> bit) % 2 == 1 {
            put_pair(rt, &mut list, bit / 8, bit % 8);
        }
    }
    list
}

/// Makes the blocks of the words from 1 on in a table, at most `most` of them. Returns for how many there was room.
fn fill<E: Remembers>(rt: &impl Abort, alloc: Global, engine: &mut E, most: u32) -> u32
    ensures { Keeps (E.worker engine.old) (E.worker engine.new) }
{
    'words: for word in 0..most {
        let list = block(rt, alloc, word.wrapping_add(1));
        match offered(rt, alloc, engine, &list) {
            Ok(_) => {}
            Err(Lack::Full) => return word,
            Err(Lack::NoMemory) => panic!(rt; "no memory"),
        }
    }
    most
}

/// For how many blocks a table of 2^10 words has room in addition to the cycle.
fn room<R: Threads + Abort + Sync>(rt: &R, alloc: Global, cycle: &Listed) -> u32 {
    let (table, seat) = table(rt, alloc, 10);
    let gate = OpenGate;
    let mut engine = Works::new(Crew::new(rt, &table, seat, 1, &gate));
    let _cycle = told(rt, alloc, &mut engine, cycle);
    fill(rt, alloc, &mut engine, 2000)
}

/// The expression of a script's PRINT.
fn expression<'a>(rt: &impl Abort, checked: &'a Checked) -> &'a Expr {
    'items: for item in checked.script().items.as_slice() {
        if let Item::Command(Command::Print { value }) = item {
            return value;
        }
    }
    panic!(rt; "another script")
}

/// Asserts that a relation has these pairs.
fn assert_value<E: Remembers>(
    rt: &impl Abort,
    alloc: Global,
    engine: &mut E,
    rel: Rel,
    wanted: &str,
)
    requires { Stands (E.worker engine.old) rel }
    ensures { Keeps (E.worker engine.old) (E.worker engine.new) }
{
    let list = pairs_of(rt, alloc, engine, rel);
    let given = pairs_text(rt, alloc, &list);
    assert!(rt; given.as_str() == wanted);
}

/// Asserts that a table is full.
fn assert_full<E: Remembers>(rt: &impl Abort, alloc: Global, engine: &mut E)
    ensures { Keeps (E.worker engine.old) (E.worker engine.new) }
{
    let more = block(rt, alloc, 1_000_000);
    assert!(rt; offered(rt, alloc, engine, &more) == Err(Lack::Full));
}

/// Asserts that the cycle still has its pairs.
fn assert_cycle<E: Remembers>(
    rt: &impl Abort,
    alloc: Global,
    engine: &mut E,
    a: Rel,
    cycle: &Listed,
)
    requires { Stands (E.worker engine.old) a }
{
    let left = pairs_of(rt, alloc, engine, a);
    assert!(rt; left.pairs.as_slice() == cycle.pairs.as_slice());
}

/// Asserts that an evaluation of the script answers this relation, or Nodes and the table is full. Returns whether it
/// answers the relation.
#[tactic(auto, using(crate::proofs::Standing::no_names, rel_model::proofs::Workers::keeps_trans))]
fn is_value<E: Remembers>(
    rt: &impl Abort,
    alloc: Global,
    engine: &mut E,
    checked: &Checked,
    a: Rel,
    wanted: &str,
) -> bool
    requires { Stands (E.worker engine.old) a }
    ensures { Keeps (E.worker engine.old) (E.worker engine.new) }
{
    let mut names: Vec<(Name, Rel)> = Vec::new(alloc);
    let name = spelled(rt, alloc, b"A");
    put(rt, alloc, engine, &mut names, &name, a);
    let value = expression(rt, checked);
    match eval(alloc, engine, checked, names.as_slice(), value, 0) {
        Ok(rel) => {
            assert_value(rt, alloc, engine, rel, wanted);
            true
        }
        Err(Refused::Nodes) => {
            assert_full(rt, alloc, engine);
            false
        }
        Err(_) => panic!(rt; "another refusal"),
    }
}

/// The same, and the cycle must have its pairs afterwards.
#[tactic(auto, using(rel_model::proofs::Workers::keeps_stands))]
fn is_answered<E: Remembers>(
    rt: &impl Abort,
    alloc: Global,
    engine: &mut E,
    checked: &Checked,
    cycle: &Listed,
    a: Rel,
    wanted: &str,
) -> bool
    requires { Stands (E.worker engine.old) a }
{
    let is_value = is_value(rt, alloc, engine, checked, a, wanted);
    assert_cycle(rt, alloc, engine, a, cycle);
    is_value
}

/// The same over its own table, which has this many blocks in addition to the cycle.
fn is_answered_beside<R: Threads + Abort + Sync>(
    rt: &R,
    alloc: Global,
    checked: &Checked,
    cycle: &Listed,
    blocks: u32,
    wanted: &str,
) -> bool {
    let (table, seat) = table(rt, alloc, 10);
    let gate = OpenGate;
    let mut engine = Works::new(Crew::new(rt, &table, seat, 1, &gate));
    let a = told(rt, alloc, &mut engine, cycle);
    assert!(rt; fill(rt, alloc, &mut engine, blocks) == blocks);
    let b = told(rt, alloc, &mut engine, cycle);
    assert!(rt; a == b);
    is_answered(rt, alloc, &mut engine, checked, cycle, b, wanted)
}

/// Parses and checks a script.
fn checked_script(rt: &impl Abort, alloc: Global, script: &str) -> Checked {
    match checked_of(rt, alloc, script.as_bytes()) {
        Ok(checked) => checked,
        Err(_) => panic!(rt; "a fault"),
    }
}

/// In how many tables an evaluation is refused before it is answered; each table has room for one more block.
fn refusals<R: Threads + Abort + Sync>(
    rt: &R,
    alloc: Global,
    checked: &Checked,
    cycle: &Listed,
    most: u32,
    wanted: &str,
) -> u32 {
    'rooms: for left in 0..most {
        let blocks = most.wrapping_sub(left);
        if is_answered_beside(rt, alloc, checked, cycle, blocks, wanted) {
            return left;
        }
    }
    most
}

/// Asserts that a script on a cycle is answered with Nodes or with the relation in each table, and that both occur.
fn assert_in_each_table<R: Threads + Abort + Sync>(
    rt: &R,
    alloc: Global,
    script: &str,
    cycle: &Listed,
) {
    let checked = checked_script(rt, alloc, script);
    let wanted = slow_answers(rt, alloc, &checked, 0);
    let most = room(rt, alloc, cycle);
    assert!(rt; 0 < most && most < 1022);
    let refused = refusals(rt, alloc, &checked, cycle, most, wanted.as_str());
    assert!(rt; 0 < refused && refused < most);
}

#[test]
fn a_table_that_is_full_answers_nodes_and_any_other_the_relation(rt: HostRuntime) {
    let alloc = rt.alloc();
    let cycle = ring(&rt, alloc, 20, 20);
    assert_in_each_table(&rt, alloc, SCRIPT, &cycle);
}

#[test]
fn a_table_that_is_full_answers_nodes_and_any_other_the_kernels(rt: HostRuntime) {
    let alloc = rt.alloc();
    let cycle = ring(&rt, alloc, 8, 8);
    assert_in_each_table(&rt, alloc, KERNELS, &cycle);
}

#[test]
fn a_table_that_is_full_answers_nodes_and_any_other_the_kernels_by_lines(rt: HostRuntime) {
    let alloc = rt.alloc();
    let cycle = ring(&rt, alloc, 8, 9);
    assert_in_each_table(&rt, alloc, KERNELS_BY_LINES, &cycle);
}
