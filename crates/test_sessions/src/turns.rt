//! Two sessions on one book, turn by turn: a name that is dropped between the read and the assignment of another
//! session.
#![tactic(auto, using(rel_model::proofs::Workers::keeps_stands, rel_model::proofs::Workers::keeps_trans, rel_model::proofs::Workers::gives_stands))]

ghost use Rattle.std.specs.Prelude.{◌≡◌};
ghost use Rattle.rel_model.specs.Worker.{Keeps, Stands};
ghost use Rattle.turn_book.specs.Views.{IsReady, IsKept};

use crate::made::push_history;
use fork_quads::{Crew, OpenGate};
use lang_model::syntax::Name;
use pair_table::PairTable;
use rel_engine::Works;
use rel_model::core_trait::Core;
use rel_model::engine_trait::Engine;
use rel_model::seated_trait::Seated;
use rel_model::{Rel, Shape};
use run_model::event::Event;
use rv_workspace::{Book, CommitRefused, DropRefused};
use std::alloc::Global;
use std::process::Abort;
use std::sync::Wait;
use std::test::Fail;
use turn_book::{Pass, TurnBook};

/// The one name.
fn name_x(rt: &impl Abort, alloc: Global) -> Name {
    match Name::new(alloc, b"X") {
        Ok(name) => name,
        Err(_) => panic!(rt; "no memory"),
    }
}

/// Reads the name in a turn, and asserts its relation.
fn reads<R: Wait + Abort, E: Engine + Drop>(
    rt: &R,
    alloc: Global,
    book: &TurnBook<Book<E>>,
    pass: &mut Pass<Book<E>>,
    engine: &mut E,
    session: u32,
    command: u32,
    wanted: Option<Rel>,
)
    requires ready { IsReady book.now pass.old }
    requires kin { pass.old.house ≡ (E.worker engine.old).house }
    ensures kept { IsKept pass.old pass.new }
    ensures keeps { Keeps (E.worker engine.old) (E.worker engine.new) }
{
    let mut names = Vec::new(alloc);
    assert!(rt; names.push(name_x(rt, alloc)).is_ok());
    let mut taken = book.take(rt, pass);
    let view = taken.read(alloc, session, command, Some(names.as_slice()), engine);
    book.put(pass, taken);
    let Ok(view) = view else {
        panic!(rt; "no memory")
    };
    match (view.names.first(), wanted) {
        (Some(first), Some(rel)) => assert!(rt;
            first.0.bytes() == b"X".as_slice() && first.1 == rel
        ),
        (None, None) => {}
        _ => panic!(rt; "{session}.{command} read something else"),
    }
}

/// Assigns the name a relation in a turn.
fn assigns<R: Wait + Abort, E: Engine + Drop>(
    rt: &R,
    alloc: Global,
    book: &TurnBook<Book<E>>,
    pass: &mut Pass<Book<E>>,
    engine: &mut E,
    session: u32,
    command: u32,
    rel: Rel,
)
    requires ready { IsReady book.now pass.old }
    requires kin { pass.old.house ≡ (E.worker engine.old).house }
    requires stands { Stands (E.worker engine.old) rel }
    ensures kept { IsKept pass.old pass.new }
    ensures keeps { Keeps (E.worker engine.old) (E.worker engine.new) }
{
    let name = name_x(rt, alloc);
    let mut taken = book.take(rt, pass);
    let assigned = taken.assign(alloc, session, command, name, rel, engine);
    book.put(pass, taken);
    assert!(rt; assigned.is_ok());
}

/// Drops the name in a turn, and says whether it existed.
fn drops<R: Wait + Abort, E: Engine + Drop>(
    rt: &R,
    alloc: Global,
    book: &TurnBook<Book<E>>,
    pass: &mut Pass<Book<E>>,
    session: u32,
    command: u32,
) -> bool
    requires ready { IsReady book.now pass.old }
    ensures kept { IsKept pass.old pass.new }
{
    let name = name_x(rt, alloc);
    let mut taken = book.take(rt, pass);
    let dropped = taken.drop_name(alloc, session, command, &name);
    book.put(pass, taken);
    match dropped {
        Ok(()) => true,
        Err(DropRefused::Unknown { name }) => {
            assert!(rt; name.bytes() == b"X".as_slice());
            false
        }
        Err(DropRefused::NoMemory) => panic!(rt; "no memory"),
    }
}

/// The first session assigns the name, and reads it in its next command.
fn before_the_drop<R: Wait + Abort, E: Engine + Drop>(
    rt: &R,
    alloc: Global,
    book: &TurnBook<Book<E>>,
    first: &mut Pass<Book<E>>,
    engine: &mut E,
    full: Rel,
)
    requires ready { IsReady book.now first.old }
    requires kin { first.old.house ≡ (E.worker engine.old).house }
    requires stands { Stands (E.worker engine.old) full }
    ensures kept { IsKept first.old first.new }
    ensures keeps { Keeps (E.worker engine.old) (E.worker engine.new) }
{
    assigns(rt, alloc, book, first, engine, 1, 1, full);
    reads(rt, alloc, book, first, engine, 1, 2, Some(full));
}

/// The second session drops the name, and does not find it after that.
fn drops_between<R: Wait + Abort, E: Engine + Drop>(
    rt: &R,
    alloc: Global,
    book: &TurnBook<Book<E>>,
    second: &mut Pass<Book<E>>,
    engine: &mut E,
)
    requires ready { IsReady book.now second.old }
    requires kin { second.old.house ≡ (E.worker engine.old).house }
    ensures kept { IsKept second.old second.new }
    ensures keeps { Keeps (E.worker engine.old) (E.worker engine.new) }
{
    let dropped = drops(rt, alloc, book, second, 2, 1);
    assert!(rt; dropped, "not there before the assignment");
    reads(rt, alloc, book, second, engine, 2, 2, None);
}

/// The first session drops the name that it assigned, and the second does not find it after that.
fn behind_the_assignment<R: Wait + Abort, E: Engine + Drop>(
    rt: &R,
    alloc: Global,
    book: &TurnBook<Book<E>>,
    first: &mut Pass<Book<E>>,
    second: &mut Pass<Book<E>>,
)
    requires first { IsReady book.now first.old }
    requires second { IsReady book.now second.old }
    ensures first { IsKept first.old first.new }
    ensures second { IsKept second.old second.new }
{
    let dropped = drops(rt, alloc, book, first, 1, 3);
    assert!(rt; dropped, "not there behind the assignment");
    let again = drops(rt, alloc, book, second, 2, 4);
    assert!(rt; !again, "there behind its drop");
}

/// Two sessions take turns: the second drops the name that the first has read, and which the first then assigns.
/// Answers the history.
fn dropped_between<R: Wait + Abort, E: Engine + Drop>(
    rt: &R,
    alloc: Global,
    mut mine: E,
) -> Vec<Event>
    requires spare { (E.worker mine).spare ≡ 66 }
    requires made { (E.worker mine).made ≡ 0 }
{
    let archive = mine.split(1);
    let mut theirs = mine.split(1);
    let shape = Shape { rows: 1, cols: 1 };
    let Ok(full) = mine.full(shape) else {
        panic!(rt; "refused")
    };
    let Ok(empty) = mine.empty(shape) else {
        panic!(rt; "refused")
    };
    let Ok((book, mut first)) = TurnBook::make(alloc, Book::new(alloc, archive), 2) else {
        panic!(rt; "no memory")
    };
    let mut second = book.split_pass(&mut first);
    before_the_drop(rt, alloc, &book, &mut first, &mut mine, full);
    drops_between(rt, alloc, &book, &mut second, &mut theirs);
    assigns(rt, alloc, &book, &mut first, &mut mine, 1, 2, empty);
    reads(
        rt,
        alloc,
        &book,
        &mut second,
        &mut theirs,
        2,
        3,
        Some(empty),
    );
    behind_the_assignment(rt, alloc, &book, &mut first, &mut second);
    book.join_pass(&mut first, second);
    let (_, history, _, _) = book.close(first).into_parts();
    history
}

#[test]
fn an_assignment_behind_a_drop_brings_the_name_back(rt: HostRuntime) -> Result<(), Fail> {
    let alloc = rt.alloc();
    let Ok((table, seat)) = PairTable::make(alloc, 10, 67) else {
        panic!(rt; "no memory")
    };
    let gate = OpenGate;
    let works = Works::new(Crew::new(&rt, &table, seat, 1, &gate));
    let history = dropped_between(&rt, alloc, works);
    is_history(&rt, alloc, history.as_slice(), HISTORY)
}

/// Asserts that these events have these lines.
fn is_history(rt: &impl Abort, alloc: Global, history: &[Event], wanted: &str) -> Result<(), Fail> {
    let mut lines = Vec::new(alloc);
    push_history(alloc, &mut lines, history)?;
    let lines = str::from_utf8(lines.as_slice())?;
    assert!(rt; lines == wanted, "{lines}");
    Ok(())
}

/// The lines of the history of both sessions.
const HISTORY: &str =
    "1.1 assign X 1 x 1\n1.2 read\n2.1 drop X\n2.2 read\n1.2 assign X 1 x 1\n2.3 read\n1.3 drop X\n2.4 read\n";

/// The version of the name, in a turn that changes nothing.
fn version_of<R: Wait + Abort, E: Engine + Drop>(
    rt: &R,
    alloc: Global,
    book: &TurnBook<Book<E>>,
    pass: &mut Pass<Book<E>>,
) -> u64
    requires ready { IsReady book.now pass.old }
    ensures kept { IsKept pass.old pass.new }
{
    let taken = book.take(rt, pass);
    let version = taken.version(&name_x(rt, alloc));
    book.put(pass, taken);
    version
}

/// Commits a block without assignments that read the name in this version. Answers the two versions if it is refused.
fn commits<R: Wait + Abort, E: Engine + Drop>(
    rt: &R,
    alloc: Global,
    book: &TurnBook<Book<E>>,
    pass: &mut Pass<Book<E>>,
    engine: &mut E,
    command: u32,
    seen: u64,
) -> Option<(u64, u64)>
    requires ready { IsReady book.now pass.old }
    requires kin { pass.old.house ≡ (E.worker engine.old).house }
    ensures kept { IsKept pass.old pass.new }
    ensures keeps { Keeps (E.worker engine.old) (E.worker engine.new) }
{
    let mut reads = Vec::new(alloc);
    assert!(rt; reads.push((name_x(rt, alloc), seen)).is_ok());
    let list = Vec::new(alloc);
    let mut taken = book.take(rt, pass);
    let committed = taken.commit(alloc, 1, command, reads.as_slice(), list, engine);
    book.put(pass, taken);
    match committed {
        Ok(()) => None,
        Err(CommitRefused::Changed { name, seen, found }) => {
            assert!(rt; name.bytes() == b"X".as_slice());
            Some((seen, found))
        }
        Err(CommitRefused::NoMemory) => panic!(rt; "no memory"),
    }
}

/// The first session reads the name; the second drops it, and assigns the same relation again; so the first may not
/// commit what it read before. Answers the history.
fn assigned_again<R: Wait + Abort, E: Engine + Drop>(
    rt: &R,
    alloc: Global,
    mut mine: E,
) -> Vec<Event>
    requires spare { (E.worker mine).spare ≡ 66 }
    requires made { (E.worker mine).made ≡ 0 }
{
    let archive = mine.split(1);
    let Ok(full) = mine.full(Shape { rows: 1, cols: 1 }) else {
        panic!(rt; "refused")
    };
    let Ok((book, mut first)) = TurnBook::make(alloc, Book::new(alloc, archive), 2) else {
        panic!(rt; "no memory")
    };
    let mut second = book.split_pass(&mut first);
    before_the_drop(rt, alloc, &book, &mut first, &mut mine, full);
    assert!(rt; version_of(rt, alloc, &book, &mut first) == 1);
    assert!(rt; drops(rt, alloc, &book, &mut second, 2, 1));
    assigns(rt, alloc, &book, &mut second, &mut mine, 2, 2, full);
    assert!(rt; commits(rt, alloc, &book, &mut first, &mut mine, 2, 1) == Some((1, 3)));
    assert!(rt; version_of(rt, alloc, &book, &mut first) == 3);
    assert!(rt; commits(rt, alloc, &book, &mut first, &mut mine, 3, 3).is_none());
    book.join_pass(&mut first, second);
    let (_, history, _, _) = book.close(first).into_parts();
    history
}

#[test]
fn an_equal_relation_that_is_assigned_again_is_a_change(rt: HostRuntime) -> Result<(), Fail> {
    let alloc = rt.alloc();
    let Ok((table, seat)) = PairTable::make(alloc, 10, 67) else {
        panic!(rt; "no memory")
    };
    let gate = OpenGate;
    let works = Works::new(Crew::new(&rt, &table, seat, 1, &gate));
    let history = assigned_again(&rt, alloc, works);
    is_history(&rt, alloc, history.as_slice(), CHANGED)
}

/// The lines of the history in which a name was assigned again between a read and a commit.
const CHANGED: &str = "1.1 assign X 1 x 1\n1.2 read\n2.1 drop X\n2.2 assign X 1 x 1\n1.2 read\n";
