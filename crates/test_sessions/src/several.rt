//! LOAD ALL and SAVE ALL: rows worked out by hand, each kind of bad file, and many sessions that load all relations of
//! a file concurrently, whose history is checked event by event.
use crate::expected::comes_to;
use crate::made::{Came, Options, loaded, run_at_once};
use fork_quads::OpenGate;
use run_model::event::{Act, Event};
use std::alloc::Global;
use std::process::Abort;
use std::sync::Wait;
use std::test::Fail;
use std::thread::Threads;

/// Seven turns, and a table of 2^14 node words.
const OPTIONS: Options = Options {
    turns: 7,
    nodes: 14,
    workers: 1,
};

/// The file of version 1 of the pairs 1:1 and 4:4 of four elements.
const CORNERS: &[u8] = b"RVK1\0\0\0\x04\0\0\0\x04\x02\0\0\0\0\0\0\0\x04\0\0\0\0\0\0\0\x08\x90\x81";

/// The same as the one relation A of a file of version 2.
const ALONE: &[u8] = b"RVK2\0\0\0\x03\0\0\0\x01\
    \0\0\0\x01\0\0\0\0\0\0\0\0\0\0\0\0\
    \0\0\0\0\0\0\0\0\0\0\0\0\0\0\0\x01\
    \0\0\0\x02\0\0\0\0\0\0\0\0\0\0\0\x03\
    \x01A\0\0\0\x04\0\0\0\x04\0\0\0\x04";

/// The relations A, of the pairs 1:1 and 4:4 of four elements, and B, of the pair 1:1 of two.
const PAIR: &[u8] = b"RVK2\0\0\0\x03\0\0\0\x02\
    \0\0\0\x01\0\0\0\0\0\0\0\0\0\0\0\0\
    \0\0\0\0\0\0\0\0\0\0\0\0\0\0\0\x01\
    \0\0\0\x02\0\0\0\0\0\0\0\0\0\0\0\x03\
    \x01A\0\0\0\x04\0\0\0\x04\0\0\0\x04\
    \x01B\0\0\0\x02\0\0\0\x02\0\0\0\x02";

/// The same with the first two quadrants exchanged, and their numbers in the quadrant and the root above them adapted.
const EXCHANGED: &[u8] = b"RVK2\0\0\0\x03\0\0\0\x02\
    \0\0\0\0\0\0\0\0\0\0\0\0\0\0\0\x01\
    \0\0\0\x01\0\0\0\0\0\0\0\0\0\0\0\0\
    \0\0\0\x03\0\0\0\0\0\0\0\0\0\0\0\x02\
    \x01A\0\0\0\x04\0\0\0\x04\0\0\0\x04\
    \x01B\0\0\0\x02\0\0\0\x02\0\0\0\x03";

/// The same with the numbers of the first quadrant in the second.
const REPEATED: &[u8] = b"RVK2\0\0\0\x03\0\0\0\x02\
    \0\0\0\x01\0\0\0\0\0\0\0\0\0\0\0\0\
    \0\0\0\x01\0\0\0\0\0\0\0\0\0\0\0\0\
    \0\0\0\x02\0\0\0\0\0\0\0\0\0\0\0\x03\
    \x01A\0\0\0\x04\0\0\0\x04\0\0\0\x04\
    \x01B\0\0\0\x02\0\0\0\x02\0\0\0\x02";

/// No relations.
const EMPTY: &[u8] = b"RVK2\0\0\0\0\0\0\0\0";

/// Four relations without pairs, in the order of the bytes of their names.
const NAMES: &[u8] = b"RVK2\0\0\0\0\0\0\0\x04\
    \x01A\0\0\0\x01\0\0\0\x01\0\0\0\0\
    \x02A1\0\0\0\x01\0\0\0\x01\0\0\0\0\
    \x01B\0\0\0\x02\0\0\0\x03\0\0\0\0\
    \x01b\0\0\0\x01\0\0\0\x01\0\0\0\0";

/// Scripts with the files of their names; the letters of their outcomes, their pages, and the files that they put.
const ROWS: &[(&str, &[(&str, &[u8])], &str, &str, &[(&str, &[u8])])] = &[
    (
        "REL A 4 4 {1:1; 4:4}. REL B 2 2 {1:1}. SAVE ALL \"c.k2\".",
        &[],
        "...",
        "1.1 assign A 4 x 4\n1.2 assign B 2 x 2\n1.3 read\n",
        &[("c.k2", PAIR)],
    ),
    (
        "LOAD ALL \"c.k2\". LIST A. LIST B.",
        &[("c.k2", PAIR)],
        "...",
        "1.2: 4 x 4, pairs 2\n1:1\n4:4\n1.3: 2 x 2, pairs 1\n1:1\n1.1 assign A 4 x 4\n1.1 assign B 2 x 2\n1.2 read\n1.3 read\n",
        &[],
    ),
    (
        "LOAD ALL \"c.k2\". SAVE ALL \"d.k2\".",
        &[("c.k2", PAIR)],
        "..",
        "1.1 assign A 4 x 4\n1.1 assign B 2 x 2\n1.2 read\n",
        &[("d.k2", PAIR)],
    ),
    (
        "LOAD B \"c.k2\". LIST B. PRINT A.",
        &[("c.k2", PAIR)],
        "..i",
        "1.2: 2 x 2, pairs 1\n1:1\n1.3: refused: 1:30: unknown name A\n1.1 assign B 2 x 2\n1.2 read\n1.3 read\n",
        &[],
    ),
    (
        "LOAD A \"c.k2\". SAVE ALL \"a.k2\". SAVE A \"v.k2\".",
        &[("c.k2", PAIR)],
        "...",
        "1.1 assign A 4 x 4\n1.2 read\n1.3 read\n",
        &[("a.k2", ALONE), ("v.k2", CORNERS)],
    ),
    (
        "LOAD C \"c.k2\".",
        &[("c.k2", PAIR)],
        "k",
        "1.1: refused: file \"c.k2\" is bad: no relation of this name\n",
        &[],
    ),
    (
        "LOAD a \"e.k2\". LOAD ALL \"e.k2\". SAVE ALL \"f.k2\".",
        &[("e.k2", EMPTY)],
        "k..",
        "1.1: refused: file \"e.k2\" is bad: no relation of this name\n1.3 read\n",
        &[("f.k2", EMPTY)],
    ),
    (
        "LOAD ALL \"a.k2\".",
        &[("a.k2", CORNERS)],
        "k",
        "1.1: refused: file \"a.k2\" is bad: magic\n",
        &[],
    ),
    (
        "LOAD ALL \"z.k2\". LOAD ALL \"c.k2\".",
        &[("c.k2", PAIR), ("c.k2", EMPTY)],
        "f.",
        "1.1: refused: no file \"z.k2\"\n1.2 assign A 4 x 4\n1.2 assign B 2 x 2\n",
        &[],
    ),
    (
        "SAVE ALL \"e.k2\".",
        &[],
        ".",
        "1.1 read\n",
        &[("e.k2", EMPTY)],
    ),
    (
        "LOAD A \"a.k2\". SAVE ALL \"n.k2\".",
        &[("a.k2", CORNERS)],
        "..",
        "1.1 assign A 4 x 4\n1.2 read\n",
        &[("n.k2", ALONE)],
    ),
    // a SAVE ALL holds the names that exist, in the order of their bytes
    (
        "REL b 1 1 {}. REL B 2 3 {}. REL C 1 1 {1:1}. REL A1 1 1 {}. REL A 1 1 {}. DROP C. SAVE ALL \"n.k2\".",
        &[],
        ".......",
        "1.1 assign b 1 x 1\n1.2 assign B 2 x 3\n1.3 assign C 1 x 1\n1.4 assign A1 1 x 1\n1.5 assign A 1 x 1\n1.6 drop C\n1.7 read\n",
        &[("n.k2", NAMES)],
    ),
    // names that the file lacks stay, those that it has are assigned again, and a snapshot still holds the old state
    (
        "REL A 1 1 {1:1}. REL C 1 1 {1:1}. SNAP t. LOAD ALL \"c.k2\". PRINT C. COUNT A. AT t PRINT A.",
        &[("c.k2", PAIR)],
        ".......",
        "1.5: 1 x 1\n1\n1.6: 2\n1.7: 1 x 1\n1\n1.1 assign A 1 x 1\n1.2 assign C 1 x 1\n1.3 read\n1.4 assign A 4 x 4\n1.4 assign B 2 x 2\n1.5 read\n1.6 read\n",
        &[],
    ),
];

#[test]
fn files_of_several_relations_come_to_their_pages(rt: HostRuntime) -> Result<(), Fail> {
    let alloc = rt.alloc();
    'rows: for &(script, files, outcomes, page, saves) in ROWS {
        comes_to(&rt, alloc, OPTIONS, script, files, outcomes, page, saves)?;
    }
    Ok(())
}

/// Files that are bad, and the kind of each.
const BAD: &[(&[u8], &str)] = &[
    (b"RVK2", "short"),
    (b"RVK2\0\0\0\x01\0\0\0\0", "short"),
    (REPEATED, "bad quadrant at 3"),
    (b"RVK2\0\0\0\0\0\0\0\x01\0", "bad name at 0"),
    (
        b"RVK2\0\0\0\0\0\0\0\x02\x01B\0\0\0\0\0\0\0\0\0\0\0\0\x01A\0\0\0\0\0\0\0\0\0\0\0\0",
        "bad name at 1",
    ),
    (
        b"RVK2\0\0\0\0\0\0\0\x01\x01A\x01\0\0\x01\0\0\0\0\0\0\0\0",
        "sizes",
    ),
    (
        b"RVK2\0\0\0\0\0\0\0\x01\x01A\0\0\0\x01\0\0\0\x01\0\0\0\x01",
        "bad root at 0",
    ),
    (
        b"RVK2\0\0\0\x01\0\0\0\x01\0\0\0\0\0\0\0\0\0\0\0\0\0\0\0\x01\x01A\0\0\0\x01\0\0\0\x02\0\0\0\x02",
        "pair outside at 0",
    ),
    (EXCHANGED, "order at 2"),
    (b"RVK2\0\0\0\0\0\0\0\0\0", "rest"),
];

/// Asserts that a file is reported as bad with this kind, both as a whole and for a name, and that nothing is loaded.
fn is_told_as<R: Threads + Wait + Abort + Sync>(
    rt: &R,
    alloc: Global,
    bytes: &[u8],
    kind: &str,
) -> Result<(), Fail> {
    let page = format!(in alloc;
        "1.2: refused: file \"b.k2\" is bad: {kind}\n1.3: refused: file \"b.k2\" is bad: {kind}\n1.1 assign B 1 x 1\n1.4 read\n"
    )?;
    let script = "REL B 1 1 {}. LOAD ALL \"b.k2\". LOAD A \"b.k2\". SAVE ALL \"s.k2\".";
    comes_to(
        rt,
        alloc,
        OPTIONS,
        script,
        [("b.k2", bytes)].as_slice(),
        ".kk.",
        page.as_str(),
        [("s.k2", ONLY_B)].as_slice(),
    )
}

/// The relation B without pairs.
const ONLY_B: &[u8] = b"RVK2\0\0\0\0\0\0\0\x01\x01B\0\0\0\x01\0\0\0\x01\0\0\0\0";

#[test]
fn a_bad_file_of_several_relations_is_told_with_its_kind(rt: HostRuntime) -> Result<(), Fail> {
    'files: for &(bytes, kind) in BAD {
        is_told_as(&rt, rt.alloc(), bytes, kind)?;
    }
    Ok(())
}

/// Three relations without pairs, under the two names of the pair and one more.
const THREE: &[u8] = b"RVK2\0\0\0\0\0\0\0\x03\
    \x01A\0\0\0\x01\0\0\0\x01\0\0\0\0\
    \x01B\0\0\0\x01\0\0\0\x01\0\0\0\0\
    \x01C\0\0\0\x01\0\0\0\x01\0\0\0\0";

/// The pair, and the third of the three.
const PAIR_AND_THIRD: &[u8] = b"RVK2\0\0\0\x03\0\0\0\x03\
    \0\0\0\x01\0\0\0\0\0\0\0\0\0\0\0\0\
    \0\0\0\0\0\0\0\0\0\0\0\0\0\0\0\x01\
    \0\0\0\x02\0\0\0\0\0\0\0\0\0\0\0\x03\
    \x01A\0\0\0\x04\0\0\0\x04\0\0\0\x04\
    \x01B\0\0\0\x02\0\0\0\x02\0\0\0\x02\
    \x01C\0\0\0\x01\0\0\0\x01\0\0\0\0";

/// The names and sizes of the relations that a session loads, in the file's order: odd sessions load the pair, and even
/// ones the three.
fn loaded_by(session: u32) -> &'static [(&'static [u8], u32)] {
    if session % 2 == 0 {
        &[(b"A", 1), (b"B", 1), (b"C", 1)]
    } else {
        &[(b"A", 4), (b"B", 2)]
    }
}

/// A command some of whose assignments have come, and others not yet.
#[derive(Clone, Copy)]
struct Begun {
    session: u32,
    command: u32,
    count: usize,
}

/// An assignment after those of its command that have come, if it is one of several: whether more are to come.
fn next_begun(rt: &impl Abort, begun: Option<Begun>, event: &Event) -> Begun {
    match begun {
        None => Begun {
            session: event.session,
            command: event.command,
            count: 1,
        },
        Some(other) => {
            assert!(rt; other.session == event.session && other.command == event.command);
            Begun {
                session: other.session,
                command: other.command,
                count: other.count.wrapping_add(1),
            }
        }
    }
}

/// One event: after an assignment of a command come its others in the file's order, with nothing in between. Answers
/// what is begun after it, if the command is not finished.
fn fold(rt: &impl Abort, begun: Option<Begun>, event: &Event) -> Option<Begun> {
    let Act::Assign { name, rel } = &event.act else {
        assert!(rt;
            begun.is_none(),
            "an event between the assignments of a command"
        );
        return None;
    };
    let now = next_begun(rt, begun, event);
    let file = loaded_by(event.session);
    let Some(wanted) = file.get(now.count.wrapping_sub(1)) else {
        panic!(rt; "an assignment too many")
    };
    assert!(rt; name.bytes() == wanted.0 && rel.rows == wanted.1 && rel.cols == wanted.1);
    if now.count == file.len() {
        return None;
    }
    Some(now)
}

/// Asserts that the events of each command in a history are adjacent, and answers how many commands assigned.
fn commands_of(rt: &impl Abort, history: &[Event]) -> u64 {
    let mut begun = None;
    let mut commands: u64 = 0;
    'events: for event in history {
        begun = fold(rt, begun, event);
        if begun.is_none() && matches!(&event.act, Act::Assign { .. }) {
            commands = commands.wrapping_add(1);
        }
    }
    assert!(rt;
        begun.is_none(),
        "a command whose assignments are not all there"
    );
    commands
}

/// Eight scripts of twenty-five commands that load all relations of a file; those of even sessions save all relations
/// after each.
fn eight_scripts(alloc: Global) -> Result<Vec<Vec<u8>>, Fail> {
    let mut scripts = Vec::new(alloc);
    'sessions: for session in 1..9u32 {
        let mut script: Vec<u8> = Vec::new(alloc);
        'times: for _ in 0..25 {
            script.extend_from_slice(if session % 2 == 0 {
                b"LOAD ALL \"three\". SAVE ALL \"s\".\n".as_slice()
            } else {
                b"LOAD ALL \"pair\".\n".as_slice()
            })?;
        }
        scripts.push(script)?;
    }
    Ok(scripts)
}

/// Asserts that each save has the relations of one whole command, and C, which does not change.
fn are_whole(rt: &impl Abort, ran: &Came) {
    assert!(rt; ran.saves.len() == 100);
    'saves: for save in ran.saves.as_slice() {
        let bytes = save.bytes.as_slice();
        assert!(rt; bytes == THREE || bytes == PAIR_AND_THIRD, "{bytes:?}");
    }
}

/// Runs eight concurrent sessions that load all relations of two files under the same names.
fn eight_load<R: Threads + Wait + Abort + Sync>(
    rt: &R,
    alloc: Global,
    workers: u32,
) -> Result<(), Fail> {
    let scripts = eight_scripts(alloc)?;
    let files = loaded(alloc, [("pair", PAIR), ("three", THREE)].as_slice())?;
    let options = Options {
        turns: 1,
        nodes: 10,
        workers,
    };
    let (scripts, files) = (scripts.as_slice(), files.as_slice());
    let ran = run_at_once(rt, alloc, options, scripts, files, true, &OpenGate)?;
    'outcomes: for outcome in ran.outcomes.as_slice() {
        assert!(rt; *outcome == b'.' || *outcome == b'/');
    }
    assert!(rt; commands_of(rt, ran.history.as_slice()) == 200);
    assert!(rt; ran.history.len() == 4 * 25 * 2 + 4 * 25 * (3 + 1));
    are_whole(rt, &ran);
    Ok(())
}

#[test]
fn eight_sessions_load_all_relations_and_none_comes_between(rt: HostRuntime) -> Result<(), Fail> {
    eight_load(&rt, rt.alloc(), 1)?;
    eight_load(&rt, rt.alloc(), 2)
}
