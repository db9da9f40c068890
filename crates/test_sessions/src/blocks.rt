//! Atomic blocks: rows worked out by hand, and many concurrent sessions whose history is checked event by event.
use crate::expected::comes_to;
use crate::made::{Options, run_at_once};
use fork_quads::OpenGate;
use run_model::event::{Act, Event};
use std::alloc::Global;
use std::process::Abort;
use std::sync::Wait;
use std::test::Fail;
use std::thread::Threads;

/// The number of turns, and the binary logarithm of the number of node words; a script, the letters of its outcomes,
/// and its page.
const ROWS: &[(u64, u32, &str, &str, &str)] = &[
    (
        7,
        14,
        "REL A 1 1 {}. ATOMIC LET A = -A; LET B = A COMMIT. PRINT B.",
        "...",
        "1.3: 1 x 1\n1\n1.1 assign A 1 x 1\n1.2 read\n1.2 assign A 1 x 1\n1.2 assign B 1 x 1\n1.3 read\n",
    ),
    (
        7,
        14,
        "ATOMIC LET A = Z COMMIT.",
        "i",
        "1.1: refused: 1:16: unknown name Z\n1.1 read\n",
    ),
    (
        7,
        14,
        "REL A 1 1 {}. ATOMIC LET A = -A; LET A = -A; COMMIT. COUNT A.",
        "...",
        "1.3: 0\n1.1 assign A 1 x 1\n1.2 read\n1.2 assign A 1 x 1\n1.2 assign A 1 x 1\n1.3 read\n",
    ),
    (
        7,
        14,
        "REL A 1 1 {}. ATOMIC LET B = -A; LET C = B; LET D = B*Q COMMIT. PRINT B.",
        ".ii",
        "1.2: refused: 1:55: unknown name Q\n1.3: refused: 1:71: unknown name B\n1.1 assign A 1 x 1\n1.2 read\n1.3 read\n",
    ),
    (
        7,
        14,
        "REL A 2 3 {}. ATOMIC LET B = A; LET C = B*B COMMIT.",
        ".i",
        "1.2: refused: 1:42: * does not fit 2 x 3 and 2 x 3\n1.1 assign A 2 x 3\n1.2 read\n",
    ),
    (
        7,
        14,
        "N(V) DECL p BEG p = init(V); WHILE -empty(p) DO p = next(p) OD RETURN p END. REL V 7 1 {}. ATOMIC LET A = N(V); LET B = N(V) COMMIT. COUNT A|B.",
        "....",
        "1.4: 0\n1.2 assign V 7 x 1\n1.3 read\n1.3 assign A 7 x 1\n1.3 assign B 7 x 1\n1.4 read\n",
    ),
    (
        6,
        14,
        "N(V) DECL p BEG p = init(V); WHILE -empty(p) DO p = next(p) OD RETURN p END. REL V 7 1 {}. ATOMIC LET A = V; LET B = N(V) COMMIT. COUNT V.",
        "..t.",
        "1.3: refused: 1:30: more than 6 turns\n1.4: 0\n1.2 assign V 7 x 1\n1.3 read\n1.4 read\n",
    ),
    (
        1_000_000,
        10,
        "N(V) DECL p BEG p = init(V); WHILE -empty(p) DO p = next(p) OD RETURN p END. REL V 1100 1 {}. ATOMIC LET A = V; LET B = N(V) COMMIT. COUNT A.",
        "..ni",
        "1.3: refused: no free node word\n1.4: refused: 1:140: unknown name A\n1.2 assign V 1100 x 1\n1.3 read\n1.4 read\n",
    ),
];

#[test]
fn blocks_come_to_their_pages(rt: HostRuntime) -> Result<(), Fail> {
    'rows: for &(turns, nodes, script, outcomes, page) in ROWS {
        let options = Options {
            turns,
            nodes,
            workers: 1,
        };
        comes_to(
            &rt,
            rt.alloc(),
            options,
            script,
            [].as_slice(),
            outcomes,
            page,
            [].as_slice(),
        )?;
    }
    Ok(())
}

/// What is known of a session's block: its number, the versions of the two names when it was read, and whether it is
/// finished.
#[derive(Clone, Copy)]
struct Block {
    command: u32,
    versions: (u64, u64),
    over: bool,
}

/// The state after a part of a history: how often X and Y were assigned, the blocks of the sessions, the session that
/// has assigned X in a block but not yet Y, and how many blocks were committed and refused.
#[derive(Drop)]
struct Folded {
    versions: (u64, u64),
    blocks: [Block; 9],
    half: Option<u32>,
    committed: u64,
    refused: u64,
}

/// The state at the beginning.
fn nothing() -> Folded {
    Folded {
        versions: (0, 0),
        blocks: [Block {
            command: 0,
            versions: (0, 0),
            over: true,
        }; 9],
        half: None,
        committed: 0,
        refused: 0,
    }
}

/// Whether a block that read these versions must be refused at others. Blocks of odd sessions read only Y.
fn is_changed(session: u32, seen: (u64, u64), found: (u64, u64)) -> bool {
    seen.1 != found.1 || (session % 2 == 0 && seen.0 != found.0)
}

/// A read: the first of a block, or its second if it is refused.
fn fold_read(rt: &impl Abort, folded: &mut Folded, session: u32, command: u32) {
    let place = session as usize;
    assert!(rt; place < 9);
    let block = folded.blocks[place];
    if block.command == command {
        assert!(rt; !block.over, "a third event of {session}.{command}");
        assert!(rt;
            is_changed(session, block.versions, folded.versions),
            "{session}.{command} refused"
        );
        folded.blocks[place].over = true;
        folded.refused = folded.refused.wrapping_add(1);
        return;
    }
    assert!(rt;
        block.over,
        "{session}.{command} begins before the block ahead is over"
    );
    folded.blocks[place] = Block {
        command,
        versions: folded.versions,
        over: false,
    };
}

/// An assignment of X or Y, by one of the first two commands or by a block.
fn fold_assign(rt: &impl Abort, folded: &mut Folded, session: u32, command: u32, first: bool) {
    let place = session as usize;
    assert!(rt; place < 9);
    if command > 2 {
        let block = folded.blocks[place];
        assert!(rt; block.command == command && !block.over);
        if first {
            assert!(rt;
                !is_changed(session, block.versions, folded.versions),
                "{session}.{command} committed"
            );
            folded.half = Some(session);
        } else {
            folded.blocks[place].over = true;
            folded.committed = folded.committed.wrapping_add(1);
        }
    }
    let (x, y) = folded.versions;
    folded.versions = if first {
        (x.wrapping_add(1), y)
    } else {
        (x, y.wrapping_add(1))
    };
}

/// One event: after the first assignment of a block, only its second may come.
fn fold(rt: &impl Abort, folded: &mut Folded, event: &Event) {
    let half = folded.half;
    folded.half = None;
    let first = match &event.act {
        Act::Read => {
            assert!(rt; half.is_none(), "a read within a commit");
            return fold_read(rt, folded, event.session, event.command);
        }
        Act::Assign { name, rel: _ } => name.bytes() == b"X".as_slice(),
        Act::Remove { name: _ } => panic!(rt; "a drop"),
    };
    match half {
        Some(session) => assert!(rt;
            session == event.session && !first,
            "an event within a commit"
        ),
        None => assert!(rt; first || event.command == 2, "Y before X"),
    }
    fold_assign(rt, folded, event.session, event.command, first);
}

/// A script of two assignments and of fifty blocks.
fn script_of(alloc: Global, block: &str) -> Result<Vec<u8>, Fail> {
    let mut out = Vec::from_slice(alloc, b"REL X 1 1 {}.\nREL Y 1 1 {}.\n")?;
    'times: for _ in 0..50 {
        out.extend_from_slice(block.as_bytes())?;
    }
    Ok(out)
}

/// Eight sessions of fifty blocks each over two names: those with odd numbers read only Y, the others X and Y.
fn eight_scripts(alloc: Global) -> Result<Vec<Vec<u8>>, Fail> {
    let mut scripts = Vec::new(alloc);
    'pairs: for _ in 0..4 {
        let odd = script_of(alloc, "ATOMIC LET X = -Y; LET Y = X COMMIT.\n")?;
        scripts.push(odd)?;
        let even = script_of(alloc, "ATOMIC LET X = -X; LET Y = -Y; COMMIT.\n")?;
        scripts.push(even)?;
    }
    Ok(scripts)
}

/// How many of these outcomes have this letter.
fn count_of(outcomes: &[u8], letter: u8) -> u64 {
    let mut count: u64 = 0;
    'outcomes: for outcome in outcomes {
        if *outcome == letter {
            count = count.wrapping_add(1);
        }
    }
    count
}

/// Runs eight sessions concurrently, and asserts that no event comes within a commit, that a block is refused if and
/// only if a name that it read was assigned since, and that the numbers of committed and refused blocks are those in
/// the outcomes.
fn eight_commit<R: Threads + Wait + Abort + Sync>(
    rt: &R,
    alloc: Global,
    workers: u32,
) -> Result<(), Fail> {
    let scripts = eight_scripts(alloc)?;
    let options = Options {
        turns: 1,
        nodes: 10,
        workers,
    };
    let scripts = scripts.as_slice();
    let ran = run_at_once(rt, alloc, options, scripts, &[], true, &OpenGate)?;
    let mut folded = nothing();
    'events: for event in ran.history.as_slice() {
        fold(rt, &mut folded, event);
    }
    let done = count_of(ran.outcomes.as_slice(), b'.');
    let changed = count_of(ran.outcomes.as_slice(), b'c');
    assert!(rt; done == folded.committed.wrapping_add(16) && changed == folded.refused);
    assert!(rt; done.wrapping_add(changed) == 416);
    Ok(())
}

#[test]
fn eight_sessions_commit_fifty_blocks_each(rt: HostRuntime) -> Result<(), Fail> {
    eight_commit(&rt, rt.alloc(), 1)?;
    eight_commit(&rt, rt.alloc(), 2)
}

/// The blocks of one session over a counter: what remains of a vector from which each commit removes an element.
fn counting(alloc: Global, first: &str, last: &str) -> Result<Vec<u8>, Fail> {
    let mut out = Vec::from_slice(alloc, first.as_bytes())?;
    'times: for _ in 0..50 {
        out.extend_from_slice(b"ATOMIC LET X = X&-point(X) COMMIT.\n")?;
    }
    out.extend_from_slice(last.as_bytes())?;
    Ok(out)
}

/// A lone session is never refused at a commit: a counter of 60 elements is at 10 after fifty blocks.
#[test]
fn a_lone_session_commits_all_its_blocks(rt: HostRuntime) -> Result<(), Fail> {
    let alloc = rt.alloc();
    let mut scripts = Vec::new(alloc);
    let script = counting(alloc, "REL E 60 1 {}.\nLET X = -E.\n", "COUNT X.\n")?;
    scripts.push(script)?;
    let options = Options {
        turns: 1,
        nodes: 12,
        workers: 1,
    };
    let ran = run_at_once(
        &rt,
        alloc,
        options,
        scripts.as_slice(),
        &[],
        false,
        &OpenGate,
    )?;
    let page = str::from_utf8(ran.page.as_slice())?;
    assert!(&rt; page == "1.53: 10\n", "{page}");
    Ok(())
}
