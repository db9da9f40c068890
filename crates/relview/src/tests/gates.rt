//! Concurrent sessions, as a gate sees them.
ghost use Rattle.std.specs.Prelude.{◌+◌};
ghost use Rattle.rel_model.specs.Quads.{Keeper};
ghost use Rattle.fork_quads.specs.Forks.{CanGroup, DidPieces};

use super::runs::{assert_written, run_gated};
use fork_quads::{Gate, Job, Pieces, watched};
use pair_table::Missed;
use quad_nodes::Nodes;
use rel_model::watch::Watch;
use run_model::event::{Act, Event};
use std::alloc::{AllocError, Global};
use std::hint::spin_loop;
use std::process::Abort;
use std::sync::Wait;
use std::sync::atomic::{AtomicBool, AtomicU32, Ordering};
use std::test::Fail;
use std::thread::Threads;

/// How often a held session looks for the other one at most.
const LOOKS: u32 = 100_000_000;

/// What a gate adds for a session that begins, and for one that has ended.
const BEGUN: u32 = 1;

const ENDED: u32 = 10;

/// Holds one session until another one has begun, and counts its calls.
#[derive(Drop)]
struct Holding {
    held: u32,
    awaited: u32,
    until: u32,
    of_held: AtomicU32,
    of_awaited: AtomicU32,
    of_others: AtomicU32,
    gave_up: AtomicBool,
}

impl Holding {
    /// Holds piece `held` until the count of piece `awaited` has reached `until`.
    fn new(held: u32, awaited: u32, until: u32) -> Holding {
        Holding {
            held,
            awaited,
            until,
            of_held: AtomicU32::new(0),
            of_awaited: AtomicU32::new(0),
            of_others: AtomicU32::new(0),
            gave_up: AtomicBool::new(false),
        }
    }

    /// The count of a piece.
    fn count_of(&self, piece: u32) -> &AtomicU32 {
        if piece == self.held {
            &self.of_held
        } else if piece == self.awaited {
            &self.of_awaited
        } else {
            &self.of_others
        }
    }

    /// Waits until the count of the other piece is high enough, and gives up after `LOOKS` looks.
    fn hold(&self) {
        for _ in 0..LOOKS {
            if self.of_awaited.load(Ordering::SeqCst) >= self.until {
                return;
            }
            spin_loop();
        }
        self.gave_up.store(true, Ordering::SeqCst);
    }
}

impl Watch for Holding {
    fn begins(&self, piece: u32) {
        let _ = self.count_of(piece).fetch_add(BEGUN, Ordering::SeqCst);
        if piece == self.held {
            self.hold();
        }
    }

    fn ends(&self, piece: u32) {
        let _ = self.count_of(piece).fetch_add(ENDED, Ordering::SeqCst);
    }
}

impl Gate for Holding {
    fn group<R: Threads>(
        &self,
        rt: &R,
        job: Job,
        nodes: &mut Nodes,
        from: u32,
        count: u32,
    ) -> Result<Pieces, Missed> {
        watched(rt, self, job, nodes, from, count)
    }
}

/// The commands of a session's events, in order, as digits.
fn commands_of(history: &[Event], session: u32) -> u32 {
    let mut digits = 0u32;
    for event in history {
        if event.session == session {
            digits = digits.wrapping_mul(10).wrapping_add(event.command);
        }
    }
    digits
}

/// How a line of the history describes an act of the two scripts.
fn deed_of(act: &Act) -> &'static str {
    match act {
        Act::Assign { .. } => "assign X 1 x 1",
        Act::Read => "read",
        Act::Remove { .. } => "drop X",
    }
}

/// The page that follows from the history of two scripts that each assign X and print it: a session prints what the
/// last assignment before its own read assigned.
fn page_of(alloc: Global, history: &[Event]) -> Result<String, AllocError> {
    let (mut cell, mut first, mut second) = ('?', '?', '?');
    let mut lines = String::new(alloc);
    for event in history {
        let (session, command) = (event.session, event.command);
        match &event.act {
            Act::Assign { .. } => cell = if session == 1 { '1' } else { '.' },
            Act::Read => {
                if session == 1 {
                    first = cell;
                } else {
                    second = cell;
                }
            }
            Act::Remove { .. } => cell = '?',
        }
        let deed = deed_of(&event.act);
        lines.push_str(format!(in alloc; "{session}.{command} {deed}\n")?.as_str())?;
    }
    format!(in alloc; "1.2: 1 x 1\n{first}\n2.2: 1 x 1\n{second}\n{lines}")
}

/// How often each of the two runs is made.
const TIMES: u32 = 20;

/// Runs the two scripts with one session held until the other one has begun, and asserts that the page agrees with the
/// history.
fn run_held<R: Threads + Wait + Abort + Sync>(
    rt: &R,
    alloc: Global,
    held: u32,
    awaited: u32,
) -> Result<(), Fail> {
    let files = [
        ("a.rv", b"REL X 1 1 {1:1}. PRINT X.".as_slice()),
        ("b.rv", b"REL X 1 1 {}. PRINT X."),
    ];
    let gate = Holding::new(held, awaited, BEGUN);
    let ran = run_gated(rt, alloc, "--history a.rv b.rv", files.as_slice(), &gate)?;
    assert!(rt;
        !gate.gave_up.load(Ordering::SeqCst),
        "{held} was held too long"
    );
    assert_eq!(rt; gate.of_held.load(Ordering::SeqCst), BEGUN + ENDED);
    assert_eq!(rt; gate.of_awaited.load(Ordering::SeqCst), BEGUN + ENDED);
    assert_eq!(rt; gate.of_others.load(Ordering::SeqCst), 0);
    let history = ran.report.history.as_slice();
    assert_eq!(rt; history.len(), 4);
    assert_eq!(rt; commands_of(history, 1), 12);
    assert_eq!(rt; commands_of(history, 2), 12);
    let page = page_of(alloc, history)?;
    assert_written(rt, &ran, page.as_str(), 0, "two sessions")
}

#[test]
fn two_sessions_go_on_at_once_and_print_what_the_history_says(rt: HostRuntime) -> Result<(), Fail> {
    let alloc = rt.alloc();
    'times: for _ in 0..TIMES {
        run_held(&rt, alloc, 1_000_001, 1_000_002)?;
        run_held(&rt, alloc, 1_000_002, 1_000_001)?;
    }
    Ok(())
}

/// A random function on 4096 elements; transposing it is heavy enough to fork.
fn heavy_relation(alloc: Global) -> Result<String, AllocError> {
    let mut text = String::new(alloc);
    text.push_str("REL A 4096 4096 {1:1")?;
    let mut state = 1u64;
    'rows: for row in 2..4097 {
        state = state
            .wrapping_mul(6364136223846793005)
            .wrapping_add(1442695040888963407);
        let col = (state >> 33) % 4096 + 1;
        text.push_str(format!(in alloc; "; {row}:{col}")?.as_str())?;
    }
    text.push_str("}.")?;
    Ok(text)
}

#[test]
fn two_workers_of_a_session_are_at_work_at_once(rt: HostRuntime) -> Result<(), Fail> {
    let alloc = rt.alloc();
    let mut script = heavy_relation(alloc)?;
    script.push_str(" COUNT A^.")?;
    let files = [("a.rv", script.as_str().as_bytes())];
    'times: for _ in 0..TIMES {
        let gate = Holding::new(0, 1, BEGUN + ENDED);
        let ran = run_gated(&rt, alloc, "--workers 2 a.rv", files.as_slice(), &gate)?;
        assert!(rt;
            !gate.gave_up.load(Ordering::SeqCst),
            "the first piece was held too long"
        );
        assert_eq!(rt; gate.of_held.load(Ordering::SeqCst), BEGUN + ENDED);
        assert_eq!(rt; gate.of_awaited.load(Ordering::SeqCst), BEGUN + ENDED);
        assert_eq!(rt; gate.of_others.load(Ordering::SeqCst), 3 * (BEGUN + ENDED));
        assert_written(&rt, &ran, "1.2: 4096\n", 0, "two workers")?;
    }
    Ok(())
}

/// Holds session 1 for a while, and records whether a session after the first two begins before both of them have
/// ended.
#[derive(Drop)]
struct Batched {
    ended: AtomicU32,
    later: AtomicU32,
    early: AtomicBool,
}

impl Watch for Batched {
    fn begins(&self, piece: u32) {
        if piece == 1_000_001 {
            for _ in 0..LOOKS / 10_000 {
                spin_loop();
            }
        }
        if piece > 1_000_002 {
            let _ = self.later.fetch_add(1, Ordering::SeqCst);
            if self.ended.load(Ordering::SeqCst) != 2 {
                self.early.store(true, Ordering::SeqCst);
            }
        }
    }

    fn ends(&self, piece: u32) {
        if piece == 1_000_001 || piece == 1_000_002 {
            let _ = self.ended.fetch_add(1, Ordering::SeqCst);
        }
    }
}

impl Gate for Batched {}

#[test]
fn no_session_of_a_later_batch_begins_before_all_of_the_first_have_ended(
    rt: HostRuntime,
) -> Result<(), Fail> {
    let alloc = rt.alloc();
    let files = [("a.rv", b"REL X 1 1 {1:1}. PRINT X.".as_slice())];
    'times: for _ in 0..TIMES / 4 {
        let gate = Batched {
            ended: AtomicU32::new(0),
            later: AtomicU32::new(0),
            early: AtomicBool::new(false),
        };
        let words = "a.rv a.rv --then a.rv a.rv --then a.rv";
        let ran = run_gated(&rt, alloc, words, files.as_slice(), &gate)?;
        assert!(rt;
            !gate.early.load(Ordering::SeqCst),
            "a session began too early"
        );
        assert_eq!(rt; gate.later.load(Ordering::SeqCst), 3);
        let page = "1.2: 1 x 1\n1\n2.2: 1 x 1\n1\n3.2: 1 x 1\n1\n4.2: 1 x 1\n1\n5.2: 1 x 1\n1\n";
        assert_written(&rt, &ran, page, 0, "three batches")?;
    }
    Ok(())
}

/// Holds the first piece of a transposition until session 3 has ended; session 3 begins once the piece has.
#[derive(Drop)]
struct Crossing {
    begun: AtomicBool,
    ended: AtomicBool,
    gave_up: AtomicBool,
}

impl Crossing {
    /// Waits until the flag is set, and gives up after `LOOKS` looks.
    fn hold(&self, until: &AtomicBool) {
        for _ in 0..LOOKS {
            if until.load(Ordering::SeqCst) {
                return;
            }
            spin_loop();
        }
        self.gave_up.store(true, Ordering::SeqCst);
    }
}

impl Watch for Crossing {
    fn begins(&self, piece: u32) {
        if piece == 0 {
            self.begun.store(true, Ordering::SeqCst);
            self.hold(&self.ended);
        }
        if piece == 1_000_003 {
            self.hold(&self.begun);
        }
    }

    fn ends(&self, piece: u32) {
        if piece == 1_000_003 {
            self.ended.store(true, Ordering::SeqCst);
        }
    }
}

impl Gate for Crossing {
    fn group<R: Threads>(
        &self,
        rt: &R,
        job: Job,
        nodes: &mut Nodes,
        from: u32,
        count: u32,
    ) -> Result<Pieces, Missed> {
        watched(rt, self, job, nodes, from, count)
    }
}

#[test]
fn versions_are_counted_through_the_batches(rt: HostRuntime) -> Result<(), Fail> {
    let alloc = rt.alloc();
    let mut script = String::new(alloc);
    script.push_str("REL A 1 1 {}. DROP A. ")?;
    script.push_str(heavy_relation(alloc)?.as_str())?;
    let files = [
        ("a.rv", script.as_str().as_bytes()),
        (
            "b.rv",
            b"ATOMIC LET B = A^ COMMIT. ATOMIC LET B = A COMMIT.",
        ),
        ("c.rv", b"REL A 1 1 {}."),
    ];
    let gate = Crossing {
        begun: AtomicBool::new(false),
        ended: AtomicBool::new(false),
        gave_up: AtomicBool::new(false),
    };
    let words = "--workers 2 a.rv --then b.rv c.rv";
    let ran = run_gated(&rt, alloc, words, files.as_slice(), &gate)?;
    assert!(rt;
        !gate.gave_up.load(Ordering::SeqCst),
        "a piece or a session was held too long"
    );
    let page = "2.1: refused: A changed: version 3 at the read, 4 at the commit\n";
    assert_written(&rt, &ran, page, 1, "a block in the second batch")
}
