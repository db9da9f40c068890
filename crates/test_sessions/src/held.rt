//! A gate that holds some sessions until others have begun or ended.
use fork_quads::Gate;
use rel_model::watch::Watch;
use std::sync::atomic::{AtomicBool, AtomicU32, Ordering};
use std::thread::yield_now;

/// What is added to the number of a session for its gate.
const SESSIONS: u32 = 1_000_000;

/// How often a session that is held checks for the others at most.
const LOOKS: u32 = 10_000_000;

/// Which sessions are held, and how long.
#[derive(Clone, Copy)]
pub(crate) enum Rule {
    /// No session.
    Open,
    /// All sessions, until this many have begun.
    UntilBegun(u32),
    /// Those up to this number, until this many of all have ended.
    UntilEnded(u32, u32),
    /// Each odd session, until this many of all have ended.
    OddUntilEnded(u32),
}

/// A gate with a rule, which counts the sessions that have begun and ended.
#[derive(Drop)]
pub(crate) struct Holding {
    rule: Rule,
    begun: AtomicU32,
    ended: AtomicU32,
    gave_up: AtomicBool,
}

impl Holding {
    pub(crate) fn new(rule: Rule) -> Holding {
        Holding {
            rule,
            begun: AtomicU32::new(0),
            ended: AtomicU32::new(0),
            gave_up: AtomicBool::new(false),
        }
    }

    /// How many sessions have begun.
    pub(crate) fn begun(&self) -> u32 {
        self.begun.load(Ordering::SeqCst)
    }

    /// How many sessions have ended.
    pub(crate) fn ended(&self) -> u32 {
        self.ended.load(Ordering::SeqCst)
    }

    /// Whether a session was held for too long, and let go.
    pub(crate) fn gave_up(&self) -> bool {
        self.gave_up.load(Ordering::SeqCst)
    }

    /// Whether a session may go on now.
    fn may_go_on(&self, session: u32) -> bool {
        match self.rule {
            Rule::Open => true,
            Rule::UntilBegun(count) => self.begun() >= count,
            Rule::UntilEnded(last, count) => session > last || self.ended() >= count,
            Rule::OddUntilEnded(count) => session % 2 == 0 || self.ended() >= count,
        }
    }
}

impl Watch for Holding {
    fn begins(&self, piece: u32) {
        let _ = self.begun.fetch_add(1, Ordering::SeqCst);
        let session = piece.saturating_sub(SESSIONS);
        'looks: for _ in 0..LOOKS {
            if self.may_go_on(session) {
                return;
            }
            yield_now();
        }
        self.gave_up.store(true, Ordering::SeqCst);
    }

    fn ends(&self, piece: u32) {
        let _ = piece;
        let _ = self.ended.fetch_add(1, Ordering::SeqCst);
    }
}

impl Gate for Holding {}
