//! A counter that eight sessions increment by atomic blocks. Each block that is refused, because the counter has
//! changed since it was read, is tried again until all are done; then the counter equals the number of commits.
use crate::held::{Holding, Rule};
use crate::made::{Came, Options, run_at_once};
use run_model::event::{Act, Event};
use std::alloc::{AllocError, Global};
use std::process::Abort;
use std::sync::Wait;
use std::test::Fail;
use std::thread::Threads;

const OPTIONS: Options = Options {
    turns: 1,
    nodes: 14,
    workers: 1,
};

/// How many sessions increment the counter.
const SESSIONS: u32 = 8;

/// How often each of them does.
const TIMES: u32 = 50;

/// One more row: the counter is the number of rows of X, and T has one row.
const RAISED: &[u8] = b"Raised(X,T) DECL D = SUM(X,T) BEG RETURN On1(i-1(D)^) END.\n";

/// The script of a session that increments the counter a number of times.
fn raising(alloc: Global, times: u32) -> Result<Vec<u8>, AllocError> {
    let mut script = Vec::from_slice(alloc, RAISED)?;
    'times: for _ in 0..times {
        script.extend_from_slice(b"ATOMIC LET X = Raised(X,T) COMMIT.\n")?;
    }
    Ok(script)
}

/// The script of the session that sets the counter before the others begin.
fn giving(alloc: Global, value: u32) -> Result<Vec<u8>, Fail> {
    let mut script = Vec::from_slice(alloc, b"REL T 1 1 {}.\nREL X ")?;
    let number = format!(in alloc; "{value}")?;
    script.extend_from_slice(number.as_bytes())?;
    script.extend_from_slice(b" 1 {}.\n")?;
    Ok(script)
}

/// The scripts of a run: those of the sessions that increment the counter, each a number of times, and of the one that
/// sets it.
fn scripts_from(alloc: Global, value: u32, left: &[u32]) -> Result<Vec<Vec<u8>>, Fail> {
    let mut scripts = Vec::new(alloc);
    'sessions: for times in left {
        scripts.push(raising(alloc, *times)?)?;
    }
    scripts.push(giving(alloc, value)?)?;
    Ok(scripts)
}

/// How many blocks of each incrementing session were refused for a change.
fn told_of_a_change(
    rt: &impl Abort,
    alloc: Global,
    outcomes: &[u8],
) -> Result<Vec<u32>, AllocError> {
    let mut counts = Vec::new(alloc);
    let mut count: u32 = 0;
    'outcomes: for outcome in outcomes {
        match *outcome {
            b'/' => {
                counts.push(count)?;
                count = 0;
            }
            b'c' => count = count.wrapping_add(1),
            other => assert!(rt; other == b'.'),
        }
    }
    assert!(rt; counts.len() == SESSIONS as usize && count == 0);
    Ok(counts)
}

/// The value of the counter at the end of a history.
fn value_at_the_end(history: &[Event]) -> u32 {
    let mut value = 0;
    'events: for event in history {
        match &event.act {
            Act::Assign { name, rel } if name.bytes() == b"X".as_slice() => value = rel.rows,
            _ => {}
        }
    }
    value
}

/// The sum of these counts.
fn total(counts: &[u32]) -> u32 {
    let mut sum: u32 = 0;
    'counts: for count in counts {
        sum = sum.wrapping_add(*count);
    }
    sum
}

/// Runs the sessions on a counter with this value.
fn run_from<R: Threads + Wait + Abort + Sync>(
    rt: &R,
    alloc: Global,
    value: u32,
    left: &[u32],
) -> Result<Came, Fail> {
    let scripts = scripts_from(alloc, value, left)?;
    let gate = Holding::new(Rule::UntilEnded(SESSIONS, 1));
    let ran = run_at_once(rt, alloc, OPTIONS, scripts.as_slice(), &[], false, &gate)?;
    assert!(rt; !gate.gave_up(), "a session was held too long");
    Ok(ran)
}

#[test]
fn a_counter_is_as_high_as_the_blocks_that_were_tried_until_done(
    rt: HostRuntime,
) -> Result<(), Fail> {
    let alloc = rt.alloc();
    let mut value: u32 = 0;
    let mut left = Vec::new(alloc);
    'sessions: for _ in 0..SESSIONS {
        left.push(TIMES)?;
    }
    'runs: for _ in 0..SESSIONS.wrapping_mul(TIMES) {
        let ran = run_from(&rt, alloc, value, left.as_slice())?;
        let again = told_of_a_change(&rt, alloc, ran.outcomes.as_slice())?;
        let commits = total(left.as_slice()).wrapping_sub(total(again.as_slice()));
        let now = value_at_the_end(ran.history.as_slice());
        assert!(&rt;
            now == value.wrapping_add(commits),
            "{now} behind {commits} commits over {value}"
        );
        assert!(&rt; commits > 0, "each block was told of a change");
        value = now;
        left = again;
        if total(left.as_slice()) == 0 {
            break 'runs;
        }
    }
    assert!(&rt; value == SESSIONS.wrapping_mul(TIMES), "{value}");
    Ok(())
}
