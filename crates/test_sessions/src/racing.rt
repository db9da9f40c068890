//! Concurrent sessions over one name: each printed cell, each unknown name and each drop is compared with the fold of
//! the history that the run reports.
use crate::folded::{command_of, page_by};
use crate::held::{Holding, Rule};
use crate::made::{Options, run_at_once};
use fork_quads::{Gate, OpenGate};
use std::alloc::{AllocError, Global};
use std::process::Abort;
use std::sync::Wait;
use std::test::Fail;
use std::thread::Threads;

const OPTIONS: Options = Options {
    turns: 1,
    nodes: 10,
    workers: 2,
};

/// The letters of a session's commands: a first part once, and then a second part a number of times.
fn letters_of(alloc: Global, first: &str, again: &str, times: u32) -> Result<Vec<u8>, AllocError> {
    let mut out = Vec::from_slice(alloc, first.as_bytes())?;
    'times: for _ in 0..times {
        out.extend_from_slice(again.as_bytes())?;
    }
    Ok(out)
}

/// The script of a session, from the letters of its commands.
fn script_of(alloc: Global, letters: &[u8]) -> Result<Vec<u8>, AllocError> {
    let mut out = Vec::new(alloc);
    'letters: for letter in letters {
        out.extend_from_slice(command_of(*letter).as_bytes())?;
    }
    Ok(out)
}

/// Runs sessions concurrently through a gate, and asserts that their page is what their history says, and that no
/// command was refused except for an unknown name.
fn race<R: Threads + Wait + Abort + Sync, G: Gate + Sync>(
    rt: &R,
    alloc: Global,
    letters: &[Vec<u8>],
    gate: &G,
) -> Result<(), Fail> {
    let scripts = scripts_by(alloc, letters)?;
    let scripts = scripts.as_slice();
    let ran = run_at_once(rt, alloc, OPTIONS, scripts, &[], true, gate)?;
    let page = page_by(rt, alloc, letters, ran.history.as_slice(), true)?;
    is_told(rt, ran.page.as_slice(), page.as_slice())?;
    are_done(rt, ran.outcomes.as_slice());
    Ok(())
}

/// The scripts of sessions, from the letters of their commands.
fn scripts_by(alloc: Global, letters: &[Vec<u8>]) -> Result<Vec<Vec<u8>>, AllocError> {
    let mut scripts = Vec::new(alloc);
    'letters: for own in letters {
        let script = script_of(alloc, own.as_slice())?;
        scripts.push(script)?;
    }
    Ok(scripts)
}

/// Asserts that a page is the expected one.
fn is_told(rt: &impl Abort, page: &[u8], wanted: &[u8]) -> Result<(), Fail> {
    let told = str::from_utf8(page)?;
    let wanted = str::from_utf8(wanted)?;
    assert!(rt; told == wanted, "{told} for {wanted}");
    Ok(())
}

/// Asserts that no command was refused except for an unknown name.
fn are_done(rt: &impl Abort, outcomes: &[u8]) {
    'outcomes: for outcome in outcomes {
        assert!(rt; *outcome == b'.' || *outcome == b'i' || *outcome == b'/');
    }
}

/// The commands of one session: a first part once, and then a second part a number of times.
type Commands = (&'static str, &'static str, u32);

/// Asserts, a number of times, that three concurrent sessions answer according to their history.
fn three_race<R: Threads + Wait + Abort + Sync>(
    rt: &R,
    alloc: Global,
    sessions: &[Commands],
    times: u32,
) -> Result<(), Fail> {
    let letters = letters_by(alloc, sessions)?;
    'times: for _ in 0..times {
        race(rt, alloc, letters.as_slice(), &OpenGate)?;
    }
    Ok(())
}

/// The letters of the commands of sessions.
fn letters_by(alloc: Global, sessions: &[Commands]) -> Result<Vec<Vec<u8>>, AllocError> {
    let mut letters = Vec::new(alloc);
    'sessions: for &(first, again, times) in sessions {
        letters.push(letters_of(alloc, first, again, times)?)?;
    }
    Ok(letters)
}

/// The commands of three sessions, and how often they race.
const RACES: &[(&[Commands], u32)] = &[
    (&[("1P", "", 0), ("0P", "", 0), ("", "", 0)], 20),
    (&[("1", "NP", 30), ("", "DP", 30), ("", "", 0)], 10),
    (&[("1", "NNP", 20), ("", "D1", 30), ("", "P0D", 20)], 10),
];

#[test]
fn replies_are_those_of_the_history(rt: HostRuntime) -> Result<(), Fail> {
    'cases: for &(sessions, times) in RACES {
        three_race(&rt, rt.alloc(), sessions, times)?;
    }
    Ok(())
}

/// The commands of eight sessions that each complement one name.
const EIGHT: [Commands; 8] = [("0", "NP", 50); 8];

#[test]
fn eight_sessions_complement_one_name_fifty_times_each(rt: HostRuntime) -> Result<(), Fail> {
    let alloc = rt.alloc();
    let letters = letters_by(alloc, EIGHT.as_slice())?;
    race(&rt, alloc, letters.as_slice(), &OpenGate)
}

/// The letters of sixty-four sessions.
fn letters_of_64(alloc: Global) -> Result<Vec<Vec<u8>>, AllocError> {
    let mut letters = Vec::new(alloc);
    'sessions: for s in 0..64 {
        let first = if s % 2 == 0 { "0P" } else { "1" };
        let again = if s % 4 == 3 { "DP" } else { "NP" };
        letters.push(letters_of(alloc, first, again, 3)?)?;
    }
    Ok(letters)
}

/// Asserts that sixty-four sessions pass a gate with this rule, and answer according to their history.
fn pass_the_gate<R: Threads + Wait + Abort + Sync>(
    rt: &R,
    alloc: Global,
    rule: Rule,
) -> Result<(), Fail> {
    let letters = letters_of_64(alloc)?;
    let gate = Holding::new(rule);
    race(rt, alloc, letters.as_slice(), &gate)?;
    assert!(rt; !gate.gave_up(), "a session was held too long");
    assert!(rt; gate.begun() == 64 && gate.ended() == 64);
    Ok(())
}

#[test]
fn sixty_four_sessions_pass_gates_of_each_kind(rt: HostRuntime) -> Result<(), Fail> {
    'rules: for rule in [
        Rule::Open,
        Rule::UntilBegun(64),
        Rule::UntilEnded(32, 32),
        Rule::UntilEnded(63, 1),
        Rule::OddUntilEnded(32),
    ] {
        pass_the_gate(&rt, rt.alloc(), rule)?;
    }
    Ok(())
}
