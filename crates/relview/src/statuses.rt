//! The status of a run, from its outcomes.
ghost use Rattle.std.specs.Prelude.{◌≡◌, map};
ghost use Rattle.std.specs.List.{list_any, list_all};
ghost use Rattle.relview.specs.Top.{status_of, is_no_memory, is_done};

use run_model::outcome::Outcome;

fn is_no_memory(outcome: &Outcome) -> bool
    ensures { result ≡ is_no_memory outcome.now }
{
    match outcome {
        Outcome::NoMemory => true,
        _ => false,
    }
}

fn is_done(outcome: &Outcome) -> bool
    ensures { result ≡ is_done outcome.now }
{
    match outcome {
        Outcome::Done => true,
        _ => false,
    }
}

/// Whether memory ran out in a command of a session.
fn any_no_memory(outcomes: &[Outcome]) -> bool
    ensures { result ≡ list_any is_no_memory outcomes.now }
{
    outcomes.iter().any(|outcome| is_no_memory(outcome))
}

/// Whether each command of a session was done.
fn all_done(outcomes: &[Outcome]) -> bool
    ensures { result ≡ list_all is_done outcomes.now }
{
    outcomes.iter().all(|outcome| is_done(outcome))
}

/// Whether memory ran out in a command of some session.
fn any_out(outcomes: &[Vec<Outcome>]) -> bool
    ensures { result ≡ list_any (list_any is_no_memory) (map (λ v. v.items) outcomes.now) }
{
    let mut rest = outcomes;
    'sessions: while let [session, tail @ ..] = rest {
        if any_no_memory(session.as_slice()) {
            return true;
        }
        rest = tail;
    }
    false
}

/// Whether each command of each session was done.
fn all_in(outcomes: &[Vec<Outcome>]) -> bool
    ensures { result ≡ list_all (list_all is_done) (map (λ v. v.items) outcomes.now) }
{
    let mut rest = outcomes;
    'sessions: while let [session, tail @ ..] = rest {
        if !all_done(session.as_slice()) {
            return false;
        }
        rest = tail;
    }
    true
}

/// The status of a run whose page and files were written in full.
#[tactic(auto, unfolding(crate::specs::Top::status_of))]
pub fn status_of(outcomes: &[Vec<Outcome>]) -> u8
    ensures { result ≡ status_of (map (λ v. v.items) outcomes.now) }
{
    if any_out(outcomes) {
        5
    } else if all_in(outcomes) {
        0
    } else {
        1
    }
}
