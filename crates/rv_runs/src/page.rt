//! The page of a run, made from the answers of its sessions.
ghost use Rattle.std.specs.Prelude.{◌≡◌, ◌++◌, [], map, IfOk, OnOk};
ghost use Rattle.std.specs.Fmt.{decimal};
ghost use Rattle.std.specs.List.{flat_map};
ghost use Rattle.run_model.specs.Page.{event_line};
ghost use Rattle.run_model.specs.Texts.{prefix};
ghost use Rattle.run_model.specs.Filed.{saved_all};
ghost use Rattle.rv_sessions.specs.Telling.{text_of, texts_of};
ghost use Rattle.rv_runs.specs.Pages.{text_of_session, saved_by_session, page_told};

use rel_model::NoMemory;
use run_model::event::Event;
use run_model::files::Save;
use run_model::outcome::Outcome;
use rv_print::event_line;
use rv_sessions::{Reply, Transcript};
use std::alloc::{AllocError, Global};

/// Appends a number in decimal.
fn push_number(alloc: Global, out: &mut Vec<u8>, number: u32) -> Result<(), AllocError>
    ensures { OnOk result (out.new.items ≡ out.old.items ++ decimal number) }
{
    let digits = u64::from(number).to_string(alloc)?;
    out.extend_from_slice(digits.as_bytes())
}

/// Appends `S.C: `.
fn push_prefix(
    alloc: Global,
    out: &mut Vec<u8>,
    session: u32,
    command: u32,
) -> Result<(), AllocError>
    ensures { OnOk result (out.new.items ≡ out.old.items ++ prefix session command) }
{
    push_number(alloc, out, session)?;
    out.extend_from_slice(b".")?;
    push_number(alloc, out, command)?;
    out.extend_from_slice(b": ")
}

/// Appends a reply.
#[tactic(auto, unfolding(run_model::specs::Texts::refusal_text, run_model::specs::Texts::outcome_text))]
fn push_reply(alloc: Global, out: &mut Vec<u8>, reply: &Reply) -> Result<(), AllocError>
    ensures { OnOk result (out.new.items ≡ out.old.items ++ text_of reply.now) }
{
    match reply {
        Reply::Nothing => Ok(()),
        Reply::Told {
            session,
            command,
            body,
        } => {
            push_prefix(alloc, out, *session, *command)?;
            out.extend_from_slice(body.as_slice())
        }
        Reply::NoMemory { session, command } => {
            push_prefix(alloc, out, *session, *command)?;
            out.extend_from_slice(b"refused: no memory\n")
        }
    }
}

/// Appends replies, one after another.
fn push_replies(alloc: Global, out: &mut Vec<u8>, replies: &[Reply]) -> Result<(), AllocError>
    ensures { OnOk result (out.new.items ≡ out.old.items ++ texts_of replies.now) }
{
    'replies: for reply in replies {
        push_reply(alloc, out, reply)?;
    }
    Ok(())
}

/// Appends a line for each event.
fn push_history(alloc: Global, out: &mut Vec<u8>, history: &[Event]) -> Result<(), NoMemory>
    ensures { OnOk result (out.new.items ≡ out.old.items ++ flat_map event_line history.now) }
{
    'events: for event in history {
        let line = event_line(alloc, event)?;
        out.extend_from_slice(line.as_slice())?;
    }
    Ok(())
}

/// Appends the replies of sessions, session by session.
fn push_sessions(alloc: Global, out: &mut Vec<u8>, told: &[Transcript]) -> Result<(), AllocError>
    ensures { OnOk result (out.new.items ≡ out.old.items ++ flat_map text_of_session told.now) }
{
    'sessions: for transcript in told {
        push_replies(alloc, out, transcript.replies.as_slice())?;
    }
    Ok(())
}

/// The page: the replies of the sessions one after another, and then the history if it is wanted.
pub fn make_page(
    alloc: Global,
    told: &[Transcript],
    history: &[Event],
    asked: bool,
) -> Result<Vec<u8>, NoMemory>
    ensures { IfOk result (λ v. v.items ≡ page_told told.now history.now asked) }
{
    let mut out = Vec::new(alloc);
    push_sessions(alloc, &mut out, told)?;
    if asked {
        push_history(alloc, &mut out, history)?;
    }
    Ok(out)
}

/// The outcomes and the files of all sessions, in order.
pub fn take_apart(
    alloc: Global,
    told: Vec<Transcript>,
) -> Result<(Vec<Vec<Outcome>>, Vec<Save>), NoMemory>
    ensures outcomes { IfOk result (λ r. map (λ v. v.items) r.0.items ≡ map (λ t. t.outcomes.items) told.items) }
    ensures saves { IfOk result (λ r. saved_all r.1.items ≡ flat_map saved_by_session told.items) }
{
    let mut outcomes = Vec::new(alloc);
    let mut saves = Vec::new(alloc);
    'sessions: for transcript in told {
        let Transcript {
            replies: _,
            saves: mut files,
            outcomes: own,
        } = transcript;
        outcomes.push(own)?;
        saves.append(&mut files)?;
    }
    Ok((outcomes, saves))
}
