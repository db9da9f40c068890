//! Runs a session, from the bytes of its script to its transcript.
ghost use Rattle.std.specs.Prelude.{◌≡◌, ◌≢◌, ◌≤◌, ◌<◌, ◌+◌, ◌^◌, ◌++◌, ◌∷◌, [], length, vec_len, vec_capacity, IfOk, OnErr};
ghost use Rattle.rel_model.specs.Worker.{Keeps};
ghost use Rattle.lang_model.specs.Limits.{script_limit};
ghost use Rattle.run_model.specs.declared.outcome.Outcome.TheVariants.{Done, NoMemory as NO_MEMORY};
ghost use Rattle.turn_book.specs.Views.{IsKept};
ghost use Rattle.rv_sessions.specs.Seated.{IsSeated};
ghost use Rattle.run_model.specs.Filed.{saved_all};
ghost use Rattle.rv_sessions.specs.Telling.{input_of, texts_of};
ghost use Rattle.rv_sessions.specs.Noting.{IsBare, TellsOne, outcome_in, text_in, saved_in};
ghost use Rattle.rv_sessions.specs.Running.{RanSoFar};
ghost use Rattle.rv_sessions.specs.Sessions.{RanBytes, RanScript, DidNothing, IsRead, TellsFault, TellsFlaw};
ghost use Rattle.rv_sessions.specs.Standing.{Kept};

use crate::by::By;
use crate::item::run_item;
use crate::seat::Seat;
use crate::setting::Setting;
use crate::snapshots::Snapshots;
use crate::task::Task;
use crate::told::Told;
use crate::transcript::{Reply, Transcript};
use lang_model::faults::{ParseFault, TypeFault};
use rel_model::NoMemory;
use rel_slices::Remembers;
use run_model::outcome::Outcome;
use rv_parse::parse;
use rv_print::fault_text;
use rv_types::{Checked, check};
use std::alloc::Global;
use std::sync::Wait;

/// Notes the answer to an item. Takes no heap memory.
fn note(by: By, told: Result<Told, NoMemory>, lists: &mut Transcript)
    requires replies { vec_len lists.old.replies < vec_capacity lists.old.replies }
    requires saves { vec_len lists.old.saves < vec_capacity lists.old.saves }
    requires outcomes { vec_len lists.old.outcomes < vec_capacity lists.old.outcomes }
    ensures outcome { lists.new.outcomes.items ≡ lists.old.outcomes.items ++ outcome_in told ∷ [] }
    ensures text { texts_of lists.new.replies.items ≡ texts_of lists.old.replies.items
        ++ text_in by.session by.command told }
    ensures saved { saved_all lists.new.saves.items ≡ saved_all lists.old.saves.items ++ saved_in told }
    ensures replies_len { vec_len lists.new.replies ≡ vec_len lists.old.replies + 1 }
    ensures saves_len { vec_len lists.new.saves ≤ vec_len lists.old.saves + 1 }
    ensures outcomes_len { vec_len lists.new.outcomes ≡ vec_len lists.old.outcomes + 1 }
    ensures replies_capacity { vec_capacity lists.new.replies ≡ vec_capacity lists.old.replies }
    ensures saves_capacity { vec_capacity lists.new.saves ≡ vec_capacity lists.old.saves }
    ensures outcomes_capacity { vec_capacity lists.new.outcomes ≡ vec_capacity lists.old.outcomes }
{
    match told {
        Ok(
            Told {
                outcome,
                reply,
                save,
            },
        ) => {
            lists.outcomes.push_reserved(outcome);
            lists.replies.push_reserved(reply);
            if let Some(save) = save {
                lists.saves.push_reserved(save);
            }
        }
        Err(NoMemory) => {
            lists.outcomes.push_reserved(Outcome::NoMemory);
            lists.replies.push_reserved(Reply::NoMemory {
                session: by.session,
                command: by.command,
            });
        }
    }
}

/// Runs all items, one after another.
fn run_items<E: Remembers, W: Wait>(
    setting: &Setting<'_, E, W>,
    number: u32,
    checked: &Checked,
    seat: &mut Seat<E>,
    lists: &mut Transcript,
)
    requires seated { IsSeated E.worker setting.now.book.now seat.old }
    requires few { length checked.now.items.items < 2 ^ 32 }
    requires bare { IsBare (length checked.now.items.items) lists.old }
    ensures ran { (snaps : Kept) × RanSoFar E.least (input_of setting.now.files.now setting.now.turns) checked.now
        number (E.worker seat.old.engine) (E.worker seat.new.engine) seat.old.pass seat.new.pass snaps
        lists.new.outcomes.items (texts_of lists.new.replies.items) (saved_all lists.new.saves.items) }
    ensures each { length lists.new.outcomes.items ≡ length checked.now.items.items }
{
    let mut snaps = Snapshots::new(setting.alloc);
    let items = checked.script().items.as_slice();
    'items: for i in 0..items.len() {
        let by = By {
            session: number,
            command: i as u32 + 1,
        };
        let task = Task {
            alloc: setting.alloc,
            by,
            checked,
            files: setting.files,
            turns: setting.turns,
            book: setting.book,
            wait: setting.wait,
        };
        let told = run_item(&task, seat, &mut snaps, &items[i]);
        note(by, told, lists);
    }
}

/// Empty lists with capacity for this many items.
fn room_for(alloc: Global, items: usize) -> Result<Transcript, NoMemory>
    ensures { IfOk result (IsBare items) }
{
    Ok(Transcript {
        replies: Vec::with_capacity(alloc, items)?,
        saves: Vec::with_capacity(alloc, items)?,
        outcomes: Vec::with_capacity(alloc, items)?,
    })
}

/// The transcript of a single refusal, with number 0.
fn one_refusal(alloc: Global, number: u32, outcome: Outcome) -> Result<Transcript, NoMemory>
    requires { outcome ≢ Done }
    ensures { IfOk result (TellsOne number outcome) }
{
    let body = fault_text(alloc, &outcome)?;
    let mut lists = room_for(alloc, 1)?;
    lists.outcomes.push_reserved(outcome);
    lists.replies.push_reserved(Reply::Told {
        session: number,
        command: 0,
        body,
    });
    Ok(lists)
}

/// The transcript of bytes that do not run. If memory ran out, that is the error, and not a refusal of the bytes.
fn not_run(alloc: Global, number: u32, outcome: Outcome) -> Result<Transcript, NoMemory>
    requires { outcome ≢ Done }
    ensures { IfOk result (λ t. TellsOne number outcome t × (outcome ≢ NO_MEMORY)) }
{
    match &outcome {
        Outcome::NoMemory => Err(NoMemory),
        _ => one_refusal(alloc, number, outcome),
    }
}

/// Runs a script without a flaw.
///
/// If there are more items than a command's number can count, it answers that memory ran out: there is never memory for
/// that many.
fn run_checked<E: Remembers, W: Wait>(
    setting: &Setting<'_, E, W>,
    number: u32,
    checked: &Checked,
    seat: &mut Seat<E>,
) -> Result<Transcript, NoMemory>
    requires seated { IsSeated E.worker setting.now.book.now seat.old }
    ensures ran { IfOk result (RanScript E.least (input_of setting.now.files.now setting.now.turns) number checked.now
        (E.worker seat.old.engine) (E.worker seat.new.engine) seat.old.pass seat.new.pass) }
    ensures none { OnErr result (DidNothing (E.worker seat.old.engine) (E.worker seat.new.engine) seat.old.pass
        seat.new.pass) }
    ensures kept { IsKept seat.old.pass seat.new.pass }
    ensures keeps { Keeps (E.worker seat.old.engine) (E.worker seat.new.engine) }
{
    let items = checked.script().items.len();
    if items as u64 > u32::MAX as u64 {
        return Err(NoMemory);
    }
    let mut lists = room_for(setting.alloc, items)?;
    run_items(setting, number, checked, seat, &mut lists);
    Ok(lists)
}

/// The script that the bytes spell, if it has no flaw; otherwise the outcome that reports why it does not run.
fn read_script(alloc: Global, bytes: &[u8]) -> Result<Checked, Outcome>
    requires { length bytes.now ≤ script_limit }
    ensures { IsRead bytes.now result }
{
    match parse(alloc, bytes) {
        Ok(script) => match check(alloc, script) {
            Ok(checked) => Ok(checked),
            Err(flaw) => Err(told_flaw(flaw)),
        },
        Err(fault) => Err(told_fault(fault)),
    }
}

/// The outcome that reports a fault of the bytes.
fn told_fault(fault: ParseFault) -> Outcome
    ensures { TellsFault fault result }
{
    match &fault {
        ParseFault::NoMemory => Outcome::NoMemory,
        _ => Outcome::Parse(fault),
    }
}

/// The outcome that reports a flaw of a script.
fn told_flaw(flaw: TypeFault) -> Outcome
    ensures { TellsFlaw flaw result }
{
    match &flaw {
        TypeFault::NoMemory => Outcome::NoMemory,
        _ => Outcome::Ill(flaw),
    }
}

/// Runs the script of a session against the book of names. Each read, assignment and removal takes a turn of its own.
///
/// If the bytes are not a script, or the script has a flaw, nothing of it runs, and the only outcome, with number 0,
/// reports this. Otherwise each item has its outcome, and the items after a refused command still run. The memory for
/// the lists is allocated before the first item; the only error is that memory ran out before that, and then nothing
/// ran.
pub fn run<E: Remembers, W: Wait>(
    setting: &Setting<'_, E, W>,
    number: u32,
    script: &[u8],
    seat: &mut Seat<E>,
) -> Result<Transcript, NoMemory>
    requires limit { length script.now ≤ script_limit }
    requires seated { IsSeated E.worker setting.now.book.now seat.old }
    ensures ran { IfOk result (RanBytes E.least (input_of setting.now.files.now setting.now.turns) number script.now
        (E.worker seat.old.engine) (E.worker seat.new.engine) seat.old.pass seat.new.pass) }
    ensures none { OnErr result (DidNothing (E.worker seat.old.engine) (E.worker seat.new.engine) seat.old.pass
        seat.new.pass) }
    ensures kept { IsKept seat.old.pass seat.new.pass }
    ensures keeps { Keeps (E.worker seat.old.engine) (E.worker seat.new.engine) }
{
    match read_script(setting.alloc, script) {
        Ok(checked) => run_checked(setting, number, &checked, seat),
        Err(outcome) => {
            let _ = &seat.pass;
            not_run(setting.alloc, number, outcome)
        }
    }
}
