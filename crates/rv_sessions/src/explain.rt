//! The command that shows how an expression is rewritten.
ghost use Rattle.std.specs.Prelude.{◌≡◌};
ghost use Rattle.rel_model.specs.Worker.{Worker};
ghost use Rattle.lang_model.specs.declared.syntax.Command.TheVariants.{Explain as EXPLAIN};
ghost use Rattle.lang_model.specs.declared.syntax.Item.TheVariants.{Command as COMMAND};
ghost use Rattle.lang_model.specs.Trees.{tree_of};
ghost use Rattle.lang_model.specs.Rewriting.{steps_of};
ghost use Rattle.lang_model.specs.Eval.{early_fault};
ghost use Rattle.run_model.specs.Inputs.{Input};
ghost use Rattle.rv_sessions.specs.Seated.{IsSeated};
ghost use Rattle.rv_eval.specs.Names.{HasSizes, AllStand, state_of};
ghost use Rattle.rv_sessions.specs.Acting.{DidItem};
ghost use Rattle.rv_sessions.specs.Showing.{CameExplained};
ghost use Rattle.rv_sessions.specs.Standing.{Kept, KeptStand};
ghost use Rattle.rv_sessions.specs.Told.{bytes_of};

use crate::seat::Seat;
use crate::task::Task;
use crate::told::{Told, refused};
use crate::transcript::Reply;
use crate::turns::read_turn;
use crate::value::outcome_of;
use lang_model::syntax::{Expr, Name};
use rel_model::engine_trait::Engine;
use rel_model::{NoMemory, Rel};
use run_model::outcome::Outcome;
use rv_blocks::names_in;
use rv_eval::explain;
use rv_print::steps_text;
use rv_types::Checked;
use std::alloc::Global;
use std::sync::Wait;

/// The text of the steps by which an expression is rewritten on these names, or why there are none.
fn explained_on(
    alloc: Global,
    checked: &Checked,
    names: &[(Name, Rel)],
    expr: &Expr,
) -> Result<Vec<u8>, Outcome>
    ensures { (w : Worker) → HasSizes w → AllStand w names.now →
        CameExplained (early_fault checked.now (state_of w names.now) expr.now) (steps_of (tree_of expr.now))
        (bytes_of result) }
{
    match explain(alloc, checked, names, expr) {
        Ok(steps) => match steps_text(alloc, steps.as_slice()) {
            Ok(text) => Ok(text),
            Err(NoMemory) => Err(Outcome::NoMemory),
        },
        Err(refused) => Err(outcome_of(refused)),
    }
}

/// Runs EXPLAIN: one read, and the steps of rewriting. Nothing is evaluated.
pub(crate) fn explained<E: Engine, W: Wait>(
    task: &Task<'_, E, W>,
    seat: &mut Seat<E>,
    expr: &Expr,
) -> Result<Told, NoMemory>
    requires seated { IsSeated E.worker task.now.book.now seat.old }
    ensures { (input : Input) (snaps : Kept) → KeptStand (E.worker seat.old.engine) snaps →
        DidItem E.least input task.now.checked.now task.now.by.session task.now.by.command
        (COMMAND (EXPLAIN expr.now)) (E.worker seat.old.engine) (E.worker seat.new.engine) seat.old.pass seat.new.pass
        snaps snaps result }
{
    // This use makes the checker open the invariant of the pass, which what follows needs.
    let _ = &seat.pass;
    let Ok(wanted) = names_in(task.alloc, expr) else {
        return Err(NoMemory);
    };
    let view = match read_turn(task, seat, Some(wanted.as_slice())) {
        Ok(view) => view,
        Err(lack) => return Err(lack),
    };
    match explained_on(task.alloc, task.checked, view.names.as_slice(), expr) {
        Ok(body) => Ok(Told {
            outcome: Outcome::Done,
            reply: Reply::Told {
                session: task.by.session,
                command: task.by.command,
                body,
            },
            save: None,
        }),
        Err(outcome) => refused(task.alloc, task.by, outcome),
    }
}
