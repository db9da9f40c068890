//! DROP, and SNAP and AT, the two commands of snapshots.
ghost use Rattle.std.specs.Prelude.{◌≡◌, ℕ, List, Some, IfOk};
ghost use Rattle.std.specs.Option.{option_map};
ghost use Rattle.lang_model.specs.declared.faults.TypeFault.TheVariants.{Unknown as UNKNOWN};
ghost use Rattle.run_model.specs.declared.outcome.Outcome.TheVariants.{Ill as ILL};
ghost use Rattle.lang_model.specs.declared.syntax.Place.{Place as PLACE};
ghost use Rattle.run_model.specs.Names.{lookup};
ghost use Rattle.lang_model.specs.declared.syntax.Script.{Script as SCRIPT};
ghost use Rattle.lang_model.specs.declared.syntax.Item.TheVariants.{Command as COMMAND};
ghost use Rattle.lang_model.specs.declared.syntax.Command.TheVariants.{Remove as DROP, Snap as SNAP, At as AT};
ghost use Rattle.run_model.specs.Inputs.{Input};
ghost use Rattle.turn_book.specs.Views.{View as PASS};
ghost use Rattle.rv_sessions.specs.Seated.{IsSeated};
ghost use Rattle.rv_sessions.specs.Acting.{DidItem};
ghost use Rattle.rv_sessions.specs.Standing.{Kept, KeptStand};
ghost use Rattle.rv_workspace.specs.Books.{AllNamesStand};
ghost use Rattle.rv_sessions.specs.Telling.{TellsRefusal};

use crate::by::By;
use crate::form::Form;
use crate::seat::Seat;
use crate::snapshots::Snapshots;
use crate::task::Task;
use crate::told::{Told, refused};
use crate::transcript::Reply;
use crate::turns::{drop_turn, read_turn};
use crate::value::shown_on;
use lang_model::faults::TypeFault;
use lang_model::syntax::{Expr, Name, Place};
use rel_model::NoMemory;
use rel_model::engine_trait::Engine;
use rel_slices::Remembers;
use run_model::outcome::Outcome;
use rv_workspace::{DropRefused, View};
use std::alloc::Global;
use std::sync::Wait;

/// Runs DROP: removes a name. If there is no such name, the turn is a read.
pub(crate) fn drop_name<E: Engine, W: Wait>(
    task: &Task<'_, E, W>,
    seat: &mut Seat<E>,
    at: Place,
    name: &Name,
) -> Result<Told, NoMemory>
    requires seated { IsSeated E.worker task.now.book.now seat.old }
    ensures { (input : Input) (script : SCRIPT) (snaps : Kept) →
        KeptStand (E.worker seat.old.engine) snaps → DidItem E.least input script task.now.by.session
        task.now.by.command (COMMAND (DROP at name.now)) (E.worker seat.old.engine) (E.worker seat.new.engine)
        seat.old.pass seat.new.pass snaps snaps result }
{
    match drop_turn(task, seat, name) {
        Ok(()) => Ok(Told::done()),
        Err(DropRefused::Unknown { name }) => {
            refused(
                task.alloc,
                task.by,
                Outcome::Ill(TypeFault::Unknown { at, name }),
            )
        }
        Err(DropRefused::NoMemory) => Err(NoMemory),
    }
}

/// Runs SNAP: one read of all names, kept as a snapshot under a name.
pub(crate) fn snap<E: Engine, W: Wait>(
    task: &Task<'_, E, W>,
    seat: &mut Seat<E>,
    snaps: &mut Snapshots,
    name: &Name,
) -> Result<Told, NoMemory>
    requires seated { IsSeated E.worker task.now.book.now seat.old }
    requires stood { KeptStand (E.worker seat.old.engine) snaps.old }
    ensures { (input : Input) (script : SCRIPT) → DidItem E.least input script task.now.by.session task.now.by.command
        (COMMAND (SNAP name.now)) (E.worker seat.old.engine) (E.worker seat.new.engine) seat.old.pass seat.new.pass
        snaps.old snaps.new result }
{
    let _ = &seat.pass;
    let _ = &snaps;
    let Ok(own) = name.copied(task.alloc) else {
        return Err(NoMemory);
    };
    let view = match read_turn(task, seat, None) {
        Ok(view) => view,
        Err(lack) => return Err(lack),
    };
    match snaps.keep(own, view) {
        Ok(()) => Ok(Told::done()),
        Err(lack) => Err(lack),
    }
}

/// The matrix of an expression's value over the names of a snapshot.
fn show_kept<E: Remembers, W>(
    task: &Task<'_, E, W>,
    engine: &mut E,
    view: &View,
    expr: &Expr,
) -> Result<Told, NoMemory>
    requires stood { AllNamesStand (E.worker engine.old) view.now.names.items }
    ensures { (input : Input) (pass : PASS) (snaps : Kept) (at : PLACE) (name : List ℕ) →
        input.turns ≡ task.now.turns → KeptStand (E.worker engine.old) snaps →
        lookup snaps name ≡ Some view.now.names.items → DidItem E.least input task.now.checked.now task.now.by.session
        task.now.by.command (COMMAND (AT at name expr.now)) (E.worker engine.old) (E.worker engine.new) pass pass
        snaps snaps result }
{
    match shown_on(task, engine, view.names.as_slice(), Form::Matrix, expr) {
        Ok(body) => Ok(Told {
            outcome: Outcome::Done,
            reply: Reply::Told {
                session: task.by.session,
                command: task.by.command,
                body,
            },
            save: None,
        }),
        Err(outcome) => refused(task.alloc, task.by, outcome),
    }
}

/// The refusal of a name that is not known.
fn unknown(alloc: Global, by: By, at: Place, name: &Name) -> Result<Told, NoMemory>
    ensures { TellsRefusal by.session by.command (ILL (UNKNOWN at name.now)) result }
{
    let name = name.copied(alloc)?;
    refused(alloc, by, Outcome::Ill(TypeFault::Unknown { at, name }))
}

/// Runs AT: the matrix of an expression's value over a snapshot. It takes no turn.
pub(crate) fn show_at<E: Remembers, W>(
    task: &Task<'_, E, W>,
    engine: &mut E,
    snaps: &Snapshots,
    at: Place,
    name: &Name,
    expr: &Expr,
) -> Result<Told, NoMemory>
    requires stood { KeptStand (E.worker engine.old) snaps.now }
    ensures { (input : Input) (pass : PASS) → input.turns ≡ task.now.turns →
        DidItem E.least input task.now.checked.now task.now.by.session task.now.by.command
        (COMMAND (AT at name.now expr.now)) (E.worker engine.old) (E.worker engine.new) pass pass snaps.now snaps.now
        result }
{
    let _ = engine.bottom();
    match snaps.get(name) {
        Some(view) => show_kept(task, engine, view, expr),
        None => unknown(task.alloc, task.by, at, name),
    }
}
