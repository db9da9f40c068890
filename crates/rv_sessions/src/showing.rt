//! The commands that show or save a value.
ghost use Rattle.std.specs.Prelude.{◌≡◌, ◌++◌, ◌∷◌, [], ◌≢◌};
ghost use Rattle.rel_model.specs.Worker.{Keeps};
ghost use Rattle.lang_model.specs.declared.syntax.Item.{Item as ITEM};
ghost use Rattle.run_model.specs.Inputs.{Input};
ghost use Rattle.rv_sessions.specs.Seated.{IsSeated};
ghost use Rattle.rv_sessions.specs.declared.form.Form.TheVariants.{File as FILE};
ghost use Rattle.rv_sessions.specs.Acting.{ShownInTurn, IsValueItem, DidItem};
ghost use Rattle.rv_sessions.specs.Showing.{wanted_in, bytes_in};
ghost use Rattle.rv_sessions.specs.Standing.{Kept, KeptStand};
ghost use Rattle.rv_sessions.specs.Told.{bytes_of};

use crate::form::Form;
use crate::seat::Seat;
use crate::task::Task;
use crate::told::{Told, refused};
use crate::transcript::Reply;
use crate::turns::read_turn;
use crate::value::shown_on;
use lang_model::syntax::{Expr, FileText};
use rel_model::NoMemory;
use rel_slices::Remembers;
use run_model::files::Save;
use run_model::outcome::Outcome;
use rv_blocks::names_in;
use std::sync::Wait;

/// Reads the names of an expression in a turn, and then gives the bytes of its value in this form.
fn shown_in_turn<E: Remembers, W: Wait>(
    task: &Task<'_, E, W>,
    seat: &mut Seat<E>,
    form: Form,
    expr: &Expr,
) -> Result<Vec<u8>, Outcome>
    requires seated { IsSeated E.worker task.now.book.now seat.old }
    ensures { (input : Input) → input.turns ≡ task.now.turns →
        ShownInTurn E.least form input task.now.checked.now task.now.by.session task.now.by.command expr.now
        (E.worker seat.old.engine) (E.worker seat.new.engine) seat.old.pass seat.new.pass (bytes_of result) }
{
    let _ = &seat.pass;
    let Ok(wanted) = names_in(task.alloc, expr) else {
        return Err(Outcome::NoMemory);
    };
    match read_turn(task, seat, Some(wanted.as_slice())) {
        Ok(view) => shown_on(task, &mut seat.engine, view.names.as_slice(), form, expr),
        Err(NoMemory) => Err(Outcome::NoMemory),
    }
}

/// Runs PRINT, LIST, COUNT or TYPE: one read, then the value in its form.
pub(crate) fn show<E: Remembers, W: Wait>(
    task: &Task<'_, E, W>,
    seat: &mut Seat<E>,
    form: Form,
    expr: &Expr,
) -> Result<Told, NoMemory>
    requires seated { IsSeated E.worker task.now.book.now seat.old }
    ensures { (input : Input) (snaps : Kept) (item : ITEM) → input.turns ≡ task.now.turns →
        KeptStand (E.worker seat.old.engine) snaps → IsValueItem item expr.now (wanted_in form)
        (λ numbers r. numbers ++ bytes_in form r) (λ r. []) →
        DidItem E.least input task.now.checked.now task.now.by.session task.now.by.command item
        (E.worker seat.old.engine) (E.worker seat.new.engine) seat.old.pass seat.new.pass snaps snaps result }
{
    match shown_in_turn(task, seat, form, expr) {
        Ok(body) => Ok(Told {
            outcome: Outcome::Done,
            reply: Reply::Told {
                session: task.by.session,
                command: task.by.command,
                body,
            },
            save: None,
        }),
        Err(outcome) => refused(task.alloc, task.by, outcome),
    }
}

/// Runs SAVE: one read, then the bytes of the value's file.
pub(crate) fn save<E: Remembers, W: Wait>(
    task: &Task<'_, E, W>,
    seat: &mut Seat<E>,
    expr: &Expr,
    file: &FileText,
) -> Result<Told, NoMemory>
    requires seated { IsSeated E.worker task.now.book.now seat.old }
    ensures { (input : Input) (snaps : Kept) (item : ITEM) → input.turns ≡ task.now.turns →
        KeptStand (E.worker seat.old.engine) snaps → IsValueItem item expr.now (wanted_in FILE) (λ numbers r. [])
        (λ r. record { name = file.now; bytes = bytes_in FILE r } ∷ []) →
        DidItem E.least input task.now.checked.now task.now.by.session task.now.by.command item
        (E.worker seat.old.engine) (E.worker seat.new.engine) seat.old.pass seat.new.pass snaps snaps result }
{
    let _ = &seat.pass;
    let Ok(name) = file.copied(task.alloc) else {
        return Err(NoMemory);
    };
    let bytes = match shown_in_turn(task, seat, Form::File, expr) {
        Ok(bytes) => bytes,
        Err(outcome) => return refused(task.alloc, task.by, outcome),
    };
    Ok(Told {
        outcome: Outcome::Done,
        reply: Reply::Nothing,
        save: Some(Save { name, bytes }),
    })
}
