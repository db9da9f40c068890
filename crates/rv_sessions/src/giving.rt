//! LET and REL, the commands that assign a name the value of an expression or a listed relation.
ghost use Rattle.std.specs.Prelude.{◌≡◌, ◌≤◌, None};
ghost use Rattle.rel_model.specs.Relation.{size_limit};
ghost use Rattle.run_model.specs.Due.{listing_over};
ghost use Rattle.rel_model.specs.Worker.{Keeps};
ghost use Rattle.lang_model.specs.declared.syntax.Script.{Script as SCRIPT};
ghost use Rattle.lang_model.specs.declared.syntax.Item.TheVariants.{Command as COMMAND};
ghost use Rattle.lang_model.specs.declared.syntax.Command.TheVariants.{Let as LET, Relation as RELATION};
ghost use Rattle.run_model.specs.Inputs.{Input};
ghost use Rattle.turn_book.specs.Views.{IsKept};
ghost use Rattle.rv_sessions.specs.Seated.{IsSeated};
ghost use Rattle.rv_sessions.specs.Acting.{ValuedInTurn, DidItem};
ghost use Rattle.rv_sessions.specs.Standing.{Kept, KeptStand};

use crate::listing::{first_over, listed};
use crate::seat::Seat;
use crate::task::Task;
use crate::told::{Told, refused};
use crate::turns::{assign_turn, read_turn};
use crate::value::value_on;
use lang_model::syntax::{Expr, Name, Place, Row};
use rel_model::engine_trait::Engine;
use rel_model::{Lack, NoMemory, Rel, Shape};
use rel_slices::Remembers;
use run_model::outcome::Outcome;
use rv_blocks::names_in;
use std::sync::Wait;

/// Reads the names of an expression in a turn, and then evaluates it.
fn value_in_turn<E: Remembers, W: Wait>(
    task: &Task<'_, E, W>,
    seat: &mut Seat<E>,
    expr: &Expr,
) -> Result<Rel, Outcome>
    requires seated { IsSeated E.worker task.now.book.now seat.old }
    ensures value { (input : Input) → input.turns ≡ task.now.turns →
        ValuedInTurn E.least input task.now.checked.now task.now.by.session task.now.by.command expr.now
        (E.worker seat.old.engine) (E.worker seat.new.engine) seat.old.pass seat.new.pass result }
    ensures kept { IsKept seat.old.pass seat.new.pass }
    ensures keeps { Keeps (E.worker seat.old.engine) (E.worker seat.new.engine) }
{
    let _ = &seat.pass;
    let Ok(wanted) = names_in(task.alloc, expr) else {
        return Err(Outcome::NoMemory);
    };
    match read_turn(task, seat, Some(wanted.as_slice())) {
        Ok(view) => value_on(task, &mut seat.engine, view.names.as_slice(), expr),
        Err(NoMemory) => Err(Outcome::NoMemory),
    }
}

/// Runs LET: one read, then the assignment of the value.
pub(crate) fn let_value<E: Remembers, W: Wait>(
    task: &Task<'_, E, W>,
    seat: &mut Seat<E>,
    name: &Name,
    expr: &Expr,
) -> Result<Told, NoMemory>
    requires seated { IsSeated E.worker task.now.book.now seat.old }
    ensures { (input : Input) (snaps : Kept) → input.turns ≡ task.now.turns →
        KeptStand (E.worker seat.old.engine) snaps → DidItem E.least input task.now.checked.now task.now.by.session
        task.now.by.command (COMMAND (LET name.now expr.now)) (E.worker seat.old.engine) (E.worker seat.new.engine)
        seat.old.pass seat.new.pass snaps snaps result }
{
    let _ = &seat.pass;
    let Ok(own) = name.copied(task.alloc) else {
        return Err(NoMemory);
    };
    let rel = match value_in_turn(task, seat, expr) {
        Ok(rel) => rel,
        Err(outcome) => return refused(task.alloc, task.by, outcome),
    };
    match assign_turn(task, seat, own, rel) {
        Ok(()) => Ok(Told::done()),
        Err(lack) => Err(lack),
    }
}

/// Assigns a name the listed relation. All its numbers are within their limits.
fn listed_relation<E: Engine, W: Wait>(
    task: &Task<'_, E, W>,
    seat: &mut Seat<E>,
    name: &Name,
    rows: u64,
    rows_at: Place,
    cols: u64,
    cols_at: Place,
    list: &Vec<Row>,
) -> Result<Told, NoMemory>
    requires seated { IsSeated E.worker task.now.book.now seat.old }
    requires within { listing_over rows rows_at cols cols_at list.now.items ≡ None }
    requires row_limit { rows ≤ size_limit }
    requires col_limit { cols ≤ size_limit }
    ensures { (input : Input) (script : SCRIPT) (snaps : Kept) → KeptStand (E.worker seat.old.engine) snaps →
        DidItem E.least input script task.now.by.session task.now.by.command
        (COMMAND (RELATION name.now rows rows_at cols cols_at list.now)) (E.worker seat.old.engine)
        (E.worker seat.new.engine) seat.old.pass seat.new.pass snaps snaps result }
{
    let _ = &seat.pass;
    let _ = seat.engine.bottom();
    let Ok(own) = name.copied(task.alloc) else {
        return Err(NoMemory);
    };
    let shape = Shape {
        rows: rows as u32,
        cols: cols as u32,
    };
    match listed(task.alloc, &mut seat.engine, shape, list.as_slice()) {
        Ok(rel) => match assign_turn(task, seat, own, rel) {
            Ok(()) => Ok(Told::done()),
            Err(lack) => Err(lack),
        },
        Err(Lack::Full) => refused(task.alloc, task.by, Outcome::Nodes),
        Err(Lack::NoMemory) => Err(NoMemory),
    }
}

/// Runs REL: assigns the listed relation, or refuses the first number that is over its limit.
pub(crate) fn relation<E: Engine, W: Wait>(
    task: &Task<'_, E, W>,
    seat: &mut Seat<E>,
    name: &Name,
    rows: u64,
    rows_at: Place,
    cols: u64,
    cols_at: Place,
    list: &Vec<Row>,
) -> Result<Told, NoMemory>
    requires seated { IsSeated E.worker task.now.book.now seat.old }
    ensures { (input : Input) (script : SCRIPT) (snaps : Kept) → KeptStand (E.worker seat.old.engine) snaps →
        DidItem E.least input script task.now.by.session task.now.by.command
        (COMMAND (RELATION name.now rows rows_at cols cols_at list.now)) (E.worker seat.old.engine)
        (E.worker seat.new.engine) seat.old.pass seat.new.pass snaps snaps result }
{
    let _ = &seat.pass;
    match first_over(rows, rows_at, cols, cols_at, list.as_slice()) {
        Some(outcome) => refused(task.alloc, task.by, outcome),
        None => { listed_relation(task, seat, name, rows, rows_at, cols, cols_at, list) }
    }
}
