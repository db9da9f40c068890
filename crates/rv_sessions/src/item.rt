//! One item of a script.
ghost use Rattle.std.specs.Prelude.{◌≡◌};
ghost use Rattle.rv_sessions.specs.Seated.{IsSeated};
ghost use Rattle.rv_sessions.specs.Acting.{DidItem};
ghost use Rattle.rv_sessions.specs.Standing.{KeptStand};
ghost use Rattle.rv_sessions.specs.Telling.{input_of};
ghost use Rattle.lang_model.specs.declared.syntax.Item.TheVariants.{Command as COMMAND};

use crate::block::atomic;
use crate::dropping::{drop_name, show_at, snap};
use crate::explain::explained;
use crate::form::Form;
use crate::giving::{let_value, relation};
use crate::loading::{load, load_all};
use crate::saving::save_all;
use crate::seat::Seat;
use crate::showing::{save, show};
use crate::snapshots::Snapshots;
use crate::task::Task;
use crate::told::Told;
use lang_model::syntax::{Command, Item};
use rel_model::NoMemory;
use rel_slices::Remembers;
use std::sync::Wait;

/// Runs a command.
fn run_command<E: Remembers, W: Wait>(
    task: &Task<'_, E, W>,
    seat: &mut Seat<E>,
    snaps: &mut Snapshots,
    command: &Command,
) -> Result<Told, NoMemory>
    requires seated { IsSeated E.worker task.now.book.now seat.old }
    requires stood { KeptStand (E.worker seat.old.engine) snaps.old }
    ensures { DidItem E.least (input_of task.now.files.now task.now.turns) task.now.checked.now task.now.by.session
        task.now.by.command (COMMAND command.now) (E.worker seat.old.engine) (E.worker seat.new.engine) seat.old.pass
        seat.new.pass snaps.old snaps.new result }
{
    match command {
        Command::Relation {
            name,
            rows,
            rows_at,
            cols,
            cols_at,
            list,
        } => relation(task, seat, name, *rows, *rows_at, *cols, *cols_at, list),
        Command::Let { name, value } => let_value(task, seat, name, value),
        Command::Print { value } => show(task, seat, Form::Matrix, value),
        Command::List { value } => show(task, seat, Form::Listing, value),
        Command::Count { value } => show(task, seat, Form::Count, value),
        Command::Typed { value } => show(task, seat, Form::Typed, value),
        Command::Remove { at, name } => drop_name(task, seat, *at, name),
        Command::Snap { name } => snap(task, seat, snaps, name),
        Command::At { at, name, value } => show_at(task, &mut seat.engine, snaps, *at, name, value),
        Command::Load { name, file } => load(task, seat, name, file),
        Command::Save { value, file } => save(task, seat, value, file),
        Command::LoadAll { file } => load_all(task, seat, file),
        Command::SaveAll { file } => save_all(task, seat, file),
        Command::Atomic { lets } => atomic(task, seat, lets),
        Command::Explain { value } => explained(task, seat, value),
    }
}

/// Runs an item. For a definition there is nothing to do: it is done at once.
pub(crate) fn run_item<E: Remembers, W: Wait>(
    task: &Task<'_, E, W>,
    seat: &mut Seat<E>,
    snaps: &mut Snapshots,
    item: &Item,
) -> Result<Told, NoMemory>
    requires seated { IsSeated E.worker task.now.book.now seat.old }
    requires stood { KeptStand (E.worker seat.old.engine) snaps.old }
    ensures { DidItem E.least (input_of task.now.files.now task.now.turns) task.now.checked.now task.now.by.session
        task.now.by.command item.now (E.worker seat.old.engine) (E.worker seat.new.engine) seat.old.pass seat.new.pass
        snaps.old snaps.new result }
{
    let _ = &seat.pass;
    let _ = &snaps;
    match item {
        Item::Command(command) => run_command(task, seat, snaps, command),
        Item::Function { .. } => Ok(Told::done()),
        Item::Program { .. } => Ok(Told::done()),
    }
}
