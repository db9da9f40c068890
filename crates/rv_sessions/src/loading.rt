//! The commands that load relations from files.
ghost use Rattle.std.specs.Prelude.{◌≡◌, ℕ, List, map, Some};
ghost use Rattle.lang_model.specs.declared.syntax.Script.{Script as SCRIPT};
ghost use Rattle.lang_model.specs.declared.syntax.Item.TheVariants.{Command as COMMAND};
ghost use Rattle.lang_model.specs.declared.syntax.Command.TheVariants.{Load as LOAD, LoadAll as LOAD_ALL};
ghost use Rattle.rel_model.specs.Worker.{Keeps, MakesAtMost};
ghost use Rattle.run_model.specs.Cost.{where_value, where_values, cost_of_loaded, cost_of_gifts};
ghost use Rattle.run_model.specs.Filed.{file_of};
ghost use Rattle.run_model.specs.Inputs.{Input, file_named};
ghost use Rattle.run_model.specs.declared.outcome.Outcome.TheVariants.{NoFile as NO_FILE, BadFile as BAD_FILE};
ghost use Rattle.rv_sessions.specs.Seated.{IsSeated};
ghost use Rattle.rv_sessions.specs.Acting.{DidItem};
ghost use Rattle.rv_sessions.specs.Reading.{lack_in, outcome_of_file, ReadOne, ReadAll, due_of_one_in, due_of_all_in};
ghost use Rattle.rv_sessions.specs.Standing.{Kept, KeptStand};
ghost use Rattle.rv_sessions.specs.Telling.{TellsRefusal};

use crate::by::By;
use crate::files::file_named;
use crate::seat::Seat;
use crate::task::Task;
use crate::told::{Told, refused};
use crate::turns::{assign_all_turn, assign_turn};
use k2_file::read_k2;
use k2_parts::begins_shared;
use k2_read::{read_k2_all, read_k2_named};
use lang_model::syntax::{FileText, Name};
use rel_model::engine_trait::Engine;
use rel_model::{Lack, NoMemory, Rel};
use run_model::outcome::{BadFile, Outcome};
use std::alloc::Global;
use std::sync::Wait;

/// What ran out, if bytes were not read although they have no fault.
fn lack_of(kind: BadFile) -> Option<Lack>
    ensures { result ≡ lack_in kind }
{
    match kind {
        BadFile::Full => Some(Lack::Full),
        BadFile::NoMemory => Some(Lack::NoMemory),
        BadFile::Short => None,
        BadFile::Magic => None,
        BadFile::Sizes => None,
        BadFile::Height => None,
        BadFile::Lengths => None,
        BadFile::ZeroGroup { .. } => None,
        BadFile::Outside { .. } => None,
        BadFile::Padding => None,
        BadFile::Rest => None,
        BadFile::Quad { .. } => None,
        BadFile::Names { .. } => None,
        BadFile::Root { .. } => None,
        BadFile::Order { .. } => None,
        BadFile::Missing => None,
    }
}

/// The refusal of a file whose bytes fail a test.
fn bad_file(alloc: Global, by: By, file: &FileText, kind: BadFile) -> Result<Told, NoMemory>
    ensures { TellsRefusal by.session by.command (BAD_FILE file.now kind) result }
{
    let name = file.copied(alloc)?;
    refused(alloc, by, Outcome::BadFile { name, kind })
}

/// The refusal of a file that was not read.
fn not_read(alloc: Global, by: By, file: &FileText, kind: BadFile) -> Result<Told, NoMemory>
    ensures { TellsRefusal by.session by.command (outcome_of_file file.now kind (lack_in kind)) result }
{
    match lack_of(kind) {
        Some(Lack::Full) => refused(alloc, by, Outcome::Nodes),
        Some(Lack::NoMemory) => Err(NoMemory),
        None => bad_file(alloc, by, file, kind),
    }
}

/// The relation of a file's bytes. If they begin like a file of several relations, the one with this name is read.
fn read_one<E: Engine>(
    alloc: Global,
    engine: &mut E,
    name: &Name,
    bytes: &[u8],
) -> Result<Rel, BadFile>
    ensures read { ReadOne (due_of_one_in name.now bytes.now) (E.worker engine.old) (E.worker engine.new) result }
    ensures keeps { Keeps (E.worker engine.old) (E.worker engine.new) }
    ensures room { (file : List ℕ) →
        MakesAtMost (where_value (due_of_one_in name.now bytes.now file) (cost_of_loaded E.least)) (E.worker engine.old)
        (E.worker engine.new) }
{
    if begins_shared(bytes) {
        return read_k2_named(alloc, engine, bytes, name);
    }
    read_k2(alloc, engine, bytes)
}

/// All relations of a file's bytes, each with its name.
fn read_all<E: Engine>(
    alloc: Global,
    engine: &mut E,
    bytes: &[u8],
) -> Result<Vec<(Name, Rel)>, BadFile>
    ensures read { ReadAll (due_of_all_in bytes.now) (E.worker engine.old) (E.worker engine.new) result }
    ensures keeps { Keeps (E.worker engine.old) (E.worker engine.new) }
    ensures room { (file : List ℕ) →
        MakesAtMost (where_values (due_of_all_in bytes.now file) (cost_of_gifts E.least)) (E.worker engine.old)
        (E.worker engine.new) }
{
    read_k2_all(alloc, engine, bytes)
}

/// Assigns a name the relation of a file's bytes.
fn loaded<E: Engine, W: Wait>(
    task: &Task<'_, E, W>,
    seat: &mut Seat<E>,
    name: &Name,
    file: &FileText,
    bytes: &[u8],
) -> Result<Told, NoMemory>
    requires seated { IsSeated E.worker task.now.book.now seat.old }
    ensures { (input : Input) (script : SCRIPT) (snaps : Kept) →
        file_named input.files file.now ≡ Some bytes.now → KeptStand (E.worker seat.old.engine) snaps →
        DidItem E.least input script task.now.by.session task.now.by.command (COMMAND (LOAD name.now file.now))
        (E.worker seat.old.engine) (E.worker seat.new.engine) seat.old.pass seat.new.pass snaps snaps result }
{
    let _ = &seat.pass;
    let _ = seat.engine.bottom();
    let Ok(own) = name.copied(task.alloc) else {
        return Err(NoMemory);
    };
    let rel = match read_one(task.alloc, &mut seat.engine, name, bytes) {
        Ok(rel) => rel,
        Err(kind) => return not_read(task.alloc, task.by, file, kind),
    };
    match assign_turn(task, seat, own, rel) {
        Ok(()) => Ok(Told::done()),
        Err(lack) => Err(lack),
    }
}

/// Assigns each name in a file's bytes its relation.
fn loaded_all<E: Engine, W: Wait>(
    task: &Task<'_, E, W>,
    seat: &mut Seat<E>,
    file: &FileText,
    bytes: &[u8],
) -> Result<Told, NoMemory>
    requires seated { IsSeated E.worker task.now.book.now seat.old }
    ensures { (input : Input) (script : SCRIPT) (snaps : Kept) →
        file_named input.files file.now ≡ Some bytes.now → KeptStand (E.worker seat.old.engine) snaps →
        DidItem E.least input script task.now.by.session task.now.by.command (COMMAND (LOAD_ALL file.now))
        (E.worker seat.old.engine) (E.worker seat.new.engine) seat.old.pass seat.new.pass snaps snaps result }
{
    let _ = &seat.pass;
    let _ = seat.engine.bottom();
    let list = match read_all(task.alloc, &mut seat.engine, bytes) {
        Ok(list) => list,
        Err(kind) => return not_read(task.alloc, task.by, file, kind),
    };
    match assign_all_turn(task, seat, list) {
        Ok(()) => Ok(Told::done()),
        Err(lack) => Err(lack),
    }
}

/// The refusal of a name for which there is no file.
fn no_file(alloc: Global, by: By, file: &FileText) -> Result<Told, NoMemory>
    ensures { TellsRefusal by.session by.command (NO_FILE file.now) result }
{
    let name = file.copied(alloc)?;
    refused(alloc, by, Outcome::NoFile { name })
}

/// Runs LOAD: assigns the relation of the first file of a name.
pub(crate) fn load<E: Engine, W: Wait>(
    task: &Task<'_, E, W>,
    seat: &mut Seat<E>,
    name: &Name,
    file: &FileText,
) -> Result<Told, NoMemory>
    requires seated { IsSeated E.worker task.now.book.now seat.old }
    ensures { (input : Input) (script : SCRIPT) (snaps : Kept) →
        input.files ≡ map file_of task.now.files.now → KeptStand (E.worker seat.old.engine) snaps →
        DidItem E.least input script task.now.by.session task.now.by.command (COMMAND (LOAD name.now file.now))
        (E.worker seat.old.engine) (E.worker seat.new.engine) seat.old.pass seat.new.pass snaps snaps result }
{
    let _ = &seat.pass;
    match file_named(task.files, file.bytes()) {
        Some(bytes) => loaded(task, seat, name, file, bytes),
        None => no_file(task.alloc, task.by, file),
    }
}

/// Runs LOAD ALL: assigns all relations of the first file of a name, in one turn.
pub(crate) fn load_all<E: Engine, W: Wait>(
    task: &Task<'_, E, W>,
    seat: &mut Seat<E>,
    file: &FileText,
) -> Result<Told, NoMemory>
    requires seated { IsSeated E.worker task.now.book.now seat.old }
    ensures { (input : Input) (script : SCRIPT) (snaps : Kept) →
        input.files ≡ map file_of task.now.files.now → KeptStand (E.worker seat.old.engine) snaps →
        DidItem E.least input script task.now.by.session task.now.by.command (COMMAND (LOAD_ALL file.now))
        (E.worker seat.old.engine) (E.worker seat.new.engine) seat.old.pass seat.new.pass snaps snaps result }
{
    let _ = &seat.pass;
    match file_named(task.files, file.bytes()) {
        Some(bytes) => loaded_all(task, seat, file, bytes),
        None => no_file(task.alloc, task.by, file),
    }
}
