//! The turns of commands: each takes the book, does one thing with it, and puts it back.
ghost use Rattle.std.specs.Prelude.{◌≡◌, map, All, IfOk};
ghost use Rattle.std.specs.Option.{option_map};
ghost use Rattle.rel_model.specs.Worker.{Stands};
ghost use Rattle.rv_sessions.specs.Seated.{IsSeated};
ghost use Rattle.rv_workspace.specs.Books.{versions_of};
ghost use Rattle.rv_sessions.specs.Turning.{ReadTurn, BlockTurn, AssignTurn, AssignAllTurn, CommitTurn, DropTurn};

use crate::seat::Seat;
use crate::task::Task;
use lang_model::syntax::Name;
use rel_model::engine_trait::Engine;
use rel_model::{NoMemory, Rel};
use rv_workspace::{Book, CommitRefused, DropRefused, View};
use std::alloc::Global;
use std::sync::Wait;

/// Reads the wanted names, or all of them.
pub(crate) fn read_turn<E: Engine, W: Wait>(
    task: &Task<'_, E, W>,
    seat: &mut Seat<E>,
    wanted: Option<&[Name]>,
) -> Result<View, NoMemory>
    requires seated { IsSeated E.worker task.now.book.now seat.old }
    ensures read { ReadTurn task.now.by.session task.now.by.command (option_map (λ x. x.now) wanted.entry)
        (E.worker seat.old.engine) (E.worker seat.new.engine) seat.old.pass seat.new.pass result }
{
    let mut taken = task.book.take(task.wait, &mut seat.pass);
    let _ = taken.history();
    let view = taken.read(
        task.alloc,
        task.by.session,
        task.by.command,
        wanted,
        &mut seat.engine,
    );
    task.book.put(&mut seat.pass, taken);
    view
}

/// Assigns a name its relation.
pub(crate) fn assign_turn<E: Engine, W: Wait>(
    task: &Task<'_, E, W>,
    seat: &mut Seat<E>,
    name: Name,
    rel: Rel,
) -> Result<(), NoMemory>
    requires seated { IsSeated E.worker task.now.book.now seat.old }
    requires stands { Stands (E.worker seat.old.engine) rel }
    ensures assigned { AssignTurn task.now.by.session task.now.by.command name rel (E.worker seat.old.engine)
        (E.worker seat.new.engine) seat.old.pass seat.new.pass result }
{
    let mut taken = task.book.take(task.wait, &mut seat.pass);
    let _ = taken.history();
    let assigned = taken.assign(
        task.alloc,
        task.by.session,
        task.by.command,
        name,
        rel,
        &mut seat.engine,
    );
    task.book.put(&mut seat.pass, taken);
    assigned
}

/// Assigns each name of a list its relation.
pub(crate) fn assign_all_turn<E: Engine, W: Wait>(
    task: &Task<'_, E, W>,
    seat: &mut Seat<E>,
    list: Vec<(Name, Rel)>,
) -> Result<(), NoMemory>
    requires seated { IsSeated E.worker task.now.book.now seat.old }
    requires stand { All (λ gift. Stands (E.worker seat.old.engine) gift.1) list.items }
    ensures assigned { AssignAllTurn task.now.by.session task.now.by.command list.items (E.worker seat.old.engine)
        (E.worker seat.new.engine) seat.old.pass seat.new.pass result }
{
    let mut taken = task.book.take(task.wait, &mut seat.pass);
    let _ = taken.history();
    let assigned = taken.assign_all(
        task.alloc,
        task.by.session,
        task.by.command,
        list,
        &mut seat.engine,
    );
    task.book.put(&mut seat.pass, taken);
    assigned
}

/// Removes a name. The worker learns the relations of names.
pub(crate) fn drop_turn<E: Engine, W: Wait>(
    task: &Task<'_, E, W>,
    seat: &mut Seat<E>,
    name: &Name,
) -> Result<(), DropRefused>
    requires seated { IsSeated E.worker task.now.book.now seat.old }
    ensures dropped { DropTurn task.now.by.session task.now.by.command name.now (E.worker seat.old.engine)
        (E.worker seat.new.engine) seat.old.pass seat.new.pass result }
{
    let mut taken = task.book.take(task.wait, &mut seat.pass);
    let _ = taken.history();
    taken.teach(&mut seat.engine);
    let dropped = taken.drop_name(task.alloc, task.by.session, task.by.command, name);
    task.book.put(&mut seat.pass, taken);
    dropped
}

/// What a block read: its names with their relations, and the version of each name that it reads. On the heap.
#[derive(Drop)]
pub(crate) struct BlockView {
    pub(crate) names: Vec<(Name, Rel)>,
    pub(crate) versions: Vec<(Name, u64)>,
}

/// Names with their versions.
fn with_versions<E: Engine>(
    alloc: Global,
    book: &Book<E>,
    names: Vec<Name>,
) -> Result<Vec<(Name, u64)>, NoMemory>
    ensures { IfOk result (λ v. v.items ≡ map (λ name. (name, versions_of book.now name)) names.items) }
{
    let mut versions = Vec::new(alloc);
    'names: for name in names {
        let number = book.version(&name);
        versions.push((name, number))?;
    }
    Ok(versions)
}

/// Reads the names of a block, with the version of each.
pub(crate) fn block_turn<E: Engine, W: Wait>(
    task: &Task<'_, E, W>,
    seat: &mut Seat<E>,
    reads: Vec<Name>,
) -> Result<BlockView, NoMemory>
    requires seated { IsSeated E.worker task.now.book.now seat.old }
    ensures read { BlockTurn task.now.by.session task.now.by.command reads.items (E.worker seat.old.engine)
        (E.worker seat.new.engine) seat.old.pass seat.new.pass result }
{
    let mut taken = task.book.take(task.wait, &mut seat.pass);
    let _ = taken.history();
    let view = taken.read(
        task.alloc,
        task.by.session,
        task.by.command,
        Some(reads.as_slice()),
        &mut seat.engine,
    );
    let versions = with_versions(task.alloc, &taken, reads);
    task.book.put(&mut seat.pass, taken);
    match view {
        Ok(View { names }) => match versions {
            Ok(versions) => Ok(BlockView { names, versions }),
            Err(lack) => Err(lack),
        },
        Err(lack) => Err(lack),
    }
}

/// Makes the assignments of a block, if no name that it read has another version.
pub(crate) fn commit_turn<E: Engine, W: Wait>(
    task: &Task<'_, E, W>,
    seat: &mut Seat<E>,
    reads: &[(Name, u64)],
    list: Vec<(Name, Rel)>,
) -> Result<(), CommitRefused>
    requires seated { IsSeated E.worker task.now.book.now seat.old }
    requires stand { All (λ gift. Stands (E.worker seat.old.engine) gift.1) list.items }
    ensures committed { CommitTurn task.now.by.session task.now.by.command reads.now list.items
        (E.worker seat.old.engine) (E.worker seat.new.engine) seat.old.pass seat.new.pass result }
{
    let mut taken = task.book.take(task.wait, &mut seat.pass);
    let _ = taken.history();
    let committed = taken.commit(
        task.alloc,
        task.by.session,
        task.by.command,
        reads,
        list,
        &mut seat.engine,
    );
    task.book.put(&mut seat.pass, taken);
    committed
}
