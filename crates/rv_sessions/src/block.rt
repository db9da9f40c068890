//! Blocks of assignments. They are all made at once if nothing that the block has read has changed.
ghost use Rattle.std.specs.Prelude.{◌≡◌};
ghost use Rattle.lang_model.specs.declared.syntax.Item.TheVariants.{Command as COMMAND};
ghost use Rattle.lang_model.specs.declared.syntax.Command.TheVariants.{Atomic as ATOMIC};
ghost use Rattle.run_model.specs.Inputs.{Input};
ghost use Rattle.rv_sessions.specs.Seated.{IsSeated};
ghost use Rattle.rv_eval.specs.Names.{AllStand, state_of};
ghost use Rattle.rv_sessions.specs.Acting.{DidItem};
ghost use Rattle.rv_sessions.specs.Blocking.{BlockCameOver, TellsRefusedCommit};
ghost use Rattle.rv_sessions.specs.Standing.{Kept, KeptStand};

use crate::by::By;
use crate::seat::Seat;
use crate::task::Task;
use crate::told::{Told, refused};
use crate::turns::{BlockView, block_turn, commit_turn};
use crate::value::value_on;
use lang_model::syntax::{Let, Name};
use rel_model::{NoMemory, Rel};
use rel_slices::Remembers;
use run_model::outcome::Outcome;
use rv_blocks::reads_of;
use rv_eval::set;
use rv_workspace::CommitRefused;
use std::alloc::Global;
use std::sync::Wait;

/// The values of a block's assignments, in order. Each is evaluated over the names as they were read and the values
/// before it. The first one without a value ends the block.
fn block_values<E: Remembers, W>(
    task: &Task<'_, E, W>,
    engine: &mut E,
    names: &mut Vec<(Name, Rel)>,
    lets: &[Let],
) -> Result<Vec<(Name, Rel)>, Outcome>
    requires standing { AllStand (E.worker engine.old) names.old.items }
    ensures { let w = E.worker engine.old in
        BlockCameOver E.least task.now.checked.now (state_of w names.old.items) lets.now task.now.turns w
        (E.worker engine.new) result }
{
    let mut gifts = Vec::new(task.alloc);
    'lets: for one in lets {
        let rel = match value_on(task, engine, names.as_slice(), &one.value) {
            Ok(rel) => rel,
            Err(outcome) => return Err(outcome),
        };
        let Ok(own) = one.name.copied(task.alloc) else {
            return Err(Outcome::NoMemory);
        };
        let Ok(()) = gifts.push((own, rel)) else {
            return Err(Outcome::NoMemory);
        };
        let Ok(()) = set(task.alloc, names, &one.name, rel) else {
            return Err(Outcome::NoMemory);
        };
    }
    Ok(gifts)
}

/// The answer to a block that was not committed.
fn not_committed(alloc: Global, by: By, why: CommitRefused) -> Result<Told, NoMemory>
    ensures { TellsRefusedCommit by.session by.command why result }
{
    match why {
        CommitRefused::Changed { name, seen, found } => {
            refused(alloc, by, Outcome::Changed { name, seen, found })
        }
        CommitRefused::NoMemory => Err(NoMemory),
    }
}

/// Runs ATOMIC: one read of the names that the block reads, with their versions; then the values; and then the commit,
/// which makes all assignments in one turn, or none if a version has changed.
pub(crate) fn atomic<E: Remembers, W: Wait>(
    task: &Task<'_, E, W>,
    seat: &mut Seat<E>,
    lets: &Vec<Let>,
) -> Result<Told, NoMemory>
    requires seated { IsSeated E.worker task.now.book.now seat.old }
    ensures { (input : Input) (snaps : Kept) → input.turns ≡ task.now.turns →
        KeptStand (E.worker seat.old.engine) snaps → DidItem E.least input task.now.checked.now task.now.by.session
        task.now.by.command (COMMAND (ATOMIC lets.now)) (E.worker seat.old.engine) (E.worker seat.new.engine)
        seat.old.pass seat.new.pass snaps snaps result }
{
    // This use makes the checker open the invariant of the pass, which what follows needs.
    let _ = &seat.pass;
    let Ok(reads) = reads_of(task.alloc, lets.as_slice()) else {
        return Err(NoMemory);
    };
    let view = match block_turn(task, seat, reads) {
        Ok(view) => view,
        Err(lack) => return Err(lack),
    };
    let BlockView {
        mut names,
        versions,
    } = view;
    let list = match block_values(task, &mut seat.engine, &mut names, lets.as_slice()) {
        Ok(list) => list,
        Err(outcome) => return refused(task.alloc, task.by, outcome),
    };
    match commit_turn(task, seat, versions.as_slice(), list) {
        Ok(()) => Ok(Told::done()),
        Err(why) => not_committed(task.alloc, task.by, why),
    }
}
