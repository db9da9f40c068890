//! Laws of assignment on paths, each the contract of a function with an empty body.
ghost use Rattle.rv_types.specs.Paths.{AssignedOnEveryPath, UnassignedOnSomePath};

/// A variable counts as assigned after statements if and only if each path through them assigns it.
pub fn assigned_on_every_path()
    ensures { AssignedOnEveryPath }
{}

/// A variable counts as unassigned at a place if and only if some path that leads there does not assign it.
pub fn unassigned_on_some_path()
    ensures { UnassignedOnSomePath }
{}
