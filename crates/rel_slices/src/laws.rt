//! Laws about the rooms of values. Each is a function with an empty body.
ghost use Rattle.rel_slices.specs.ValueRooms.{pieces_room, complement_room, transpose_room};
ghost use Rattle.rel_slices.specs.Fits.{PiecesMost, PiecesFit, ComplementFits, WithinCost, FormedFits, AssemblyFits};

/// Whatever the leaves, an operator applied piece by piece makes at most one tree of its operand's sizes for each line
/// that a relation may have.
pub fn pieces_are_few_trees()
    ensures { PiecesMost }
{}

/// Over leaves of 8 by 8 and for a height whose side is at least both sizes, an operator applied piece by piece makes
/// at most `7 / 2 * 4 ^ h` nodes, and a complement at most `4 * 4 ^ h`.
pub fn rooms_by_height()
    ensures pieces { PiecesFit }
    ensures complement { ComplementFits }
{}

/// Over leaves of 8 by 8, an operator applied piece by piece, a complement and a transposition each make no more nodes
/// than the language charges for an operator of these sizes.
pub fn costs_of_operators()
    ensures pieces { WithinCost (pieces_room 3) }
    ensures complement { WithinCost (complement_room 3) }
    ensures transpose { WithinCost (transpose_room 3) }
{}

/// Over leaves of 8 by 8, converting from one form to the other makes at most a quarter as many nodes as there are
/// cells in the smallest square that holds the relation.
pub fn forms_by_height()
    ensures formed { FormedFits }
    ensures assembly { AssemblyFits }
{}
