//! Laws of blocks, each the contract of a function with an empty body.
ghost use Rattle.leaf_block.specs.Blocks.{EmptyIsZero, UnionIsOr, InterIsAnd, DiffIsAndNot, SameCellsSameBlock, BlockIsWithin, SetHasBlock};

/// The block 0 has no cell.
pub fn empty_is_zero()
    ensures { EmptyIsZero }
{}

/// The bitwise or of two blocks has the union of their cells.
pub fn union_is_or()
    ensures { UnionIsOr }
{}

/// The bitwise and of two blocks has the intersection of their cells.
pub fn inter_is_and()
    ensures { InterIsAnd }
{}

/// The word `a & !b` has the cells of `a` that are not in `b`.
pub fn diff_is_and_not()
    ensures { DiffIsAndNot }
{}

/// Two blocks are equal if and only if their sets are.
pub fn same_cells_same_block()
    ensures { SameCellsSameBlock }
{}

/// The cells of a block lie in 8 rows and 8 columns.
pub fn block_is_within()
    ensures { BlockIsWithin }
{}

/// Every set within 8 rows and 8 columns is the set of some block.
pub fn set_has_block()
    ensures { SetHasBlock }
{}
