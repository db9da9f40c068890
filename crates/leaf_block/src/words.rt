//! Union, intersection and difference of blocks, each one operation on words.
ghost use Rattle.std.specs.Prelude.{◌≡◌};
ghost use Rattle.rel_model.specs.Cells.{block_cells, cells_union, cells_inter, cells_diff};

/// `{(i, j) : (i, j) in a or (i, j) in b}`: the union of two blocks.
#[inline]
pub fn block_union(a: u64, b: u64) -> u64
    ensures { block_cells result ≡ cells_union (block_cells a) (block_cells b) }
{
    a | b
}

/// `{(i, j) : (i, j) in a and (i, j) in b}`: the intersection of two blocks.
#[inline]
pub fn block_inter(a: u64, b: u64) -> u64
    ensures { block_cells result ≡ cells_inter (block_cells a) (block_cells b) }
{
    a & b
}

/// `{(i, j) : (i, j) in a and not (i, j) in b}`: the difference of two blocks.
#[inline]
pub fn block_diff(a: u64, b: u64) -> u64
    ensures { block_cells result ≡ cells_diff (block_cells a) (block_cells b) }
{
    a & !b
}
