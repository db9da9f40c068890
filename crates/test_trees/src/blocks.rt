//! The kernels against plain loops over the cells.
ghost use Rattle.std.specs.Prelude.{◌<◌};

use leaf_block::{
    block_compose, block_diff, block_inter, block_rect, block_transpose, block_union,
};

const IDENTITY: u64 = 0x8040_2010_0804_0201;

fn cell(i: u32, j: u32) -> u64
    requires row { i < 8 }
    requires col { j < 8 }
{
    1 << (8 * i + j)
}

fn has(a: u64, i: u32, j: u32) -> bool
    requires row { i < 8 }
    requires col { j < 8 }
{
    a & cell(i, j) != 0
}

fn composed(a: u64, b: u64) -> u64 {
    let mut all = 0;
    for i in 0..8 {
        for j in 0..8 {
            for k in 0..8 {
                if has(a, i, k) && has(b, k, j) {
                    all |= cell(i, j);
                }
            }
        }
    }
    all
}

fn transposed(a: u64) -> u64 {
    let mut all = 0;
    for i in 0..8 {
        for j in 0..8 {
            if has(a, j, i) {
                all |= cell(i, j);
            }
        }
    }
    all
}

/// The pseudo-random number that follows x.
fn next(mut x: u64) -> u64 {
    x ^= x << 13;
    x ^= x >> 7;
    x ^= x << 17;
    x
}

/// Whether a single cell composes with each other single cell exactly if their middle elements are equal.
fn composes_where_one(i: u32, k: u32) -> bool
    requires row { i < 8 }
    requires col { k < 8 }
{
    for m in 0..8 {
        for j in 0..8 {
            let want = if k == m { cell(i, j) } else { 0 };
            if block_compose(cell(i, k), cell(m, j)) != want {
                return false;
            }
        }
    }
    true
}

#[test]
fn single_cells_compose_where_the_middle_is_one(rt: HostRuntime) {
    for i in 0..8 {
        for k in 0..8 {
            assert!(rt; composes_where_one(i, k), "{i} {k}");
        }
    }
}

#[test]
fn single_cells_turn_over_the_diagonal(rt: HostRuntime) {
    for i in 0..8 {
        for j in 0..8 {
            assert!(rt; block_transpose(cell(i, j)) == cell(j, i), "{i} {j}");
        }
    }
}

/// Whether two blocks compose as the plain loop says.
fn composes(a: u64, b: u64) -> bool {
    block_compose(a, b) == composed(a, b)
}

/// Whether sparse, medium and dense blocks, made of three words, compose and transpose as the plain loops say.
fn agree(a: u64, b: u64, c: u64) -> bool {
    composes(a, b)
        && composes(a & b, b & c)
        && composes(a & b & c, b | c)
        && block_transpose(a) == transposed(a)
}

#[test]
fn a_thousand_pairs_agree_with_the_plain_loops(rt: HostRuntime) {
    let mut x = 0x0123_4567_89AB_CDEF;
    for _ in 0..1000 {
        let (a, b, c) = (x, next(x), next(next(x)));
        assert!(rt; agree(a, b, c), "{a} {b} {c}");
        x = next(c);
    }
}

const FULL: u64 = u64::MAX;

const SOME: u64 = 0x0123_4567_89AB_CDEF;

/// Left, right, composition.
const COMPOSED: [(u64, u64, u64); 8] = [
    (0, SOME, 0),
    (SOME, 0, 0),
    (IDENTITY, SOME, SOME),
    (SOME, IDENTITY, SOME),
    (FULL, FULL, FULL),
    (FULL, IDENTITY, FULL),
    // one row and one column
    (0xFF, 0x0101_0101_0101_0101, 0x01),
    (0x0101_0101_0101_0101, 0xFF, FULL),
];

/// Blocks and their transpositions.
const TURNED: [(u64, u64); 4] = [
    (0, 0),
    (FULL, FULL),
    (IDENTITY, IDENTITY),
    (0xFF, 0x0101_0101_0101_0101),
];

#[test]
fn empty_full_and_identity_compose_as_they_must(rt: HostRuntime) {
    for (left, right, want) in COMPOSED {
        assert!(rt; block_compose(left, right) == want, "{left} {right}");
    }
    for (block, want) in TURNED {
        assert!(rt; block_transpose(block) == want, "{block}");
    }
}

/// The cells of the first rows and columns.
fn rectangle(rows: u32, cols: u32) -> u64 {
    let mut all = 0;
    for i in 0..8 {
        for j in 0..8 {
            if i < rows && j < cols {
                all |= cell(i, j);
            }
        }
    }
    all
}

#[test]
fn rectangles_have_the_first_rows_and_columns(rt: HostRuntime) {
    for rows in 0..9u32 {
        for cols in 0..9u32 {
            assert!(rt;
                block_rect(rows, cols) == rectangle(rows, cols),
                "{rows} {cols}"
            );
        }
    }
    assert!(rt; block_rect(2, 3) == 0x0707);
    assert!(rt; block_rect(8, 8) == FULL);
}

#[test]
fn words_join_and_part(rt: HostRuntime) {
    assert!(rt; block_union(0b1100, 0b1010) == 0b1110);
    assert!(rt; block_inter(0b1100, 0b1010) == 0b1000);
    assert!(rt; block_diff(0b1100, 0b1010) == 0b0100);
}
