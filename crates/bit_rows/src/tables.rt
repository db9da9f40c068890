//! The composition of squares with many cells by tables, four rows at a time: the method of the four Russians.
ghost use Rattle.std.specs.Prelude.{◌≡◌, ◌<◌, ◌≤◌, ◌+◌, ◌*◌, ◌/◌, ◌%◌, ◌||◌, ℕ, length};
ghost use Rattle.rel_model.specs.Cells.{cells_union, cells_compose};
ghost use Rattle.bit_rows.specs.Rows.{row_has, rows_cells, has_bit, IsSplit};
ghost use Rattle.bit_rows.specs.Tables.{picks_first, word_product, AreTables, IsFourOf, IsLookedUp};

use crate::row::{Row, joined, split_first};
use crate::scratch::no_rows;

/// From this number of cells on, tables are quicker than going bit by bit.
const MANY_CELLS: u32 = 8192;

/// How many columns a row has.
#[inline(always)]
fn columns_in(row: Row) -> u32
    ensures { result ≤ 256 }
{
    row.w0.count_ones() + row.w1.count_ones() + row.w2.count_ones() + row.w3.count_ones()
}

/// Whether a square has many cells. This is a guess at what is quicker; nothing else depends on it.
pub(crate) fn has_many_cells(a: &[Row]) -> bool
    requires { length a.now ≡ 256 }
{
    let mut cells = 0u32;
    'rows: for i in 0..256 {
        cells += columns_in(a[i]);
    }
    cells >= MANY_CELLS
}

/// Four bits of a word, from a place on.
#[inline(always)]
fn four_of(w: u64, from: usize) -> usize
    requires { from + 4 ≤ 64 }
    ensures { IsFourOf w from result }
{
    ((w >> from) & 15) as usize
}

/// One word of a row.
#[inline(always)]
fn word_of(row: Row, q: usize) -> u64
    requires { q < 4 }
    ensures { (k : ℕ) → k < 64 → has_bit result k ≡ row_has row (64 * q + k) }
{
    if q == 0 {
        return row.w0;
    }
    if q == 1 {
        return row.w1;
    }
    if q == 2 {
        return row.w2;
    }
    row.w3
}

/// The place of the first of four bits, and the remaining bits.
#[inline(always)]
fn split_four(m: usize) -> (usize, usize)
    requires some { 0 < m }
    requires small { m < 16 }
    ensures split { IsSplit m result.0 result.1 }
    ensures within { result.0 < 4 }
{
    let (k, rest) = split_first(m as u64);
    (k, rest as usize)
}

/// An entry of the tables, computed from an earlier one: the entry without the first of its rows, and that row added.
#[inline(always)]
fn entry(tables: &[Row], e: usize, rows: &[Row], from: usize) -> Row
    requires tables_len { length tables.now ≡ 256 }
    requires entry_in { e < 256 }
    requires rows_in { from + 64 ≤ length rows.now }
    requires before { AreTables rows.now from tables.now e }
    ensures { (j : ℕ) → row_has result j ≡ picks_first 4 rows.now (from + 4 * (e / 16)) (e % 16) j }
{
    let m = e % 16;
    if m == 0 {
        return Row {
            w0: 0,
            w1: 0,
            w2: 0,
            w3: 0,
        };
    }
    let (k, rest) = split_four(m);
    joined(rows[from + 4 * (e / 16) + k], tables[e - m + rest])
}

/// Fills the tables of 64 rows, from a row on.
fn fill_tables(tables: &mut [Row], rows: &[Row], from: usize)
    requires tables_len { length tables.old ≡ 256 }
    requires rows_in { from + 64 ≤ length rows.now }
    ensures len { length tables.new ≡ 256 }
    ensures entries { AreTables rows.now from tables.new 256 }
{
    'entries: for e in 0..256 {
        tables[e] = entry(tables, e, rows, from);
    }
}

/// A row, with those of 64 rows added whose bits a word has, by looking them up in the tables of those rows.
#[inline(always)]
fn with_looked_up(sum: Row, word: u64, tables: &[Row]) -> Row
    requires { length tables.now ≡ 256 }
    ensures { IsLookedUp sum word tables.now result }
{
    let mut all = sum;
    'groups: for g in 0..16 {
        all = joined(all, tables[16 * g + four_of(word, 4 * g)]);
    }
    all
}

/// Adds the part of a composition whose middle elements are the 64 of a word. Fills the tables anew.
fn add_word(z: &mut [Row], a: &[Row], b: &[Row], q: usize, tables: &mut [Row])
    requires z_len { length z.old ≡ 256 }
    requires a_len { length a.now ≡ 256 }
    requires b_len { length b.now ≡ 256 }
    requires word { q < 4 }
    requires tables_len { length tables.old ≡ 256 }
    ensures len { length z.new ≡ 256 }
    ensures same_len { length tables.new ≡ 256 }
    ensures cells { (i j : ℕ) → rows_cells z.new i j ≡ (rows_cells z.old i j || word_product a.now b.now q i j) }
{
    fill_tables(tables, b, 64 * q);
    'rows: for i in 0..256 {
        z[i] = with_looked_up(z[i], word_of(a[i], q), tables);
    }
}

/// Adds the composition of two squares to a third, by tables.
///
/// The tables take 8 KB of stack; keeping this a separate call puts them there only while it runs.
#[inline(never)]
pub(crate) fn compose_by_tables(z: &mut [Row], a: &[Row], b: &[Row])
    requires z_len { length z.old ≡ 256 }
    requires a_len { length a.now ≡ 256 }
    requires b_len { length b.now ≡ 256 }
    ensures len { length z.new ≡ 256 }
    ensures cells { rows_cells z.new ≡ cells_union (rows_cells z.old)
        (cells_compose (length b.now) (rows_cells a.now) (rows_cells b.now)) }
{
    let mut tables = no_rows();
    'words: for q in 0..4 {
        add_word(z, a, b, q, &mut tables);
    }
}
