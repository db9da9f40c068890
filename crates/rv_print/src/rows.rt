//! The matrix of a relation: a line for each row. A row is a walk over the quads that it crosses.
ghost use Rattle.std.specs.Prelude.{◌≡◌, ◌<◌, ◌≤◌, ◌+◌, ◌*◌, ◌^◌, ◌++◌, OnOk, IfOk, IfErr, Err, false};
ghost use Rattle.rel_model.specs.Cells.{bits_cells};
ghost use Rattle.rel_model.specs.Trees.{beside};
ghost use Rattle.rel_model.specs.Worker.{Stands, set_of, HasQuad, quad_set, Keeps, MakesAtMost, MissesNothing};
ghost use Rattle.run_model.specs.Limits.{print_limit};
ghost use Rattle.run_model.specs.Texts.{row_text, rows_text, matrix};
ghost use Rattle.run_model.specs.declared.outcome.Unit.TheVariants.{Cells};
ghost use Rattle.rv_print.specs.Marks.{mark, marks};
ghost use Rattle.rv_print.specs.Refusals.{IsOver};

use crate::limits::may_print;
use crate::pieces::push_sizes;
use crate::refused::PrintRefused;
use rel_model::empty::side_of;
use rel_model::engine_trait::Engine;
use rel_model::{Quad, Quarters, Rel, Shape};
use std::alloc::{AllocError, Global};

/// `M x N`, and a line for each row with `1` for a pair and `.` otherwise, in time linear in the cells.
///
/// A relation with more cells than the limit is refused before any byte is made.
#[tactic(auto, unfolding(run_model::specs::Texts::matrix))]
pub fn matrix<E: Engine>(alloc: Global, engine: &mut E, rel: Rel) -> Result<Vec<u8>, PrintRefused>
    requires { Stands (E.worker engine.old) rel }
    ensures text { IfOk result (λ v. v.items ≡ matrix (set_of (E.worker engine.old) rel)) }
    ensures within { IfOk result (λ v. rel.rows * rel.cols ≤ print_limit) }
    ensures over { IfErr result (IsOver print_limit (rel.rows * rel.cols) Cells) }
    ensures keeps { Keeps (E.worker engine.old) (E.worker engine.new) }
    ensures room { MakesAtMost 0 (E.worker engine.old) (E.worker engine.new) }
    ensures misses { MissesNothing (E.worker engine.old) (E.worker engine.new) }
{
    let shape = Shape {
        rows: rel.rows,
        cols: rel.cols,
    };
    match may_print(shape) {
        Ok(()) => {}
        Err(refused) => return Err(refused),
    }
    let mut out = Vec::new(alloc);
    push_sizes(alloc, &mut out, rel.rows, rel.cols)?;
    out.push(b'\n')?;
    push_rows(engine, &mut out, rel)?;
    Ok(out)
}

/// Appends the line of each row.
fn push_rows<E: Engine>(engine: &mut E, out: &mut Vec<u8>, rel: Rel) -> Result<(), AllocError>
    requires standing { Stands (E.worker engine.old) rel }
    ensures text { OnOk result (out.new.items ≡ out.old.items ++ rows_text (set_of (E.worker engine.old) rel)) }
    ensures keeps { Keeps (E.worker engine.old) (E.worker engine.new) }
    ensures room { MakesAtMost 0 (E.worker engine.old) (E.worker engine.new) }
    ensures misses { MissesNothing (E.worker engine.old) (E.worker engine.new) }
{
    'rows: for i in 0..rel.rows {
        push_row(engine, out, rel, i)?;
    }
    Ok(())
}

/// Appends the line of a row.
fn push_row<E: Engine>(
    engine: &mut E,
    out: &mut Vec<u8>,
    rel: Rel,
    i: u32,
) -> Result<(), AllocError>
    requires standing { Stands (E.worker engine.old) rel }
    requires row { i < rel.rows }
    ensures text { OnOk result (out.new.items ≡ out.old.items ++ row_text (set_of (E.worker engine.old) rel) i) }
    ensures keeps { Keeps (E.worker engine.old) (E.worker engine.new) }
    ensures room { MakesAtMost 0 (E.worker engine.old) (E.worker engine.new) }
    ensures misses { MissesNothing (E.worker engine.old) (E.worker engine.new) }
{
    let quad = engine.root(rel);
    push_cells(engine, out, quad, i, rel.cols)?;
    out.extend_from_slice(b"\n")
}

/// Appends the marks of the first cells in a row of a quad.
#[cycle(cells)]
fn push_cells<E: Engine>(
    engine: &mut E,
    out: &mut Vec<u8>,
    quad: Quad,
    row: u32,
    cols: u32,
) -> Result<(), AllocError>
    requires stands { HasQuad (E.worker engine.old) quad }
    requires row { row < 2 ^ quad.height }
    requires cols { cols ≤ 2 ^ quad.height }
    ensures text { OnOk result (out.new.items ≡ out.old.items ++ marks (quad_set (E.worker engine.old) quad row) cols) }
    ensures keeps { Keeps (E.worker engine.old) (E.worker engine.new) }
    ensures room { MakesAtMost 0 (E.worker engine.old) (E.worker engine.new) }
    ensures misses { MissesNothing (E.worker engine.old) (E.worker engine.new) }
{
    if quad.is_empty() {
        return push_none(out, cols);
    }
    if quad.height == engine.bottom() {
        let side = side_of(quad.height);
        let bits = engine.bits(quad);
        return push_bits(out, bits, side, row, cols);
    }
    push_half(engine, out, quad, row, cols)
}

/// The same above the leaves.
#[cycle(cells)]
fn push_half<E: Engine>(
    engine: &mut E,
    out: &mut Vec<u8>,
    quad: Quad,
    row: u32,
    cols: u32,
) -> Result<(), AllocError>
    requires stands { HasQuad (E.worker engine.old) quad }
    requires over { E.least < quad.height }
    requires row { row < 2 ^ quad.height }
    requires cols { cols ≤ 2 ^ quad.height }
    ensures text { OnOk result (out.new.items ≡ out.old.items ++ marks (quad_set (E.worker engine.old) quad row) cols) }
    ensures keeps { Keeps (E.worker engine.old) (E.worker engine.new) }
    ensures room { MakesAtMost 0 (E.worker engine.old) (E.worker engine.new) }
    ensures misses { MissesNothing (E.worker engine.old) (E.worker engine.new) }
{
    let Quarters { nw, ne, sw, se } = engine.quarters(quad);
    let half = side_of(nw.height);
    if row < half {
        push_two(engine, out, nw, ne, row, cols)
    } else {
        push_two(engine, out, sw, se, row - half, cols)
    }
}

/// The same for two quads of one height, side by side.
#[cycle(cells)]
fn push_two<E: Engine>(
    engine: &mut E,
    out: &mut Vec<u8>,
    west: Quad,
    east: Quad,
    row: u32,
    cols: u32,
) -> Result<(), AllocError>
    requires west_stands { HasQuad (E.worker engine.old) west }
    requires east_stands { HasQuad (E.worker engine.old) east }
    requires one_height { east.height ≡ west.height }
    requires row { row < 2 ^ west.height }
    requires cols { cols ≤ 2 ^ west.height + 2 ^ west.height }
    ensures text { OnOk result (out.new.items ≡ out.old.items
        ++ marks (beside (2 ^ west.height) (quad_set (E.worker engine.old) west) (quad_set (E.worker engine.old) east)
        row) cols) }
    ensures keeps { Keeps (E.worker engine.old) (E.worker engine.new) }
    ensures room { MakesAtMost 0 (E.worker engine.old) (E.worker engine.new) }
    ensures misses { MissesNothing (E.worker engine.old) (E.worker engine.new) }
{
    let half = side_of(west.height);
    push_cells(engine, out, west, row, cols.min(half))?;
    push_cells(engine, out, east, row, cols.saturating_sub(half))
}

/// Appends a mark for no pair in each of `cols` columns.
pub(crate) fn push_none(out: &mut Vec<u8>, cols: u32) -> Result<(), AllocError>
    ensures { OnOk result (out.new.items ≡ out.old.items ++ marks (λ j. false) cols) }
{
    'cells: for _ in 0..cols {
        out.push(b'.')?;
    }
    Ok(())
}

fn mark_of(is: bool) -> u8
    ensures { result ≡ mark is }
{
    if is { b'1' } else { b'.' }
}

/// Appends the marks of the first cells in a row of a leaf.
fn push_bits(out: &mut Vec<u8>, bits: u64, side: u32, row: u32, cols: u32) -> Result<(), AllocError>
    requires small { side ≤ 8 }
    requires row { row < side }
    requires cols { cols ≤ side }
    ensures { OnOk result (out.new.items ≡ out.old.items ++ marks (bits_cells side bits row) cols) }
{
    'cells: for j in 0..cols {
        let mark = mark_of((bits >> (side * row + j)) & 1 == 1);
        out.push(mark)?;
    }
    Ok(())
}
