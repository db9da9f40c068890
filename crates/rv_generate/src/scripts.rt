//! The generated scripts.
ghost use Rattle.std.specs.Prelude.{◌≡◌, ◌++◌, IfOk, OnOk};
ghost use Rattle.rv_generate.specs.Generator.{step, value_of, after, row_text, rows_text, script_text, generated, texts_of};

use crate::draws::Draws;
use crate::pieces::{push_closure, push_counts, push_row, push_with_number};
use std::alloc::{AllocError, AllocFailed, Global};

/// Memory ran out. No bytes.
#[derive(Clone, Copy, Debug, PartialEq, Eq)]
pub struct NoMemory;

impl From<AllocError> for NoMemory {
    fn from(_: AllocError) -> NoMemory {
        NoMemory
    }
}

impl<T: Drop> From<AllocFailed<T>> for NoMemory {
    fn from(_: AllocFailed<T>) -> NoMemory {
        NoMemory
    }
}

/// How many scripts are generated.
const SCRIPTS: u32 = 8;

/// How many vertices each graph has.
const VERTICES: u32 = 64;

/// Eight scripts. Each has a graph of 64 vertices with two edges drawn for each vertex, and questions on it: its
/// transitive closure, which vertices reach each other, and which are reached by the same vertices.
///
/// Equal numbers give equal scripts, and only the last 32 bits of a number count. No script uses a name of another, so
/// sessions that run all of them at once answer the same in any order. Refused only if memory runs out.
pub fn generate(alloc: Global, number: u64) -> Result<Vec<Vec<u8>>, NoMemory>
    ensures { IfOk result (λ v. texts_of v.items ≡ generated number) }
{
    let mut draws = Draws::new(number);
    let mut scripts = Vec::new(alloc);
    'scripts: for made in 0..SCRIPTS {
        let script = script_text(alloc, &mut draws, made + 1)?;
        scripts.push(script)?;
    }
    Ok(scripts)
}

/// Script `s`, with the next 128 draws.
fn script_text(alloc: Global, draws: &mut Draws, s: u32) -> Result<Vec<u8>, AllocError>
    ensures text { IfOk result (λ v. v.items ≡ script_text draws.old.state s) }
    ensures draws { OnOk result (draws.new.state ≡ after draws.old.state 128) }
{
    let mut out = Vec::new(alloc);
    push_with_number(alloc, &mut out, b"REL G", s)?;
    out.extend_from_slice(b" 64 64 {")?;
    push_rows(alloc, &mut out, draws)?;
    out.extend_from_slice(b"}.")?;
    push_closure(alloc, &mut out, s)?;
    push_counts(alloc, &mut out, s)?;
    out.push(b'\n')?;
    Ok(out)
}

/// Appends the rows of a graph, joined by `; `.
fn push_rows(alloc: Global, out: &mut Vec<u8>, draws: &mut Draws) -> Result<(), AllocError>
    ensures text { OnOk result (out.new.items ≡ out.old.items ++ rows_text draws.old.state 63) }
    ensures draws { OnOk result (draws.new.state ≡ after draws.old.state 128) }
{
    push_drawn_row(alloc, out, draws, 1)?;
    'rows: for vertex in 1..VERTICES {
        out.extend_from_slice(b"; ")?;
        push_drawn_row(alloc, out, draws, vertex + 1)?;
    }
    Ok(())
}

/// Appends a row with the next two draws.
fn push_drawn_row(
    alloc: Global,
    out: &mut Vec<u8>,
    draws: &mut Draws,
    row: u32,
) -> Result<(), AllocError>
    ensures text { OnOk result (out.new.items ≡ out.old.items ++ row_text row
        (value_of (step draws.old.state)) (value_of (step (step draws.old.state)))) }
    ensures draws { draws.new.state ≡ step (step draws.old.state) }
{
    let a = draws.draw();
    let b = draws.draw();
    push_row(alloc, out, row, a, b)
}
