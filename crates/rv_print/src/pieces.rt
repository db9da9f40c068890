//! The pieces from which texts are made: each call appends its text.
ghost use Rattle.std.specs.Prelude.{◌≡◌, ◌++◌, OnOk};
ghost use Rattle.std.specs.Fmt.{decimal};
ghost use Rattle.run_model.specs.Texts.{place_text, size_text, shape_text};
ghost use Rattle.run_model.specs.Page.{sizes_text};

use lang_model::faults::StaticShape;
use lang_model::syntax::Place;
use std::alloc::{AllocError, Global};

/// Appends a number in decimal.
pub(crate) fn push_number(alloc: Global, out: &mut Vec<u8>, n: u64) -> Result<(), AllocError>
    ensures { OnOk result (out.new.items ≡ out.old.items ++ decimal n) }
{
    let text = n.to_string(alloc)?;
    out.extend_from_slice(text.as_bytes())
}

/// Appends a text and then a number.
pub(crate) fn push_number_after(
    alloc: Global,
    out: &mut Vec<u8>,
    text: &[u8],
    n: u64,
) -> Result<(), AllocError>
    ensures { OnOk result (out.new.items ≡ out.old.items ++ (text.now ++ decimal n)) }
{
    out.extend_from_slice(text)?;
    push_number(alloc, out, n)
}

/// Appends `M x N`.
pub(crate) fn push_sizes(
    alloc: Global,
    out: &mut Vec<u8>,
    rows: u32,
    cols: u32,
) -> Result<(), AllocError>
    ensures { OnOk result (out.new.items ≡ out.old.items ++ sizes_text rows cols) }
{
    push_number(alloc, out, u64::from(rows))?;
    push_number_after(alloc, out, b" x ", u64::from(cols))
}

/// Appends `LINE:COLUMN: `.
#[tactic(auto, unfolding(run_model::specs::Texts::place_text))]
fn push_place(alloc: Global, out: &mut Vec<u8>, at: Place) -> Result<(), AllocError>
    ensures { OnOk result (out.new.items ≡ out.old.items ++ place_text at) }
{
    push_number(alloc, out, u64::from(at.line))?;
    push_number_after(alloc, out, b":", u64::from(at.column))?;
    out.extend_from_slice(b": ")
}

/// Appends a place and then a text.
pub(crate) fn push_text_at(
    alloc: Global,
    out: &mut Vec<u8>,
    at: Place,
    text: &[u8],
) -> Result<(), AllocError>
    ensures { OnOk result (out.new.items ≡ out.old.items ++ (place_text at ++ text.now)) }
{
    push_place(alloc, out, at)?;
    out.extend_from_slice(text)
}

/// Appends a size, or `?` if it is unknown.
fn push_size(alloc: Global, out: &mut Vec<u8>, size: Option<u32>) -> Result<(), AllocError>
    ensures { OnOk result (out.new.items ≡ out.old.items ++ size_text size) }
{
    match size {
        Some(n) => push_number(alloc, out, u64::from(n)),
        None => out.extend_from_slice(b"?"),
    }
}

/// Appends `M x N` for sizes that may be unknown.
#[tactic(auto, unfolding(run_model::specs::Texts::shape_text))]
pub(crate) fn push_shape(
    alloc: Global,
    out: &mut Vec<u8>,
    shape: StaticShape,
) -> Result<(), AllocError>
    ensures { OnOk result (out.new.items ≡ out.old.items ++ shape_text shape) }
{
    push_size(alloc, out, shape.rows)?;
    out.extend_from_slice(b" x ")?;
    push_size(alloc, out, shape.cols)
}
