//! The pieces from which scripts are made: each call appends its text.
ghost use Rattle.std.specs.Prelude.{◌≡◌, ◌++◌, OnOk};
ghost use Rattle.std.specs.Fmt.{decimal};
ghost use Rattle.rv_generate.specs.Generator.{row_text, closure_text, counts_text};

use std::alloc::{AllocError, Global};

/// Appends a text and then a number in decimal.
pub(crate) fn push_with_number(
    alloc: Global,
    out: &mut Vec<u8>,
    text: &[u8],
    number: u32,
) -> Result<(), AllocError>
    ensures { OnOk result (out.new.items ≡ out.old.items ++ text.now ++ decimal number) }
{
    let digits = number.to_string(alloc)?;
    out.extend_from_slice(text)?;
    out.extend_from_slice(digits.as_bytes())
}

/// Appends `ROW:A,B`.
#[tactic(auto, unfolding(crate::specs::Generator::row_text))]
pub(crate) fn push_row(
    alloc: Global,
    out: &mut Vec<u8>,
    row: u32,
    a: u32,
    b: u32,
) -> Result<(), AllocError>
    ensures { OnOk result (out.new.items ≡ out.old.items ++ row_text row a b) }
{
    push_with_number(alloc, out, b"", row)?;
    push_with_number(alloc, out, b":", a)?;
    push_with_number(alloc, out, b",", b)?;
    Ok(())
}

/// Appends the closure of graph `s`, and the count of its pairs.
#[tactic(auto, unfolding(crate::specs::Generator::closure_text))]
pub(crate) fn push_closure(alloc: Global, out: &mut Vec<u8>, s: u32) -> Result<(), AllocError>
    ensures { OnOk result (out.new.items ≡ out.old.items ++ closure_text s) }
{
    push_with_number(alloc, out, b" LET C", s)?;
    push_with_number(alloc, out, b" = trans(G", s)?;
    push_with_number(alloc, out, b"). COUNT C", s)?;
    out.extend_from_slice(b".")?;
    Ok(())
}

/// Appends the count of the pairs that reach each other, and that of the closure's symmetric quotient.
#[tactic(auto, unfolding(crate::specs::Generator::counts_text))]
pub(crate) fn push_counts(alloc: Global, out: &mut Vec<u8>, s: u32) -> Result<(), AllocError>
    ensures { OnOk result (out.new.items ≡ out.old.items ++ counts_text s) }
{
    push_with_number(alloc, out, b" COUNT C", s)?;
    push_with_number(alloc, out, b" & C", s)?;
    push_with_number(alloc, out, b"^. COUNT syq(C", s)?;
    push_with_number(alloc, out, b",C", s)?;
    out.extend_from_slice(b").")?;
    Ok(())
}
