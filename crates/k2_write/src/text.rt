//! The bytes of squares and of relations.
ghost use Rattle.std.specs.Prelude.{◌≡◌, ◌≤◌, ◌<◌, ◌^◌, ◌++◌, length, OnOk, IfOk};
ghost use Rattle.std.specs.List.{flat_map};
ghost use Rattle.k2_write.specs.Writing.{quarters_bytes, named_bytes, header_bytes, listed_bytes};

use crate::visits::Quarters;
use k2_file::numbers::push_u32;
use lang_model::syntax::Name;
use rel_model::{NoMemory, Rel};
use std::alloc::{AllocError, Global};

/// Appends the bytes of a relation: the length of its name, the name, its sizes and the number of its square.
pub(crate) fn push_named(
    out: &mut Vec<u8>,
    name: &Name,
    rel: Rel,
    root: u32,
) -> Result<(), NoMemory>
    ensures { OnOk result (out.new.items ≡ out.old.items ++ named_bytes name.now rel.rows rel.cols root) }
{
    let bytes = name.bytes();
    let Ok(length) = u8::try_from(bytes.len()) else {
        return Err(NoMemory);
    };
    out.push(length)?;
    out.extend_from_slice(bytes)?;
    push_u32(out, rel.rows)?;
    push_u32(out, rel.cols)?;
    push_u32(out, root)?;
    Ok(())
}

/// Appends the numbers of the quarters of a square.
fn push_quarters(out: &mut Vec<u8>, quarters: Quarters) -> Result<(), AllocError>
    ensures { OnOk result (out.new.items ≡ out.old.items ++ quarters_bytes quarters) }
{
    push_u32(out, quarters.nw)?;
    push_u32(out, quarters.ne)?;
    push_u32(out, quarters.sw)?;
    push_u32(out, quarters.se)
}

/// Appends the header of a file with these numbers of squares and relations.
fn push_header(out: &mut Vec<u8>, squares: u32, relations: u32) -> Result<(), AllocError>
    ensures { OnOk result (out.new.items ≡ out.old.items ++ header_bytes squares relations) }
{
    out.extend_from_slice(b"RVK2")?;
    push_u32(out, squares)?;
    push_u32(out, relations)
}

/// Appends the numbers of the quarters of squares, in order.
fn push_squares(out: &mut Vec<u8>, squares: &[Quarters]) -> Result<(), AllocError>
    ensures { OnOk result (out.new.items ≡ out.old.items ++ flat_map quarters_bytes squares.now) }
{
    'squares: for quarters in squares {
        push_quarters(out, *quarters)?;
    }
    Ok(())
}

/// The bytes of the file with these squares, this number of relations, and their bytes.
pub(crate) fn file_bytes(
    alloc: Global,
    squares: &[Quarters],
    count: u32,
    relations: &[u8],
) -> Result<Vec<u8>, AllocError>
    requires { length squares.now < 2 ^ 32 }
    ensures { IfOk result (λ v. v.items ≡ listed_bytes squares.now count relations.now) }
{
    let mut out = Vec::new(alloc);
    push_header(&mut out, squares.len() as u32, count)?;
    push_squares(&mut out, squares)?;
    out.extend_from_slice(relations)?;
    Ok(out)
}
