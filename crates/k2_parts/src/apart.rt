//! Taking a file apart: the tests in order.
ghost use Rattle.std.specs.Prelude.{IfOk, IfErr};
ghost use Rattle.run_model.specs.SharedFiles.{shared_fault};
ghost use Rattle.k2_file.specs.Told.{IsFaultOf};
ghost use Rattle.k2_parts.specs.Told.{quadrants_told, AreSound, IsFormOf};
ghost use Rattle.k2_parts.specs.Roots.{IsRest, rest_fault};

use crate::extents::extents_of;
use crate::form::{Form, NamedRoot, Quadrant};
use crate::header::{HEADER, read_header};
use crate::quads::read_quads;
use crate::roots::read_roots;
use crate::squares::Squares;
use crate::visits::first_out_of_order;
use run_model::outcome::BadFile;
use std::alloc::Global;

/// The named roots of a file, from the bytes after its quadrants, given how many there are; or the first test that
/// these fail.
fn read_rest(
    alloc: Global,
    quads: &[Quadrant],
    heights: &[u8],
    count: u32,
    bytes: &[u8],
) -> Result<Vec<NamedRoot>, BadFile>
    requires { AreSound quads.now heights.now }
    ensures roots { IfOk result (λ v. IsRest (quadrants_told quads.now) heights.now count bytes.now v.items) }
    ensures fault { IfErr result (IsFaultOf (rest_fault (quadrants_told quads.now) heights.now count bytes.now)) }
{
    let extents = match extents_of(alloc, quads, heights) {
        Ok(extents) => extents,
        Err(_) => return Err(BadFile::NoMemory),
    };
    let extents = extents.as_slice();
    let squares = Squares {
        quads,
        heights,
        extents,
    };
    let named = match read_roots(alloc, &squares, count, bytes) {
        Ok(named) => named,
        Err(fault) => return Err(fault),
    };
    if let Some(at) = first_out_of_order(quads, named.roots.as_slice()) {
        return Err(BadFile::Order { at });
    }
    if named.end != bytes.len() {
        return Err(BadFile::Rest);
    }
    Ok(named.roots)
}

/// The parts of a file, or the first test that its bytes fail, in time linear in the bytes.
pub fn take_apart(alloc: Global, bytes: &[u8]) -> Result<Form, BadFile>
    ensures form { IfOk result (IsFormOf bytes.now) }
    ensures fault { IfErr result (IsFaultOf (shared_fault bytes.now)) }
{
    let header = match read_header(bytes) {
        Ok(header) => header,
        Err(fault) => return Err(fault),
    };
    let listed = match read_quads(alloc, header.quads, &bytes[HEADER..]) {
        Ok(listed) => listed,
        Err(fault) => return Err(fault),
    };
    let (quads, heights) = (listed.quads, listed.heights);
    let rest = &bytes[header.end() as usize..];
    match read_rest(
        alloc,
        quads.as_slice(),
        heights.as_slice(),
        header.roots,
        rest,
    ) {
        Ok(roots) => Ok(Form {
            quads,
            heights,
            roots,
        }),
        Err(fault) => Err(fault),
    }
}
