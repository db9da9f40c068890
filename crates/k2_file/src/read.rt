//! Reading a relation file: the tests in order, and then the relation, built from its leaves upwards.
ghost use Rattle.std.specs.Prelude.{◌≡◌, ◌≤◌, ◌+◌, ◌<◌, ◌^◌, None, true, IfErr, OnOk, IfOk};
ghost use Rattle.rel_model.specs.Relation.{size_height};
ghost use Rattle.rel_model.specs.Worker.{Keeps, MakesAtMost};
ghost use Rattle.run_model.specs.Files.{bytes_for, part, found_at, k2_fault};
ghost use Rattle.run_model.specs.declared.outcome.BadFile.TheVariants.{Outside as OUTSIDE};
ghost use Rattle.k2_file.specs.Reading.{IsRead, cost_of_file};
ghost use Rattle.k2_file.specs.Told.{AreFields, IsFaultOf, end_fault, fit_by, outside_by};
ghost use Rattle.k2_file.specs.Form.{IsFormOf};

use crate::bits::Bits;
use crate::corners::first_outside;
use crate::header::{Header, read_header};
use crate::levels::{cells_of, fault_in_levels};
use crate::parts::Parts;
use crate::root::{Form, built_relation};
use rel_model::empty::side_of;
use rel_model::engine_trait::Engine;
use rel_model::{Lack, Rel};
use run_model::outcome::BadFile;
use std::alloc::Global;

/// The relation of a file's bytes, in time linear in its bits, or the first test that they fail.
///
/// A file that fails a test asks the engine for no node.
pub fn read_k2<E: Engine>(alloc: Global, engine: &mut E, bytes: &[u8]) -> Result<Rel, BadFile>
    ensures answer { IsRead (E.worker engine.old) (E.worker engine.new) bytes.now result }
    ensures keeps { Keeps (E.worker engine.old) (E.worker engine.new) }
    ensures room { MakesAtMost (cost_of_file E.least bytes.now) (E.worker engine.old) (E.worker engine.new) }
{
    let form = match read_form(alloc, bytes) {
        Ok(form) => form,
        Err(fault) => return Err(fault),
    };
    match built_relation(engine, &form) {
        Ok(rel) => Ok(rel),
        Err(Lack::Full) => Err(BadFile::Full),
        Err(Lack::NoMemory) => Err(BadFile::NoMemory),
    }
}

/// The form of a file, or the first test that its bytes fail.
fn read_form(alloc: Global, bytes: &[u8]) -> Result<Form<'_>, BadFile>
    ensures form { IfOk result (IsFormOf bytes.now) }
    ensures fault { IfErr result (IsFaultOf (k2_fault bytes.now)) }
{
    let header = match read_header(bytes) {
        Ok(header) => header,
        Err(fault) => return Err(fault),
    };
    let tree = header.tree(bytes);
    let cells = header.cells(bytes);
    if let Some(fault) = fault_in_levels(&header, &tree, &cells) {
        return Err(fault);
    }
    if let Err(fault) = look_outside(alloc, &header, &tree, &cells) {
        return Err(fault);
    }
    if let Some(fault) = fault_in_end(bytes, &header, &tree, &cells) {
        return Err(fault);
    }
    let parts = Parts { tree, cells };
    Ok(Form { header, parts })
}

/// Whether no cell whose bit is set lies outside the sizes; otherwise the first one that does.
fn look_outside(
    alloc: Global,
    header: &Header,
    tree: &Bits<'_>,
    cells: &Bits<'_>,
) -> Result<(), BadFile>
    requires least { 1 ≤ header.now.height }
    requires top { header.now.height ≤ size_height }
    requires tree { tree.now.count ≡ header.now.tree_count }
    requires cells { cells.now.count ≡ header.now.cell_count }
    requires fit { fit_by header.now tree.now ≡ true }
    ensures inside { OnOk result (outside_by header.now tree.now cells.now ≡ None) }
    ensures fault { IfErr result (IsFaultOf (found_at OUTSIDE (outside_by header.now tree.now cells.now))) }
{
    let side = side_of(header.height);
    if side <= header.rows && side <= header.cols {
        return Ok(());
    }
    let told = match cells_of(alloc, header, tree) {
        Ok(told) => told,
        Err(_) => return Err(BadFile::NoMemory),
    };
    match first_outside(
        header.rows,
        header.cols,
        header.tree_count,
        told.as_slice(),
        cells,
    ) {
        Some(at) => Err(BadFile::Outside { at }),
        None => Ok(()),
    }
}

/// The first of the final tests that the bytes fail: no bit is set after the ends of T and L, and no byte is left.
fn fault_in_end(bytes: &[u8], header: &Header, tree: &Bits<'_>, cells: &Bits<'_>) -> Option<BadFile>
    requires fields { AreFields bytes.now header.now }
    requires tree { tree.now.count ≡ header.now.tree_count }
    requires cells { cells.now.count ≡ header.now.cell_count }
    requires few { header.now.tree_count + header.now.cell_count < 2 ^ 60 }
    requires tree_bytes { tree.now.bytes.now ≡ part bytes.now 29 (bytes_for header.now.tree_count) }
    requires cell_bytes { cells.now.bytes.now ≡ part bytes.now (29 + bytes_for header.now.tree_count)
        (bytes_for header.now.cell_count) }
    ensures { result ≡ end_fault bytes.now }
{
    if tree.padding() != 0 {
        return Some(BadFile::Padding);
    }
    if cells.padding() != 0 {
        return Some(BadFile::Padding);
    }
    if bytes.len() as u64 != header.end() {
        return Some(BadFile::Rest);
    }
    None
}
