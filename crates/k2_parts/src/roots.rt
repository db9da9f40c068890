//! The named roots of a file, or the first test that they fail.
ghost use Rattle.std.specs.Prelude.{◌≡◌, IfOk, IfErr, None, length};
ghost use Rattle.std.specs.Result.{result_err};
ghost use Rattle.run_model.specs.SharedFiles.{entry_fault, entries_fault, is_behind};
ghost use Rattle.k2_file.specs.Told.{IsFaultOf};
ghost use Rattle.k2_parts.specs.Told.{quadrants_told};
ghost use Rattle.k2_parts.specs.Roots.{AreSquares, IsName, IsRootOf, AreRoots, last_name, name_fault};

use crate::form::NamedRoot;
use crate::numbers::number_at;
use crate::squares::Squares;
use crate::words::is_word;
use lang_model::limits::NAME_LIMIT;
use lang_model::syntax::Name;
use run_model::outcome::BadFile;
use std::alloc::Global;

/// How many bytes a named root has besides its name.
const BESIDE: usize = 13;

/// The named roots of a file, and their length in bytes. On the heap.
#[derive(Drop)]
pub(crate) struct Roots {
    pub(crate) roots: Vec<NamedRoot>,
    pub(crate) end: usize,
}

/// Whether a name comes after that of the last of these roots, if there is one.
fn is_behind(roots: &[NamedRoot], name: &[u8]) -> bool
    ensures { result ≡ is_behind (last_name roots.now) name.now }
{
    match roots.last() {
        Some(root) => root.name.bytes().cmp(name).is_lt(),
        None => true,
    }
}

/// The name at the start of these bytes, given the roots before it, or the first test that it fails.
fn read_name<'a>(roots: &[NamedRoot], bytes: &'a [u8]) -> Result<&'a [u8], BadFile>
    ensures name { IfOk result (λ name. IsName bytes.now name.now) }
    ensures fault { result_err result ≡ name_fault (length roots.now) (last_name roots.now) bytes.now }
{
    let at = roots.len() as u64;
    if bytes.is_empty() {
        return Err(BadFile::Short);
    }
    let length = bytes[0] as usize;
    if length == 0 || NAME_LIMIT < length {
        return Err(BadFile::Names { at });
    }
    if bytes.len() < BESIDE + length {
        return Err(BadFile::Short);
    }
    let name = &bytes[1..1 + length];
    if !is_word(name) || !is_behind(roots, name) {
        return Err(BadFile::Names { at });
    }
    Ok(name)
}

/// The named root at the start of these bytes, given the roots before it, or the first test that it fails.
fn read_root(
    alloc: Global,
    squares: &Squares<'_>,
    roots: &[NamedRoot],
    bytes: &[u8],
) -> Result<NamedRoot, BadFile>
    requires { AreSquares squares.now }
    ensures root { IfOk result (IsRootOf squares.now roots.now bytes.now) }
    ensures fault { IfErr result (IsFaultOf (entry_fault (quadrants_told squares.now.quads.now)
        squares.now.heights.now (length roots.now) (last_name roots.now) bytes.now)) }
{
    let name = match read_name(roots, bytes) {
        Ok(name) => name,
        Err(fault) => return Err(fault),
    };
    let sizes = 1 + name.len();
    let rows = number_at(bytes, sizes);
    let cols = number_at(bytes, sizes + 4);
    let root = number_at(bytes, sizes + 8);
    if let Some(fault) = squares.fault_of_root(roots.len() as u64, rows, cols, root) {
        return Err(fault);
    }
    match Name::new(alloc, name) {
        Ok(name) => Ok(NamedRoot {
            name,
            rows,
            cols,
            root,
        }),
        Err(_) => Err(BadFile::NoMemory),
    }
}

/// The first `count` named roots of these bytes, or the first test that they fail.
pub(crate) fn read_roots(
    alloc: Global,
    squares: &Squares<'_>,
    count: u32,
    bytes: &[u8],
) -> Result<Roots, BadFile>
    requires { AreSquares squares.now }
    ensures roots { IfOk result (AreRoots squares.now count bytes.now) }
    ensures fault { IfErr result (IsFaultOf (entries_fault (quadrants_told squares.now.quads.now)
        squares.now.heights.now 0 None count bytes.now)) }
{
    let mut roots = Vec::new(alloc);
    let mut end = 0;
    'roots: for _ in 0..count {
        let root = match read_root(alloc, squares, roots.as_slice(), &bytes[end..]) {
            Ok(root) => root,
            Err(fault) => return Err(fault),
        };
        end += BESIDE + root.name.bytes().len();
        match roots.push(root) {
            Ok(()) => {}
            Err(_) => return Err(BadFile::NoMemory),
        }
    }
    Ok(Roots { roots, end })
}
