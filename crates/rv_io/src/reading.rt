//! Reading files as a whole.
ghost use Rattle.std.specs.Prelude.{◌+◌, ◌≤◌, IsTrue, length, IfOk, OnOk, IfErr};
ghost use Rattle.rv_io.specs.Outside.{Leaves, IsFile};
ghost use Rattle.rv_io.specs.Reading.{RefusesFile, CountsFault, StopsIn, ReadsOn, ReadsToEnd, RefusesMore};

use crate::{Failed, Shelf};
use std::alloc::Global;
use thiserror::Error;

/// Why a file was not read. 16 bytes.
#[derive(Clone, Copy, Debug, PartialEq, Eq, Drop, Error)]
pub enum ReadError {
    /// The shelf failed.
    #[error("Fault")]
    Fault,
    /// The file has more bytes than the limit.
    #[error("TooLong")]
    TooLong { limit: u64 },
    /// Memory ran out.
    #[error("NoMemory")]
    NoMemory,
}

/// How many bytes a single read asks for at most.
const PIECE: usize = 1024;

/// Reads the whole file of this name, of at most `limit` bytes.
///
/// It answers `Fault` if and only if the shelf's faults rose, and `TooLong` if and only if more than `limit` bytes came
/// before the end. It never takes more than `limit + 1` bytes.
pub fn read_all<S: Shelf>(
    alloc: Global,
    shelf: &mut S,
    name: &str,
    limit: u64,
) -> Result<Vec<u8>, ReadError>
    requires { IsTrue ((S.told shelf.old).may_pick name.now) }
    ensures file { IfOk result (λ v. IsFile (S.told shelf.old).files name.now v.items) }
    ensures within { IfOk result (λ v. length v.items ≤ limit) }
    ensures refused { IfErr result (RefusesFile (S.told shelf.old) (S.told shelf.new) name.now
        limit) }
    ensures stops { StopsIn result (S.told shelf.old).files (S.told shelf.new).rest name.now
        limit }
    ensures counted { CountsFault (S.told shelf.old).faults (S.told shelf.new).faults result }
    ensures leaves { Leaves (S.told shelf.old) (S.told shelf.new) }
{
    match shelf.pick(name) {
        Ok(()) => read_left(alloc, shelf, limit),
        Err(Failed) => Err(ReadError::Fault),
    }
}

/// Reads what is left of the picked file, at most `limit` bytes.
fn read_left<S: Shelf>(alloc: Global, shelf: &mut S, limit: u64) -> Result<Vec<u8>, ReadError>
    ensures bytes { IfOk result (λ v. ReadsToEnd (S.told shelf.old).rest (S.told shelf.new).rest
        v.items limit) }
    ensures refused { IfErr result (RefusesMore (S.told shelf.old) (S.told shelf.new) 0 limit) }
    ensures counted { CountsFault (S.told shelf.old).faults (S.told shelf.new).faults result }
    ensures leaves { Leaves (S.told shelf.old) (S.told shelf.new) }
{
    let mut bytes = Vec::new(alloc);
    'pieces: loop {
        match read_piece(shelf, &mut bytes, limit) {
            Ok(0) => return Ok(bytes),
            Ok(_) => {}
            Err(error) => return Err(error),
        }
    }
}

/// Reads the next bytes and appends them to `bytes`, which never has more than `limit`.
fn read_piece<S: Shelf>(shelf: &mut S, bytes: &mut Vec<u8>, limit: u64) -> Result<usize, ReadError>
    requires { length bytes.old.items ≤ limit }
    ensures on { IfOk result (λ n. ReadsOn (S.told shelf.old).rest (S.told shelf.new).rest
        bytes.old.items bytes.new.items n) }
    ensures within { OnOk result (length bytes.new.items ≤ limit) }
    ensures refused { IfErr result (RefusesMore (S.told shelf.old) (S.told shelf.new)
        (length bytes.old.items) limit) }
    ensures counted { CountsFault (S.told shelf.old).faults (S.told shelf.new).faults result }
    ensures leaves { Leaves (S.told shelf.old) (S.told shelf.new) }
{
    let room = limit - bytes.len() as u64;
    let mut piece = [0u8; PIECE];
    let most = if room < PIECE as u64 {
        room as usize + 1
    } else {
        PIECE
    };
    let piece = &mut piece[..most];
    let Ok(count) = shelf.read(piece) else {
        return Err(ReadError::Fault);
    };
    if count == 0 {
        return Ok(0);
    }
    if count as u64 > room {
        return Err(ReadError::TooLong { limit });
    }
    if bytes.extend_from_slice(&piece[..count]).is_err() {
        return Err(ReadError::NoMemory);
    }
    Ok(count)
}
