//! The page and the files of a run, written in this order.
ghost use Rattle.std.specs.Prelude.{◌≡◌, All, OnOk, OnErr};
ghost use Rattle.std.specs.Str.{IsUtf8};
ghost use Rattle.run_model.specs.Filed.{saved_of, saved_all};
ghost use Rattle.rv_io.specs.Outside.{HasCause, KeepsOthers, IsFile};
ghost use Rattle.rv_ends.specs.Writing.{IsTold, HasPut, HasLost, sunk};

use run_model::files::Save;
use rv_io::{Failed, Shelf, Sink, write_all};
use std::str;

/// Puts one file, whose name is text.
fn put_file<S: Shelf>(shelf: &mut S, save: &Save) -> Result<(), Failed>
    requires { IsUtf8 save.now.name }
    ensures file { OnOk result (IsFile (S.told shelf.new).files save.now.name save.now.bytes.items) }
    ensures others { KeepsOthers (S.told shelf.old).files (S.told shelf.new).files save.now.name }
    ensures cause { HasCause (S.told shelf.old).put_faults (S.told shelf.new).put_faults result }
    ensures kept { OnOk result ((S.told shelf.new).put_faults ≡ (S.told shelf.old).put_faults) }
{
    match str::from_utf8(save.name.bytes()) {
        Ok(name) => shelf.put(name, save.bytes.as_slice()),
        Err(_) => Err(Failed),
    }
}

/// Puts files, in order, up to the first that cannot be put.
fn put_files<S: Shelf>(shelf: &mut S, saves: &[Save]) -> Result<(), Failed>
    requires { All (λ save. IsUtf8 save.name) saves.now }
    ensures put { OnOk result (HasPut (S.told shelf.old).files (S.told shelf.new).files (saved_all saves.now)) }
    ensures lost { OnErr result (HasLost (S.told shelf.old) (S.told shelf.new) (saved_all saves.now)) }
{
    let mut rest = saves;
    'saves: while let [save, tail @ ..] = rest {
        match put_file(shelf, save) {
            Ok(()) => {}
            Err(failed) => return Err(failed),
        }
        rest = tail;
    }
    Ok(())
}

/// Writes a page and then puts the files, and gives the status: 4 if a write or a put failed, and otherwise the one
/// passed in.
pub fn tell<S: Shelf, K: Sink>(
    shelf: &mut S,
    sink: &mut K,
    page: &[u8],
    saves: &[Save],
    status: u8,
) -> u8
    requires { All (λ save. IsUtf8 save.name) saves.now }
    ensures { IsTold (S.told shelf.old) (S.told shelf.new)
        (sunk (K.written sink.old) (K.faults sink.old))
        (sunk (K.written sink.new) (K.faults sink.new))
        page.now (saved_all saves.now) status result }
{
    match write_all(sink, page) {
        Ok(()) => match put_files(shelf, saves) {
            Ok(()) => status,
            Err(_failed) => 4,
        },
        Err(_error) => 4,
    }
}
