//! Real files. As a shelf it reports no contents, and what is left of a file only if the runtime's own files report it.
//! A file is replaced as a whole or not at all.
ghost use Rattle.std.specs.Prelude.{◌≡◌, ◌↔◌, [], None, Some, true, IsSome, IsOk, OnOk};
ghost use Rattle.rv_io.specs.Outside.{Leaves, HasCause};
ghost use Rattle.rv_io.specs.Files.{left_in};

use crate::{Failed, Shelf};
use std::alloc::{AllocError, Global};
use std::fs::{File, OpenFile};
use std::io::{BufReader, ErrorKind, Read, Write};
use std::rt::Files;
use std::{fs, io};

/// How many names are tried for the new file next to the one that is replaced.
const TRIES: u32 = 1000;

/// The files of a runtime, each read through std's buffered reader.
#[derive(Drop)]
pub struct FileShelf<R: Files + Drop> {
    rt: R,
    alloc: Global,
    file: Option<BufReader<R::File>>,
    faults: u64,
    put_faults: u64,
}

impl<R: Files + Drop> FileShelf<R> {
    /// A shelf of the files of this runtime, none of which is picked.
    pub fn new(alloc: Global, rt: R) -> FileShelf<R>
        ensures { ⟦<FileShelf<R> as Shelf>⟧.told result
            ≡ record {
              files = None;
              rest = Some [];
              faults = 0;
              put_faults = 0;
              may_pick = λ _. true;
            } }
    {
        FileShelf {
            rt,
            alloc,
            file: None,
            faults: 0,
            put_faults: 0,
        }
    }
}

impl<R: Files + Drop> Shelf for FileShelf<R> {
    ghost told = { λ s. record {
      files = None;
      rest = left_in R.File.remaining s.file;
      faults = s.faults;
      put_faults = s.put_faults;
      may_pick = λ _. true;
    } };

    fn pick(&mut self, name: &str) -> Result<(), Failed>
        // A file is open if and only if the pick succeeded.
        ensures open { IsSome self.new.file ↔ IsOk result }
        ensures leaves { Leaves (⟦<FileShelf<R> as Shelf>⟧.told self.old)
            (⟦<FileShelf<R> as Shelf>⟧.told self.new) }
        ensures cause { HasCause self.old.faults self.new.faults result }
        ensures kept { OnOk result (self.new.faults ≡ self.old.faults) }
    {
        self.file = None;
        if let Ok(file) = File::open(&self.rt, name) {
            if let Ok(reader) = BufReader::new(self.alloc, file) {
                self.file = Some(reader);
                return Ok(());
            }
        }
        self.faults = self.faults.saturating_add(1);
        Err(Failed)
    }

    fn read(&mut self, buf: &mut [u8]) -> Result<usize, Failed> {
        let Some(file) = &mut self.file else {
            return Ok(0);
        };
        if let Ok(count) = file.read(buf) {
            return Ok(count);
        }
        self.faults = self.faults.saturating_add(1);
        Err(Failed)
    }

    fn put(&mut self, name: &str, bytes: &[u8]) -> Result<(), Failed> {
        if let Ok(()) = replace(&self.rt, self.alloc, name, bytes) {
            return Ok(());
        }
        self.put_faults = self.put_faults.saturating_add(1);
        Err(Failed)
    }
}

/// Replaces the file of this name: writes the bytes to a new file in the same folder, and then renames that over it. If
/// this fails, the new file is removed.
fn replace<R: Files>(rt: &R, alloc: Global, name: &str, bytes: &[u8]) -> io::Result<()> {
    let (beside, file) = file_beside(rt, alloc, name)?;
    let replaced = write_whole(file, bytes).and_then(|()| fs::rename(rt, beside.as_str(), name));
    if replaced.is_err() {
        let _ = fs::remove_file(rt, beside.as_str());
    }
    replaced
}

/// Makes a new file in the folder of the file of this name. Its name is short, so that it fits wherever `name` fits,
/// and no other file has it.
fn file_beside<R: Files>(rt: &R, alloc: Global, name: &str) -> io::Result<(String, R::File)> {
    'numbers: for number in 0..TRIES {
        let beside = name_beside(alloc, name, number)?;
        if let Some(file) = create_new(rt, beside.as_str())? {
            return Ok((beside, file));
        }
    }
    Err(io::Error::from(ErrorKind::AlreadyExists))
}

/// The name with this number in the folder of the file of this name.
fn name_beside(alloc: Global, name: &str, number: u32) -> Result<String, AllocError> {
    match name.rsplit_once('/') {
        Some((folder, _)) => format!(in alloc; "{folder}/put-{number}.part"),
        None => format!(in alloc; "put-{number}.part"),
    }
}

/// Makes a new file of this name, if no other file has it.
fn create_new<R: Files>(rt: &R, name: &str) -> io::Result<Option<R::File>> {
    match File::create_new(rt, name) {
        Ok(file) => Ok(Some(file)),
        Err(error) if error.kind() == ErrorKind::AlreadyExists => Ok(None),
        Err(error) => Err(error),
    }
}

/// Writes all of `bytes` to a file, and flushes it to storage.
fn write_whole<F: Write + OpenFile + Drop>(mut file: F, bytes: &[u8]) -> io::Result<()> {
    file.write_all(bytes)?;
    file.sync_all()
}
