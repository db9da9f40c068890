//! A shelf in memory, which reports everything, and some of whose calls are made to fail.
ghost use Rattle.std.specs.Prelude.{MatchOption, ◌≡◌, ◌≢◌, ◌<◌, ◌≤◌, ◌↔◌, ℕ, List, [], Option, Some, None, true, drop, length, position, IfOk, IsOk, IfSome, OnOk, OnErr, IsTrue};
ghost use Rattle.std.specs.Io.{ReadsAtMost};
ghost use Rattle.std.specs.Io.KnownBytes.{ReadConsumes};
ghost use Rattle.rv_io.specs.Outside.{Leaves, KeepsReading, KeepsOthers, HasCause, IsPicked, IsSpent, IsFile};
ghost use Rattle.rv_io.specs.Memory.{has_name, file_at, is_listed, IsCounted, IsPutCounted};

use crate::calls::Calls;
use crate::{Failed, NoMemory, Shelf};
use std::alloc::{AllocError, Global};

/// A shelf in memory. Each pick, each read and each put is a call, and calls are numbered from 0.
#[derive(Drop)]
pub struct MemShelf {
    alloc: Global,
    files: Vec<(String, Vec<u8>)>,
    calls: Calls,
    put_faults: u64,
    picked: Vec<u8>,
    taken: usize,
    ghost within: { taken ≤ length picked.items },
}

impl MemShelf {
    /// A shelf with these files; the first of a name counts. The calls with the numbers `failing` fail, and so does
    /// each call that cannot get memory to grow. No memory is taken yet.
    pub fn new(
        alloc: Global,
        files: Vec<(String, Vec<u8>)>,
        failing: Vec<u64>,
    ) -> Result<MemShelf, NoMemory>
        ensures made { IsOk result }
        ensures told { IfOk result (λ s. ⟦<MemShelf as Shelf>⟧.told s
            ≡ record {
              files = Some (file_at files.items);
              rest = Some [];
              faults = 0;
              put_faults = 0;
              may_pick = λ _. true;
            }) }
        ensures calls { IfOk result (λ s. s.calls
            ≡ record { failing = failing; count = 0; faults = 0 }) }
    {
        Ok(MemShelf {
            alloc,
            files,
            calls: Calls::new(failing),
            put_faults: 0,
            picked: Vec::new(alloc),
            taken: 0,
        })
    }

    /// How many picks and reads failed.
    pub fn faults(&self) -> u64
        ensures { result ≡ (⟦<MemShelf as Shelf>⟧.told self.now).faults }
    {
        self.calls.faults()
    }

    /// How many puts failed.
    pub fn put_faults(&self) -> u64
        ensures { result ≡ (⟦<MemShelf as Shelf>⟧.told self.now).put_faults }
    {
        self.put_faults
    }
}

/// The bytes of the first file of this name, if there is one.
fn find<'a>(files: &'a [(String, Vec<u8>)], name: &str) -> Option<&'a [u8]>
    ensures { MatchOption result (file_at files.now name.now ≡ None)
        (λ bytes. file_at files.now name.now ≡ Some bytes.now) }
{
    'files: for file in files {
        if file.0.as_str() == name {
            return Some(file.1.as_slice());
        }
    }
    None
}

/// The place of the first file of this name, if there is one.
fn place_of(files: &[(String, Vec<u8>)], name: &str) -> Option<usize>
    ensures { result ≡ position (has_name name.now) files.now }
{
    files.iter().position(|file| file.0.as_str() == name)
}

/// Gives the file of this name these bytes: the first of that name, or a new one after all others. If memory runs out,
/// all files stay as they are.
fn set_file(
    alloc: Global,
    files: &mut Vec<(String, Vec<u8>)>,
    name: &str,
    bytes: &[u8],
) -> Result<(), AllocError>
    ensures file { OnOk result (file_at files.new.items name.now ≡ Some bytes.now) }
    ensures others { (other : List ℕ) → other ≢ name.now
        → file_at files.new.items other ≡ file_at files.old.items other }
    ensures stay { OnErr result (files.new.items ≡ files.old.items) }
{
    let bytes = Vec::from_slice(alloc, bytes)?;
    match place_of(files.as_slice(), name) {
        Some(place) => files[place].1 = bytes,
        None => files.push((String::from_str(alloc, name)?, bytes))?,
    }
    Ok(())
}

impl Shelf for MemShelf {
    ghost told = { λ s. record {
      files = Some (file_at s.files.items);
      rest = Some (drop s.taken s.picked.items);
      faults = s.calls.faults;
      put_faults = s.put_faults;
      may_pick = λ _. true;
    } };

    fn pick(&mut self, name: &str) -> Result<(), Failed>
        ensures picked { OnOk result (IsPicked (⟦<MemShelf as Shelf>⟧.told self.old).files
            (⟦<MemShelf as Shelf>⟧.told self.new).rest name.now) }
        ensures none { OnErr result (IsSpent (⟦<MemShelf as Shelf>⟧.told self.old).files
            (⟦<MemShelf as Shelf>⟧.told self.new).rest) }
        ensures leaves { Leaves (⟦<MemShelf as Shelf>⟧.told self.old)
            (⟦<MemShelf as Shelf>⟧.told self.new) }
        ensures counted { IsCounted result self.old.calls self.new.calls }
        // A file without bytes needs no memory.
        ensures alone { file_at self.old.files.items name.now ≡ Some []
            → OnErr result (IsTrue (is_listed self.old.calls.failing.items self.old.calls.count)) }
    {
        self.picked.clear();
        self.taken = 0;
        if self.calls.begins_to_fail() {
            self.calls.fail();
            return Err(Failed);
        }
        if let Some(bytes) = find(self.files.as_slice(), name) {
            if self.picked.extend_from_slice(bytes).is_ok() {
                return Ok(());
            }
        }
        self.calls.fail();
        Err(Failed)
    }

    fn read(&mut self, buf: &mut [u8]) -> Result<usize, Failed>
        requires { 0 < length buf.old }
        ensures within { ReadsAtMost result buf.new }
        ensures bytes { ReadConsumes (⟦<MemShelf as Shelf>⟧.told self.old).rest
            (⟦<MemShelf as Shelf>⟧.told self.new).rest result buf.new }
        ensures end { IfOk result (λ n. IfSome (⟦<MemShelf as Shelf>⟧.told self.old).rest
            (λ left. (n ≡ 0) ↔ (left ≡ []))) }
        ensures leaves { Leaves (⟦<MemShelf as Shelf>⟧.told self.old)
            (⟦<MemShelf as Shelf>⟧.told self.new) }
        ensures counted { IsCounted result self.old.calls self.new.calls }
        // No other read fails.
        ensures alone { OnErr result (IsTrue (is_listed self.old.calls.failing.items
            self.old.calls.count)) }
    {
        if self.calls.begins_to_fail() {
            self.calls.fail();
            return Err(Failed);
        }
        let count = buf.len().min(self.picked.len() - self.taken);
        buf[..count].copy_from_slice(&self.picked[self.taken..self.taken + count]);
        self.taken += count;
        Ok(count)
    }

    fn put(&mut self, name: &str, bytes: &[u8]) -> Result<(), Failed>
        ensures file { OnOk result (IsFile (⟦<MemShelf as Shelf>⟧.told self.new).files name.now
            bytes.now) }
        ensures others { KeepsOthers (⟦<MemShelf as Shelf>⟧.told self.old).files
            (⟦<MemShelf as Shelf>⟧.told self.new).files name.now }
        // A file in memory is put as a whole or not at all.
        ensures stay { OnErr result ((⟦<MemShelf as Shelf>⟧.told self.new).files
            ≡ (⟦<MemShelf as Shelf>⟧.told self.old).files) }
        ensures reading { KeepsReading (⟦<MemShelf as Shelf>⟧.told self.old)
            (⟦<MemShelf as Shelf>⟧.told self.new) }
        ensures later { self.old.put_faults ≤ self.new.put_faults }
        ensures cause { HasCause self.old.put_faults self.new.put_faults result }
        ensures counted { IsPutCounted result self.old.calls self.new.calls self.old.put_faults
            self.new.put_faults }
    {
        if !self.calls.begins_to_fail() {
            if let Ok(()) = set_file(self.alloc, &mut self.files, name, bytes) {
                return Ok(());
            }
        }
        self.put_faults = self.put_faults.saturating_add(1);
        Err(Failed)
    }
}
