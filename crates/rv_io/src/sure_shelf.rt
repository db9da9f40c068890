//! A shelf that never fails: it keeps what is put in room reserved before, and stops reporting its files once that is
//! too small.
ghost use Rattle.std.specs.Prelude.{◌≡◌, ◌≤◌, ◌<◌, ◌+◌, ◌↔◌, ℕ, List, [], Option, Some, None, IsOk, true, false, is_some, length, IfOk, IfSome, IsTrue, OnOk};
ghost use Rattle.std.specs.Vec.{vec_len, vec_capacity};
ghost use Rattle.std.specs.Io.{ReadsAtMost};
ghost use Rattle.std.specs.Io.KnownBytes.{ReadConsumes};
ghost use Rattle.rv_io.specs.Outside.{Leaves, KeepsReading, KeepsOthers, IsPicked, IsFile};
ghost use Rattle.rv_io.specs.Memory.{file_at};
ghost use Rattle.rv_io.specs.Sure.{told_unless, lost_after, between, kept_at, cost_of};

use crate::kept::{Kept, keep_all};
use crate::{Failed, NoMemory, Shelf};
use std::alloc::Global;

/// A shelf on which no call fails, as long as only names of its files are picked.
///
/// It reports its files as long as the names and bytes of all puts together fit in its room, and none after that. A put
/// of no bytes under the empty name counts as one byte.
#[derive(Drop)]
pub struct SureShelf {
    kept: Kept,
    left: usize,
    lost: bool,
    from: usize,
    to: usize,
    ghost order: { from ≤ to },
    ghost within: { to ≤ length kept.bytes.items },
    ghost places_room: { vec_len kept.places + left ≤ vec_capacity kept.places },
    ghost bytes_room: { vec_len kept.bytes + left ≤ vec_capacity kept.bytes },
}

impl SureShelf {
    /// A shelf with these files, of which the first of a name counts, and with room for puts of `room` bytes. All
    /// memory is taken here.
    pub fn new(
        alloc: Global,
        files: Vec<(String, Vec<u8>)>,
        room: usize,
    ) -> Result<SureShelf, NoMemory>
        ensures files { IfOk result (λ s. (name : List ℕ)
            → kept_at s.kept.bytes.items s.kept.places.items name ≡ file_at files.items name) }
        ensures rest { IfOk result (λ s. (⟦<SureShelf as Shelf>⟧.told s).rest ≡ Some []) }
        ensures room { IfOk result (λ s. s.left ≡ room) }
        ensures whole { IfOk result (λ s. s.lost ≡ false) }
    {
        let mut kept = Kept::new(alloc);
        if keep_all(&mut kept, files.as_slice()).is_err() || kept.reserve(room).is_err() {
            return Err(NoMemory);
        }
        Ok(SureShelf {
            kept,
            left: room,
            lost: false,
            from: 0,
            to: 0,
        })
    }

    /// Whether a file of this name may be picked: whether it is among the files.
    pub fn has(&self, name: &str) -> bool
        ensures { result ≡ (⟦<SureShelf as Shelf>⟧.told self.now).may_pick name.now }
    {
        self.kept.find(name).is_some()
    }
}

impl Shelf for SureShelf {
    ghost told = { λ s. record {
      files = told_unless s.lost (kept_at s.kept.bytes.items s.kept.places.items);
      rest = Some (between s.kept.bytes.items s.from s.to);
      faults = 0;
      put_faults = 0;
      may_pick = λ name. is_some (kept_at s.kept.bytes.items s.kept.places.items name);
    } };

    fn pick(&mut self, name: &str) -> Result<(), Failed>
        requires { IsTrue ((⟦<SureShelf as Shelf>⟧.told self.old).may_pick name.now) }
        ensures sure { IsOk result }
        ensures picked { IsPicked (⟦<SureShelf as Shelf>⟧.told self.old).files
            (⟦<SureShelf as Shelf>⟧.told self.new).rest name.now }
        ensures leaves { Leaves (⟦<SureShelf as Shelf>⟧.told self.old)
            (⟦<SureShelf as Shelf>⟧.told self.new) }
    {
        if let Some((from, to)) = self.kept.find(name) {
            self.from = from;
            self.to = to;
        }
        Ok(())
    }

    fn read(&mut self, buf: &mut [u8]) -> Result<usize, Failed>
        requires { 0 < length buf.old }
        ensures within { ReadsAtMost result buf.new }
        ensures bytes { ReadConsumes (⟦<SureShelf as Shelf>⟧.told self.old).rest
            (⟦<SureShelf as Shelf>⟧.told self.new).rest result buf.new }
        ensures end { IfOk result (λ n. IfSome (⟦<SureShelf as Shelf>⟧.told self.old).rest
            (λ left. (n ≡ 0) ↔ (left ≡ []))) }
        ensures leaves { Leaves (⟦<SureShelf as Shelf>⟧.told self.old)
            (⟦<SureShelf as Shelf>⟧.told self.new) }
        ensures sure { IsOk result }
    {
        let count = buf.len().min(self.to - self.from);
        let end = self.from + count;
        buf[..count].copy_from_slice(self.kept.part(self.from, end));
        self.from = end;
        Ok(count)
    }

    fn put(&mut self, name: &str, bytes: &[u8]) -> Result<(), Failed>
        ensures sure { IsOk result }
        ensures file { IsFile (⟦<SureShelf as Shelf>⟧.told self.new).files name.now bytes.now }
        ensures others { KeepsOthers (⟦<SureShelf as Shelf>⟧.told self.old).files
            (⟦<SureShelf as Shelf>⟧.told self.new).files name.now }
        ensures reading { KeepsReading (⟦<SureShelf as Shelf>⟧.told self.old)
            (⟦<SureShelf as Shelf>⟧.told self.new) }
        // The files are still reported if and only if they were before and this put fits.
        ensures lost { self.new.lost ≡ lost_after self.old.lost self.old.left
            (cost_of name.now bytes.now) }
        ensures left { self.new.lost ≡ false
            → self.new.left + cost_of name.now bytes.now ≡ self.old.left }
    {
        let cost = (name.len() + bytes.len()).max(1);
        if !self.lost && cost <= self.left && self.kept.add(name, bytes).is_ok() {
            self.left -= cost;
        } else {
            self.lost = true;
        }
        Ok(())
    }
}
