//! A sink that never fails: it keeps bytes in room reserved before, and stops reporting them once that is too small.
ghost use Rattle.std.specs.Prelude.{◌≡◌, ◌≤◌, ◌+◌, ◌<◌, [], Some, Ok, false, length, IfOk, IfSome, IsSome};
ghost use Rattle.std.specs.Vec.{vec_len, vec_capacity};
ghost use Rattle.rv_io.specs.Outside.{TakesSome};
ghost use Rattle.rv_io.specs.Writing.{TakesIn};
ghost use Rattle.rv_io.specs.Sure.{told_unless, lost_after};

use crate::{Failed, NoMemory, Sink};
use std::alloc::Global;

/// A sink that takes all bytes. It reports them as long as those of all writes together fit in its room, and none after
/// that.
#[derive(Drop)]
pub struct SureSink {
    written: Vec<u8>,
    left: usize,
    lost: bool,
    ghost room: { vec_len written + left ≤ vec_capacity written },
}

impl SureSink {
    /// An empty sink with room for `room` bytes, all of which is reserved here.
    pub fn new(alloc: Global, room: usize) -> Result<SureSink, NoMemory>
        ensures written { IfOk result (λ s. ⟦<SureSink as Sink>⟧.written s ≡ Some []) }
        ensures room { IfOk result (λ s. s.left ≡ room) }
        ensures whole { IfOk result (λ s. s.lost ≡ false) }
    {
        match Vec::with_capacity(alloc, room) {
            Ok(written) => Ok(SureSink {
                written,
                left: room,
                lost: false,
            }),
            Err(_) => Err(NoMemory),
        }
    }

    /// The bytes taken so far, if all of them were kept.
    pub fn written(&self) -> Option<&[u8]>
        ensures kept { self.now.lost ≡ false → IsSome result }
        ensures written { IfSome result (λ bytes. ⟦<SureSink as Sink>⟧.written self.now ≡ Some bytes.now) }
    {
        if self.lost {
            None
        } else {
            Some(self.written.as_slice())
        }
    }
}

impl Sink for SureSink {
    ghost written = { λ s. told_unless s.lost s.written.items };

    ghost faults = { λ _. 0 };

    fn write(&mut self, bytes: &[u8]) -> Result<usize, Failed>
        requires { 0 < length bytes.now }
        ensures some { TakesSome result bytes.now }
        ensures whole { (result ≡ Ok (length bytes.now)) }
        ensures bytes { TakesIn (⟦<SureSink as Sink>⟧.written self.old)
            (⟦<SureSink as Sink>⟧.written self.new) result bytes.now }
        // The bytes are still reported if and only if they were before and these fit too.
        ensures lost { self.new.lost ≡ lost_after self.old.lost self.old.left (length bytes.now) }
        ensures left { self.new.lost ≡ false → self.new.left + length bytes.now ≡ self.old.left }
    {
        if !self.lost && bytes.len() <= self.left && self.written.extend_from_slice(bytes).is_ok() {
            self.left -= bytes.len();
        } else {
            self.lost = true;
        }
        Ok(bytes.len())
    }
}
