//! A sink in memory, which reports everything, and some of whose calls are made to fail.
ghost use Rattle.std.specs.Prelude.{◌≡◌, ◌≤◌, [], Some, length, IfOk, IsOk};
ghost use Rattle.std.specs.Io.KnownBytes.{WriteAppends};
ghost use Rattle.rv_io.specs.Memory.{IsCounted};

use crate::calls::Calls;
use crate::{Failed, NoMemory, Sink};
use std::alloc::Global;

/// A sink in memory. Each write is a call, and calls are numbered from 0.
#[derive(Drop)]
pub struct MemSink {
    written: Vec<u8>,
    calls: Calls,
}

impl MemSink {
    /// An empty sink. The calls with the numbers `failing` fail, and so does each call that cannot get memory to grow.
    /// No memory is taken yet.
    pub fn new(alloc: Global, failing: Vec<u64>) -> Result<MemSink, NoMemory>
        ensures made { IsOk result }
        ensures written { IfOk result (λ s. ⟦<MemSink as Sink>⟧.written s ≡ Some []) }
        ensures faults { IfOk result (λ s. ⟦<MemSink as Sink>⟧.faults s ≡ 0) }
        ensures calls { IfOk result (λ s. s.calls
            ≡ record { failing = failing; count = 0; faults = 0 }) }
    {
        Ok(MemSink {
            written: Vec::new(alloc),
            calls: Calls::new(failing),
        })
    }

    /// The bytes taken so far.
    pub fn written(&self) -> &[u8]
        ensures { ⟦<MemSink as Sink>⟧.written self.now ≡ Some result.now }
    {
        self.written.as_slice()
    }

    /// How many writes failed.
    pub fn faults(&self) -> u64
        ensures { result ≡ ⟦<MemSink as Sink>⟧.faults self.now }
    {
        self.calls.faults()
    }
}

impl Sink for MemSink {
    ghost written = { λ s. Some s.written.items };

    ghost faults = { λ s. s.calls.faults };

    fn write(&mut self, bytes: &[u8]) -> Result<usize, Failed>
        ensures whole { IfOk result (λ n. n ≡ length bytes.now) }
        ensures bytes { WriteAppends (⟦<MemSink as Sink>⟧.written self.old)
            (⟦<MemSink as Sink>⟧.written self.new) result bytes.now }
        ensures later { ⟦<MemSink as Sink>⟧.faults self.old ≤ ⟦<MemSink as Sink>⟧.faults self.new }
        ensures counted { IsCounted result self.old.calls self.new.calls }
    {
        if self.calls.begins_to_fail() || self.written.extend_from_slice(bytes).is_err() {
            self.calls.fail();
            return Err(Failed);
        }
        Ok(bytes.len())
    }
}
