//! Standard output, or any other writer. As a sink it reports no content.
ghost use Rattle.std.specs.Prelude.{◌≡◌, ◌≤◌, None, take, IfOk, OnOk, OnErr};
ghost use Rattle.std.specs.Io.KnownBytes.{Appends};
ghost use Rattle.rv_io.specs.Outside.{HasCause, TakesSome};
ghost use Rattle.rv_io.specs.Writing.{HasPassed};

use crate::{Failed, Sink};
use std::io::Write;

/// A writer, such as standard output. Each write is flushed before the call returns.
#[derive(Drop)]
pub struct StdoutSink<W: Write + Drop> {
    inner: W,
    faults: u64,
}

impl<W: Write + Drop> StdoutSink<W> {
    /// A sink that passes its bytes to this writer.
    pub fn new(inner: W) -> StdoutSink<W>
        ensures written { ⟦<StdoutSink<W> as Sink>⟧.written result ≡ None }
        ensures faults { ⟦<StdoutSink<W> as Sink>⟧.faults result ≡ 0 }
    {
        StdoutSink { inner, faults: 0 }
    }
}

impl<W: Write + Drop> Sink for StdoutSink<W> {
    ghost written = { λ _. None };

    ghost faults = { λ s. s.faults };

    fn write(&mut self, bytes: &[u8]) -> Result<usize, Failed>
        ensures some { TakesSome result bytes.now }
        // The writer has taken those bytes.
        ensures passed { IfOk result (λ n. Appends (W.contents self.old.inner)
            (W.contents self.new.inner) (take n bytes.now)) }
        // A write that failed passed on none of them, or one piece that could not be flushed.
        ensures failed { OnErr result (HasPassed (W.contents self.old.inner)
            (W.contents self.new.inner) bytes.now) }
        ensures later { self.old.faults ≤ self.new.faults }
        ensures cause { HasCause self.old.faults self.new.faults result }
        ensures kept { OnOk result (self.new.faults ≡ self.old.faults) }
    {
        if let Ok(count) = self.inner.write(bytes) {
            if count > 0 && self.inner.flush().is_ok() {
                return Ok(count);
            }
        }
        self.faults = self.faults.saturating_add(1);
        Err(Failed)
    }
}
