//! Writing texts as a whole.
ghost use Rattle.std.specs.Prelude.{◌≡◌, ◌≤◌, OnOk, IfErr};
ghost use Rattle.rv_io.specs.Outside.{HasCause};
ghost use Rattle.rv_io.specs.Writing.{Grows, HasSent};

use crate::Sink;

/// Where a write stopped. 8 bytes.
#[derive(Clone, Copy, Debug, PartialEq, Eq)]
pub struct WriteError {
    /// How many bytes from the front the sink had taken when it failed.
    pub sent: usize,
}

/// Writes all of `bytes`. It takes no memory.
///
/// It stops at the first write that fails; the sink has then taken exactly the first `sent` bytes.
pub fn write_all<K: Sink>(sink: &mut K, bytes: &[u8]) -> Result<(), WriteError>
    ensures all { OnOk result (Grows (K.written sink.old) (K.written sink.new) bytes.now) }
    ensures sent { IfErr result (λ e. HasSent (K.written sink.old) (K.written sink.new) bytes.now
        e.sent) }
    ensures later { K.faults sink.old ≤ K.faults sink.new }
    ensures cause { HasCause (K.faults sink.old) (K.faults sink.new) result }
    ensures kept { OnOk result (K.faults sink.new ≡ K.faults sink.old) }
{
    let mut sent = 0;
    'writes: while sent < bytes.len() {
        match sink.write(&bytes[sent..]) {
            Ok(count) => sent += count,
            Err(_) => return Err(WriteError { sent }),
        }
    }
    Ok(())
}
