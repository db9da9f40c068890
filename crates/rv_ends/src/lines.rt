//! The lines that are written instead of a page, each with its status.
ghost use Rattle.std.specs.Prelude.{◌≡◌, ◌⊎◌, IfOk};
ghost use Rattle.rv_ends.specs.Lines.{usage_line, cannot_read_line, too_long_line};
ghost use Rattle.rv_ends.specs.Writing.{IsWritten, IsOut, sunk};

use rv_io::{Sink, write_all};
use std::alloc::{AllocError, Global};

/// Writes a text, and gives the status: 4 if a write failed, and otherwise the one passed in.
fn write_text<K: Sink>(sink: &mut K, text: &[u8], status: u8) -> u8
    ensures { IsWritten (sunk (K.written sink.old) (K.faults sink.old))
        (sunk (K.written sink.new) (K.faults sink.new)) text.now status result }
{
    match write_all(sink, text) {
        Ok(()) => status,
        Err(_error) => 4,
    }
}

/// The line for words outside the accepted set.
#[tactic(auto, unfolding(crate::specs::Lines::usage_line))]
fn usage_line() -> &'static [u8]
    ensures { result.now ≡ usage_line }
{
    b"usage: relview [--workers N] [--nodes K] [--turns T] [--history] [--gen NUMBER] FILE... [--then FILE...]...\n"
}

/// The line for a file that the shelf could not give.
#[tactic(auto, unfolding(crate::specs::Lines::cannot_read_line))]
fn cannot_read_line(alloc: Global, name: &str) -> Result<Vec<u8>, AllocError>
    ensures { IfOk result (λ v. v.items ≡ cannot_read_line name.now) }
{
    let mut line = Vec::from_slice(alloc, b"relview: cannot read ")?;
    line.extend_from_slice(name.as_bytes())?;
    line.extend_from_slice(b"\n")?;
    Ok(line)
}

/// The line for a file that exceeds its limit.
#[tactic(auto, unfolding(crate::specs::Lines::too_long_line))]
fn too_long_line(alloc: Global, name: &str) -> Result<Vec<u8>, AllocError>
    ensures { IfOk result (λ v. v.items ≡ too_long_line name.now) }
{
    let mut line = Vec::from_slice(alloc, b"relview: ")?;
    line.extend_from_slice(name.as_bytes())?;
    line.extend_from_slice(b" is too long")?;
    line.extend_from_slice(b"\n")?;
    Ok(line)
}

/// Says that the words are outside the accepted set, and gives the status.
pub fn say_usage<K: Sink>(sink: &mut K) -> u8
    ensures { IsWritten (sunk (K.written sink.old) (K.faults sink.old))
        (sunk (K.written sink.new) (K.faults sink.new)) usage_line 2 result }
{
    write_text(sink, usage_line(), 2)
}

/// Says that a file was not read, and gives the status; 5, with nothing written, if memory ran out.
pub fn say_unread<K: Sink>(alloc: Global, sink: &mut K, name: &str) -> u8
    ensures { IsWritten (sunk (K.written sink.old) (K.faults sink.old))
        (sunk (K.written sink.new) (K.faults sink.new)) (cannot_read_line name.now) 3 result
        ⊎ IsOut (sunk (K.written sink.old) (K.faults sink.old)) (sunk (K.written sink.new) (K.faults sink.new)) result }
{
    match cannot_read_line(alloc, name) {
        Ok(line) => write_text(sink, line.as_slice(), 3),
        Err(_) => 5,
    }
}

/// Says that a file exceeds its limit, and gives the status; 5, with nothing written, if memory ran out.
pub fn say_too_long<K: Sink>(alloc: Global, sink: &mut K, name: &str) -> u8
    ensures { IsWritten (sunk (K.written sink.old) (K.faults sink.old))
        (sunk (K.written sink.new) (K.faults sink.new)) (too_long_line name.now) 3 result
        ⊎ IsOut (sunk (K.written sink.old) (K.faults sink.old)) (sunk (K.written sink.new) (K.faults sink.new)) result }
{
    match too_long_line(alloc, name) {
        Ok(line) => write_text(sink, line.as_slice(), 3),
        Err(_) => 5,
    }
}
