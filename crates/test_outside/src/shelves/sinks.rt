//! Sinks: which bytes they have taken when writes fail.
ghost use Rattle.std.specs.Prelude.{◌≤◌};

use super::NEVER;
use rv_io::{MemSink, Sink, StdoutSink, WriteError, write_all};
use std::alloc::Global;
use std::io;
use std::io::Write;
use std::process::Abort;
use std::test::Fail;

/// Texts to be written, and where each one stops.
const TEXTS: [(&[u8], Option<usize>); 5] = [
    (b"one ", None),
    (b"lost", Some(0)),
    (b"", None),
    (b"two", None),
    (b"lost", Some(0)),
];

/// The answer of a write that stops there.
fn answer_of(stop: Option<usize>) -> Result<(), WriteError> {
    match stop {
        Some(sent) => Err(WriteError { sent }),
        None => Ok(()),
    }
}

/// Asserts that the texts are written, or stop.
fn assert_texts(rt: &impl Abort, sink: &mut MemSink) {
    for (text, stop) in TEXTS {
        assert!(rt; write_all(sink, text) == answer_of(stop));
    }
}

#[test]
fn a_sink_in_memory_keeps_what_it_took_and_counts_the_writes_that_fail(
    rt: HostRuntime,
) -> Result<(), Fail> {
    let failing = vec![in rt.alloc(); 1u64, 3]?;
    let Ok(mut sink) = MemSink::new(rt.alloc(), failing) else {
        return Err(Fail::from("no memory"));
    };
    assert_texts(&rt, &mut sink);
    assert!(rt; sink.written() == b"one two".as_slice() && sink.faults() == 2);
    Ok(())
}

/// A writer that takes at most 3 bytes at a time. One write fails, one takes nothing, and flushes may fail.
#[derive(Drop)]
struct Trickle {
    taken: Vec<u8>,
    writes: u64,
    failing: u64,
    empty: u64,
    can_flush: bool,
}

impl Trickle {
    /// A writer that has taken nothing yet.
    fn new(alloc: Global, failing: u64, empty: u64, can_flush: bool) -> Trickle {
        Trickle {
            taken: Vec::new(alloc),
            writes: 0,
            failing,
            empty,
            can_flush,
        }
    }
}

impl Write for Trickle {
    fn write(&mut self, buf: &[u8]) -> io::Result<usize> {
        let call = self.writes;
        self.writes = self.writes.saturating_add(1);
        if call == self.failing {
            return Err(io::Error::from(io::ErrorKind::Other));
        }
        if call == self.empty {
            return Ok(0);
        }
        let count = buf.len().min(3);
        self.taken.extend_from_slice(&buf[..count])?;
        Ok(count)
    }

    fn flush(&mut self) -> io::Result<()> {
        if self.can_flush {
            Ok(())
        } else {
            Err(io::Error::from(io::ErrorKind::Other))
        }
    }
}

/// How many of 10 bytes are out before a write: they go out in 4 writes, of 3, 3, 3 and 1 bytes.
fn sent_before(write: u64) -> usize
    ensures { result ≤ 10 }
{
    if write < 4 { 3 * write as usize } else { 10 }
}

/// Whether 10 bytes go out to a new writer up to the write that stops them.
fn stops(writer: Trickle, stop: u64) -> bool {
    let mut writer = writer;
    let answer = write_all(&mut StdoutSink::new(&mut writer), b"0123456789");
    let sent = sent_before(stop);
    let want = answer_of(if sent < 10 { Some(sent) } else { None });
    answer == want && writer.taken.as_slice() == &b"0123456789"[..sent]
}

#[test]
fn bytes_that_go_out_piece_by_piece_stop_at_the_write_that_fails(rt: HostRuntime) {
    let alloc = rt.alloc();
    for stop in 0..5 {
        assert!(rt;
            stops(Trickle::new(alloc, stop, NEVER, true), stop),
            "write {stop}"
        );
        assert!(rt;
            stops(Trickle::new(alloc, NEVER, stop, true), stop),
            "write {stop}"
        );
    }
}

#[test]
fn bytes_that_cannot_be_flushed_are_not_written(rt: HostRuntime) {
    let writer = Trickle::new(rt.alloc(), NEVER, NEVER, false);
    let mut sink = StdoutSink::new(writer);
    assert!(rt; sink.write(b"abc").is_err());
}

#[test]
fn standard_output_takes_a_line(rt: HostRuntime) {
    let mut sink = StdoutSink::new(io::writer(&rt));
    assert!(rt; write_all(&mut sink, b"a line\n") == Ok(()));
}
