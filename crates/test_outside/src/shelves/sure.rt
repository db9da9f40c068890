//! The shelf and the sink that never fail: up to the call that does not fit their room, and after it.
use super::{assert_puts, files_of, reads, takes};
use rv_io::{NoMemory, Shelf, SureShelf, SureSink, write_all};
use std::alloc::{AllocError, Global};
use std::process::Abort;
use std::test::Fail;

/// A file `a` with the bytes 1 and 2, a file `b` without bytes, and a second `a`.
const FILES: [(&str, &[u8]); 3] = [("a", &[1, 2]), ("b", &[]), ("a", &[3])];

/// What each name of a new shelf holds.
const START: [(&str, &[u8]); 2] = [("a", &[1, 2]), ("b", &[])];

/// A shelf with these files and this room.
fn shelf_of(alloc: Global, room: usize) -> Result<SureShelf, AllocError> {
    let files = files_of(alloc, &FILES)?;
    match SureShelf::new(alloc, files, room) {
        Ok(shelf) => Ok(shelf),
        Err(NoMemory) => Err(AllocError),
    }
}

/// Asserts that each of these files, which are on the shelf, has its bytes.
fn assert_holds(rt: &impl Abort, alloc: Global, shelf: &mut SureShelf, files: &[(&str, &[u8])]) {
    for (name, bytes) in files {
        let is_it = shelf.has(name) && reads(alloc, shelf, name, 9, bytes);
        assert!(rt; is_it, "{name}");
    }
}

/// Puts, which take 3, 2, 3 and 1 bytes.
const PUTS: [(&str, &[u8]); 4] = [("a", &[6, 7]), ("b", &[8]), ("cc", &[9]), ("d", &[])];

/// Whether the file `a` is there and can be picked.
fn picks(shelf: &mut SureShelf) -> bool {
    shelf.has("a") && shelf.pick("a").is_ok()
}

#[test]
fn files_are_read_and_put_while_names_and_bytes_fit(rt: HostRuntime) -> Result<(), Fail> {
    let alloc = rt.alloc();
    let mut shelf = shelf_of(alloc, 9)?;
    assert_holds(&rt, alloc, &mut shelf, &START);
    assert!(&rt; !shelf.has("c") && !shelf.has("") && !shelf.has("ab"));
    assert!(&rt; picks(&mut shelf));
    assert_puts(&rt, &mut shelf, &PUTS);
    // What was picked before the puts can still be read on.
    assert!(&rt; takes(&mut shelf, 2, [1, 2, 0, 0]) && takes(&mut shelf, 0, [0, 0, 0, 0]));
    assert_holds(&rt, alloc, &mut shelf, &PUTS);
    Ok(())
}

#[test]
fn a_put_that_does_not_fit_is_answered_and_not_kept(rt: HostRuntime) -> Result<(), Fail> {
    let alloc = rt.alloc();
    let mut shelf = shelf_of(alloc, 4)?;
    // The second put would fit, but is not kept after the first.
    let puts: [(&str, &[u8]); 2] = [("c", &[1, 2, 3, 4]), ("d", &[1])];
    for put in puts {
        assert_puts(&rt, &mut shelf, &[put]);
        assert!(&rt; !shelf.has(put.0));
    }
    assert_holds(&rt, alloc, &mut shelf, &START);
    Ok(())
}

/// Asserts that a sink takes seven bytes, and keeps them if they fit its room.
fn assert_kept(rt: &impl Abort, sink: SureSink, room: usize) {
    let mut sink = sink;
    let texts: [&[u8]; 3] = [b"one ", b"", b"two"];
    for bytes in texts {
        assert!(rt; write_all(&mut sink, bytes) == Ok(()));
    }
    let want = if room >= 7 {
        Some(b"one two".as_slice())
    } else {
        None
    };
    assert!(rt; sink.written() == want, "room {room}");
}

#[test]
fn a_sink_keeps_what_fits_its_room_and_takes_all(rt: HostRuntime) -> Result<(), Fail> {
    let alloc = rt.alloc();
    for room in 0..9 {
        let Ok(sink) = SureSink::new(alloc, room) else {
            return Err(Fail::from("no memory"));
        };
        assert_kept(&rt, sink, room);
    }
    Ok(())
}
