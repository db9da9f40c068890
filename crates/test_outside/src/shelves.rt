//! Shelves and sinks in memory: what is read and put, and each call failing in turn.
mod real;
mod sinks;
mod sure;

ghost use Rattle.std.specs.Prelude.{IsTrue};

use rv_io::{MemShelf, NoMemory, ReadError, Shelf, read_all};
use std::alloc::{AllocError, Global};
use std::process::Abort;
use std::test::Fail;

/// `len` bytes that count up from 0 to 250 over and over.
fn counting(alloc: Global, len: usize) -> Result<Vec<u8>, AllocError> {
    let mut bytes = Vec::new(alloc);
    for place in 0..len {
        bytes.push((place % 251) as u8)?;
    }
    Ok(bytes)
}

/// Files with these names and bytes.
fn files_of(alloc: Global, listed: &[(&str, &[u8])]) -> Result<Vec<(String, Vec<u8>)>, AllocError> {
    let mut files = Vec::new(alloc);
    for (name, bytes) in listed {
        let name = String::from_str(alloc, name)?;
        files.push((name, Vec::from_slice(alloc, bytes)?))?;
    }
    Ok(files)
}

/// A shelf with these files on which one call fails.
fn shelf_with(
    alloc: Global,
    listed: &[(&str, &[u8])],
    failing: u64,
) -> Result<MemShelf, AllocError> {
    let files = files_of(alloc, listed)?;
    let calls = vec![in alloc; failing]?;
    match MemShelf::new(alloc, files, calls) {
        Ok(shelf) => Ok(shelf),
        Err(NoMemory) => Err(AllocError),
    }
}

/// A shelf with the file `a.rv` of counting bytes on which one call fails.
fn shelf_of(alloc: Global, len: usize, failing: u64) -> Result<MemShelf, AllocError> {
    let bytes = counting(alloc, len)?;
    shelf_with(alloc, &[("a.rv", bytes.as_slice())], failing)
}

/// A call number that never occurs in these tests.
const NEVER: u64 = 1_000_000;

/// Whether a file is read within a limit, and has these bytes.
fn reads<S: Shelf>(alloc: Global, shelf: &mut S, name: &str, limit: u64, bytes: &[u8]) -> bool
    requires { IsTrue ((S.told shelf.old).may_pick name.now) }
{
    match read_all(alloc, shelf, name, limit) {
        Ok(found) => found.as_slice() == bytes,
        Err(_) => false,
    }
}

/// Whether reading a file within a limit fails for this cause.
fn refuses<S: Shelf>(alloc: Global, shelf: &mut S, name: &str, limit: u64, cause: ReadError) -> bool
    requires { IsTrue ((S.told shelf.old).may_pick name.now) }
{
    match read_all(alloc, shelf, name, limit) {
        Ok(_) => false,
        Err(error) => error == cause,
    }
}

/// Whether a read into four bytes takes `count` bytes, and the four are these afterwards.
fn takes<S: Shelf>(shelf: &mut S, count: usize, bytes: [u8; 4]) -> bool {
    let mut rest = [0u8; 4];
    shelf.read(&mut rest) == Ok(count) && rest == bytes
}

/// Asserts that files are put.
fn assert_puts<S: Shelf>(rt: &impl Abort, shelf: &mut S, files: &[(&str, &[u8])]) {
    for (name, bytes) in files {
        assert!(rt; shelf.put(name, bytes).is_ok(), "{name}");
    }
}

/// Asserts that files have these bytes.
fn assert_files(rt: &impl Abort, alloc: Global, shelf: &mut MemShelf, files: &[(&str, &[u8])]) {
    for (name, bytes) in files {
        assert!(rt; reads(alloc, shelf, name, 5, bytes), "{name}");
    }
}

/// Whether a file of `len` bytes is read whole or is too long for the limit, as it should, and without a fault.
fn is_limited(alloc: Global, len: usize, limit: u64) -> Result<bool, AllocError> {
    let mut shelf = shelf_of(alloc, len, NEVER)?;
    let bytes = counting(alloc, len)?;
    let is_it = if len as u64 <= limit {
        reads(alloc, &mut shelf, "a.rv", limit, bytes.as_slice())
    } else {
        let cause = ReadError::TooLong { limit };
        refuses(alloc, &mut shelf, "a.rv", limit, cause)
    };
    Ok(is_it && shelf.faults() == 0)
}

#[test]
fn a_file_within_the_limit_is_read_whole_and_one_byte_more_is_too_long(
    rt: HostRuntime,
) -> Result<(), Fail> {
    let alloc = rt.alloc();
    for len in [0, 1, 8, 9, 1023, 1024, 1025, 2048, 5000] {
        for limit in [0, 8, 1023, 1024, 5000, u64::MAX] {
            let is_it = is_limited(alloc, len, limit)?;
            assert!(rt; is_it, "{len} bytes, limit {limit}");
        }
    }
    Ok(())
}

#[test]
fn one_byte_past_the_limit_is_taken_and_no_more(rt: HostRuntime) -> Result<(), Fail> {
    let alloc = rt.alloc();
    let mut shelf = shelf_of(alloc, 60, NEVER)?;
    let cause = ReadError::TooLong { limit: 9 };
    assert!(rt; refuses(alloc, &mut shelf, "a.rv", 9, cause));
    let mut rest = [0u8; 100];
    assert!(rt; shelf.read(&mut rest) == Ok(50) && rest[0] == 10);
    Ok(())
}

#[test]
fn an_absent_file_is_a_fault_and_leaves_nothing_to_read(rt: HostRuntime) -> Result<(), Fail> {
    let alloc = rt.alloc();
    let mut shelf = shelf_of(alloc, 10, NEVER)?;
    assert!(rt; shelf.pick("a.rv").is_ok());
    assert!(rt; refuses(alloc, &mut shelf, "b.rv", 10, ReadError::Fault));
    assert!(rt; shelf.faults() == 1);
    assert!(rt; takes(&mut shelf, 0, [0, 0, 0, 0]));
    Ok(())
}

/// Three files, two of which have one name.
const OF_ONE_NAME: [(&str, &[u8]); 3] = [("b", &[7]), ("a", &[1, 2]), ("a", &[3])];

#[test]
fn the_first_file_of_a_name_counts_and_a_second_pick_begins_again(
    rt: HostRuntime,
) -> Result<(), Fail> {
    let alloc = rt.alloc();
    let files = files_of(alloc, &OF_ONE_NAME)?;
    let Ok(mut shelf) = MemShelf::new(alloc, files, Vec::new(alloc)) else {
        return Err(Fail::from("no memory"));
    };
    assert_files(&rt, alloc, &mut shelf, &[("a", &[1, 2]), ("a", &[1, 2])]);
    Ok(())
}

/// Whether a file of 2,000 bytes is not read if this call fails, and one fault is counted.
fn is_fault(alloc: Global, failing: u64) -> Result<bool, AllocError> {
    let mut shelf = shelf_of(alloc, 2000, failing)?;
    let is_it = refuses(alloc, &mut shelf, "a.rv", 4000, ReadError::Fault);
    Ok(is_it && shelf.faults() == 1)
}

#[test]
fn each_call_of_a_shelf_that_fails_is_a_fault_and_is_counted(rt: HostRuntime) -> Result<(), Fail> {
    let alloc = rt.alloc();
    // 2,000 bytes: call 0 picks the file, calls 1 and 2 read the bytes, and call 3 sees the end.
    for failing in 0..4 {
        let is_it = is_fault(alloc, failing)?;
        assert!(rt; is_it, "call {failing}");
    }
    let mut shelf = shelf_of(alloc, 2000, 4)?;
    assert!(rt; read_all(alloc, &mut shelf, "a.rv", 4000).is_ok());
    assert!(rt; shelf.pick("a.rv").is_err());
    Ok(())
}

#[test]
fn a_read_that_failed_takes_nothing(rt: HostRuntime) -> Result<(), Fail> {
    let mut shelf = shelf_of(rt.alloc(), 3, 1)?;
    let mut bytes = [0u8; 2];
    assert!(rt; shelf.pick("a.rv").is_ok());
    assert!(rt; shelf.read(&mut bytes).is_err());
    assert!(rt; shelf.read(&mut bytes) == Ok(2) && bytes == [0, 1]);
    Ok(())
}

/// The files `a`, with the bytes 1 and 2, and `b`, with the byte 3.
const TWO_FILES: [(&str, &[u8]); 2] = [("a", &[1, 2]), ("b", &[3])];

/// Puts, and what each file holds after them.
const PUTS: [(&str, &[u8]); 3] = [("c", &[4, 5]), ("a", &[6, 7]), ("c", &[8, 9])];

const AFTER_THE_PUTS: [(&str, &[u8]); 3] = [("a", &[6, 7]), ("b", &[3]), ("c", &[8, 9])];

#[test]
fn a_file_has_the_bytes_that_were_put_last_and_others_stay(rt: HostRuntime) -> Result<(), Fail> {
    let alloc = rt.alloc();
    let mut shelf = shelf_with(alloc, &TWO_FILES, NEVER)?;
    assert!(rt; shelf.pick("a").is_ok());
    assert_puts(&rt, &mut shelf, &PUTS);
    // What was picked before the puts can still be read on.
    assert!(rt; takes(&mut shelf, 2, [1, 2, 0, 0]));
    assert_files(&rt, alloc, &mut shelf, &AFTER_THE_PUTS);
    Ok(())
}

/// Asserts that a first put fails, leaves all other files and is counted, and that a second one succeeds.
fn assert_put_fails(rt: &impl Abort, alloc: Global, shelf: &mut MemShelf, name: &str) {
    assert!(rt; shelf.put(name, &[9]).is_err(), "{name}");
    assert!(rt; shelf.faults() == 0 && shelf.put_faults() == 1);
    for (other, bytes) in TWO_FILES {
        if other != name {
            assert!(rt; reads(alloc, shelf, other, 5, bytes), "{other}");
        }
    }
    assert!(rt; shelf.put(name, &[9]).is_ok());
}

/// Asserts that a pick fails after a put that succeeds, and is counted as a fault of reading.
fn assert_pick_fails(rt: &impl Abort, shelf: &mut MemShelf) {
    assert!(rt; shelf.put("a", &[9]).is_ok());
    assert!(rt; shelf.pick("a").is_err());
    assert!(rt; shelf.faults() == 1 && shelf.put_faults() == 0);
}

#[test]
fn a_put_that_fails_leaves_all_other_files_and_is_no_fault_of_reading(
    rt: HostRuntime,
) -> Result<(), Fail> {
    let alloc = rt.alloc();
    for name in ["a", "b", "c"] {
        let mut shelf = shelf_with(alloc, &TWO_FILES, 0)?;
        assert_put_fails(&rt, alloc, &mut shelf, name);
    }
    let mut shelf = shelf_with(alloc, &TWO_FILES, 1)?;
    assert_pick_fails(&rt, &mut shelf);
    Ok(())
}

/// Whether this is the message of an error.
fn is_message(alloc: Global, error: ReadError, name: &str) -> Result<bool, AllocError> {
    let message = format!(in alloc; "{error}")?;
    Ok(message.as_str() == name)
}

#[test]
fn the_message_of_a_refusal_is_its_name(rt: HostRuntime) -> Result<(), Fail> {
    let alloc = rt.alloc();
    for (error, name) in [
        (ReadError::Fault, "Fault"),
        (ReadError::TooLong { limit: 1 }, "TooLong"),
        (ReadError::NoMemory, "NoMemory"),
    ] {
        assert!(rt; is_message(alloc, error, name)?, "{name}");
    }
    Ok(())
}
