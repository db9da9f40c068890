//! Real files.
use super::{counting, reads, refuses, takes};
use rv_io::{FileShelf, ReadError, Shelf};
use std::alloc::Global;
use std::fs;
use std::process::Abort;
use std::rt::Files;
use std::test::Fail;

/// Whether a sample is read whole within the limit, and is too long with one byte more.
fn has_sample(alloc: Global, shelf: &mut FileShelf<HostRuntime>, bytes: &[u8]) -> bool {
    let over = ReadError::TooLong { limit: 4999 };
    reads(alloc, shelf, "sample.rv", 5000, bytes) && refuses(alloc, shelf, "sample.rv", 4999, over)
}

/// Asserts that some names are not files, and that one file is too long.
fn assert_no_files(rt: &impl Abort, alloc: Global, shelf: &mut FileShelf<HostRuntime>) {
    for (name, limit, cause) in [
        ("/dev/zero", 9, ReadError::TooLong { limit: 9 }),
        ("sample.rv", 5000, ReadError::Fault),
        (".", 5000, ReadError::Fault),
        ("", 5000, ReadError::Fault),
    ] {
        assert!(rt; refuses(alloc, shelf, name, limit, cause), "{name}");
    }
    assert!(rt; shelf.pick("sample.rv").is_err());
    assert!(rt; takes(shelf, 0, [0, 0, 0, 0]));
}

#[test]
fn a_real_file_is_read_and_what_is_no_file_is_a_fault(rt: HostRuntime) -> Result<(), Fail> {
    let alloc = rt.alloc();
    let bytes = counting(alloc, 5000)?;
    fs::write(&rt, "sample.rv", bytes.as_slice())?;
    let mut shelf = FileShelf::new(alloc, rt);
    let has_it = has_sample(alloc, &mut shelf, bytes.as_slice());
    fs::remove_file(&rt, "sample.rv")?;
    assert!(rt; has_it);
    assert_no_files(&rt, alloc, &mut shelf);
    Ok(())
}

/// Asserts that a file always has the bytes that were put last.
fn assert_replaced(rt: &impl Abort, alloc: Global, shelf: &mut FileShelf<HostRuntime>) {
    for bytes in [b"one".as_slice(), b"another", b""] {
        assert!(rt; shelf.put("made/a.k2", bytes).is_ok());
        assert!(rt; reads(alloc, shelf, "made/a.k2", 9, bytes));
    }
}

/// Asserts that a picked file can be read on, although it is replaced meanwhile.
fn assert_read_on(rt: &impl Abort, shelf: &mut FileShelf<HostRuntime>) {
    assert!(rt; shelf.put("a.k2", b"old").is_ok());
    assert!(rt; shelf.pick("a.k2").is_ok());
    assert!(rt; shelf.put("a.k2", b"new").is_ok());
    assert!(rt; takes(shelf, 3, *b"old\0"));
}

/// Asserts that nothing is put where no file can be.
fn assert_lost(rt: &impl Abort, shelf: &mut FileShelf<HostRuntime>) {
    for name in ["made", "no/a.k2", ""] {
        assert!(rt; shelf.put(name, b"lost").is_err(), "{name}");
    }
}

/// Asserts that there are no files besides those that were put.
fn assert_none_beside<R: Files + Abort>(rt: &R) -> Result<(), Fail> {
    for beside in ["put-0.part", "made/put-1.part"] {
        assert!(rt; !fs::exists(rt, beside)?, "{beside}");
    }
    Ok(())
}

/// Removes all files of a test and their folder.
fn remove_all<R: Files>(rt: &R) -> Result<(), Fail> {
    for file in ["made/put-0.part", "made/a.k2", "a.k2"] {
        fs::remove_file(rt, file)?;
    }
    fs::remove_dir(rt, "made")?;
    Ok(())
}

#[test]
fn a_real_file_is_replaced_whole_or_not_at_all(rt: HostRuntime) -> Result<(), Fail> {
    let alloc = rt.alloc();
    fs::create_dir(&rt, "made")?;
    // A file that has the name which is tried first stays as it is.
    fs::write(&rt, "made/put-0.part", b"mine")?;
    let mut shelf = FileShelf::new(alloc, rt);
    assert_replaced(&rt, alloc, &mut shelf);
    assert_read_on(&rt, &mut shelf);
    assert_lost(&rt, &mut shelf);
    assert!(rt; reads(alloc, &mut shelf, "made/put-0.part", 9, b"mine"));
    assert_none_beside(&rt)?;
    remove_all(&rt)
}
