//! Runs over a shelf and a sink that never fail.
use crate::surely::{has_files, relview_surely};
use rv_io::{NoMemory, SureShelf, SureSink};
use std::alloc::{AllocError, Global};
use std::test::Fail;

/// A shelf with just the file `a.rv`.
fn shelf_of(alloc: Global, script: &str, room: usize) -> Result<SureShelf, AllocError> {
    let mut files = Vec::new(alloc);
    files.push((
        String::from_str(alloc, "a.rv")?,
        Vec::from_slice(alloc, script.as_bytes())?,
    ))?;
    match SureShelf::new(alloc, files, room) {
        Ok(shelf) => Ok(shelf),
        Err(NoMemory) => Err(AllocError),
    }
}

#[test]
fn a_product_is_printed_whole(rt: HostRuntime) -> Result<(), Fail> {
    let alloc = rt.alloc();
    let words = vec![in alloc; String::from_str(alloc, "a.rv")?]?;
    let mut shelf = shelf_of(alloc, "REL A 3 3 {1:2; 2:3}. PRINT A*A.", 0)?;
    let page = b"1.2: 3 x 3\n..1\n...\n...\n".as_slice();
    let Ok(mut sink) = SureSink::new(alloc, page.len()) else {
        return Err(Fail::from("no memory"));
    };
    let is_there = has_files(alloc, words.as_slice(), &shelf);
    assert!(rt; is_there);
    if is_there {
        let report = relview_surely(&rt, alloc, words.as_slice(), &mut shelf, &mut sink);
        assert!(rt; report.ran && report.status == 0);
        assert!(rt; sink.written() == Some(page));
    }
    Ok(())
}

#[test]
fn a_word_that_names_no_file_is_seen(rt: HostRuntime) -> Result<(), Fail> {
    let alloc = rt.alloc();
    let shelf = shelf_of(alloc, "", 0)?;
    for (word, wanted) in [("a.rv", true), ("b.rv", false), ("--workers", false)] {
        let words = vec![in alloc; String::from_str(alloc, word)?]?;
        assert!(rt;
            has_files(alloc, words.as_slice(), &shelf) == wanted,
            "{word}"
        );
    }
    Ok(())
}
