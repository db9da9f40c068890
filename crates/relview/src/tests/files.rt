//! Relation files, read and written.
use super::runs::{NEVER, assert_written, run_script, run_with};
use std::test::Fail;

/// The relation of 4 rows and 4 columns with the pairs 1:1 and 4:4.
pub const CORNERS: &[u8] =
    b"RVK1\0\0\0\x04\0\0\0\x04\x02\0\0\0\0\0\0\0\x04\0\0\0\0\0\0\0\x08\x90\x81";

/// The relation of 2 rows and 2 columns with the pair 1:2.
pub const STEP: &[u8] = b"RVK1\0\0\0\x02\0\0\0\x02\x01\0\0\0\0\0\0\0\0\0\0\0\0\0\0\0\x04\x40";

/// A script that loads a relation and lists it.
pub const LOADS: &str = "LOAD A \"a.k2\". LIST A.";

/// The page of that script, if the file has the corners.
pub const LISTED: &str = "1.2: 4 x 4, pairs 2\n1:1\n4:4\n";

/// A script that saves the corners and then the step.
pub const SAVES: &str = "REL A 4 4 {1:1; 4:4}. SAVE A \"a.k2\". REL B 2 2 {1:2}. SAVE B \"b.k2\".";

#[test]
fn relation_files_are_read_and_written_as_the_format_says(rt: HostRuntime) -> Result<(), Fail> {
    let alloc = rt.alloc();
    let files = [("a.rv", LOADS.as_bytes()), ("a.k2", CORNERS)];
    let ran = run_with(&rt, alloc, "a.rv a.k2", files.as_slice(), NEVER, NEVER)?;
    assert_written(&rt, &ran, LISTED, 0, "the corners")?;
    for (bytes, kind) in [
        (
            b"RVK1\0\0\0\x04\0\0\0\x04\x02\0\0\0\0\0\0\0\x04\0\0\0\0\0\0\0\x08\x90".as_slice(),
            "short",
        ),
        (
            b"RVK1\0\0\0\x04\0\0\0\x04\x02\0\0\0\0\0\0\0\x04\0\0\0\0\0\0\0\x08\x90\x80",
            "zero group at 8",
        ),
        (
            b"RVK1\0\0\0\x04\0\0\0\x04\x02\0\0\0\0\0\0\0\x04\0\0\0\0\0\0\0\x08\x91\x81",
            "padding",
        ),
        (
            b"RVK1\0\0\0\x03\0\0\0\x03\x02\0\0\0\0\0\0\0\x04\0\0\0\0\0\0\0\x08\x90\x81",
            "pair outside at 11",
        ),
        (
            b"RVK1\0\0\0\x04\0\0\0\x04\x03\0\0\0\0\0\0\0\x04\0\0\0\0\0\0\0\x08\x90\x81",
            "height",
        ),
        (
            b"RVK1\0\0\0\x04\0\0\0\x04\x02\0\0\0\0\0\0\0\x04\0\0\0\0\0\0\0\x08\x90\x81\0",
            "rest",
        ),
    ] {
        let files = [("a.rv", LOADS.as_bytes()), ("a.k2", bytes)];
        let ran = run_with(&rt, alloc, "a.rv a.k2", files.as_slice(), NEVER, NEVER)?;
        let page = format!(in alloc;
            "1.1: refused: file \"a.k2\" is bad: {kind}\n1.2: refused: 1:21: unknown name A\n"
        )?;
        assert_written(&rt, &ran, page.as_str(), 1, kind)?;
    }
    let mut ran = run_script(&rt, alloc, "a.rv", SAVES)?;
    assert_written(&rt, &ran, "", 0, "two saves")?;
    assert!(rt; ran.has(alloc, "a.k2", CORNERS) && ran.has(alloc, "b.k2", STEP));
    Ok(())
}
