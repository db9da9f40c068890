//! LOAD and SAVE: how each kind of bad file is reported, which of two files of one name counts, and which bytes are
//! put.
use crate::expected::comes_to;
use crate::made::Options;
use std::alloc::{AllocError, Global};
use std::process::Abort;
use std::sync::Wait;
use std::test::Fail;
use std::thread::Threads;

const OPTIONS: Options = Options {
    turns: 7,
    nodes: 14,
    workers: 1,
};

/// The pairs 1:1 and 4:4 of four elements.
const CORNERS: &[u8] = &[
    82, 86, 75, 49, 0, 0, 0, 4, 0, 0, 0, 4, 2, 0, 0, 0, 0, 0, 0, 0, 4, 0, 0, 0, 0, 0, 0, 0, 8, 144,
    129,
];

/// The pair 1:2 of two elements.
const STEP: &[u8] = &[
    82, 86, 75, 49, 0, 0, 0, 2, 0, 0, 0, 2, 1, 0, 0, 0, 0, 0, 0, 0, 0, 0, 0, 0, 0, 0, 0, 0, 4, 64,
];

/// The file of the corners with one byte changed, and one byte removed or added at its end.
fn changed(alloc: Global, place: usize, byte: u8, longer: usize) -> Result<Vec<u8>, AllocError> {
    let mut out = Vec::new(alloc);
    for i in 0..CORNERS.len() {
        if i == place {
            out.push(byte)?;
        } else {
            out.push(CORNERS[i])?;
        }
    }
    if longer == 0 {
        let _ = out.pop();
    }
    if longer == 2 {
        out.push(0)?;
    }
    Ok(out)
}

/// The place of a byte and its new value, how many bytes there are more or fewer at the end, and the kind of the fault.
const BAD: &[(usize, u8, usize, &str)] = &[
    (0, 82, 0, "short"),
    (3, 51, 1, "magic"),
    (3, 50, 1, "short"),
    (4, 2, 1, "sizes"),
    (12, 3, 1, "height"),
    (20, 8, 1, "lengths"),
    (30, 128, 1, "zero group at 8"),
    (7, 3, 1, "pair outside at 11"),
    (29, 145, 1, "padding"),
    (0, 82, 2, "rest"),
];

/// Asserts that a file is reported as bad with this kind, and not loaded.
fn is_told_as<R: Threads + Wait + Abort + Sync>(
    rt: &R,
    alloc: Global,
    bytes: &[u8],
    kind: &str,
) -> Result<(), Fail> {
    let page = format!(in alloc;
        "1.1: refused: file \"a.k2\" is bad: {kind}\n1.2: refused: 2:7: unknown name A\n1.2 read\n"
    )?;
    let script = "LOAD A \"a.k2\".\nPRINT A.\n";
    let files = [("a.k2", bytes)];
    comes_to(
        rt,
        alloc,
        OPTIONS,
        script,
        files.as_slice(),
        "ki",
        page.as_str(),
        &[],
    )
}

#[test]
fn a_file_that_is_bad_is_told_with_its_kind(rt: HostRuntime) -> Result<(), Fail> {
    let alloc = rt.alloc();
    'cases: for &(place, byte, longer, kind) in BAD {
        let bytes = changed(alloc, place, byte, longer)?;
        is_told_as(&rt, alloc, bytes.as_slice(), kind)?;
    }
    Ok(())
}

/// The pages if the corners are loaded, if the step is, and if there is no file.
const CORNERS_LISTED: &str = "1.2: 4 x 4, pairs 2\n1:1\n4:4\n1.1 assign A 4 x 4\n1.2 read\n";

const STEP_LISTED: &str = "1.2: 2 x 2, pairs 1\n1:2\n1.1 assign A 2 x 2\n1.2 read\n";

const NOT_THERE: &str =
    "1.1: refused: no file \"a.k2\"\n1.2: refused: 2:6: unknown name A\n1.2 read\n";

/// Files, of which the first with the name is loaded; the letters of the outcomes, and the page.
const LOADS: &[(&[(&str, &[u8])], &str, &str)] = &[
    (&[("a.k2", CORNERS), ("b.k2", STEP)], "..", CORNERS_LISTED),
    (&[("b.k2", STEP), ("a.k2", CORNERS)], "..", CORNERS_LISTED),
    (&[("a.k2", CORNERS), ("a.k2", STEP)], "..", CORNERS_LISTED),
    (&[("a.k2", STEP), ("a.k2", CORNERS)], "..", STEP_LISTED),
    (&[("A.k2", CORNERS), ("a.k", STEP)], "fi", NOT_THERE),
    (&[("a.k22", CORNERS), ("./a.k2", STEP)], "fi", NOT_THERE),
];

/// Two names are saved, and one that does not exist, and another relation under a name that was put already.
const SAVING: &str =
    "REL A 4 4 {1:1; 4:4}. SAVE A \"a.k2\". REL B 2 2 {1:2}. SAVE B \"b.k2\". SAVE Z \"z.k2\". SAVE A&A \"b.k2\".";

/// Its page.
const SAVED: &str =
    "1.5: refused: 1:75: unknown name Z\n1.1 assign A 4 x 4\n1.2 read\n1.3 assign B 2 x 2\n1.4 read\n1.5 read\n1.6 read\n";

/// The files that it puts.
const PUT: &[(&str, &[u8])] = &[("a.k2", CORNERS), ("b.k2", STEP), ("b.k2", CORNERS)];

#[test]
fn the_first_file_of_a_name_is_loaded_and_saves_are_put_in_order(
    rt: HostRuntime,
) -> Result<(), Fail> {
    let alloc = rt.alloc();
    let script = "LOAD A \"a.k2\".\nLIST A.\n";
    'loads: for &(files, outcomes, page) in LOADS {
        comes_to(&rt, alloc, OPTIONS, script, files, outcomes, page, &[])?;
    }
    comes_to(&rt, alloc, OPTIONS, SAVING, &[], "....i.", SAVED, PUT)
}
