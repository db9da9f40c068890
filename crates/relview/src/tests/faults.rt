//! Runs in which one call of the shelf or the sink fails: each call in turn, up to a run in which none does.
use super::files::{CORNERS, LISTED, LOADS, SAVES, STEP};
use super::runs::{NEVER, assert_stopped, assert_written, run_with};
use std::test::Fail;

/// A script with snapshots, an old value and an unknown snapshot.
const SNAPSHOTS: &str =
    "REL A 1 1 {}. SNAP t. REL A 1 1 {1:1}. AT t PRINT A. PRINT A. DROP A. AT u PRINT A.";

/// The page of that script with its history.
const SNAPPED: &str = "1.4: 1 x 1\n.\n1.5: 1 x 1\n1\n1.7: refused: 1:74: unknown name u\n\
    1.1 assign A 1 x 1\n1.2 read\n1.3 assign A 1 x 1\n1.5 read\n1.6 drop A\n";

/// More calls than any of these runs makes.
const MOST: u64 = 50;

#[test]
fn a_file_that_is_not_read_is_named_and_nothing_runs(rt: HostRuntime) -> Result<(), Fail> {
    let alloc = rt.alloc();
    let files = [("a.rv", LOADS.as_bytes()), ("a.k2", CORNERS)];
    // How often each file was named, in the order of the words.
    let (mut scripts, mut relations, mut whole) = (0, 0, false);
    for call in 0..MOST {
        let ran = run_with(&rt, alloc, "a.rv a.k2", files.as_slice(), call, NEVER)?;
        if ran.shelf.faults() == 0 {
            assert_written(&rt, &ran, LISTED, 0, "no fault")?;
            whole = true;
            break;
        }
        assert_stopped(&rt, &ran, "a fault");
        if ran.sink.written() == b"relview: cannot read a.rv\n".as_slice() {
            assert_eq!(rt; relations, 0, "a.rv behind a.k2");
            scripts = 1;
        } else {
            assert_written(&rt, &ran, "relview: cannot read a.k2\n", 3, "a fault")?;
            relations = 1;
        }
        assert_eq!(rt; ran.report.status, 3, "call {call}");
    }
    assert!(rt; whole && scripts == 1 && relations == 1);
    Ok(())
}

#[test]
fn a_script_that_is_not_read_is_named_at_each_call(rt: HostRuntime) -> Result<(), Fail> {
    let alloc = rt.alloc();
    let files = [("a.rv", SNAPSHOTS.as_bytes())];
    let (mut failed, mut whole) = (0u32, false);
    for call in 0..MOST {
        let words = "--history a.rv";
        let ran = run_with(&rt, alloc, words, files.as_slice(), call, NEVER)?;
        if ran.shelf.faults() == 0 {
            assert_written(&rt, &ran, SNAPPED, 1, "no fault")?;
            whole = true;
            break;
        }
        assert_written(&rt, &ran, "relview: cannot read a.rv\n", 3, "a fault")?;
        assert_stopped(&rt, &ran, "a fault");
        failed = failed.saturating_add(1);
    }
    // The pick, the read of the bytes and the read that sees the end.
    assert!(rt; whole && failed == 3);
    Ok(())
}

#[test]
fn files_are_put_in_their_order_up_to_the_one_that_fails(rt: HostRuntime) -> Result<(), Fail> {
    let alloc = rt.alloc();
    let files = [("a.rv", SAVES.as_bytes())];
    let (mut lost, mut whole) = (0u32, false);
    for call in 0..MOST {
        let mut ran = run_with(&rt, alloc, "a.rv", files.as_slice(), call, NEVER)?;
        if ran.shelf.faults() > 0 {
            assert_written(&rt, &ran, "relview: cannot read a.rv\n", 3, "a fault")?;
            assert_stopped(&rt, &ran, "a fault");
            assert!(rt; ran.lacks(alloc, "a.k2") && ran.lacks(alloc, "b.k2"));
        } else if ran.shelf.put_faults() > 0 {
            assert_written(&rt, &ran, "", 4, "a put fault")?;
            assert!(rt; ran.report.ran && ran.lacks(alloc, "b.k2"));
            // The first put fails in one run, and in the next one the second.
            let has_first = ran.has(alloc, "a.k2", CORNERS);
            assert!(rt; has_first == (lost == 1) && has_first != ran.lacks(alloc, "a.k2"));
            lost = lost.saturating_add(1);
        } else {
            assert_written(&rt, &ran, "", 0, "no fault")?;
            assert!(rt; ran.has(alloc, "a.k2", CORNERS) && ran.has(alloc, "b.k2", STEP));
            whole = true;
            break;
        }
    }
    assert!(rt; whole && lost == 2);
    Ok(())
}

#[test]
fn where_a_write_fails_no_file_is_put(rt: HostRuntime) -> Result<(), Fail> {
    let alloc = rt.alloc();
    for (words, script, page, (status, writes)) in [
        (
            "a.rv",
            "REL A 3 3 {1:2; 2:3}. PRINT A*A.",
            "1.2: 3 x 3\n..1\n...\n...\n",
            (0, 1),
        ),
        ("--history a.rv", SNAPSHOTS, SNAPPED, (1, 1)),
        (
            "a.rv",
            "REL A 2 2 {1:2}. SAVE A \"b.k2\". TYPE A.",
            "1.3: 2 x 2\n",
            (0, 1),
        ),
        ("a.rv a.k2", LOADS, LISTED, (0, 1)),
        ("a.rv", SAVES, "", (0, 0)),
    ] {
        let files = [("a.rv", script.as_bytes()), ("a.k2", CORNERS)];
        let (mut failed, mut whole) = (0u32, false);
        for call in 0..MOST {
            let mut ran = run_with(&rt, alloc, words, files.as_slice(), NEVER, call)?;
            assert!(rt; ran.report.ran, "at {script}");
            if ran.sink.faults() == 0 {
                assert_written(&rt, &ran, page, status, script)?;
                whole = true;
                break;
            }
            assert_written(&rt, &ran, "", 4, script)?;
            assert!(rt; ran.lacks(alloc, "b.k2"), "at {script}");
            failed = failed.saturating_add(1);
        }
        assert!(rt; whole && failed == writes, "at {script}");
    }
    Ok(())
}
