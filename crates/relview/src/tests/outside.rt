//! Words that are not accepted, files that cannot be read, and lines that cannot be written.
use super::runs::{NEVER, assert_stopped, assert_written, run_with};
use lang_model::limits::SCRIPT_LIMIT;
use std::test::Fail;

const USAGE: &str =
    "usage: relview [--workers N] [--nodes K] [--turns T] [--history] [--gen NUMBER] \
    FILE... [--then FILE...]...\n";

#[test]
fn words_outside_the_set_are_answered_by_the_usage_line(rt: HostRuntime) -> Result<(), Fail> {
    let alloc = rt.alloc();
    for (words, what) in [
        ("", "no word"),
        ("--workers 0 a.rv", "no worker"),
        ("--turns 5 --turns 5 a.rv", "an option twice"),
        ("--gen 1 a.rv", "a file beside generated scripts"),
        ("a.k2", "no script"),
        ("-", "a hyphen alone"),
    ] {
        // If call 0 of a shelf is to fail, the shelf is not asked at all.
        let ran = run_with(
            &rt,
            alloc,
            words,
            [("a.rv", b"".as_slice())].as_slice(),
            0,
            NEVER,
        )?;
        assert_written(&rt, &ran, USAGE, 2, what)?;
        assert_stopped(&rt, &ran, what);
        assert_eq!(rt; ran.shelf.faults(), 0);
    }
    Ok(())
}

#[test]
fn the_first_file_in_the_order_of_the_words_that_is_not_there_is_named(
    rt: HostRuntime,
) -> Result<(), Fail> {
    let alloc = rt.alloc();
    let files = [("a.rv", b"PRINT A.".as_slice()), ("a.k2", b"".as_slice())];
    for (words, name) in [
        ("b.rv", "b.rv"),
        ("a.rv b.rv", "b.rv"),
        ("b.k2 b.rv a.rv", "b.k2"),
        ("b.rv b.k2 a.rv", "b.rv"),
        ("a.k2 a.rv -- -c b.k2", "-c"),
    ] {
        let ran = run_with(&rt, alloc, words, files.as_slice(), NEVER, NEVER)?;
        let line = format!(in alloc; "relview: cannot read {name}\n")?;
        assert_written(&rt, &ran, line.as_str(), 3, name)?;
        assert_stopped(&rt, &ran, name);
        assert_eq!(rt; ran.shelf.faults(), 1);
    }
    Ok(())
}

#[test]
fn a_script_of_one_byte_over_its_limit_is_too_long_and_a_relation_file_is_not(
    rt: HostRuntime,
) -> Result<(), Fail> {
    let alloc = rt.alloc();
    let blanks = vec![in alloc; b' '; SCRIPT_LIMIT + 1]?;
    let files = [("a.rv", blanks.as_slice()), ("a.k2", blanks.as_slice())];
    let ran = run_with(&rt, alloc, "a.k2 a.rv b.rv", files.as_slice(), NEVER, NEVER)?;
    assert_written(&rt, &ran, "relview: a.rv is too long\n", 3, "a byte more")?;
    assert_stopped(&rt, &ran, "a byte more");
    assert_eq!(rt; ran.shelf.faults(), 0);
    Ok(())
}

#[test]
fn a_line_that_is_not_written_is_status_4(rt: HostRuntime) -> Result<(), Fail> {
    let alloc = rt.alloc();
    let ran = run_with(&rt, alloc, "b.rv", [].as_slice(), NEVER, 0)?;
    assert_written(&rt, &ran, "", 4, "a sink whose call 0 fails")?;
    assert_stopped(&rt, &ran, "a sink whose call 0 fails");
    assert_eq!(rt; ran.sink.faults(), 1);
    Ok(())
}
