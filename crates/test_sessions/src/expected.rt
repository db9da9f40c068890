//! Asserts what scripts come to.
use crate::made::{Came, Options, loaded, run_alone, run_at_once, scripts_of};
use fork_quads::OpenGate;
use run_model::files::{Loaded, Save};
use rv_sessions::run;
use std::alloc::Global;
use std::process::Abort;
use std::sync::Wait;
use std::test::Fail;
use std::thread::Threads;

/// Asserts that bytes are a text.
fn assert_text(rt: &impl Abort, bytes: &[u8], wanted: &str, what: &str) -> Result<(), Fail> {
    let text = str::from_utf8(bytes)?;
    assert!(rt; text == wanted, "{text} at {what}");
    Ok(())
}

/// Asserts that a file is put under this name with these bytes.
fn assert_save(rt: &impl Abort, save: &Save, name: &str, bytes: &[u8], what: &str) {
    assert!(rt; save.name.bytes() == name.as_bytes(), "{name} at {what}");
    assert!(rt;
        save.bytes.as_slice() == bytes,
        "the bytes of {name} at {what}"
    );
}

/// Asserts that these files are put, in order.
fn assert_saves(rt: &impl Abort, found: &[Save], saves: &[(&str, &[u8])], what: &str) {
    assert!(rt; found.len() == saves.len(), "so many files at {what}");
    'saves: for i in 0..found.len() {
        let Some(&(name, bytes)) = saves.get(i) else {
            panic!(rt; "a file too many at {what}")
        };
        assert_save(rt, &found[i], name, bytes, what);
    }
}

/// Asserts the results of scripts.
pub(crate) fn assert_came(
    rt: &impl Abort,
    came: &Came,
    outcomes: &str,
    page: &str,
    saves: &[(&str, &[u8])],
    what: &str,
) -> Result<(), Fail> {
    assert_saves(rt, came.saves.as_slice(), saves, what);
    assert_text(rt, came.outcomes.as_slice(), outcomes, what)?;
    assert_text(rt, came.page.as_slice(), page, what)
}

/// Asserts the results of a script as a session on a book of its own.
fn session_comes_to<R: Threads + Wait + Abort + Sync>(
    rt: &R,
    alloc: Global,
    options: Options,
    script: &str,
    files: &[Loaded],
    outcomes: &str,
    page: &str,
    saves: &[(&str, &[u8])],
) -> Result<(), Fail> {
    let came = run_alone(rt, alloc, options, script, files)?;
    assert_came(rt, &came, outcomes, page, saves, script)
}

/// Asserts the results of a script as a run of one script.
fn run_comes_to<R: Threads + Wait + Abort + Sync>(
    rt: &R,
    alloc: Global,
    options: Options,
    script: &str,
    files: &[Loaded],
    outcomes: &str,
    page: &str,
    saves: &[(&str, &[u8])],
) -> Result<(), Fail> {
    let scripts = scripts_of(alloc, [script].as_slice())?;
    let scripts = scripts.as_slice();
    let came = run_at_once(rt, alloc, options, scripts, files, true, &OpenGate)?;
    assert_came(rt, &came, outcomes, page, saves, script)
}

/// Asserts the results of a script, as a session on a book of its own and as a run of one script: its outcomes as
/// letters, its replies and then its history, and its files.
pub(crate) fn comes_to<R: Threads + Wait + Abort + Sync>(
    rt: &R,
    alloc: Global,
    options: Options,
    script: &str,
    files: &[(&str, &[u8])],
    outcomes: &str,
    page: &str,
    saves: &[(&str, &[u8])],
) -> Result<(), Fail> {
    let files = loaded(alloc, files)?;
    let files = files.as_slice();
    session_comes_to(rt, alloc, options, script, files, outcomes, page, saves)?;
    run_comes_to(rt, alloc, options, script, files, outcomes, page, saves)
}
