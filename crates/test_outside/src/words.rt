//! The words of the command line: each line with what it says, or the usage line.
use rv_words::{Options, WordsError, words_of};
use std::alloc::{AllocError, Global};
use std::process::Abort;
use std::test::Fail;

/// The words of a line, separated by single blanks; a `_` is an empty word.
fn words_in(alloc: Global, line: &str) -> Result<Vec<String>, AllocError> {
    let mut words = Vec::new(alloc);
    for word in line.split(' ') {
        let text = if word == "_" { "" } else { word };
        words.push(String::from_str(alloc, text)?)?;
    }
    Ok(words)
}

/// The options in one line: the numbers, the FILE words and the ends of the parts.
fn told(alloc: Global, options: &Options) -> Result<String, Fail> {
    let text = format!(in alloc;
        "{} {} {} {} {:?} {:?} {:?}",
        options.workers,
        options.nodes,
        options.turns,
        options.history,
        options.number,
        options.files,
        options.ends
    )?;
    Ok(text)
}

/// The scripts and the relation files in one line.
fn sorted(alloc: Global, options: &Options) -> Result<String, Fail> {
    Ok(format!(in alloc; "{:?} {:?}", options.scripts, options.relations)?)
}

/// What the words of a line give: the options in one line, or the error's message.
fn answer(alloc: Global, words: &[String]) -> Result<String, Fail> {
    match words_of(alloc, words) {
        Ok(options) => told(alloc, &options),
        Err(error) => Ok(format!(in alloc; "{error}")?),
    }
}

/// Lines that are accepted, and the options that they give.
const TAKEN: &[(&str, &str)] = &[
    ("a.rv", "1 20 1000000 false None [\"a.rv\"] [1]"),
    (
        "a.rv a.rv",
        "1 20 1000000 false None [\"a.rv\", \"a.rv\"] [2]",
    ),
    (
        "--nodes=10 a.rv b.k2",
        "1 10 1000000 false None [\"a.rv\", \"b.k2\"] [1]",
    ),
    (
        "b.k2 --workers 64 a.rv --turns=0 --history c.k2",
        "64 20 0 true None [\"b.k2\", \"a.rv\", \"c.k2\"] [1]",
    ),
    (
        "--workers=0000000000000000002 --nodes 024 a.rv",
        "2 24 1000000 false None [\"a.rv\"] [1]",
    ),
    ("-- -x.rv", "1 20 1000000 false None [\"-x.rv\"] [1]"),
    (
        "a.rv -- --history -- .k2",
        "1 20 1000000 false None [\"a.rv\", \"--history\", \"--\", \".k2\"] [3]",
    ),
    (
        "--turns 1000000000 k2",
        "1 20 1000000000 false None [\"k2\"] [1]",
    ),
    (
        "--gen 18446744073709551615",
        "1 20 1000000 false Some(18446744073709551615) [] [0]",
    ),
    ("--gen=0 --history --", "1 20 1000000 true Some(0) [] [0]"),
    (
        "--workers=2 =5 a=b",
        "2 20 1000000 false None [\"=5\", \"a=b\"] [2]",
    ),
    (
        "--nodes 12 a.rv --then b.rv",
        "1 12 1000000 false None [\"a.rv\", \"b.rv\"] [1, 2]",
    ),
    (
        "a.rv k.k2 b.rv --then l.k2 c.rv m.k2 --then a.rv",
        "1 20 1000000 false None [\"a.rv\", \"k.k2\", \"b.rv\", \"l.k2\", \"c.rv\", \"m.k2\", \"a.rv\"] [2, 3, 4]",
    ),
    (
        "a.rv -- --then b.rv",
        "1 20 1000000 false None [\"a.rv\", \"--then\", \"b.rv\"] [3]",
    ),
    (
        "a.rv --then -- b.rv --then --history",
        "1 20 1000000 false None [\"a.rv\", \"b.rv\", \"--then\", \"--history\"] [1, 4]",
    ),
    (
        "a.rv --then b.rv -- -- c.rv",
        "1 20 1000000 false None [\"a.rv\", \"b.rv\", \"--\", \"c.rv\"] [1, 4]",
    ),
    (
        "a --then b --then c --then d --then e --then f --then g --then h",
        "1 20 1000000 false None [\"a\", \"b\", \"c\", \"d\", \"e\", \"f\", \"g\", \"h\"] [1, 2, 3, 4, 5, 6, 7, 8]",
    ),
    (
        "then --then -- --then=x",
        "1 20 1000000 false None [\"then\", \"--then=x\"] [1, 2]",
    ),
];

/// Lines that are accepted, with their scripts and their relation files.
const SORTED: &[(&str, &str)] = &[
    ("b.k2 a.rv .k2", "[\"a.rv\"] [\"b.k2\", \".k2\"]"),
    ("--gen 7", "[] []"),
    (
        "k.k2 a.rv --then b.k2x l.k2 --then -- c.rv m.k2 --then",
        "[\"a.rv\", \"b.k2x\", \"c.rv\", \"--then\"] [\"k.k2\", \"l.k2\", \"m.k2\"]",
    ),
];

/// Lines outside the accepted set.
const OUTSIDE: &[&str] = &[
    "--workers 0 a.rv",
    "--workers 65 a.rv",
    "--workers 000000000000000000002 a.rv",
    "--workers= a.rv",
    "--workers +2 a.rv",
    "--workers 2x a.rv",
    "--workers _ a.rv",
    "--workers a.rv",
    "--workers - a.rv",
    "--workers -- 2 a.rv",
    "--workers --history a.rv",
    "a.rv --workers",
    "--nodes 9 a.rv",
    "--nodes 25 a.rv",
    "--turns -5 a.rv",
    "--turns=-5 a.rv",
    "--turns 1000000001 a.rv",
    "--turns 5 --turns 5 a.rv",
    "--turns 5 a.rv --turns=5",
    "--history --history a.rv",
    "--history=1 a.rv",
    "--history= a.rv",
    "--gen 1 a.rv",
    "--gen 1 b.k2",
    "--gen 18446744073709551616",
    "--gen 99999999999999999999",
    "--work 2 a.rv",
    "--help",
    "--version a.rv",
    "-h",
    "-w2 a.rv",
    "-é a.rv",
    "--=2 a.rv",
    "---workers 2 a.rv",
    "- a.rv",
    "a.rv -- -",
    "a.rv _",
    "a.rv -- _",
    "b.k2",
    "--history",
    "--",
    "--then",
    "--then a.rv",
    "a.rv --then",
    "a.rv --then --then b.rv",
    "a.rv --then --",
    "--nodes --then b.rv",
    "--nodes=12 --then b.rv",
    "k.k2 --then b.rv",
    "a.rv --then k.k2",
    "--gen 5 --then a.rv",
    "--gen 5 --then",
    "--gen 5 --then --gen 6",
    "a.rv --then --gen 5",
    "a.rv --then --history b.rv",
    "a.rv --then b.rv --workers 2",
    "a.rv --then b.rv --nodes=12",
    "a.rv --then b.rv --turns",
    "--workers 2 -- a.rv --then -",
    "a.rv --then - b.rv",
    "a.rv --then _ b.rv",
    "a.rv --then=b.rv",
    "a.rv --then=x",
    "a.rv --the b.rv",
    "a.rv -then b.rv",
    "a --then b --then c --then d --then e --then f --then g --then h --then i",
];

/// Asserts the result of a line.
fn assert_answer(rt: &impl Abort, alloc: Global, line: &str, want: &str) -> Result<(), Fail> {
    let words = words_in(alloc, line)?;
    let given = answer(alloc, words.as_slice())?;
    assert_eq!(rt; given.as_str(), want, "{line}");
    Ok(())
}

#[test]
fn words_are_taken_exactly_in_the_set(rt: HostRuntime) -> Result<(), Fail> {
    let alloc = rt.alloc();
    for &(line, want) in TAKEN {
        assert_answer(&rt, alloc, line, want)?;
    }
    for line in OUTSIDE {
        assert_answer(&rt, alloc, line, "Usage")?;
    }
    Ok(())
}

/// Asserts which scripts and which relation files a line gives.
fn assert_sorted(rt: &impl Abort, alloc: Global, line: &str, want: &str) -> Result<(), Fail> {
    let words = words_in(alloc, line)?;
    let given = match words_of(alloc, words.as_slice()) {
        Ok(options) => sorted(alloc, &options)?,
        Err(error) => format!(in alloc; "{error}")?,
    };
    assert_eq!(rt; given.as_str(), want, "{line}");
    Ok(())
}

#[test]
fn scripts_and_relation_files_keep_their_order(rt: HostRuntime) -> Result<(), Fail> {
    let alloc = rt.alloc();
    for &(line, want) in SORTED {
        assert_sorted(&rt, alloc, line, want)?;
    }
    Ok(())
}

/// Parts with these numbers of scripts and relation files each, and one more word in the last part.
fn parts_in(
    alloc: Global,
    parts: u32,
    scripts: u32,
    relations: u32,
    more: &str,
) -> Result<Vec<String>, AllocError> {
    let mut words = Vec::new(alloc);
    for part in 0..parts {
        if 0 < part {
            words.push(String::from_str(alloc, "--then")?)?;
        }
        for place in 0..scripts.saturating_add(relations) {
            let word = if place < scripts { "a.rv" } else { "b.k2" };
            words.push(String::from_str(alloc, word)?)?;
        }
    }
    if !more.is_empty() {
        words.push(String::from_str(alloc, more)?)?;
    }
    Ok(words)
}

/// Numbers of parts, and of scripts and relation files in each, one more word, and whether the words are accepted.
const LIMITS: &[(u32, u32, u32, &str, bool)] = &[
    (1, 64, 64, "", true),
    (1, 64, 64, "a.rv", false),
    (1, 64, 64, "b.k2", false),
    (1, 0, 64, "", false),
    (8, 8, 8, "", true),
    (8, 8, 8, "a.rv", false),
    (8, 8, 8, "b.k2", false),
    (2, 32, 0, "", true),
    (2, 33, 0, "", false),
    (2, 1, 33, "", false),
    (8, 1, 0, "", true),
    (9, 1, 0, "", false),
];

/// Asserts whether a line of the limits is accepted.
fn assert_limit(
    rt: &impl Abort,
    alloc: Global,
    limit: (u32, u32, u32, &str, bool),
) -> Result<(), Fail> {
    let (parts, scripts, relations, more, is_taken) = limit;
    let words = parts_in(alloc, parts, scripts, relations, more)?;
    assert_eq!(rt;
        words_of(alloc, words.as_slice()).is_ok(),
        is_taken,
        "{parts} parts of {scripts} scripts and {relations} relation files, and {more}"
    );
    Ok(())
}

#[test]
fn limits_are_of_all_parts_together(rt: HostRuntime) -> Result<(), Fail> {
    let alloc = rt.alloc();
    let none = answer(alloc, &[])?;
    assert_eq!(rt; none.as_str(), "Usage");
    for &limit in LIMITS {
        assert_limit(&rt, alloc, limit)?;
    }
    Ok(())
}
