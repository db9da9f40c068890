//! Batches of scripts, one after another on one workspace.
use super::runs::{NEVER, assert_stopped, assert_written, run_with};
use std::alloc::{AllocError, Global};
use std::test::Fail;

/// A script that fills a table of 1,022 nodes, and then prints a small relation.
const FULL: &str = "N(V) DECL p BEG p = init(V); WHILE -empty(p) DO p = next(p) OD RETURN p END. \
    REL V 1100 1 {}. REL A 2 2 {1:2}. COUNT N(V). PRINT A.";

/// How many of the 1,022 places that a table has for nodes are taken in its words.
fn stored(words: &[u64]) -> u32 {
    let mut left: u32 = 1024;
    let mut count: u32 = 0;
    'words: for word in words {
        if left == 0 {
            break 'words;
        }
        left = left.wrapping_sub(1);
        if *word != 0 {
            count = count.wrapping_add(1);
        }
    }
    count
}

#[test]
fn a_table_that_is_full_is_followed_by_a_fresh_one(rt: HostRuntime) -> Result<(), Fail> {
    let alloc = rt.alloc();
    let files = [
        ("a.rv", FULL.as_bytes()),
        ("b.rv", b"REL B 3 3 {1:1}. PRINT -B. PRINT A."),
    ];
    let ran = run_with(
        &rt,
        alloc,
        "--nodes 10 a.rv --then b.rv",
        files.as_slice(),
        NEVER,
        NEVER,
    )?;
    let page = "1.4: refused: no free node word\n1.5: 2 x 2\n.1\n..\n2.2: 3 x 3\n.11\n111\n111\n\
        2.3: 2 x 2\n.1\n..\n";
    assert_written(&rt, &ran, page, 1, "two batches")?;
    let [old] = ran.report.old.as_slice() else {
        panic!(rt; "not one batch before the last")
    };
    assert_eq!(rt; old.upto, 4);
    assert_eq!(rt; stored(old.words.as_slice()), 1022);
    let [first, second] = old.live.as_slice() else {
        panic!(rt; "not two names")
    };
    assert!(rt; first.0.bytes() == b"A".as_slice());
    assert!(rt; second.0.bytes() == b"V".as_slice());
    assert!(rt; stored(ran.report.words.as_slice()) < 10);
    Ok(())
}

#[test]
fn a_part_of_no_file_is_outside_the_set(rt: HostRuntime) -> Result<(), Fail> {
    let alloc = rt.alloc();
    let usage = "usage: relview [--workers N] [--nodes K] [--turns T] [--history] [--gen NUMBER] \
        FILE... [--then FILE...]...\n";
    for words in [
        "a.rv --then",
        "--then a.rv",
        "a.rv --then --history b.rv",
        "--gen 1 --then a.rv",
    ] {
        let ran = run_with(
            &rt,
            alloc,
            words,
            [("a.rv", b"".as_slice())].as_slice(),
            0,
            NEVER,
        )?;
        assert_written(&rt, &ran, usage, 2, words)?;
        assert_stopped(&rt, &ran, words);
    }
    Ok(())
}

#[test]
fn names_live_on_and_snapshots_do_not(rt: HostRuntime) -> Result<(), Fail> {
    let alloc = rt.alloc();
    for (words, first, second, page, status) in [
        (
            "a.rv --then b.rv",
            "REL A 2 2 {1:2}. SNAP t. REL A 1 1 {}.",
            "PRINT A. AT t PRINT A.",
            "2.1: 1 x 1\n.\n2.2: refused: 1:13: unknown name t\n",
            1,
        ),
        (
            "--history a.rv --then b.rv",
            "REL A 1 1 {1:1}. REL B 1 1 {}.",
            "DROP A. LET C = -B. PRINT C. PRINT A.",
            "2.3: 1 x 1\n1\n2.4: refused: 1:36: unknown name A\n1.1 assign A 1 x 1\n1.2 assign B 1 x \
                1\n2.1 drop A\n2.2 read\n2.2 assign C 1 x 1\n2.3 read\n2.4 read\n",
            1,
        ),
        (
            "a.rv --then b.rv --then a.rv --then b.rv",
            "LET A = -A.",
            "REL A 1 2 {1:1}. PRINT A.",
            "1.1: refused: 1:10: unknown name A\n2.2: 1 x 2\n1.\n4.2: 1 x 2\n1.\n",
            1,
        ),
        (
            "a.rv --then b.rv",
            "REL A 2 2 {1:1; 2:2}. ATOMIC LET B = A; LET C = B*B COMMIT.",
            "ATOMIC LET B = -C; LET C = B COMMIT. PRINT C. COUNT A*B.",
            "2.2: 2 x 2\n.1\n1.\n2.3: 2\n",
            0,
        ),
    ] {
        let files = [("a.rv", first.as_bytes()), ("b.rv", second.as_bytes())];
        let ran = run_with(&rt, alloc, words, files.as_slice(), NEVER, NEVER)?;
        assert_written(&rt, &ran, page, status, words)?;
    }
    Ok(())
}

/// A script that assigns X 520 squares of 8 by 8, one after another, each a leaf that no other batch has.
fn half_script(alloc: Global, batch: u32) -> Result<String, AllocError> {
    let mut text = String::new(alloc);
    'squares: for square in 0..520u32 {
        let row = (square / 127).wrapping_add(3);
        let more = (square % 127).wrapping_add(1);
        text.push_str(format!(in alloc; "REL X 8 8 {{1:{batch}; {row}:")?.as_str())?;
        let mut comma = "";
        let mut rest = more;
        'cells: for cell in 1..8u32 {
            if rest % 2 == 1 {
                text.push_str(format!(in alloc; "{comma}{cell}")?.as_str())?;
                comma = ",";
            }
            rest = rest / 2;
        }
        text.push_str("}. ")?;
    }
    text.push_str("PRINT X.")?;
    Ok(text)
}

/// What a script that fills half a table prints as session `number`.
fn half_page(alloc: Global, number: u32, batch: u32) -> Result<String, AllocError> {
    let mut page = format!(in alloc; "{number}.521: 8 x 8\n")?;
    'rows: for row in 1..9u32 {
        'cells: for cell in 1..9u32 {
            // The last square is number 519: row 7, and 12 as bits.
            let there = (row == 1 && cell == batch) || (row == 7 && (cell == 3 || cell == 4));
            page.push_str(if there { "1" } else { "." })?;
        }
        page.push_str("\n")?;
    }
    Ok(page)
}

#[test]
fn eight_batches_that_each_fill_half_a_table_run_where_one_batch_does_not(
    rt: HostRuntime,
) -> Result<(), Fail> {
    let alloc = rt.alloc();
    let mut all = String::new(alloc);
    let mut page = String::new(alloc);
    for batch in 1..9u32 {
        all.push_str(half_script(alloc, batch)?.as_str())?;
        all.push_str(" ")?;
        page.push_str(half_page(alloc, batch, batch)?.as_str())?;
    }
    let one = half_script(alloc, 1)?;
    let two = half_script(alloc, 2)?;
    let three = half_script(alloc, 3)?;
    let four = half_script(alloc, 4)?;
    let five = half_script(alloc, 5)?;
    let six = half_script(alloc, 6)?;
    let seven = half_script(alloc, 7)?;
    let eight = half_script(alloc, 8)?;
    let files = [
        ("1.rv", one.as_str().as_bytes()),
        ("2.rv", two.as_str().as_bytes()),
        ("3.rv", three.as_str().as_bytes()),
        ("4.rv", four.as_str().as_bytes()),
        ("5.rv", five.as_str().as_bytes()),
        ("6.rv", six.as_str().as_bytes()),
        ("7.rv", seven.as_str().as_bytes()),
        ("8.rv", eight.as_str().as_bytes()),
        ("all.rv", all.as_str().as_bytes()),
    ];
    let words =
        "--nodes 10 1.rv --then 2.rv --then 3.rv --then 4.rv --then 5.rv --then 6.rv --then 7.rv \
        --then 8.rv";
    let ran = run_with(&rt, alloc, words, files.as_slice(), NEVER, NEVER)?;
    assert_written(&rt, &ran, page.as_str(), 0, "eight batches")?;
    assert_eq!(rt; ran.report.old.len(), 7);
    for old in ran.report.old.as_slice() {
        assert!(rt; stored(old.words.as_slice()) > 511);
    }
    assert!(rt; stored(ran.report.words.as_slice()) > 511);
    let one = run_with(
        &rt,
        alloc,
        "--nodes 10 all.rv",
        files.as_slice(),
        NEVER,
        NEVER,
    )?;
    assert_eq!(rt; one.report.status, 1);
    assert_eq!(rt; stored(one.report.words.as_slice()), 1022);
    Ok(())
}

/// A script that names 1,010 leaves, whose words are the numbers from 2 on, and 8 squares of 16 by 16 with one such
/// leaf in the corner: the two pairs above the leaf are such numbers too, so nodes are read at two levels.
fn crowded_script(alloc: Global) -> Result<String, AllocError> {
    let mut text = String::new(alloc);
    'leaves: for word in 2..1012u32 {
        text.push_str(format!(in alloc; "REL L{word} 8 8 {{")?.as_str())?;
        push_cells(alloc, &mut text, word, 0)?;
        text.push_str("}. ")?;
    }
    'squares: for word in 100..108u32 {
        text.push_str(format!(in alloc; "REL S{word} 16 16 {{")?.as_str())?;
        push_cells(alloc, &mut text, word, 8)?;
        text.push_str("}. ")?;
    }
    Ok(text)
}

/// Appends the cells of a word of ten bits, as rows, shifted by this many rows and columns.
fn push_cells(alloc: Global, text: &mut String, word: u32, further: u32) -> Result<(), AllocError> {
    let mut semicolon = "";
    let mut rest = word;
    'bits: for bit in 0..10u32 {
        if rest % 2 == 1 {
            let row = (bit / 8).wrapping_add(1).wrapping_add(further);
            let col = (bit % 8).wrapping_add(1).wrapping_add(further);
            text.push_str(format!(in alloc; "{semicolon}{row}:{col}")?.as_str())?;
            semicolon = "; ";
        }
        rest = rest / 2;
    }
    Ok(())
}

#[test]
fn relations_that_reach_more_uses_than_there_is_room_for_stay_in_their_words(
    rt: HostRuntime,
) -> Result<(), Fail> {
    let alloc = rt.alloc();
    let script = crowded_script(alloc)?;
    let files = [
        ("a.rv", script.as_str().as_bytes()),
        ("b.rv", b"COUNT S103. PRINT L3."),
    ];
    let page =
        "2.1: 5\n2.2: 8 x 8\n11......\n........\n........\n........\n........\n........\n........\n\
        ........\n";
    let ran = run_with(
        &rt,
        alloc,
        "--nodes 10 a.rv --then b.rv",
        files.as_slice(),
        NEVER,
        NEVER,
    )?;
    assert_written(&rt, &ran, page, 0, "a copy of the words")?;
    let [old] = ran.report.old.as_slice() else {
        panic!(rt; "not one batch before the last")
    };
    assert!(rt; old.words.as_slice() == ran.report.words.as_slice());
    Ok(())
}

#[test]
fn sessions_are_numbered_through_eight_batches(rt: HostRuntime) -> Result<(), Fail> {
    let alloc = rt.alloc();
    let mut words = String::new(alloc);
    let mut page = String::new(alloc);
    for session in 1..65u32 {
        words.push_str(if session > 1 && session % 8 == 1 {
            "--then a.rv "
        } else {
            "a.rv "
        })?;
        page.push_str(format!(in alloc; "{session}.2: 2 x 1\n.\n1\n")?.as_str())?;
    }
    let ran = run_with(
        &rt,
        alloc,
        words.as_str(),
        [("a.rv", b"REL A 2 1 {2:1}. PRINT A.".as_slice())].as_slice(),
        NEVER,
        NEVER,
    )?;
    assert_written(&rt, &ran, page.as_str(), 0, "64 scripts over 8 parts")?;
    assert_eq!(rt; ran.report.old.len(), 7);
    let mut upto: u64 = 0;
    for old in ran.report.old.as_slice() {
        upto = upto.wrapping_add(16);
        assert_eq!(rt; old.upto, upto);
    }
    assert_eq!(rt; ran.report.history.len(), 128);
    Ok(())
}
