//! Each command with each outcome that it can have.
use crate::expected::comes_to;
use crate::made::Options;
use std::alloc::{AllocError, Global};
use std::process::Abort;
use std::sync::Wait;
use std::test::Fail;
use std::thread::Threads;

/// Seven turns, and a table of 2^14 node words.
const OPTIONS: Options = Options {
    turns: 7,
    nodes: 14,
    workers: 1,
};

/// As many turns as needed, and a table of 1,022 node words.
const SMALL: Options = Options {
    turns: 1_000_000,
    nodes: 10,
    workers: 1,
};

/// Scripts, the letters of their outcomes, and their pages.
const SCRIPTS: &[(&str, &str, &str)] = &[
    ("", "", ""),
    (
        "REL A 1 1 {}.\nPRINT.\n",
        "p",
        "1.0: refused: 2:6: expected an expression\n",
    ),
    (
        "REL A 1 1 {}.\nF(R) = R.\nPRINT F(A,A).\n",
        "i",
        "1.0: refused: 3:7: F takes 1 arguments, not 2\n",
    ),
    (
        "F(R) = R|R^.\nG(R) DECL a BEG a = F(R) RETURN a*a END.\nREL A 2 2 {1:2}.\nLIST G(A).\n",
        "....",
        "1.4: 2 x 2, pairs 2\n1:1\n2:2\n1.3 assign A 2 x 2\n1.4 read\n",
    ),
    (
        "REL A 2 3 {1:1,3; 2:2}.\nPRINT A.\n",
        "..",
        "1.2: 2 x 3\n1.1\n.1.\n1.1 assign A 2 x 3\n1.2 read\n",
    ),
    (
        "REL A 0 3 {}.\nLIST A.\nREL B 2 0 {}.\nPRINT B.\n",
        "....",
        "1.2: 0 x 3, pairs 0\n1.4: 2 x 0\n\n\n1.1 assign A 0 x 3\n1.2 read\n1.3 assign B 2 x 0\n1.4 read\n",
    ),
    (
        "REL A 1 1 {}.\nREL A 2 2 {2:1}.\nPRINT A.\n",
        "...",
        "1.3: 2 x 2\n..\n1.\n1.1 assign A 1 x 1\n1.2 assign A 2 x 2\n1.3 read\n",
    ),
    (
        "REL A 16777217 1 {}.\nREL A 1 16777218 {}.\nREL A 2 2 {3:1}.\nREL A 2 2 {1:1,3}.\nREL A 2 2 {1:9; 8:1}.\nREL A 16777217 16777218 {}.\nPRINT A.\n",
        "ssssssi",
        "1.1: refused: 1:7: size 16777217 passes the limit 16777216\n1.2: refused: 2:9: size 16777218 passes the limit 16777216\n1.3: refused: 3:12: size 3 passes the limit 2\n1.4: refused: 4:16: size 3 passes the limit 2\n1.5: refused: 5:14: size 9 passes the limit 2\n1.6: refused: 6:7: size 16777217 passes the limit 16777216\n1.7: refused: 7:7: unknown name A\n1.7 read\n",
    ),
    (
        "REL A 3 2 {1:1; 3:2}.\nLET B = A^.\nPRINT B.\nLET A = B*A.\nLIST A.\nLET C = Z.\nPRINT C.\n",
        ".....ii",
        "1.3: 2 x 3\n1..\n..1\n1.5: 2 x 2, pairs 2\n1:1\n2:2\n1.6: refused: 6:9: unknown name Z\n1.7: refused: 7:7: unknown name C\n1.1 assign A 3 x 2\n1.2 read\n1.2 assign B 2 x 3\n1.3 read\n1.4 read\n1.4 assign A 2 x 2\n1.5 read\n1.6 read\n1.7 read\n",
    ),
    (
        "REL A 1 1 {1:1}.\nLET A = -A|Z.\nPRINT A.\n",
        ".i.",
        "1.2: refused: 2:12: unknown name Z\n1.3: 1 x 1\n1\n1.1 assign A 1 x 1\n1.2 read\n1.3 read\n",
    ),
    (
        "REL A 3 2 {1:1; 3:2}.\nCOUNT -A.\nTYPE A^*A.\nCOUNT A.\nTYPE A.\n",
        ".....",
        "1.2: 4\n1.3: 2 x 2\n1.4: 2\n1.5: 3 x 2\n1.1 assign A 3 x 2\n1.2 read\n1.3 read\n1.4 read\n1.5 read\n",
    ),
    (
        "REL A 1 1 {}.\nDROP A.\nPRINT A.\nDROP A.\nREL A 1 1 {1:1}.\nPRINT A.\n",
        "..ii..",
        "1.3: refused: 3:7: unknown name A\n1.4: refused: 4:6: unknown name A\n1.6: 1 x 1\n1\n1.1 assign A 1 x 1\n1.2 drop A\n1.3 read\n1.4 read\n1.5 assign A 1 x 1\n1.6 read\n",
    ),
    (
        "REL A 1 1 {}.\nREL AB 1 1 {1:1}.\nDROP A.\nPRINT AB.\nPRINT A.\n",
        "....i",
        "1.4: 1 x 1\n1\n1.5: refused: 5:7: unknown name A\n1.1 assign A 1 x 1\n1.2 assign AB 1 x 1\n1.3 drop A\n1.4 read\n1.5 read\n",
    ),
    (
        "REL A 1 1 {}.\nSNAP t.\nREL A 1 1 {1:1}.\nAT t PRINT A.\nSNAP t.\nAT t PRINT A.\nDROP A.\nAT t PRINT A.\nPRINT A.\n",
        "........i",
        "1.4: 1 x 1\n.\n1.6: 1 x 1\n1\n1.8: 1 x 1\n1\n1.9: refused: 9:7: unknown name A\n1.1 assign A 1 x 1\n1.2 read\n1.3 assign A 1 x 1\n1.5 read\n1.7 drop A\n1.9 read\n",
    ),
    (
        "AT t PRINT A.\nREL A 1 2 {1:2}.\nAT A PRINT A.\nSNAP A.\nAT A PRINT A^.\nSNAP u.\nDROP A.\nAT A PRINT A.\nAT u PRINT A.\nAT t PRINT A.\n",
        "i.i......i",
        "1.1: refused: 1:4: unknown name t\n1.3: refused: 3:4: unknown name A\n1.5: 2 x 1\n.\n1\n1.8: 1 x 2\n.1\n1.9: 1 x 2\n.1\n1.10: refused: 10:4: unknown name t\n1.2 assign A 1 x 2\n1.4 read\n1.6 read\n1.7 drop A\n",
    ),
    (
        "REL A 2000 2000 {}.\nSNAP t.\nPRINT A.\nLIST L(A).\nAT t PRINT -A.\nCOUNT L(A).\nTYPE A.\n",
        "..lll..",
        "1.3: refused: 4000000 cells pass the limit 1048576\n1.4: refused: 4000000 pairs pass the limit 1048576\n1.5: refused: 4000000 cells pass the limit 1048576\n1.6: 4000000\n1.7: 2000 x 2000\n1.1 assign A 2000 x 2000\n1.2 read\n1.3 read\n1.4 read\n1.6 read\n1.7 read\n",
    ),
    (
        "REL A 1048576 1048576 {}.\nLET B = L(A).\nCOUNT B.\nSAVE B \"b.k2\".\n",
        "...b",
        "1.3: 1099511627776\n1.4: refused: 1466015503700 bits pass the limit 67108864\n1.1 assign A 1048576 x 1048576\n1.2 read\n1.2 assign B 1048576 x 1048576\n1.3 read\n1.4 read\n",
    ),
];

#[test]
fn commands_are_done_or_refused_and_the_next_one_follows(rt: HostRuntime) -> Result<(), Fail> {
    let alloc = rt.alloc();
    'cases: for &(script, outcomes, page) in SCRIPTS {
        comes_to(
            &rt,
            alloc,
            OPTIONS,
            script,
            [].as_slice(),
            outcomes,
            page,
            [].as_slice(),
        )?;
    }
    Ok(())
}

/// The part of a script before the commands whose expressions are refused: line 1.
const BEFORE: &str =
    "W(C) DECL x BEG x = C; WHILE C DO x = -x OD RETURN x END. REL A 3 2 {1:1; 3:2}. REL B 3 3 {1:2}. REL T 1 1 {1:1}. REL V 25 1 {}. SNAP t.\n";

/// The history before these commands.
const HAPPENED: &str =
    "1.2 assign A 3 x 2\n1.3 assign B 3 x 3\n1.4 assign T 1 x 1\n1.5 assign V 25 x 1\n1.6 read\n";

/// Expressions that are refused, each with its column, the text, and the letter of the outcome. Without a column, the
/// place is that of the loop in line 1.
const REFUSED: &[(&str, Option<u64>, &str, &str)] = &[
    ("Z", Some(1), "unknown name Z", "i"),
    ("A*B|Z", Some(5), "unknown name Z", "i"),
    ("A*B", Some(2), "* does not fit 3 x 2 and 3 x 3", "i"),
    ("A|B", Some(2), "| does not fit 3 x 2 and 3 x 3", "i"),
    ("A/B", Some(2), "/ does not fit 3 x 2 and 3 x 3", "i"),
    ("[A,T]", Some(1), "[ does not fit 3 x 2 and 1 x 1", "i"),
    ("I(A)", Some(1), "I needs a square relation, not 3 x 2", "i"),
    (
        "A^|trans(A)",
        Some(4),
        "trans needs a square relation, not 3 x 2",
        "i",
    ),
    (
        "point(A)",
        Some(1),
        "point needs one column, not 3 x 2",
        "i",
    ),
    ("W(A)", None, "a test must be 1 x 1, not 3 x 2", "i"),
    (
        "epsi(V)",
        Some(1),
        "size 33554432 passes the limit 16777216",
        "s",
    ),
    ("W(T)", None, "more than 7 turns", "t"),
];

/// The place of a refusal: a column after the beginning of a command in a line, or that of the loop in line 1.
fn place_of(
    alloc: Global,
    line: usize,
    before: &str,
    column: Option<u64>,
) -> Result<String, AllocError> {
    match column {
        Some(column) => {
            let column = (before.len() as u64).wrapping_add(column);
            format!(in alloc; "{line}:{column}")
        }
        None => format!(in alloc; "1:24"),
    }
}

/// A script and its expected result: the letters of its outcomes, its replies and its history.
#[derive(Drop)]
struct Wanted {
    script: String,
    outcomes: String,
    replies: String,
    history: String,
}

/// The commands before those whose expressions are refused.
fn before_all(alloc: Global) -> Result<Wanted, AllocError> {
    Ok(Wanted {
        script: String::from_str(alloc, BEFORE)?,
        outcomes: String::from_str(alloc, "......")?,
        replies: String::new(alloc),
        history: String::from_str(alloc, HAPPENED)?,
    })
}

/// Appends a command whose expression is refused: the i-th of all.
fn add_refused(
    alloc: Global,
    wanted: &mut Wanted,
    i: usize,
    before: &str,
    behind: &str,
) -> Result<(), AllocError> {
    let Some(&(expression, column, text, letter)) = REFUSED.get(i) else {
        return Ok(());
    };
    let (line, command) = (i.wrapping_add(2), i.wrapping_add(7));
    let place = place_of(alloc, line, before, column)?;
    let command_line = format!(in alloc; "{before}{expression}{behind}\n")?;
    let place = place.as_str();
    let reply = format!(in alloc; "1.{command}: refused: {place}: {text}\n")?;
    wanted.script.push_str(command_line.as_str())?;
    wanted.replies.push_str(reply.as_str())?;
    wanted.outcomes.push_str(letter)
}

/// Appends that a command read.
fn add_read(alloc: Global, history: &mut String, command: usize) -> Result<(), AllocError> {
    let line = format!(in alloc; "1.{command} read\n")?;
    history.push_str(line.as_str())
}

/// Appends the last command, which is done.
fn add_last(wanted: &mut Wanted) -> Result<(), AllocError> {
    wanted.script.push_str("LIST T.")?;
    wanted.outcomes.push_str(".")?;
    wanted.replies.push_str("1.19: 1 x 1, pairs 1\n1:1\n")?;
    wanted.history.push_str("1.19 read\n")?;
    wanted.replies.push_str(wanted.history.as_str())
}

/// The script with each kind of expression in one command, which reads if it says so.
fn all_refused(
    alloc: Global,
    before: &str,
    behind: &str,
    reads: bool,
) -> Result<Wanted, AllocError> {
    let mut wanted = before_all(alloc)?;
    'cases: for i in 0..REFUSED.len() {
        add_refused(alloc, &mut wanted, i, before, behind)?;
        if reads {
            add_read(alloc, &mut wanted.history, i.wrapping_add(7))?;
        }
    }
    add_last(&mut wanted)?;
    Ok(wanted)
}

/// Asserts the refusal of each kind of expression by one command, which reads if it says so. The commands are on lines
/// of their own, and a last command is done.
fn refuses_expressions<R: Threads + Wait + Abort + Sync>(
    rt: &R,
    alloc: Global,
    before: &str,
    behind: &str,
    reads: bool,
) -> Result<(), Fail> {
    let wanted = all_refused(alloc, before, behind, reads)?;
    comes_to(
        rt,
        alloc,
        OPTIONS,
        wanted.script.as_str(),
        [].as_slice(),
        wanted.outcomes.as_str(),
        wanted.replies.as_str(),
        [].as_slice(),
    )
}

/// A loop that takes the elements of a vector of 1,100 one after another, and commands after it that make relations.
const STEPS: &str =
    "N(V) DECL p BEG p = init(V); WHILE -empty(p) DO p = next(p) OD RETURN p END. REL V 1100 1 {}. REL A 2 2 {1:2}. SNAP t.\n";

/// The file of the pairs 1:1 and 4:4 of four elements.
const CORNERS: &[u8] = &[
    82, 86, 75, 49, 0, 0, 0, 4, 0, 0, 0, 4, 2, 0, 0, 0, 0, 0, 0, 0, 4, 0, 0, 0, 0, 0, 0, 0, 8, 144,
    129,
];

/// The page for a full table, depending on whether the refused command has read.
fn full_page(alloc: Global, reads: bool) -> Result<String, AllocError> {
    let read = if reads { "1.5 read\n" } else { "" };
    format!(in alloc;
        "1.5: refused: no free node word\n1.6: refused: no free node word\n1.7: refused: no free node word\n1.8: 2 x 2\n.1\n..\n1.9: refused: 6:6: unknown name B\n1.2 assign V 1100 x 1\n1.3 assign A 2 x 2\n1.4 read\n{read}1.8 read\n1.9 read\n"
    )
}

/// Asserts that a command whose expression needs more nodes than the table has is refused, and so are REL and LOAD of
/// further relations after it, while plain names are still shown.
fn refuses_in_a_full_table<R: Threads + Wait + Abort + Sync>(
    rt: &R,
    alloc: Global,
    before: &str,
    behind: &str,
    reads: bool,
) -> Result<(), Fail> {
    let script = format!(in alloc;
        "{STEPS}{before}N(V){behind}\nREL B 9 9 {{1:1; 9:9}}.\nLOAD C \"a.k2\".\nPRINT A.\nDROP B.\n"
    )?;
    let page = full_page(alloc, reads)?;
    comes_to(
        rt,
        alloc,
        SMALL,
        script.as_str(),
        [("a.k2", CORNERS)].as_slice(),
        "....nnn.i",
        page.as_str(),
        [].as_slice(),
    )
}

/// The text before and after an expression in each command, and whether the command reads.
const COMMANDS: &[(&str, &str, bool)] = &[
    ("LET C = ", ".", true),
    ("PRINT ", ".", true),
    ("LIST ", ".", true),
    ("COUNT ", ".", true),
    ("TYPE ", ".", true),
    ("SAVE ", " \"b.k2\".", true),
    ("AT t PRINT ", ".", false),
];

#[test]
fn each_command_refuses_each_kind_of_expression(rt: HostRuntime) -> Result<(), Fail> {
    let alloc = rt.alloc();
    'commands: for &(before, behind, reads) in COMMANDS {
        refuses_expressions(&rt, alloc, before, behind, reads)?;
        refuses_in_a_full_table(&rt, alloc, before, behind, reads)?;
    }
    Ok(())
}
