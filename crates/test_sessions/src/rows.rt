//! Runs whose pages were worked out by hand: loops and their limits, kernels of a cycle, steps of rewriting, orders and
//! classes, names that do not exist, snapshots, and two sessions that share no name.
use crate::expected::{assert_came, comes_to};
use crate::made::{Options, run_at_once, scripts_of};
use fork_quads::OpenGate;
use std::alloc::Global;
use std::process::Abort;
use std::sync::Wait;
use std::test::Fail;
use std::thread::Threads;

/// The kernels of a directed cycle of twelve vertices.
const KERNELS: &str =
    "Kernels(R) DECL e, d, k BEG\n  e = epsi(On1(R));\n  d = (e & R*e) | -(e | R*e);\n  k = d \\ On1(R);\n  RETURN e*inj(k)^\nEND.\nREL R 12 12 {1:2; 2:3; 3:4; 4:5; 5:6; 6:7; 7:8; 8:9; 9:10; 10:11; 11:12; 12:1}.\nLIST Kernels(R).\n";

/// Turns, nodes and workers; a script, the letters of its outcomes, and its page.
const SINGLE: &[(u64, u32, u32, &str, &str, &str)] = &[
    (
        7,
        20,
        1,
        "W(C) DECL x BEG x = C; WHILE C DO x = -x OD RETURN x END. REL T 1 1 {1:1}. PRINT W(T).",
        "..t",
        "1.3: refused: 1:24: more than 7 turns\n1.2 assign T 1 x 1\n1.3 read\n",
    ),
    (
        7,
        20,
        1,
        "N(V) DECL p BEG p = init(V); WHILE -empty(p) DO p = next(p) OD RETURN p END. REL V 7 1 {}. COUNT N(V).",
        "...",
        "1.3: 0\n1.2 assign V 7 x 1\n1.3 read\n",
    ),
    (
        6,
        20,
        1,
        "N(V) DECL p BEG p = init(V); WHILE -empty(p) DO p = next(p) OD RETURN p END. REL V 7 1 {}. COUNT N(V).",
        "..t",
        "1.3: refused: 1:30: more than 6 turns\n1.2 assign V 7 x 1\n1.3 read\n",
    ),
    (
        1_000_000,
        10,
        1,
        "N(V) DECL p BEG p = init(V); WHILE -empty(p) DO p = next(p) OD RETURN p END. REL V 1100 1 {}. REL A 2 2 {1:2}. COUNT N(V). PRINT A.",
        "...n.",
        "1.4: refused: no free node word\n1.5: 2 x 2\n.1\n..\n1.2 assign V 1100 x 1\n1.3 assign A 2 x 2\n1.4 read\n1.5 read\n",
    ),
    (
        1_000_000,
        20,
        4,
        KERNELS,
        "...",
        "1.3: 12 x 2, pairs 12\n1:1\n2:2\n3:1\n4:2\n5:1\n6:2\n7:1\n8:2\n9:1\n10:2\n11:1\n12:2\n1.2 assign R 12 x 12\n1.3 read\n",
    ),
    (
        1_000_000,
        20,
        1,
        "PRINT Z.",
        "i",
        "1.1: refused: 1:7: unknown name Z\n1.1 read\n",
    ),
    (
        1_000_000,
        20,
        1,
        "REL A 1 1 {}. SNAP t. REL A 1 1 {1:1}. AT t PRINT A. PRINT A. DROP A. AT u PRINT A.",
        "......i",
        "1.4: 1 x 1\n.\n1.5: 1 x 1\n1\n1.7: refused: 1:74: unknown name u\n1.1 assign A 1 x 1\n1.2 read\n1.3 assign A 1 x 1\n1.5 read\n1.6 drop A\n",
    ),
    (
        1_000_000,
        20,
        1,
        "REL A 2 2 {1:2}. REL B 2 2 {}. EXPLAIN -(A^*-B)|A\\B.",
        "...",
        "1.3: 2 steps\n5: -(A^*-B) -> A\\B\n4: A\\B|A\\B -> A\\B\n1.1 assign A 2 x 2\n1.2 assign B 2 x 2\n1.3 read\n",
    ),
    (
        1_000_000,
        10,
        1,
        "N(V) DECL p BEG p = init(V); WHILE -empty(p) DO p = next(p) OD RETURN p END. REL V 1100 1 {}. REL C 8 8 {}. COUNT N(V). COUNT --C. EXPLAIN --C.",
        "...n..",
        "1.4: refused: no free node word\n1.5: 0\n1.6: 1 steps\n1: --C -> C\n1.2 assign V 1100 x 1\n1.3 assign C 8 x 8\n1.4 read\n1.5 read\n1.6 read\n",
    ),
    (
        1_000_000,
        20,
        1,
        "EXPLAIN -Z.",
        "i",
        "1.1: refused: 1:10: unknown name Z\n1.1 read\n",
    ),
    (
        1_000_000,
        20,
        1,
        "REL A 1 1 {}. EXPLAIN epsi(A)^.",
        "..",
        "1.2: 0 steps\n1.1 assign A 1 x 1\n1.2 read\n",
    ),
    (
        1_000_000,
        20,
        1,
        "REL D 6 6 {1:1,2,3,4,5,6; 2:2,4,6; 3:3,6; 4:4; 5:5; 6:6}. REL V 6 1 {2:1; 3:1}. LIST hasse(D). LIST sup(D,V). LIST inf(D,V).",
        ".....",
        "1.3: 6 x 6, pairs 6\n1:2\n1:3\n1:5\n2:4\n2:6\n3:6\n1.4: 6 x 1, pairs 1\n6:1\n1.5: 6 x 1, pairs 1\n1:1\n1.1 assign D 6 x 6\n1.2 assign V 6 x 1\n1.3 read\n1.4 read\n1.5 read\n",
    ),
    (
        1_000_000,
        20,
        1,
        "REL E 3 3 {1:1,3; 2:2; 3:1,3}. PRINT quot(E). REL E 0 0 {}. TYPE quot(E).",
        "....",
        "1.2: 3 x 2\n1.\n.1\n1.\n1.4: 0 x 0\n1.1 assign E 3 x 3\n1.2 read\n1.3 assign E 0 x 0\n1.4 read\n",
    ),
    (
        1_000_000,
        20,
        1,
        "DROP A.",
        "i",
        "1.1: refused: 1:6: unknown name A\n1.1 read\n",
    ),
];

#[test]
fn single_scripts_come_to_their_pages(rt: HostRuntime) -> Result<(), Fail> {
    let alloc = rt.alloc();
    'cases: for &(turns, nodes, workers, script, outcomes, page) in SINGLE {
        let options = Options {
            turns,
            nodes,
            workers,
        };
        comes_to(
            &rt,
            alloc,
            options,
            script,
            [].as_slice(),
            outcomes,
            page,
            [].as_slice(),
        )?;
    }
    Ok(())
}

/// Two scripts, whether the history is wanted, the letters of their outcomes, and their page.
const APART: &[(&str, &str, bool, &str, &str)] = &[
    (
        "REL A 1 1 {}. SNAP t. AT t PRINT A.",
        "AT t PRINT A.",
        true,
        ".../i",
        "1.3: 1 x 1\n.\n2.1: refused: 1:4: unknown name t\n1.1 assign A 1 x 1\n1.2 read\n",
    ),
    (
        "PRINT.",
        "REL A 1 1 {1:1}. PRINT A.",
        true,
        "p/..",
        "1.0: refused: 1:6: expected an expression\n2.2: 1 x 1\n1\n2.1 assign A 1 x 1\n2.2 read\n",
    ),
    (
        "REL A 1 1 {1:1}. PRINT A.",
        "F(R) = S.",
        true,
        "../i",
        "1.2: 1 x 1\n1\n2.0: refused: 1:8: unknown name S\n1.1 assign A 1 x 1\n1.2 read\n",
    ),
    (
        "REL A 2 2 {1:2}. LET A = A*A. LIST A. DROP A. PRINT A.",
        "REL B 2 2 {1:2}. LET B = B|B^. COUNT B.",
        false,
        "....i/...",
        "1.3: 2 x 2, pairs 0\n1.5: refused: 1:53: unknown name A\n2.3: 2\n",
    ),
];

/// Asserts the results of two concurrent scripts.
fn come_to<R: Threads + Wait + Abort + Sync>(
    rt: &R,
    alloc: Global,
    scripts: [&str; 2],
    history: bool,
    outcomes: &str,
    page: &str,
) -> Result<(), Fail> {
    let options = Options {
        turns: 1_000_000,
        nodes: 14,
        workers: 1,
    };
    let texts = scripts_of(alloc, scripts.as_slice())?;
    let texts = texts.as_slice();
    let ran = run_at_once(rt, alloc, options, texts, &[], history, &OpenGate)?;
    assert_came(rt, &ran, outcomes, page, &[], scripts[1])
}

#[test]
fn sessions_that_do_not_meet_have_one_page(rt: HostRuntime) -> Result<(), Fail> {
    'cases: for &(first, second, history, outcomes, page) in APART {
        come_to(&rt, rt.alloc(), [first, second], history, outcomes, page)?;
    }
    Ok(())
}
