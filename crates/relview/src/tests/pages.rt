//! Scripts, with the page and the status of their runs.
use super::runs::{assert_written, run_script};
use std::test::Fail;

/// The page of the scripts that are generated from number 0.
const GENERATED: &str =
    "1.3: 3144\n1.4: 2402\n1.5: 2490\n2.3: 2955\n2.4: 2117\n2.5: 2290\n3.3: 3528\n\
    3.4: 3025\n3.5: 3046\n4.3: 3460\n4.4: 2916\n4.5: 2956\n5.3: 2704\n5.4: 1764\n\
    5.5: 1898\n6.3: 3522\n6.4: 3025\n6.5: 3078\n7.3: 2961\n7.4: 2117\n7.5: 2226\n\
    8.3: 3649\n8.4: 3249\n8.5: 3286\n";

#[test]
fn each_script_has_its_page_and_its_status(rt: HostRuntime) -> Result<(), Fail> {
    let alloc = rt.alloc();
    for (words, script, page, status) in [
        ("a.rv", "", "", 0),
        (
            "a.rv",
            "REL A 3 3 {1:2; 2:3}. PRINT A*A.",
            "1.2: 3 x 3\n..1\n...\n...\n",
            0,
        ),
        (
            "a.rv",
            "REL A 3 3 {1:2; 2:3}. PRINT -A.",
            "1.2: 3 x 3\n1.1\n11.\n111\n",
            0,
        ),
        (
            "a.rv",
            "REL A 3 3 {1:2; 2:3}. TYPE inj(dom(O(A))).",
            "1.2: 0 x 3\n",
            0,
        ),
        (
            "a.rv",
            "REL A 5 5 {1:2; 2:3; 3:4; 4:5; 5:1}. PRINT trans(A).",
            "1.2: 5 x 5\n11111\n11111\n11111\n11111\n11111\n",
            0,
        ),
        (
            "a.rv",
            "REL A 2 3 {1:1}. PRINT syq(A,A).",
            "1.2: 3 x 3\n1..\n.11\n.11\n",
            0,
        ),
        (
            "a.rv",
            "REL B 10 1 {}. COUNT epsi(On1(B)).",
            "1.2: 5120\n",
            0,
        ),
        (
            "a.rv",
            "REL B 25 1 {}. COUNT epsi(On1(B)).",
            "1.2: refused: 1:22: size 33554432 passes the limit 16777216\n",
            1,
        ),
        (
            "a.rv",
            "REL B 21 1 {}. COUNT epsi(On1(B)).",
            "1.2: 22020096\n",
            0,
        ),
        (
            "--nodes 22 a.rv",
            "REL B 24 1 {}. COUNT epsi(On1(B)).",
            "1.2: 201326592\n",
            0,
        ),
        (
            "a.rv",
            "REL A 16777216 16777216 {}. LET B = L(A). COUNT B. SAVE B \"b.k2\".",
            "1.3: 281474976710656\n1.4: refused: 375299968947540 bits pass the limit 67108864\n",
            1,
        ),
        (
            "a.rv",
            "REL A 16777217 1 {}.",
            "1.1: refused: 1:7: size 16777217 passes the limit 16777216\n",
            1,
        ),
        (
            "a.rv",
            "REL V 3 1 {}. PRINT point(V). REL W 3 1 {3:1}. PRINT next(W).",
            "1.2: 3 x 1\n.\n.\n.\n1.4: 3 x 1\n.\n.\n.\n",
            0,
        ),
        (
            "a.rv",
            "REL A 3 2 {}. REL B 3 3 {}. PRINT A*B. PRINT A.",
            "1.3: refused: 1:36: * does not fit 3 x 2 and 3 x 3\n1.4: 3 x 2\n..\n..\n..\n",
            1,
        ),
        (
            "--history a.rv",
            "F(R) DECL a BEG IF empty(R) THEN a = R FI RETURN a END. REL A 1 1 {}. PRINT F(A).",
            "1.0: refused: 1:50: a may be read before it is assigned\n",
            1,
        ),
        (
            "--turns 7 a.rv",
            "W(C) DECL x BEG x = C; WHILE C DO x = -x OD RETURN x END. REL T 1 1 {1:1}. PRINT \
                W(T).",
            "1.3: refused: 1:24: more than 7 turns\n",
            1,
        ),
        (
            "--turns 7 a.rv",
            "N(V) DECL p BEG p = init(V); WHILE -empty(p) DO p = next(p) OD RETURN p END. REL V \
                7 1 {}. COUNT N(V).",
            "1.3: 0\n",
            0,
        ),
        (
            "a.rv",
            "P(R,S) DECL AB = PROD(R,S) BEG RETURN p-1(AB) END.\nQ(R,S) DECL AB = PROD(R,S) BEG \
                RETURN p-1(AB)^*p-1(AB) END.\nREL X 2 2 {}. REL Y 0 0 {}.\nTYPE P(X,Y). PRINT \
                Q(X,Y).\n",
            "1.5: 0 x 2\n1.6: 2 x 2\n..\n..\n",
            0,
        ),
        (
            "a.rv",
            "LOAD A \"a.k2\". LIST A.",
            "1.1: refused: no file \"a.k2\"\n1.2: refused: 1:21: unknown name A\n",
            1,
        ),
        (
            "a.rv",
            "REL A 1048576 1048576 {}. LET B = L(A). COUNT B. SAVE B \"b.k2\".",
            "1.3: 1099511627776\n1.4: refused: 1466015503700 bits pass the limit 67108864\n",
            1,
        ),
        (
            "--workers 1 a.rv",
            "REL A 1048576 1048576 {}. COUNT L(A)*L(A).",
            "1.2: 1099511627776\n",
            0,
        ),
        (
            "--workers 8 a.rv",
            "REL A 1048576 1048576 {}. COUNT L(A)*L(A).",
            "1.2: 1099511627776\n",
            0,
        ),
        (
            "--nodes 10 a.rv",
            "N(V) DECL p BEG p = init(V); WHILE -empty(p) DO p = next(p) OD RETURN p END. REL V \
                1100 1 {}. REL A 2 2 {1:2}. COUNT N(V). PRINT A.",
            "1.4: refused: no free node word\n1.5: 2 x 2\n.1\n..\n",
            1,
        ),
        (
            "--workers 4 a.rv",
            "Kernels(R) DECL e, d, k BEG\n  e = epsi(On1(R));\n  d = (e & R*e) | -(e | R*e);\n  \
                k = d \\ On1(R);\n  RETURN e*inj(k)^\nEND.\nREL R 12 12 {1:2; 2:3; 3:4; 4:5; 5:6; \
                6:7; 7:8; 8:9; 9:10; 10:11; 11:12; 12:1}.\nLIST Kernels(R).\n",
            "1.3: 12 x 2, pairs 12\n1:1\n2:2\n3:1\n4:2\n5:1\n6:2\n7:1\n8:2\n9:1\n10:2\n11:1\n\
                12:2\n",
            0,
        ),
        (
            "--history a.rv",
            "PRINT Z.",
            "1.1: refused: 1:7: unknown name Z\n1.1 read\n",
            1,
        ),
        (
            "--history a.rv",
            "REL A 1 1 {}. SNAP t. REL A 1 1 {1:1}. AT t PRINT A. PRINT A. DROP A. AT u PRINT A.",
            "1.4: 1 x 1\n.\n1.5: 1 x 1\n1\n1.7: refused: 1:74: unknown name u\n1.1 assign A 1 x \
                1\n1.2 read\n1.3 assign A 1 x 1\n1.5 read\n1.6 drop A\n",
            1,
        ),
        (
            "a.rv",
            "REL A 2 2 {0:1}.",
            "1.0: refused: 1:12: expected a number from 1\n",
            1,
        ),
        (
            "a.rv",
            "REL A 18446744073709551616 1 {}.",
            "1.0: refused: 1:7: number over 64 bits\n",
            1,
        ),
        ("a.rv", "PRINT A B.", "1.0: refused: 1:9: expected .\n", 1),
        (
            "a.rv",
            "PRINT é.",
            "1.0: refused: 1:7: byte 195 is not allowed\n",
            1,
        ),
        (
            "a.rv",
            "REL A 2 2 {3:1}.",
            "1.1: refused: 1:12: size 3 passes the limit 2\n",
            1,
        ),
        (
            "a.rv",
            "REL A 2000 2000 {}. PRINT A. LIST L(A).",
            "1.2: refused: 4000000 cells pass the limit 1048576\n1.3: refused: 4000000 pairs \
                pass the limit 1048576\n",
            1,
        ),
        (
            "a.rv",
            "F(R) = G(R). PRINT F(A).",
            "1.0: refused: 1:8: unknown name G\n",
            1,
        ),
        (
            "a.rv",
            "F(R) = R. REL A 1 1 {}. PRINT F(A,A).",
            "1.0: refused: 1:31: F takes 1 arguments, not 2\n",
            1,
        ),
        (
            "--history a.rv",
            "DROP A.",
            "1.1: refused: 1:6: unknown name A\n1.1 read\n",
            1,
        ),
        ("--gen 0", "", GENERATED, 0),
        ("--gen 0 --workers 8", "", GENERATED, 0),
    ] {
        let mut ran = run_script(&rt, alloc, words, script)?;
        assert_written(&rt, &ran, page, status, script)?;
        assert!(rt; ran.report.ran, "at {script}");
        assert!(rt; ran.lacks(alloc, "b.k2"), "at {script}");
    }
    Ok(())
}

#[test]
fn an_empty_script_leaves_nothing_and_a_full_table_no_vacant_word(
    rt: HostRuntime,
) -> Result<(), Fail> {
    let alloc = rt.alloc();
    let empty = run_script(&rt, alloc, "--nodes 10 a.rv", "")?;
    assert!(rt; empty.report.history.is_empty() && empty.report.outcomes.len() == 1);
    assert!(rt;
        empty
            .report
            .outcomes
            .iter()
            .all(|outcomes| outcomes.is_empty())
    );
    assert!(rt; empty.report.words.iter().all(|&word| word == 0));
    let full = run_script(
        &rt,
        alloc,
        "--nodes 10 a.rv",
        "N(V) DECL p BEG p = init(V); WHILE -empty(p) DO p = next(p) OD RETURN p END. REL V \
            1100 1 {}. COUNT N(V).",
    )?;
    assert_eq!(rt; full.report.status, 1);
    assert!(rt;
        full.report
            .words
            .iter()
            .skip(2)
            .take(1022)
            .all(|&word| word != 0)
    );
    Ok(())
}
