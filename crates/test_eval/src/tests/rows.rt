//! Small scripts from the field, and what `parse`, `check` and `eval` answer to them.
use crate::table::assert_lines;

/// Scripts and their answers, with 7 turns.
const CASES: &str = r##"
REL A 3 3 {1:2; 2:3}. PRINT A*A. => 3x3 1:3
REL A 3 3 {1:2; 2:3}. PRINT -A. => 3x3 1:1 1:3 2:1 2:2 3:1 3:2 3:3
REL A 3 3 {1:2; 2:3}. TYPE inj(dom(O(A))). => 0x3
REL A 5 5 {1:2; 2:3; 3:4; 4:5; 5:1}. COUNT trans(A). PRINT -trans(A). => 5x5 #25 / 5x5
REL A 2 3 {1:1}. PRINT syq(A,A). => 3x3 1:1 2:2 2:3 3:2 3:3
REL B 10 1 {}. COUNT epsi(On1(B)). => 10x1024 #5120
REL D 6 6 {1:1,2,3,4,5,6; 2:2,4,6; 3:3,6; 4:4; 5:5; 6:6}. PRINT hasse(D). => 6x6 1:2 1:3 1:5 2:4 2:6 3:6
REL D 6 6 {1:1,2,3,4,5,6; 2:2,4,6; 3:3,6; 4:4; 5:5; 6:6}. REL V 6 1 {2:1; 3:1}. PRINT sup(D,V). PRINT inf(D,V). => 6x1 6:1 / 6x1 1:1
REL E 3 3 {1:1,3; 2:2; 3:1,3}. PRINT quot(E). => 3x2 1:1 2:2 3:1
REL E 0 0 {}. TYPE quot(E). => 0x0
REL A 3 3 {}. PRINT less(A). => 3x3 1:2 1:3 2:3
REL B 25 1 {}. COUNT epsi(On1(B)). => Size 1:22 33554432 of 16777216
REL V 3 1 {}. PRINT point(V). REL W 3 1 {3:1}. PRINT next(W). => 3x1 / 3x1
REL A 3 2 {}. REL B 3 3 {}. PRINT A*B. PRINT A. => Mismatch * 1:36 3x2 3x3 / 3x2
F(R) DECL a BEG IF empty(R) THEN a = R FI RETURN a END. REL A 1 1 {}. PRINT F(A). => Unassigned a 1:50
W(C) DECL x BEG x = C; WHILE C DO x = -x OD RETURN x END. REL T 1 1 {1:1}. PRINT W(T). => Turns 1:24 7
N(V) DECL p BEG p = init(V); WHILE -empty(p) DO p = next(p) OD RETURN p END. REL V 7 1 {}. COUNT N(V). => 7x1 #0
N(V) DECL p BEG p = init(V); WHILE -empty(p) DO p = next(p) OD RETURN p END. REL V 8 1 {}. COUNT N(V). => Turns 1:30 7
P(R,S) DECL AB = PROD(R,S) BEG RETURN p-1(AB) END. Q(R,S) DECL AB = PROD(R,S) BEG RETURN p-1(AB)^*p-1(AB) END. REL X 2 2 {}. REL Y 0 0 {}. TYPE P(X,Y). PRINT Q(X,Y). => 0x2 / 2x2
Kernels(R) DECL e, d, k BEG e = epsi(On1(R)); d = (e & R*e) | -(e | R*e); k = d \ On1(R); RETURN e*inj(k)^ END. REL R 12 12 {1:2; 2:3; 3:4; 4:5; 5:6; 6:7; 7:8; 8:9; 9:10; 10:11; 11:12; 12:1}. LIST Kernels(R). => 12x2 1:1 2:2 3:1 4:2 5:1 6:2 7:1 8:2 9:1 10:2 11:1 12:2
PRINT Z. => Unknown Z 1:7
REL A 2 2 {0:1}. => Expected a number from 1 1:12
REL A 18446744073709551616 1 {}. => NumberTooLarge 1:7
PRINT A B. => Expected . 1:9
PRINT é. => Byte 195 1:7
REL A 2 2 {3:1}. => Size 1:12 3 of 2
REL A 2000 2000 {}. COUNT A. COUNT L(A). => 2000x2000 #0 / 2000x2000 #4000000
F(R) = G(R). PRINT F(A). => Unknown G 1:8
F(R) = R. REL A 1 1 {}. PRINT F(A,A). => Arity F 1:31 takes 1 given 2
"##;

#[test]
fn small_scripts_have_their_answers(rt: HostRuntime) {
    assert_lines(&rt, rt.alloc(), CASES, 7);
}
