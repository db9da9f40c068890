//! Each refusal of an evaluation, with a small script, its place and its numbers; and of two refusals, which comes
//! first.
use crate::table::assert_lines;

/// Scripts and their answers, with 7 turns.
const CASES: &str = r##"
PRINT A. => Unknown A 1:7
PRINT B&A. => Unknown B 1:7
REL A 1 1 {}. PRINT A*(C|B). => Unknown C 1:24
REL A 1 1 {}. PRINT [A,B]. => Unknown B 1:24
REL A 1 1 {}. PRINT syq(A,B^). => Unknown B 1:27
F(R,S) = R. REL A 1 1 {}. PRINT F(A,-B). => Unknown B 1:38
REL A 1 2 {}. REL B 2 2 {}. PRINT A|B|C. => Unknown C 1:39
REL A 1 2 {}. REL B 2 2 {}. PRINT A|B. => Mismatch | 1:36 1x2 2x2
REL A 1 2 {}. REL B 1 3 {}. PRINT A|B. => Mismatch | 1:36 1x2 1x3
REL A 1 2 {}. REL B 2 2 {}. PRINT A&B. => Mismatch & 1:36 1x2 2x2
REL A 1 2 {}. REL B 1 3 {}. PRINT A&B. => Mismatch & 1:36 1x2 1x3
REL A 2 1 {}. REL B 2 3 {}. PRINT A*B. => Mismatch * 1:36 2x1 2x3
REL A 2 1 {}. REL B 3 1 {}. PRINT A\B. => Mismatch \ 1:36 2x1 3x1
REL A 1 2 {}. REL B 1 3 {}. PRINT A/B. => Mismatch / 1:36 1x2 1x3
REL A 2 1 {}. REL B 3 1 {}. PRINT syq(A,B). => Mismatch syq 1:35 2x1 3x1
REL A 2 1 {}. REL B 3 1 {}. PRINT [A,B]. => Mismatch [ 1:35 2x1 3x1
REL A 2 1 {}. REL B 3 1 {}. PRINT eq(A,B). => Mismatch eq 1:35 2x1 3x1
REL A 2 1 {}. REL B 2 2 {}. PRINT eq(A,B). => Mismatch eq 1:35 2x1 2x2
REL A 2 1 {}. REL B 3 1 {}. PRINT incl(A,B). => Mismatch incl 1:35 2x1 3x1
REL A 2 1 {}. REL B 2 2 {}. PRINT incl(A,B). => Mismatch incl 1:35 2x1 2x2
REL A 1 2 {}. PRINT I(A). => NotSquare I 1:21 1x2
REL A 1 2 {}. PRINT trans(A). => NotSquare trans 1:21 1x2
REL A 1 0 {}. PRINT refl(A). => NotSquare refl 1:21 1x0
REL A 1 2 {}. PRINT less(A). => NotSquare less 1:21 1x2
REL A 1 2 {}. PRINT hasse(A). => NotSquare hasse 1:21 1x2
REL A 1 2 {}. PRINT quot(A). => NotSquare quot 1:21 1x2
REL A 1 2 {}. REL B 3 1 {}. PRINT ubd(A,B). => NotSquare ubd 1:35 1x2
REL A 2 2 {}. REL B 3 1 {}. PRINT ubd(A,B). => Mismatch ubd 1:35 2x2 3x1
REL A 2 2 {}. REL B 3 1 {}. PRINT lbd(A,B). => Mismatch lbd 1:35 2x2 3x1
REL A 2 2 {}. REL B 3 1 {}. PRINT least(A,B). => Mismatch least 1:35 2x2 3x1
REL A 2 2 {}. REL B 3 1 {}. PRINT greatest(A,B). => Mismatch greatest 1:35 2x2 3x1
REL A 2 2 {}. REL B 3 1 {}. PRINT sup(A,B). => Mismatch sup 1:35 2x2 3x1
REL A 1 2 {}. REL B 3 1 {}. PRINT inf(A,B). => NotSquare inf 1:35 1x2
REL A 1 2 {}. PRINT epsi(A). => NotVector epsi 1:21 1x2
REL A 1 0 {}. PRINT point(A). => NotVector point 1:21 1x0
REL A 1 2 {}. PRINT init(A). => NotVector init 1:21 1x2
REL A 1 2 {}. PRINT next(A). => NotVector next 1:21 1x2
REL A 1 2 {}. PRINT inj(A). => NotVector inj 1:21 1x2
REL A 25 1 {}. PRINT epsi(A). => Size 1:22 33554432 of 16777216
REL A 64 1 {}. PRINT epsi(A). => Size 1:22 18446744073709551615 of 16777216
REL A 1 5000 {}. PRINT [A,A]. => Size 1:24 25000000 of 16777216
REL A 2 5000 {}. REL B 1 5000 {}. PRINT [A,B]. => Mismatch [ 1:41 2x5000 1x5000
REL A 64 2 {}. PRINT epsi(A). => NotVector epsi 1:22 64x2
F(R) DECL D = PROD(R,R) BEG RETURN p-1(D) END. REL A 4097 1 {}. PRINT F(A). => Size 1:36 16785409 of 16777216
F(R) DECL D = PROD(R,R) BEG RETURN p-2(D) END. REL A 4097 1 {}. PRINT F(A). => Size 1:36 16785409 of 16777216
F(R) DECL D = PROD(R,R) BEG RETURN p-2(D) END. REL A 4096 0 {}. TYPE F(A). => 16777216x4096
F(R,S) DECL D = SUM(R,S) BEG RETURN i-1(D) END. REL A 16777216 1 {}. REL B 1 1 {}. PRINT F(A,B). => Size 1:37 16777217 of 16777216
F(R,S) DECL D = SUM(R,S) BEG RETURN i-2(D) END. REL A 16777216 1 {}. REL B 1 1 {}. PRINT F(A,B). => Size 1:37 16777217 of 16777216
F(R,S) DECL D = SUM(R,S) BEG RETURN i-2(D) END. REL A 16777215 1 {}. REL B 1 1 {}. TYPE F(A,B). => 1x16777216
F(R) BEG IF R THEN FI RETURN R END. REL A 1 2 {}. PRINT F(A). => NotTest 1:10 1x2
F(R) BEG WHILE R DO OD RETURN R END. REL A 2 1 {}. PRINT F(A). => NotTest 1:10 2x1
F(R) BEG WHILE R DO OD RETURN R END. REL A 1 1 {1:1}. PRINT F(A). => Turns 1:10 7
F(R) BEG WHILE R DO OD RETURN R END. REL A 1 1 {}. PRINT F(A). => 1x1
F(R,S) DECL x BEG x = R; x = S RETURN x END. REL A 1 2 {}. REL B 1 3 {}. PRINT F(A,B). => Mismatch = 1:26 1x2 1x3
F(R,S) DECL x BEG x = R; x = S RETURN x END. REL A 1 2 {}. REL B 2 2 {}. PRINT F(A,B). => Mismatch = 1:26 1x2 2x2
F(R) DECL x BEG x = R; x = inj(R) RETURN x END. REL A 2 1 {1:1}. PRINT F(A). => Mismatch = 1:24 2x1 ?x2
F(R) DECL x BEG x = inj(R); x = L(R)^ RETURN x END. REL A 2 1 {2:1}. PRINT F(A). => 1x2 1:1 1:2
REL A 3 1 {1:1; 2:1}. PRINT inj(A)|A^. => Mismatch | 1:35 2x3 1x3
REL A 3 1 {1:1; 2:1}. REL B 2 3 {1:3}. PRINT inj(A)|B. => 2x3 1:1 1:3 2:2
REL A 3 1 {1:1; 2:1}. PRINT trans(inj(A)). => NotSquare trans 1:29 2x3
REL A 3 1 {1:1; 2:1; 3:1}. PRINT trans(inj(A)). => 3x3 1:1 2:2 3:3
REL A 3 1 {1:1; 2:1}. PRINT point(inj(A)^). => NotVector point 1:29 3x2
F(R) BEG IF inj(R) THEN FI RETURN R END. REL A 1 1 {}. PRINT F(A). => NotTest 1:10 0x1
F(R) BEG WHILE R DO OD RETURN R*R END. REL A 1 1 {1:1}. PRINT F(A). => Turns 1:10 7
F(R,S) DECL x BEG x = R; IF S THEN x = R*R ELSE x = R FI RETURN x END. REL A 1 2 {}. REL T 1 1 {}. PRINT F(A,T). => Mismatch * 1:41 1x2 1x2
F(R,S) DECL x BEG x = R; IF S THEN x = R ELSE x = R*R FI RETURN x END. REL A 1 2 {}. REL T 1 1 {1:1}. PRINT F(A,T). => Mismatch * 1:52 1x2 1x2
F(R,S) DECL x BEG x = R; WHILE S DO x = R*R OD RETURN x END. REL A 1 2 {}. REL T 1 1 {}. PRINT F(A,T). => Mismatch * 1:42 1x2 1x2
F(R,S) DECL x BEG x = R; WHILE S DO x = R OD RETURN R*R END. REL A 1 2 {}. REL T 1 1 {1:1}. PRINT F(A,T). => Mismatch * 1:54 1x2 1x2
REL A 1 2 {}. REL B 2 2 {}. PRINT A|B|A*A. => Mismatch | 1:36 1x2 2x2
REL A 1 2 {}. REL B 2 2 {}. PRINT A|(A*A)|B. => Mismatch * 1:39 1x2 1x2
REL A 1 2 {}. REL B 2 1 {}. PRINT B*A*A. => Mismatch * 1:38 2x2 1x2
REL A 1 2 {}. REL B 2 2 {}. PRINT syq(A|B,A*A). => Mismatch | 1:40 1x2 2x2
F(R,S) = R*S. REL A 1 2 {}. PRINT F(A,A). => Mismatch * 1:11 1x2 1x2
F(R,S) = R*S. REL A 1 2 {}. PRINT F(A|A^,A). => Mismatch | 1:38 1x2 2x1
F(R) BEG WHILE empty(R) DO WHILE -empty(R) DO OD OD RETURN R END. REL A 1 1 {}. PRINT F(A). => Turns 1:10 7
F(R) DECL a BEG a = R; WHILE -empty(a) DO a = next(a) OD; a = R; WHILE -empty(a) DO a = next(a) OD RETURN a END. REL V 3 1 {1:1}. PRINT F(V). => 3x1
F(R) DECL a BEG a = R; WHILE -empty(a) DO a = next(a) OD; a = R; WHILE -empty(a) DO a = next(a) OD RETURN a END. REL V 4 1 {1:1}. PRINT F(V). => Turns 1:66 7
F(R) DECL a BEG a = R; WHILE -empty(a) DO a = next(a) OD RETURN a END. REL V 4 1 {1:1}. PRINT F(V)|F(V^^). PRINT F(V). => Turns 1:24 7 / 4x1
F(R) DECL a BEG IF R THEN a = R ELSE a = -R FI; WHILE -a DO a = R OD RETURN a END. G(R) = F(R)|F(-R). REL T 1 1 {1:1}. PRINT G(T). => 1x1 1:1
REL A 3 1 {1:1}. REL B 2 3 {}. REL C 4 1 {}. PRINT (inj(A)|B)*C. => Mismatch * 1:62 2x3 4x1
REL A 3 1 {1:1}. REL C 4 1 {}. PRINT inj(A)*C. => Mismatch * 1:44 ?x3 4x1
REL A 1 2 {}. PRINT A. LET B = A*A. PRINT B. PRINT A. => 1x2 / Mismatch * 1:33 1x2 1x2 / Unknown B 1:43 / 1x2
"##;

#[test]
fn each_refusal_has_its_place_and_its_numbers(rt: HostRuntime) {
    assert_lines(&rt, rt.alloc(), CASES, 7);
}
