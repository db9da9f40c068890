//! Constructs on thin relations, compared with their membership formulas. Within an evaluation thin relations are
//! lines; under a name they are whole.
use crate::made::table;
use crate::table::{append, assert_none, differing, lines, note};
use fork_quads::{Crew, OpenGate};
use rel_engine::Works;
use rel_slices::Remembers;
use std::alloc::Global;
use std::process::Abort;

/// The relations, and programs whose variables hold lines. A and C have 3 rows and 257 columns, B and D 257 rows and 2
/// columns, P 257 rows and 70 columns, K 3 rows and 2 columns. V is a vector of 257 rows. M, N and H are relations on
/// 3, 2 and 257 elements.
const FRONT: &str =
    "REL A 3 257 {1:1,8,9,257; 2:2,64,65; 3:1,2,3,200}. REL C 3 257 {1:2,9,256; 2:2,3,65,66; 3:200,257}. REL B 257 2 {1:1; 2:1,2; 64:2; 65:1; 200:1; 257:2}. REL D 257 2 {2:2; 3:1; 65:1; 128:2; 257:1,2}. REL V 257 1 {2:1; 3:1; 65:1; 256:1; 257:1}. REL M 3 3 {1:2; 2:3; 3:1,3}. REL N 2 2 {1:2; 2:1,2}. REL K 3 2 {1:1; 3:1,2}. REL H 257 257 {1:257; 2:3; 3:2,65; 65:66; 128:1; 256:257; 257:1,256}. REL P 257 70 {1:70; 3:1; 65:65; 257:3,64}. REL X 9 9 {1:2; 2:3; 3:4; 4:5; 5:6; 6:7; 7:8; 8:9; 9:1}. REL Y 9 9 {1:2; 2:1,3; 3:2,4; 4:3,5; 5:4,6; 6:5,7; 7:6,8; 8:7,9; 9:8}. Id(R) = R. Held(R,S) DECL x, y BEG x = -R; y = x|S; x = y&R; IF incl(x,R) THEN y = x|S&x FI RETURN y END. Meet(R,S) = (-R)*(-S). Kernels(G) DECL e, breaks BEG e = epsi(Ln1(G)); breaks = (e&G*e)|-(e|G*e) RETURN e*inj(-ran(breaks))^ END. Sets(G) DECL e, v BEG e = epsi(Ln1(G)); v = -ran(e&G*e) RETURN v END. Reach(R,S) DECL x, y BEG x = S; y = R^*S&-x; WHILE -empty(y) DO x = x|y; y = R^*y&-x OD RETURN x END. Pairs(R,S) DECL D = PROD(R,S) BEG RETURN p-1(D)*p-2(D)^ END. LIST ";

/// One expression per line.
const EXPRESSIONS: &str = "
A|C
A&C
-A
-B
A|-C
-A&C
-B|D
B&-D
(A|C)^
(-B)^^
(A&-C)^|A^
A*B
(A|C)*B
A*(B|D)
(A|C)*(B|D)
A^*A
(A|C)^*C
M*A
M*(A|C)
K*N*B^
B*N
(B|D)*N
A^*M
(A|C)^*K
A*H
(A|C)*H
H*B
H*(B|D)
A*P
(A&C)*P
P^*(B|D)
A\\C
(A|C)\\A
A\\M
(A|C)\\K
B\\H
B\\P
A/C
(A|C)/A
B/D
(B|D)/N
H/A
(A&C)/H
syq(A,C)
syq(A|C,M)
syq(M,A|C)
syq(B,B|D)
syq(B^,D^)
dom(A)
dom(A&C)
ran(A)
ran(A|C)
dom(B|D)
ran(B&D)
L(A)
O(A)
L(A|C)
Ln1(A)
L1n(A)
On1(B|D)
O1n(A|C)
I(A*B*(B|D)^*A^)
point(V)
point(-V)
atom(A|C)
atom(-B)
init(V)
init(-V)
next(V)
next(-V)
inj(V)
inj(-V|V)*V
empty(A)
empty(A&C)
empty(A&-A)
unival(A)
unival(A&C)
unival(B|D)
unival((A&C)^)
eq(A,A)
eq(A,C)
eq(A|C,C|A&A)
eq(A|C,A)
incl(A,A|C)
incl(A|C,C)
incl(A&C,A)
trans(A*(B|D)*(B|D)^*A^)
[A,C]
[A|C,M]
[K,A&C]
[V,B|D]
ubd(H,B)
lbd(H,B|D)
least(H,V)
greatest(H,V|-V)
sup(H,V&-B*L(N)*On1(N))
inf(H,B&D)
Held(A,C)
Held(B,D)
Held(A|C,A)
Held(V,V)
Meet(A,B)
Meet(A^,K)
Id(A|C)
Reach(H,V)
Reach(H,point(V))
Reach(H^,V&-point(V))
Kernels(X)
Kernels(Y)
Kernels(X&Y)
Sets(X|X^)
epsi(Ln1(X))
epsi(Ln1(X))*V
Pairs(K,N)
-(-V)
V*V^
V^*V
";

/// The script with an expression.
fn script(rt: &impl Abort, alloc: Global, expression: &[u8]) -> Vec<u8> {
    let mut text = Vec::new(alloc);
    append(rt, &mut text, FRONT.as_bytes());
    append(rt, &mut text, expression);
    append(rt, &mut text, b".");
    text
}

/// Compares each expression, and notes those with a wrong answer.
fn note_expressions<E: Remembers>(
    rt: &impl Abort,
    alloc: Global,
    engine: &mut E,
    wrong: &mut String,
) {
    let all = lines(rt, alloc, EXPRESSIONS);
    let mut number: usize = 0;
    'lines: for line in all.as_slice() {
        number = number.wrapping_add(1);
        let text = script(rt, alloc, line.as_slice());
        if let Some(given) = differing(rt, alloc, engine, text.as_slice(), 100) {
            note(rt, alloc, wrong, number, given.as_str());
        }
    }
}

#[test]
fn thin_relations_come_to_their_formulas(rt: HostRuntime) {
    let alloc = rt.alloc();
    let (table, seat) = table(&rt, alloc, 20);
    let gate = OpenGate;
    let mut engine = Works::new(Crew::new(&rt, &table, seat, 1, &gate));
    let mut wrong = String::new(alloc);
    note_expressions(&rt, alloc, &mut engine, &mut wrong);
    assert_none(&rt, wrong.as_str());
}
