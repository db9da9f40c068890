//! Every construct on relations of 0, 1, 2, 3 and 9 elements, compared with its membership formula.
use crate::made::table;
use crate::scripts::{Draws, append_number, append_relation};
use crate::table::{append, assert_none, differing, lines, note};
use fork_quads::{Crew, OpenGate};
use rel_engine::Works;
use rel_slices::Remembers;
use std::alloc::Global;
use std::process::Abort;

/// Definitions for domains, calls and statements.
const DEFINITIONS: &str =
    "Id(R) = R. Both(R,S) = R*S|S*R. Left(R,S) = R. Third(R,S,K) = Left(Both(K,R),S)&-R. Sec(R,S) DECL D = PROD(R,S) BEG RETURN p-2(D) END. Fst(R,S) DECL D = PROD(R,S) BEG RETURN p-1(D) END. Inl(R,S) DECL D = SUM(R,S) BEG RETURN i-1(D) END. Inr(R,S) DECL D = SUM(R,S) BEG RETURN i-2(D) END. Two(R,S) DECL D = SUM(R,S), C = PROD(S,R) BEG RETURN i-1(D)*i-2(D)^|p-2(C)^*p-1(C) END. Plain(R) BEG RETURN -R END. Pick(R,S) DECL x BEG IF empty(R) THEN x = S ELSE x = R; IF incl(S,R) THEN x = S^ FI FI RETURN x END. Reach(R,V) DECL x, y BEG x = V; y = R^*V&-x; WHILE -empty(y) DO x = x|y; y = R^*y&-x OD RETURN x END. Count(V) DECL p, n BEG p = init(V); n = On1(V); WHILE -empty(p) DO n = next(n)|p; p = next(p) OD RETURN n END. Twice(R) DECL a, b BEG a = R; a = a*a; b = a; WHILE eq(a,R) DO a = O(R); b = -a OD; IF unival(R) THEN FI RETURN a|b END. ";

/// Expressions over A and B, which are square; P and U with one more column; Q with one more row; vectors V and W; the
/// empty vector K; and the full relation T with one row and one column.
const EXPRESSIONS: &str = "
A
A|B
A|B|A
A&B
A&B&-A
-A
--A
-P
A^
P^
P^^
P^^^
(P^)^
-P^
A*B
P*Q
P*Q*P
A*V
A\\B
P\\A
P\\U
A/B
A/Q
P/U
A|B&A*B\\A/B
A*(B|A)\\(B&A)
A/B\\A*B/A
L(P)
O(P)
I(A)
Ln1(P)
On1(P)
L1n(P)
O1n(P)
dom(P)
ran(P)
dom(Q)
ran(Q)
trans(A)
trans(B)
refl(A)
epsi(V)
point(V)
point(W)
point(K)
atom(P)
atom(Q)
atom(O(P))
init(V)
init(K)
next(V)
next(W)
next(L(V))
inj(V)
inj(K)
inj(L(V))
inj(V)*A
inj(V)^*inj(V)
empty(P)
empty(O(P))
empty(L(P))
unival(A)
unival(P)
unival(I(A))
syq(A,B)
syq(P,A)
syq(P,P)
less(P)
hasse(P)
hasse(refl(P))
quot(P)
quot(P)*quot(P)^
ubd(P,A)
ubd(P,V)
lbd(P,A)
lbd(P,V)
least(P,A)
least(refl(P),V)
greatest(P,V)
greatest(P,P)
sup(P,V)
sup(refl(trans(P)),V)
inf(P,V)
inf(refl(trans(P)),A)
eq(A,A)
eq(A,B)
eq(P,P|U&P)
incl(A,B)
incl(A&B,A)
incl(P,P&U)
[A,B]
[P,V]
[V,P]
[P,U]
Fst(V,W)
Sec(V,W)
Fst(P,Q)
Sec(P,Q)
Inl(P,Q)
Inr(P,Q)
Inl(V,V)
Inr(Q,P)
Two(A,B)
Id(P)
Both(A,B)
Third(A,B,A)
Plain(P)
Pick(A,B)
Pick(O(A),B)
Pick(L(A),B)
Reach(A,V)
Reach(B,K)
Count(V)
Twice(A)
Twice(I(A))
Twice(O(A))
Id(Both(A,Id(B)))*V
-T
T*T^
";

/// The definitions, and the relations on this many elements.
fn front(rt: &impl Abort, alloc: Global, elements: u32) -> Vec<u8> {
    let mut text = Vec::new(alloc);
    append(rt, &mut text, DEFINITIONS.as_bytes());
    let mut draws = Draws::of(u64::from(elements));
    let n = elements;
    let more = n.wrapping_add(1);
    append_relation(rt, alloc, &mut text, &mut draws, b'A', (n, n), 3);
    append_relation(rt, alloc, &mut text, &mut draws, b'B', (n, n), 2);
    append_relation(rt, alloc, &mut text, &mut draws, b'P', (n, more), 3);
    append_relation(rt, alloc, &mut text, &mut draws, b'U', (n, more), 2);
    append_relation(rt, alloc, &mut text, &mut draws, b'Q', (more, n), 3);
    append_relation(rt, alloc, &mut text, &mut draws, b'V', (n, 1), 2);
    append_relation(rt, alloc, &mut text, &mut draws, b'W', (n, 1), 2);
    append(rt, &mut text, b"REL K ");
    append_number(rt, alloc, &mut text, n);
    append(rt, &mut text, b" 1 {}. REL T 1 1 {1:1}. PRINT ");
    text
}

/// Compares each expression over the relations on this many elements, and notes those with a wrong answer.
fn note_expressions<E: Remembers>(
    rt: &impl Abort,
    alloc: Global,
    engine: &mut E,
    wrong: &mut String,
    elements: u32,
) {
    let front = front(rt, alloc, elements);
    let all = lines(rt, alloc, EXPRESSIONS);
    let mut number: usize = 0;
    'lines: for line in all.as_slice() {
        number = number.wrapping_add(1);
        let text = joined(rt, alloc, front.as_slice(), line.as_slice());
        if let Some(given) = differing(rt, alloc, engine, text.as_slice(), 100) {
            note(rt, alloc, wrong, number, given.as_str());
        }
    }
}

/// A script from the definitions and relations, and an expression.
fn joined(rt: &impl Abort, alloc: Global, front: &[u8], expression: &[u8]) -> Vec<u8> {
    let mut text = Vec::new(alloc);
    append(rt, &mut text, front);
    append(rt, &mut text, expression);
    append(rt, &mut text, b".");
    text
}

#[test]
fn each_construct_is_its_formula(rt: HostRuntime) {
    let alloc = rt.alloc();
    let (table, seat) = table(&rt, alloc, 20);
    let gate = OpenGate;
    let mut engine = Works::new(Crew::new(&rt, &table, seat, 1, &gate));
    let mut wrong = String::new(alloc);
    'sizes: for elements in [0, 1, 2, 3, 9] {
        note_expressions(&rt, alloc, &mut engine, &mut wrong, elements);
    }
    assert_none(&rt, wrong.as_str());
}
