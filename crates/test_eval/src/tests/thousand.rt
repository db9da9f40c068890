//! Every operation on relations with one side of 1000 and one short side, compared with the slow evaluator.
use crate::made::table;
use crate::scripts::{Draws, append_relation};
use crate::table::{append, assert_none, differing, lines, note};
use fork_quads::{Crew, OpenGate};
use rel_engine::Works;
use rel_slices::Remembers;
use std::alloc::Global;
use std::process::Abort;

/// One expression per line. A and C have 3 rows and 1000 columns, B and D 1000 rows and 3 columns, G and E 60 rows and
/// 1000 columns, H and K 1000 rows and 60 columns, F 60 rows and 300 columns, T 1000 rows and 300 columns. V is a
/// vector and S a relation on 1000 elements; M and N are relations on 3 and 60 elements.
const EXPRESSIONS: &str = "
A|C
A&C
-A
A^
A&-C
(A|C)^
B|D
-B
B^&A
G|E
G&E
-G
G^
E&-G
(G|H^)^
-(-V)
A*B
A*(B|D)
B^*A^
A^*C
(A|C)^*A
B*A
B*D^
M*A
A^*M
B*M
G*H
N*G
G^*N
H*N
H*F
A*H
G*B
H^*B
G*E^
H^*K
A*S
S*B
S^*B
A*S^
G*T
T*F^
V*V^
V^*V
(A\\C)&S
M\\A
N\\G
(B&D)\\D
B\\(S|dom(B)*V^)
H\\K
(G\\F)&T
A/(A&C)
(A|C)/C
(G|E)/E
(S|V*L1n(S))/A
S/G
G^/N
syq(A,C)&S
syq(A^,(A|O(C))^)
syq(B,B|B&D)
syq(A,M)
syq(M,A)
syq(G^,(G&-O(E))^)
syq(H,K)
syq(G,F)&T
dom(A)
ran(A)
dom(G)
ran(G)
dom(H)
ran(H)
L(A)
O(G)
Ln1(G)
L1n(G)
On1(B)
O1n(B)
point(V)
point(dom(H))
atom(G)
atom(B)
atom(-A)
init(V)
next(V)
next(-V)
inj(V)
inj(V)*B
inj(dom(H))*H
empty(A&C)
empty(G&-G)
unival(A)
unival(B)
unival(G)
unival(inj(V))
eq(A,C)
eq(G,G|G&E)
incl(A,A|C)
incl(G,E)
[A,M]
[V,B]
[B,V]
refl(S)
less(S)&S
hasse(S)
ubd(refl(S),point(V))
ubd(S|V*V^,V)
lbd(refl(S),point(V)*L1n(B))
lbd(S|V*V^,V)
least(S|V*V^,V)
greatest(refl(S),point(V))
sup(refl(S),point(V))
inf(refl(S),point(V))
Held(A,C)
Held(G,E)
Reach(N,dom(G))
";

/// Appends the relations and two programs.
fn append_front(rt: &impl Abort, alloc: Global, text: &mut Vec<u8>) {
    let mut draws = Draws::of(1);
    'relations: for (name, rows, cols, one_in) in [
        (b'A', 3, 1000, 60),
        (b'C', 3, 1000, 40),
        (b'B', 1000, 3, 60),
        (b'D', 1000, 3, 40),
        (b'G', 60, 1000, 300),
        (b'E', 60, 1000, 200),
        (b'H', 1000, 60, 300),
        (b'K', 1000, 60, 200),
        (b'F', 60, 300, 100),
        (b'T', 1000, 300, 500),
        (b'V', 1000, 1, 8),
        (b'S', 1000, 1000, 700),
        (b'M', 3, 3, 2),
        (b'N', 60, 60, 30),
    ] {
        append_relation(
            rt,
            alloc,
            text,
            &mut draws,
            name,
            (rows, cols),
            one_in.max(1),
        );
    }
    append(
        rt,
        text,
        b"Held(R,S) DECL x, y BEG x = -R; y = x|S; x = y&R; ",
    );
    append(rt, text, b"IF incl(x,R) THEN y = x|S&x FI RETURN y END. ");
    append(rt, text, b"Reach(R,S) DECL x, y BEG x = S; y = R^*S&-x; ");
    append(
        rt,
        text,
        b"WHILE -empty(y) DO x = x|y; y = R^*y&-x OD RETURN x END. LIST ",
    );
}

/// Compares each expression, and notes those with a wrong answer.
fn note_expressions<E: Remembers>(
    rt: &impl Abort,
    alloc: Global,
    engine: &mut E,
    wrong: &mut String,
) {
    let mut front = Vec::new(alloc);
    append_front(rt, alloc, &mut front);
    let all = lines(rt, alloc, EXPRESSIONS);
    let mut number: usize = 0;
    'lines: for line in all.as_slice() {
        number = number.wrapping_add(1);
        let mut text = Vec::new(alloc);
        append(rt, &mut text, front.as_slice());
        append(rt, &mut text, line.as_slice());
        append(rt, &mut text, b".");
        if let Some(given) = differing(rt, alloc, engine, text.as_slice(), 100) {
            note(rt, alloc, wrong, number, given.as_str());
        }
    }
}

#[test]
fn relations_with_a_side_of_a_thousand_come_to_their_formulas(rt: HostRuntime) {
    let alloc = rt.alloc();
    let (table, seat) = table(&rt, alloc, 22);
    let gate = OpenGate;
    let mut engine = Works::new(Crew::new(&rt, &table, seat, 1, &gate));
    let mut wrong = String::new(alloc);
    note_expressions(&rt, alloc, &mut engine, &mut wrong);
    assert_none(&rt, wrong.as_str());
}
