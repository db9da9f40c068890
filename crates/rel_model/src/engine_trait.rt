//! All operations of the language on relations, over any worker that keeps relations.
//!
//! Every call leaves all relations and quads that stood with the same sets, makes at most as many nodes as its room,
//! and refuses only for its stated cause.
ghost use Rattle.std.specs.Prelude.{◌≡◌, ◌<◌, ◌≤◌, ◌+◌, ◌-◌, ◌*◌, ◌^◌, max, length, IfOk, OnOk, OnErr, IsErrOf, IfSome, true, false};
ghost use Rattle.rel_model.specs.declared.Lack.TheVariants.{NoMemory as NO_MEMORY};
ghost use Rattle.rel_model.specs.Relation.{has, relation_of, size_limit};
ghost use Rattle.rel_model.specs.Operators.{right_residual, left_residual, symmetric_quotient, identity as identity_of};
ghost use Rattle.rel_model.specs.Closures.{walks_within, transitive_closure, reflexive_closure};
ghost use Rattle.rel_model.specs.Choice.{holds, count_below, point as point_of, atom as atom_of, init as init_of, next as next_of, dom as dom_of, ran as ran_of, is_unival, count as count_of, next_pair as next_pair_of, inj as inj_of};
ghost use Rattle.rel_model.specs.Domains.{HasDomainCause, first_projection, second_projection, left_injection, right_injection, membership, pairing};
ghost use Rattle.rel_model.specs.Roots.{height_over, relation_room};
ghost use Rattle.rel_model.specs.Listed.{AreWithin, is_among};
ghost use Rattle.rel_model.specs.Worker.{Stands, set_of, Gives, Keeps, MakesAtMost, MissesNothing, HasCause, listed_room, pairs_room, operator_room, derived_room, wide_room};

use crate::counter::Steps;
use crate::faults::DomainError;
use crate::seated_trait::Seated;
use crate::{Lack, NoMemory, Rel, Shape};
use std::alloc::Global;
use std::sync::ledger::Ledger;

/// A worker that has all operations of the language (Schmidt and Ströhlein, *Relations and Graphs*).
pub trait Engine: Seated {
    /// `R\S = {(j, k) : (i, j) in r implies (i, k) in s, for all i}`: the right residual of an m × n and an m × p
    /// relation.
    fn right(&mut self, r: Rel, s: Rel) -> Result<Rel, Lack>
        requires left { Stands (Self.worker self.old) r }
        requires right { Stands (Self.worker self.old) s }
        requires rows { r.rows ≡ s.rows }
        ensures value { IfOk result (Gives (Self.worker self.new) r.cols s.cols
            (right_residual (set_of (Self.worker self.old) r) (set_of (Self.worker self.old) s))) }
        ensures keeps { Keeps (Self.worker self.old) (Self.worker self.new) }
        ensures room { MakesAtMost (derived_room r.rows r.cols s.cols) (Self.worker self.old) (Self.worker self.new) }
        ensures cause { HasCause Self.lean (Self.worker self.old) (Self.worker self.new) result };

    /// `S/R = {(i, j) : (j, k) in r implies (i, k) in s, for all k}`: the left residual of an m × p and an n × p
    /// relation.
    fn left(&mut self, s: Rel, r: Rel) -> Result<Rel, Lack>
        requires left { Stands (Self.worker self.old) s }
        requires right { Stands (Self.worker self.old) r }
        requires cols { s.cols ≡ r.cols }
        ensures value { IfOk result (Gives (Self.worker self.new) s.rows r.rows
            (left_residual (set_of (Self.worker self.old) s) (set_of (Self.worker self.old) r))) }
        ensures keeps { Keeps (Self.worker self.old) (Self.worker self.new) }
        ensures room { MakesAtMost (derived_room s.rows s.cols r.rows) (Self.worker self.old) (Self.worker self.new) }
        ensures cause { HasCause Self.lean (Self.worker self.old) (Self.worker self.new) result };

    /// `syq(R,S) = {(j, k) : (i, j) in r exactly if (i, k) in s, for all i}`: the symmetric quotient of an m × n and an
    /// m × p relation.
    fn syq(&mut self, r: Rel, s: Rel) -> Result<Rel, Lack>
        requires left { Stands (Self.worker self.old) r }
        requires right { Stands (Self.worker self.old) s }
        requires rows { r.rows ≡ s.rows }
        ensures value { IfOk result (Gives (Self.worker self.new) r.cols s.cols
            (symmetric_quotient (set_of (Self.worker self.old) r) (set_of (Self.worker self.old) s))) }
        ensures keeps { Keeps (Self.worker self.old) (Self.worker self.new) }
        ensures room { MakesAtMost (wide_room r.rows r.cols s.cols) (Self.worker self.old) (Self.worker self.new) }
        ensures cause { HasCause Self.lean (Self.worker self.old) (Self.worker self.new) result };

    /// `trans(R)`: the transitive closure of a square relation, the pairs joined by a walk of at least one step.
    fn trans(&mut self, r: Rel) -> Result<Rel, Lack>
        requires standing { Stands (Self.worker self.old) r }
        requires square { r.rows ≡ r.cols }
        ensures value { IfOk result (Gives (Self.worker self.new) r.rows r.cols
            (transitive_closure (set_of (Self.worker self.old) r))) }
        ensures keeps { Keeps (Self.worker self.old) (Self.worker self.new) }
        ensures room { MakesAtMost (derived_room r.rows r.rows r.rows) (Self.worker self.old) (Self.worker self.new) }
        ensures nothing { r.rows ≤ 1 → MakesAtMost 0 (Self.worker self.old) (Self.worker self.new) }
        ensures cause { HasCause Self.lean (Self.worker self.old) (Self.worker self.new) result };

    /// `trans(R)` by squaring, with each composition counted.
    ///
    /// With k compositions counted, the pairs joined by walks of up to `2^k` steps are the closure, and k is at most
    /// the number of binary digits of the size.
    fn trans_counted<L: Ledger>(&mut self, r: Rel, steps: &mut Steps<L>) -> Result<Rel, Lack>
        requires standing { Stands (Self.worker self.old) r }
        requires square { r.rows ≡ r.cols }
        ensures value { IfOk result (Gives (Self.worker self.new) r.rows r.cols
            (transitive_closure (set_of (Self.worker self.old) r))) }
        ensures keeps { Keeps (Self.worker self.old) (Self.worker self.new) }
        ensures room { MakesAtMost (derived_room r.rows r.rows r.rows) (Self.worker self.old) (Self.worker self.new) }
        ensures nothing { r.rows ≤ 1 → MakesAtMost 0 (Self.worker self.old) (Self.worker self.new) }
        ensures cause { HasCause Self.lean (Self.worker self.old) (Self.worker self.new) result }
        ensures rises { steps.old ≤ steps.new }
        ensures digits { 2 ^ (steps.new - steps.old) ≤ max 1 (2 * r.rows - 1) }
        ensures enough { OnOk result (transitive_closure (set_of (Self.worker self.old) r)
            ≡ walks_within (2 ^ (steps.new - steps.old)) (set_of (Self.worker self.old) r)) };

    /// `refl(R) = R | I`: the reflexive closure, a square relation with all pairs (i, i) added.
    fn refl(&mut self, r: Rel) -> Result<Rel, Lack>
        requires standing { Stands (Self.worker self.old) r }
        requires square { r.rows ≡ r.cols }
        ensures value { IfOk result (Gives (Self.worker self.new) r.rows r.cols
            (reflexive_closure (set_of (Self.worker self.old) r))) }
        ensures keeps { Keeps (Self.worker self.old) (Self.worker self.new) }
        ensures room { MakesAtMost (wide_room r.rows r.rows r.rows) (Self.worker self.old) (Self.worker self.new) }
        ensures few { MakesAtMost (relation_room Self.least r.rows r.rows + operator_room r.rows r.cols)
            (Self.worker self.old) (Self.worker self.new) }
        ensures cause { HasCause Self.lean (Self.worker self.old) (Self.worker self.new) result };

    /// `I = {(i, i)}`: the identity of n elements.
    fn identity(&mut self, n: u32) -> Result<Rel, Lack>
        requires limit { n ≤ size_limit }
        ensures value { IfOk result (Gives (Self.worker self.new) n n (identity_of n)) }
        ensures keeps { Keeps (Self.worker self.old) (Self.worker self.new) }
        ensures room { MakesAtMost (derived_room n n n) (Self.worker self.old) (Self.worker self.new) }
        ensures tree { MakesAtMost (relation_room Self.least n n) (Self.worker self.old) (Self.worker self.new) }
        ensures cause { HasCause Self.lean (Self.worker self.old) (Self.worker self.new) result };

    /// `{(i * y + j, i)}`: the projection of a product to its first factor. Refused if the size of the product exceeds
    /// the limit.
    fn first(&mut self, x: u32, y: u32) -> Result<Rel, DomainError>
        requires x_limit { x ≤ size_limit }
        requires y_limit { y ≤ size_limit }
        ensures value { IfOk result (Gives (Self.worker self.new) (x * y) x (first_projection x y)) }
        ensures keeps { Keeps (Self.worker self.old) (Self.worker self.new) }
        ensures room { MakesAtMost (derived_room (x * y) x x) (Self.worker self.old) (Self.worker self.new) }
        ensures tree { MakesAtMost (relation_room Self.least (x * y) x) (Self.worker self.old) (Self.worker self.new) }
        ensures nothing { size_limit < x * y → MakesAtMost 0 (Self.worker self.old) (Self.worker self.new) }
        ensures cause { HasDomainCause Self.lean (x * y) (Self.worker self.old) (Self.worker self.new) result };

    /// `{(i * y + j, j)}`: the projection of a product to its second factor. Refused if the size of the product exceeds
    /// the limit.
    fn second(&mut self, x: u32, y: u32) -> Result<Rel, DomainError>
        requires x_limit { x ≤ size_limit }
        requires y_limit { y ≤ size_limit }
        ensures value { IfOk result (Gives (Self.worker self.new) (x * y) y (second_projection x y)) }
        ensures keeps { Keeps (Self.worker self.old) (Self.worker self.new) }
        ensures room { MakesAtMost (derived_room (x * y) y y) (Self.worker self.old) (Self.worker self.new) }
        ensures tree { MakesAtMost (relation_room Self.least (x * y) y) (Self.worker self.old) (Self.worker self.new) }
        ensures nothing { size_limit < x * y → MakesAtMost 0 (Self.worker self.old) (Self.worker self.new) }
        ensures cause { HasDomainCause Self.lean (x * y) (Self.worker self.old) (Self.worker self.new) result };

    /// `{(i, i)}`: the injection of the first summand into a sum. Refused if the size of the sum exceeds the limit.
    fn inl(&mut self, x: u32, y: u32) -> Result<Rel, DomainError>
        requires x_limit { x ≤ size_limit }
        requires y_limit { y ≤ size_limit }
        ensures value { IfOk result (Gives (Self.worker self.new) x (x + y) (left_injection x y)) }
        ensures keeps { Keeps (Self.worker self.old) (Self.worker self.new) }
        ensures room { MakesAtMost (derived_room x (x + y) (x + y)) (Self.worker self.old) (Self.worker self.new) }
        ensures tree { MakesAtMost (relation_room Self.least x (x + y)) (Self.worker self.old) (Self.worker self.new) }
        ensures nothing { size_limit < x + y → MakesAtMost 0 (Self.worker self.old) (Self.worker self.new) }
        ensures cause { HasDomainCause Self.lean (x + y) (Self.worker self.old) (Self.worker self.new) result };

    /// `{(j, x + j)}`: the injection of the second summand into a sum. Refused if the size of the sum exceeds the
    /// limit.
    fn inr(&mut self, x: u32, y: u32) -> Result<Rel, DomainError>
        requires x_limit { x ≤ size_limit }
        requires y_limit { y ≤ size_limit }
        ensures value { IfOk result (Gives (Self.worker self.new) y (x + y) (right_injection x y)) }
        ensures keeps { Keeps (Self.worker self.old) (Self.worker self.new) }
        ensures room { MakesAtMost (derived_room y (x + y) (x + y)) (Self.worker self.old) (Self.worker self.new) }
        ensures tree { MakesAtMost (relation_room Self.least y (x + y)) (Self.worker self.old) (Self.worker self.new) }
        ensures nothing { size_limit < x + y → MakesAtMost 0 (Self.worker self.old) (Self.worker self.new) }
        ensures cause { HasDomainCause Self.lean (x + y) (Self.worker self.old) (Self.worker self.new) result };

    /// `{(i, s) : bit i of s is 1}`: the membership relation between elements and subsets, with x rows and 2 ^ x
    /// columns. Refused if 2 ^ x exceeds the limit.
    fn epsi(&mut self, x: u32) -> Result<Rel, DomainError>
        requires { x ≤ size_limit }
        ensures value { IfOk result (Gives (Self.worker self.new) x (2 ^ x) (membership x)) }
        ensures keeps { Keeps (Self.worker self.old) (Self.worker self.new) }
        ensures room { MakesAtMost (derived_room x (2 ^ x) (2 ^ x)) (Self.worker self.old) (Self.worker self.new) }
        ensures tree { MakesAtMost (relation_room Self.least x (2 ^ x)) (Self.worker self.old) (Self.worker self.new) }
        ensures nothing { size_limit < 2 ^ x → MakesAtMost 0 (Self.worker self.old) (Self.worker self.new) }
        ensures cause { HasDomainCause Self.lean (2 ^ x) (Self.worker self.old) (Self.worker self.new) result };

    /// `[R,S] = {(i, j * n + k) : (i, j) in r and (i, k) in s}`: the pairing of two relations with the same number of
    /// rows, where s has n columns. Refused if the number of columns of the result exceeds the limit.
    fn fork(&mut self, r: Rel, s: Rel) -> Result<Rel, DomainError>
        requires left { Stands (Self.worker self.old) r }
        requires right { Stands (Self.worker self.old) s }
        requires rows { r.rows ≡ s.rows }
        ensures value { IfOk result (Gives (Self.worker self.new) r.rows (r.cols * s.cols)
            (pairing (set_of (Self.worker self.old) r) (set_of (Self.worker self.old) s))) }
        ensures keeps { Keeps (Self.worker self.old) (Self.worker self.new) }
        ensures room { MakesAtMost (derived_room r.rows (max r.cols s.cols) (r.cols * s.cols)) (Self.worker self.old)
            (Self.worker self.new) }
        ensures nothing { size_limit < r.cols * s.cols → MakesAtMost 0 (Self.worker self.old) (Self.worker self.new) }
        ensures cause { HasDomainCause Self.lean (r.cols * s.cols) (Self.worker self.old) (Self.worker self.new)
            result };

    /// `{(r, i) : i is the element of v with r elements before it}`: lists the elements of a vector in order, one in
    /// each row.
    fn inj(&mut self, v: Rel) -> Result<Rel, Lack>
        requires stands { Stands (Self.worker self.old) v }
        requires one_column { v.cols ≡ 1 }
        ensures value { IfOk result (Gives (Self.worker self.new)
            (count_below v.rows (holds (set_of (Self.worker self.old) v))) v.rows
            (inj_of (set_of (Self.worker self.old) v))) }
        ensures keeps { Keeps (Self.worker self.old) (Self.worker self.new) }
        ensures room { MakesAtMost (derived_room v.rows v.cols v.cols) (Self.worker self.old) (Self.worker self.new) }
        ensures tree { MakesAtMost (relation_room Self.least v.rows v.cols) (Self.worker self.old)
            (Self.worker self.new) }
        ensures cause { HasCause Self.lean (Self.worker self.old) (Self.worker self.new) result };

    /// `{p : p in pairs}`: the relation of a list of pairs, in any order and with repeats allowed. It sorts the list,
    /// so memory may run out even if the worker is lean.
    fn from_pairs(&mut self, alloc: Global, shape: Shape, pairs: &[(u32, u32)]) -> Result<Rel, Lack>
        requires row_limit { shape.rows ≤ size_limit }
        requires col_limit { shape.cols ≤ size_limit }
        requires within { AreWithin shape.rows shape.cols pairs.now }
        ensures value { IfOk result (Gives (Self.worker self.new) shape.rows shape.cols
            (relation_of shape.rows shape.cols (is_among pairs.now))) }
        ensures keeps { Keeps (Self.worker self.old) (Self.worker self.new) }
        ensures room { MakesAtMost (pairs_room (length pairs.now) shape.rows shape.cols) (Self.worker self.old)
            (Self.worker self.new) }
        ensures few { MakesAtMost (listed_room (length pairs.now)
            (height_over Self.least shape.rows shape.cols - Self.least)) (Self.worker self.old)
            (Self.worker self.new) }
        ensures cause { HasCause false (Self.worker self.old) (Self.worker self.new) result }
        ensures some { OnErr result (0 < length pairs.now) }
        ensures untouched { Self.lean ≡ true → IsErrOf result NO_MEMORY
            → MakesAtMost 0 (Self.worker self.old) (Self.worker self.new) };

    /// `{(i, 0) : i is the least element of v}`: a point of a vector; the empty vector if v is empty.
    fn point(&mut self, v: Rel) -> Result<Rel, Lack>
        requires stands { Stands (Self.worker self.old) v }
        requires column { v.cols ≡ 1 }
        ensures value { IfOk result (Gives (Self.worker self.new) v.rows 1
            (point_of (set_of (Self.worker self.old) v))) }
        ensures keeps { Keeps (Self.worker self.old) (Self.worker self.new) }
        ensures room { MakesAtMost (derived_room v.rows 1 1) (Self.worker self.old) (Self.worker self.new) }
        ensures few { MakesAtMost (operator_room v.rows 1) (Self.worker self.old) (Self.worker self.new) }
        ensures cause { HasCause Self.lean (Self.worker self.old) (Self.worker self.new) result };

    /// `{(i, j) : (i, j) is the least pair of r by row and then by column}`: an atom of a relation; the empty relation
    /// if r is empty.
    fn atom(&mut self, r: Rel) -> Result<Rel, Lack>
        requires { Stands (Self.worker self.old) r }
        ensures value { IfOk result (Gives (Self.worker self.new) r.rows r.cols
            (atom_of (set_of (Self.worker self.old) r))) }
        ensures keeps { Keeps (Self.worker self.old) (Self.worker self.new) }
        ensures room { MakesAtMost (derived_room r.rows r.cols 1) (Self.worker self.old) (Self.worker self.new) }
        ensures few { MakesAtMost (operator_room r.rows r.cols) (Self.worker self.old) (Self.worker self.new) }
        ensures cause { HasCause Self.lean (Self.worker self.old) (Self.worker self.new) result };

    /// `{(0, 0)}` with the rows of v: the first element; the empty vector if v has no rows.
    fn init(&mut self, v: Rel) -> Result<Rel, Lack>
        requires stands { Stands (Self.worker self.old) v }
        requires column { v.cols ≡ 1 }
        ensures value { IfOk result (Gives (Self.worker self.new) v.rows 1
            (init_of (set_of (Self.worker self.old) v))) }
        ensures keeps { Keeps (Self.worker self.old) (Self.worker self.new) }
        ensures room { MakesAtMost (derived_room v.rows 1 1) (Self.worker self.old) (Self.worker self.new) }
        ensures few { MakesAtMost (operator_room v.rows 1) (Self.worker self.old) (Self.worker self.new) }
        ensures cause { HasCause Self.lean (Self.worker self.old) (Self.worker self.new) result };

    /// `{(i + 1, 0) : i is in v, i + 1 < rows}`: moves each element up by one and drops the last.
    fn next(&mut self, v: Rel) -> Result<Rel, Lack>
        requires stands { Stands (Self.worker self.old) v }
        requires column { v.cols ≡ 1 }
        ensures value { IfOk result (Gives (Self.worker self.new) v.rows 1
            (next_of (set_of (Self.worker self.old) v))) }
        ensures keeps { Keeps (Self.worker self.old) (Self.worker self.new) }
        ensures room { MakesAtMost (derived_room v.rows 1 1) (Self.worker self.old) (Self.worker self.new) }
        ensures cause { HasCause Self.lean (Self.worker self.old) (Self.worker self.new) result };

    /// `{(i, 0) : (i, j) in r for some j}`: the domain of definition.
    fn dom(&mut self, r: Rel) -> Result<Rel, Lack>
        requires { Stands (Self.worker self.old) r }
        ensures value { IfOk result (Gives (Self.worker self.new) r.rows 1 (dom_of (set_of (Self.worker self.old) r))) }
        ensures keeps { Keeps (Self.worker self.old) (Self.worker self.new) }
        ensures room { MakesAtMost (derived_room r.rows r.cols 1) (Self.worker self.old) (Self.worker self.new) }
        ensures cause { HasCause Self.lean (Self.worker self.old) (Self.worker self.new) result };

    /// `{(j, 0) : (i, j) in r for some i}`: the range.
    fn ran(&mut self, r: Rel) -> Result<Rel, Lack>
        requires { Stands (Self.worker self.old) r }
        ensures value { IfOk result (Gives (Self.worker self.new) r.cols 1 (ran_of (set_of (Self.worker self.old) r))) }
        ensures keeps { Keeps (Self.worker self.old) (Self.worker self.new) }
        ensures room { MakesAtMost (derived_room r.rows r.cols 1) (Self.worker self.old) (Self.worker self.new) }
        ensures cause { HasCause Self.lean (Self.worker self.old) (Self.worker self.new) result };

    /// Whether no row has two pairs: the relation is univalent.
    fn unival(&mut self, r: Rel) -> bool
        requires { Stands (Self.worker self.old) r }
        ensures value { result ≡ is_unival (set_of (Self.worker self.old) r) }
        ensures keeps { Keeps (Self.worker self.old) (Self.worker self.new) }
        ensures room { MakesAtMost 0 (Self.worker self.old) (Self.worker self.new) }
        ensures misses { MissesNothing (Self.worker self.old) (Self.worker self.new) };

    /// How many pairs a relation has. Refused only if memory runs out.
    fn count(&mut self, alloc: Global, r: Rel) -> Result<u64, NoMemory>
        requires { Stands (Self.worker self.old) r }
        ensures value { IfOk result (λ n. n ≡ count_of (set_of (Self.worker self.old) r)) }
        ensures keeps { Keeps (Self.worker self.old) (Self.worker self.new) }
        ensures room { MakesAtMost 0 (Self.worker self.old) (Self.worker self.new) }
        ensures misses { MissesNothing (Self.worker self.old) (Self.worker self.new) }
        ensures some { OnErr result (0 < count_of (set_of (Self.worker self.old) r)) }
        ensures over { OnErr result (Self.least < height_over Self.least r.rows r.cols) };

    /// The least pair of a relation by row and then by column; if `after` is given, the least pair after that one.
    fn next_pair(&mut self, r: Rel, after: Option<(u32, u32)>) -> Option<(u32, u32)>
        requires { Stands (Self.worker self.old) r }
        ensures value { result ≡ next_pair_of (set_of (Self.worker self.old) r) after }
        ensures among { IfSome result (λ p. has (set_of (Self.worker self.old) r) p.0 p.1 ≡ true) }
        ensures keeps { Keeps (Self.worker self.old) (Self.worker self.new) }
        ensures room { MakesAtMost 0 (Self.worker self.old) (Self.worker self.new) }
        ensures misses { MissesNothing (Self.worker self.old) (Self.worker self.new) };

    /// The leaves are blocks of 8 by 8 cells, one word each: above them, a line of a relation has few nodes compared
    /// with what the language counts for an operator.
    ghost leaf_height: { Self.least ≡ 3 };
}
