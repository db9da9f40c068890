//! Results of operators on quads are noted, and looked up again.
ghost use Rattle.std.specs.Prelude.{◌≡◌, IfSome, option_map};
ghost use Rattle.rel_model.specs.Equations.{Transpose, result_of, side_of};
ghost use Rattle.rel_model.specs.Quads.{Keeper, QuadStands, IsQuad, quad_cells, ReadsQuads};
ghost use Rattle.memo_laws.specs.Looking.{Looks, Notes, operator_of};
ghost use Rattle.quad_nodes.specs.Noting.{equation_between, first_name, second_name};

use crate::nodes::Nodes;
use memo_laws::{Equation, Op};
use rel_model::Quad;

/// The names of two operands as equations have them: the lesser one first if the operator is commutative.
#[inline(always)]
fn names_in_order(op: Op, a: Quad, b: Quad) -> (u32, u32)
    ensures first { result.0 ≡ first_name (operator_of op) a b }
    ensures second { result.1 ≡ second_name (operator_of op) a b }
{
    match op {
        Op::Union | Op::Inter => (a.name.min(b.name), a.name.max(b.name)),
        Op::Diff | Op::Transpose | Op::Compose => (a.name, b.name),
    }
}

impl<'t> Nodes<'t> {
    /// `set(r) = op(set(a), set(b))` for the answer `r`, if the memo word of `a` and `b` is that equation. The operands
    /// of a commutative operator may come in either order.
    pub fn look(&mut self, op: Op, a: Quad, b: Quad) -> Option<Quad>
        requires a_stands { QuadStands self.old a }
        requires b_stands { QuadStands self.old b }
        requires one_height { b.height ≡ a.height }
        requires one_operand { operator_of op ≡ Transpose → b.name ≡ 0 }
        ensures found { IfSome result (IsQuad self.new a.height
            (result_of (operator_of op) (side_of a.height) (quad_cells self.old a) (quad_cells self.old b))) }
        ensures looks { Looks (operator_of op) a.height (first_name (operator_of op) a b)
            (second_name (operator_of op) a b) self.old.view self.new.view (option_map (λ q. q.name) result) }
        ensures reads { ReadsQuads self.old self.new }
    {
        let _ = &self.seat;
        let (first, second) = names_in_order(op, a, b);
        match memo_laws::look(self.table, &mut self.seat, op, a.height, first, second) {
            Some(name) => Some(Quad {
                height: a.height,
                name,
            }),
            None => None,
        }
    }

    /// Notes that `set(r) = op(set(a), set(b))`, which must be true; `look` finds it in either order of the operands if
    /// the operator is commutative. The slot of `a` and `b` held this equation right after.
    pub fn note(&mut self, op: Op, a: Quad, b: Quad, r: Quad)
        requires a_stands { QuadStands self.old a }
        requires b_stands { QuadStands self.old b }
        requires one_height { b.height ≡ a.height }
        requires one_operand { operator_of op ≡ Transpose → b.name ≡ 0 }
        requires holds { IsQuad self.old a.height (result_of (operator_of op) (side_of a.height)
            (quad_cells self.old a) (quad_cells self.old b)) r }
        ensures notes { Notes (equation_between (operator_of op) a b r) self.old.view self.new.view }
        ensures reads { ReadsQuads self.old self.new }
    {
        let _ = &self.seat;
        let (first, second) = names_in_order(op, a, b);
        let eq = Equation {
            op,
            height: a.height,
            a: first,
            b: second,
            r: r.name,
        };
        memo_laws::note(self.table, &mut self.seat, eq);
    }
}
