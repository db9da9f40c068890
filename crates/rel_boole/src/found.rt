//! What is known without recursion: full operands, and noted results.
ghost use Rattle.std.specs.Prelude.{◌≡◌, IfSome};
ghost use Rattle.rel_model.specs.Quads.{Keeper, QuadStands, IsQuad, quad_cells, ReadsQuads};
ghost use Rattle.memo_laws.specs.Looking.{operator_of};
ghost use Rattle.rel_boole.specs.Cellwise.{cells_by, operator_for, CutsOffFull};

use crate::boole::Boole;
use memo_laws::Op;
use quad_nodes::Nodes;
use rel_model::Quad;

/// The operator, as it is named in equations.
pub fn op_of(op: Boole) -> Op
    ensures { operator_of result ≡ operator_for op }
{
    match op {
        Boole::Union => Op::Union,
        Boole::Inter => Op::Inter,
        Boole::Diff => Op::Diff,
    }
}

/// The result if one operand is the full square, as far as the other operand need not be known.
fn with_full(op: Boole, a: Quad, b: Quad, a_full: bool, b_full: bool) -> Option<Quad>
    ensures { CutsOffFull op a b a_full b_full result }
{
    match op {
        Boole::Union => {
            if a_full {
                return Some(a);
            }
            if b_full { Some(b) } else { None }
        }
        Boole::Inter => {
            if a_full {
                return Some(b);
            }
            if b_full { Some(a) } else { None }
        }
        Boole::Diff => {
            let none = Quad::empty(a.height);
            if b_full { Some(none) } else { None }
        }
    }
}

/// The result if an operand is the full square and that settles it.
fn cut_off_full(nodes: &mut Nodes, op: Boole, a: Quad, b: Quad) -> Option<Quad>
    requires a_stands { QuadStands nodes.old a }
    requires b_stands { QuadStands nodes.old b }
    requires one_height { b.height ≡ a.height }
    ensures found { IfSome result (IsQuad nodes.new a.height
        (cells_by op (quad_cells nodes.old a) (quad_cells nodes.old b))) }
    ensures reads { ReadsQuads nodes.old nodes.new }
{
    let a_full = nodes.is_full(a);
    let b_full = nodes.is_full(b);
    with_full(op, a, b, a_full, b_full)
}

/// The result if a full operand settles it, which is recognised from the words of the operands; otherwise the noted
/// result, if there is one.
pub fn found_before(nodes: &mut Nodes, op: Boole, a: Quad, b: Quad) -> Option<Quad>
    requires a_stands { QuadStands nodes.old a }
    requires b_stands { QuadStands nodes.old b }
    requires one_height { b.height ≡ a.height }
    ensures found { IfSome result (IsQuad nodes.new a.height
        (cells_by op (quad_cells nodes.old a) (quad_cells nodes.old b))) }
    ensures reads { ReadsQuads nodes.old nodes.new }
{
    if let Some(found) = cut_off_full(nodes, op, a, b) {
        return Some(found);
    }
    match nodes.look(op_of(op), a, b) {
        Some(found) => Some(found),
        None => None,
    }
}
