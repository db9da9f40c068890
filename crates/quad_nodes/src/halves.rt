//! Pairs of names, read and interned.
ghost use Rattle.std.specs.Prelude.{◌≡◌, ℕ, suc, true, IfOk, Ok};
ghost use Rattle.rel_model.specs.Trees.{stands};
ghost use Rattle.rel_model.specs.Views.{IsKnown};
ghost use Rattle.rel_model.specs.Quads.{Keeper, KeepsQuads, ReadsQuads, Counts};
ghost use Rattle.quad_nodes.specs.Halves.{AreHalves, IsPaired};
ghost use Rattle.quad_nodes.specs.Finding.{FindsPair};

use crate::nodes::Nodes;
use pair_table::Missed;

impl<'t> Nodes<'t> {
    /// The two names in the word of a name; two zeros for name 0.
    pub(crate) fn halves(&mut self, name: u32) -> (u32, u32)
        requires { IsKnown self.old.view name }
        ensures halves { (k : ℕ) → stands self.old.view.words (suc k) name ≡ true
            → AreHalves self.old self.new k name result.0 result.1 }
        ensures reads { ReadsQuads self.old self.new }
    {
        // This use makes the checker open the invariant of `self`, which the early return below needs.
        let _ = &self.seat;
        if name == 0 {
            return (0, 0);
        }
        self.table.kids(&mut self.seat, name)
    }

    /// The name of a pair of names; 0 for two empty sets. Refused only if the table is full.
    pub(crate) fn pair(&mut self, left: u32, right: u32) -> Result<u32, Missed>
        requires left_in { IsKnown self.old.view left }
        requires right_in { IsKnown self.old.view right }
        ensures value { IfOk result (IsPaired self.old self.new left right) }
        ensures nothing { left ≡ 0 → right ≡ 0 → result ≡ Ok 0 }
        ensures stood { FindsPair self.old self.new left right result }
        ensures keeps { KeepsQuads 1 self.old self.new }
        ensures counts { Counts self.old self.new result }
    {
        let _ = &self.seat;
        if left == 0 && right == 0 {
            return Ok(0);
        }
        self.table.intern(&mut self.seat, left, right)
    }
}
