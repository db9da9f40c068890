//! The inner entries of a heap, those above its leaves.
ghost use Rattle.std.specs.Prelude.{◌≡◌, ◌*◌, length};
ghost use Rattle.rel_images.specs.Lines.{Marks};

/// Recomputes each inner entry from its two children, from the last entry to the first: it is 0 if both children are.
pub(crate) fn mark(xs: &mut [u8], leaves: usize)
    requires { length xs.old ≡ 2 * leaves }
    ensures { Marks leaves xs.old xs.new }
{
    'entries: for t in 1..leaves {
        let k = leaves - t;
        xs[k] = xs[2 * k] | xs[2 * k + 1];
    }
}
