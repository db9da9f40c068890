//! The word of a leaf.
ghost use Rattle.std.specs.Prelude.{◌≡◌, ◌<◌, ◌≤◌, ◌+◌, ◌*◌, ◌^◌, ◌==◌, ℕ};
ghost use Rattle.rel_model.specs.Cells.{bits_cells};
ghost use Rattle.rel_domains.specs.Curve.{AreFrom, cells_at};

/// The word of the cells whose places are listed; places count from `base`.
pub fn leaf_word(least: u8, base: u64, places: &[u64]) -> u64
    requires low { least ≤ 3 }
    requires from { AreFrom base (base + 4 ^ least) places.now }
    ensures cells { bits_cells (2 ^ least) result ≡ cells_at least 0 base places.now }
    ensures none_past { result < 2 ^ (2 ^ least * 2 ^ least) }
{
    let mut bits = 0;
    'places: for place in places {
        bits |= 1u64 << (*place - base);
    }
    bits
}
