ghost use Rattle.std.specs.Prelude.{◌≡◌, ◌==◌, ◌&&◌};
ghost use Rattle.std.specs.List.{list_any};
ghost use Rattle.rel_model.specs.Relation.{IsIncreasing};

/// Whether a pair is in an increasing list, by binary search.
pub(crate) fn contains(pairs: &[(u32, u32)], i: u32, j: u32) -> bool
    requires { IsIncreasing pairs.now }
    ensures { result ≡ list_any (λ p. (p.0 == i) && (p.1 == j)) pairs.now }
{
    pairs.binary_search(&(i, j)).is_ok()
}

/// Whether two increasing lists have a pair in common: looks up each pair of the first in the second, until one is
/// found.
pub(crate) fn share(left: &[(u32, u32)], right: &[(u32, u32)]) -> bool
    requires { IsIncreasing right.now }
    ensures { result ≡ list_any (λ q. list_any (λ p. (p.0 == q.0) && (p.1 == q.1)) right.now) left.now }
{
    'pairs: for place in 0..left.len() {
        let (i, j) = left[place];
        if contains(right, i, j) {
            return true;
        }
    }
    false
}
