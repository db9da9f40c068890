//! Sizes of types, which may be unknown: whether two agree, and sizes computed from others.
ghost use Rattle.std.specs.Prelude.{◌≡◌, ◌≤◌, ◌+◌, ◌*◌, ◌^◌};
ghost use Rattle.lang_model.specs.Missing.{first_of_both};
ghost use Rattle.lang_model.specs.Types.{agree as agree_as, within_limit as limited, computed, computed_of_two};
ghost use Rattle.lang_model.specs.Shape.{keeps_size};

use rel_model::SIZE_LIMIT;

/// The greatest number of elements whose power set is within the limit.
const MOST_ELEMENTS: u32 = 24;

/// Whether two sizes may be equal: not if both are known and differ.
pub fn agree(m: Option<u32>, n: Option<u32>) -> bool
    ensures { result ≡ agree_as m n }
{
    match m {
        None => true,
        Some(m) => match n {
            None => true,
            Some(n) => m == n,
        },
    }
}

/// The known one of two sizes that agree, if either is known.
pub fn known_of_both(m: Option<u32>, n: Option<u32>) -> Option<u32>
    ensures { result ≡ first_of_both m n }
{
    match m {
        None => n,
        Some(m) => Some(m),
    }
}

/// Whether a later value is known to have the size of a variable's type, if that size is known.
pub fn keeps(m: Option<u32>, n: Option<u32>) -> bool
    ensures { result ≡ keeps_size m n }
{
    match m {
        None => true,
        Some(m) => match n {
            None => false,
            Some(n) => m == n,
        },
    }
}

/// A computed size: known only if it is within the limit.
fn within_limit(size: u64) -> Option<u32>
    ensures { result ≡ limited size }
{
    if u64::from(SIZE_LIMIT) < size {
        None
    } else {
        Some(size as u32)
    }
}

/// The size of a product.
pub fn product(m: Option<u32>, n: Option<u32>) -> Option<u32>
    ensures { result ≡ computed_of_two (λ p q. p * q) m n }
{
    match m {
        None => None,
        Some(m) => match n {
            None => None,
            Some(n) => within_limit(u64::from(m) * u64::from(n)),
        },
    }
}

/// The size of a sum.
pub fn sum(m: Option<u32>, n: Option<u32>) -> Option<u32>
    ensures { result ≡ computed_of_two (λ p q. p + q) m n }
{
    match m {
        None => None,
        Some(m) => match n {
            None => None,
            Some(n) => within_limit(u64::from(m) + u64::from(n)),
        },
    }
}

/// How many subsets `m` elements have, for at most `MOST_ELEMENTS`.
fn subsets(m: u32) -> u64
    requires { m ≤ MOST_ELEMENTS }
    ensures { result ≡ 2 ^ m }
{
    1 << m
}

/// The size of a power set.
pub fn power(m: Option<u32>) -> Option<u32>
    ensures { result ≡ computed (λ n. 2 ^ n) m }
{
    match m {
        None => None,
        Some(m) => {
            if m > MOST_ELEMENTS {
                None
            } else {
                within_limit(subsets(m))
            }
        }
    }
}
