//! Why a relation is not written.
use rel_model::NoMemory;
use std::alloc::{AllocError, AllocFailed};

/// Why a relation is not written. 16 bytes.
#[derive(Clone, Copy, Debug, PartialEq, Eq)]
pub enum WriteRefused {
    /// Its tree has this many bits, which is over the limit.
    TooLong { bits: u64 },
    /// Memory ran out.
    NoMemory,
}

impl From<AllocError> for WriteRefused {
    ghost use Rattle.std.specs.Prelude.{◌≡◌};
    ghost use Rattle.k2_file.specs.declared.refused.WriteRefused.TheVariants.{NoMemory};

    ghost from_gives = { λ _ e. e ≡ NoMemory };

    fn from(_: AllocError) -> Self {
        WriteRefused::NoMemory
    }
}

impl<T: Drop> From<AllocFailed<T>> for WriteRefused {
    ghost use Rattle.std.specs.Prelude.{◌≡◌};
    ghost use Rattle.k2_file.specs.declared.refused.WriteRefused.TheVariants.{NoMemory};

    ghost from_gives = { λ _ e. e ≡ NoMemory };

    fn from(_: AllocFailed<T>) -> Self {
        WriteRefused::NoMemory
    }
}

impl From<NoMemory> for WriteRefused {
    ghost use Rattle.std.specs.Prelude.{◌≡◌};
    ghost use Rattle.k2_file.specs.declared.refused.WriteRefused.TheVariants.{NoMemory as NO_MEMORY};

    ghost from_gives = { λ _ e. e ≡ NO_MEMORY };

    fn from(_: NoMemory) -> Self {
        WriteRefused::NoMemory
    }
}
