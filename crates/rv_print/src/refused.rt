//! Why a relation is not shown.
use rel_model::NoMemory;
use run_model::outcome::Unit;
use std::alloc::{AllocError, AllocFailed};

/// Why a relation is not shown.
#[derive(Clone, Copy, Debug, PartialEq, Eq)]
pub enum PrintRefused {
    /// It has this many cells or pairs, which is over the limit.
    TooLarge { wanted: u64, unit: Unit },
    /// Memory ran out.
    NoMemory,
}

impl From<AllocError> for PrintRefused {
    ghost use Rattle.std.specs.Prelude.{◌≡◌};
    ghost use Rattle.rv_print.specs.declared.refused.PrintRefused.TheVariants.{NoMemory};

    ghost from_gives = { λ _ e. e ≡ NoMemory };

    fn from(_: AllocError) -> Self {
        PrintRefused::NoMemory
    }
}

impl<T: Drop> From<AllocFailed<T>> for PrintRefused {
    ghost use Rattle.std.specs.Prelude.{◌≡◌};
    ghost use Rattle.rv_print.specs.declared.refused.PrintRefused.TheVariants.{NoMemory};

    ghost from_gives = { λ _ e. e ≡ NoMemory };

    fn from(_: AllocFailed<T>) -> Self {
        PrintRefused::NoMemory
    }
}

impl From<NoMemory> for PrintRefused {
    ghost use Rattle.std.specs.Prelude.{◌≡◌};
    ghost use Rattle.rv_print.specs.declared.refused.PrintRefused.TheVariants.{NoMemory as NO_MEMORY};

    ghost from_gives = { λ _ e. e ≡ NO_MEMORY };

    fn from(_: NoMemory) -> Self {
        PrintRefused::NoMemory
    }
}
