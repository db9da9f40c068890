//! Why reading ends before a script is complete.
use lang_model::syntax::Place;
use lang_model::token::Keyword;
use rv_tokens::Flaw;
use std::alloc::{AllocError, AllocFailed};

/// What the grammar expects at a place.
#[derive(Clone, Copy, Debug)]
pub enum Wanted {
    Item,
    Expression,
    Name,
    Number,
    FromOne,
    File,
    Sign(u8),
    Word(Keyword),
}

/// Why a part of the grammar cannot be read.
#[derive(Clone, Copy, Debug)]
pub enum Halt {
    Expected { at: Place, wanted: Wanted },
    TooDeep { at: Place },
    Broken(Flaw),
    NoMemory,
}

impl From<AllocError> for Halt {
    ghost use Rattle.std.specs.Prelude.{◌≡◌};
    ghost use Rattle.rv_parse.specs.declared.halt.Halt.TheVariants.{NoMemory};

    ghost from_gives = { λ _ e. e ≡ NoMemory };

    fn from(_: AllocError) -> Self {
        Halt::NoMemory
    }
}

impl<T: Drop> From<AllocFailed<T>> for Halt {
    ghost use Rattle.std.specs.Prelude.{◌≡◌};
    ghost use Rattle.rv_parse.specs.declared.halt.Halt.TheVariants.{NoMemory};

    ghost from_gives = { λ _ e. e ≡ NoMemory };

    fn from(_: AllocFailed<T>) -> Self {
        Halt::NoMemory
    }
}

impl From<rel_model::NoMemory> for Halt {
    ghost use Rattle.std.specs.Prelude.{◌≡◌};
    ghost use Rattle.rv_parse.specs.declared.halt.Halt.TheVariants.{NoMemory};

    ghost from_gives = { λ _ e. e ≡ NoMemory };

    fn from(_: rel_model::NoMemory) -> Self {
        Halt::NoMemory
    }
}
