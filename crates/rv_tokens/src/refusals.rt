//! Why bytes begin no token.

/// Why bytes begin no token.
#[derive(Clone, Copy, Debug, PartialEq, Eq)]
pub enum Refusal {
    /// They spell no token.
    Unfit,
    NoMemory,
}

impl From<rel_model::NoMemory> for Refusal {
    ghost use Rattle.std.specs.Prelude.{◌≡◌};
    ghost use Rattle.rv_tokens.specs.declared.refusals.Refusal.TheVariants.{NoMemory};

    ghost from_gives = { λ _ e. e ≡ NoMemory };

    fn from(_: rel_model::NoMemory) -> Self {
        Refusal::NoMemory
    }
}
