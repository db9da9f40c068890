//! How a text ends after its tokens.
use lang_model::syntax::Place;

/// Why the tokens of a text end before it does.
#[derive(Clone, Copy, Debug)]
pub enum Flaw {
    Byte { at: Place, byte: u8 },
    NumberTooLarge { at: Place },
    NameTooLong { at: Place },
    /// A file text without its closing quote.
    Unclosed { at: Place },
    EmptyText { at: Place },
}

/// How a text ends after its tokens.
#[derive(Clone, Copy, Debug)]
pub enum Ending {
    At(Place),
    Broken(Flaw),
}
