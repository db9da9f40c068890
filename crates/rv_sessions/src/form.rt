//! The form in which a value is wanted, and the outcomes of values that are not shown.
ghost use Rattle.std.specs.Prelude.{◌≡◌};
ghost use Rattle.rv_sessions.specs.Told.{print_told, write_told};

use k2_file::WriteRefused;
use run_model::outcome::Outcome;
use rv_print::PrintRefused;

/// The forms in which commands want values: those of PRINT, LIST, COUNT and TYPE, and the bytes of a relation file. 1
/// byte.
#[derive(Clone, Copy)]
pub(crate) enum Form {
    Matrix,
    Listing,
    Count,
    Typed,
    File,
}

/// The outcome for a value that is not printed or listed.
pub(crate) fn print_outcome(refused: PrintRefused) -> Outcome
    ensures { result ≡ print_told refused }
{
    match refused {
        PrintRefused::TooLarge { wanted, unit } => Outcome::TooLarge { wanted, unit },
        PrintRefused::NoMemory => Outcome::NoMemory,
    }
}

/// The outcome for a value that is not saved.
pub(crate) fn write_outcome(refused: WriteRefused) -> Outcome
    ensures { result ≡ write_told refused }
{
    match refused {
        WriteRefused::TooLong { bits } => Outcome::TooLong { bits },
        WriteRefused::NoMemory => Outcome::NoMemory,
    }
}
