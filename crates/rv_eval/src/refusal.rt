//! From why an evaluation ended to the refusal that is reported.
ghost use Rattle.std.specs.Prelude.{◌≡◌};
ghost use Rattle.rv_eval.specs.Refusing.{told, told_ill};

use crate::halt::{Halt, Refused};
use lang_model::faults::TypeFault;
use rel_model::{Lack, SIZE_LIMIT};

/// A fault as a refusal.
pub fn ill(fault: TypeFault) -> Refused
    ensures { result ≡ told_ill fault }
{
    match &fault {
        TypeFault::NoMemory => Refused::NoMemory,
        _ => Refused::Ill(fault),
    }
}

/// A refusal, with the limit that was passed.
pub fn refusal(turns: u64, halt: Halt) -> Refused
    ensures { result ≡ told turns halt }
{
    match halt {
        Halt::Ill(fault) => ill(fault),
        Halt::Size { at, wanted } => Refused::Size {
            at,
            wanted,
            limit: u64::from(SIZE_LIMIT),
        },
        Halt::Turns { at } => Refused::Turns { at, limit: turns },
        Halt::Lack(Lack::Full) => Refused::Nodes,
        Halt::Lack(Lack::NoMemory) => Refused::NoMemory,
    }
}
