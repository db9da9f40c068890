//! The words of the command line: those after the program's own name.
ghost use Rattle.std.specs.Prelude.{◌≡◌, drop, IfOk, IsErr};
ghost use Rattle.std.specs.Vec.Iter.{into_iter_items};
ghost use Rattle.rv_words.specs.Shown.{texts};
ghost use Rattle.relview.specs.Ending.{words_in, HadNoRoom};

use std::alloc::{AllocError, Global};
use std::env::Args;
use std::io;

/// All words, in order.
fn all_words(alloc: Global, args: Args) -> Result<Vec<String>, AllocError>
    ensures { IfOk result (λ words. words.items ≡ into_iter_items args) }
{
    let mut rest = args;
    let mut words = Vec::new(alloc);
    'each: while let Some(word) = rest.next() {
        words.push(word)?;
    }
    Ok(words)
}

/// All words after the program's own name, in order.
fn words_behind_name(alloc: Global, args: Args) -> Result<Vec<String>, AllocError>
    ensures { IfOk result (λ words. words.items ≡ drop 1 (into_iter_items args)) }
{
    let mut rest = args;
    let _name = rest.next();
    all_words(alloc, rest)
}

/// The words of what the system gave for the command line. If that is not text, there are none, which is not accepted.
pub fn words_given(alloc: Global, args: io::Result<Args>) -> Result<Vec<String>, AllocError>
    ensures words { IfOk result (λ words. texts words.items ≡ words_in args) }
    ensures memory { HadNoRoom args → IsErr result }
{
    match args {
        Ok(args) => words_behind_name(alloc, args),
        Err(error) => match error.kind() {
            io::ErrorKind::OutOfMemory => Err(AllocError),
            _ => Ok(Vec::new(alloc)),
        },
    }
}
