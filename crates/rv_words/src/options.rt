//! The options of a run, and how they are read from the words.
ghost use Rattle.std.specs.Prelude.{◌≡◌, IfOk, IfErr, Some, None, codes, option_map};
ghost use Rattle.rv_words.specs.Parts.{parts_behind};
ghost use Rattle.rv_words.specs.Said as said;
ghost use Rattle.rv_words.specs.Shown.{texts, shown, found_values};
ghost use Rattle.rv_words.specs.declared.options.WordsError.TheVariants as words_error;

use crate::command::found;
use crate::numbers::{gen_number, number_or, switched};
use crate::parts::{first_part, with_parts};
use clap::ArgMatches;
use std::alloc::Global;
use thiserror::Error;

/// What the words of a run say. On the heap.
#[derive(Debug, Drop)]
pub struct Options {
    /// How many workers a session has, from 1 to 64.
    pub workers: u32,
    /// The table has `2^nodes` node words; from 10 to 24.
    pub nodes: u32,
    /// How many turns the loops of a command may take together.
    pub turns: u64,
    /// Whether the history is shown.
    pub history: bool,
    /// The number from which scripts are generated, if they are.
    pub number: Option<u64>,
    /// The FILE words of all parts, in the order in which they occur.
    pub files: Vec<String>,
    /// The names of the scripts, at most 64.
    pub scripts: Vec<String>,
    /// The names of the relation files, at most 64.
    pub relations: Vec<String>,
    /// For each part, of which there are at most 8, the number of scripts up to its end.
    pub ends: Vec<u32>,
}

/// Why the words gave no options. 1 byte.
#[derive(Clone, Copy, Debug, PartialEq, Eq, Drop, Error)]
pub enum WordsError {
    /// The words are outside the accepted set.
    #[error("Usage")]
    Usage,
    /// Memory ran out.
    #[error("NoMemory")]
    NoMemory,
}

/// Reads the words, which do not include the program's own name.
///
/// It answers `Usage` if and only if the words are outside the accepted set.
pub fn words_of(alloc: Global, words: &[String]) -> Result<Options, WordsError>
    ensures taken { IfOk result (λ options. said.said_by (texts words.now) ≡ Some (shown options)) }
    ensures usage { IfErr result (λ error. error ≡ words_error.Usage → said.said_by (texts words.now) ≡ None) }
{
    let (first, later) = first_part(words);
    match found(alloc, first) {
        Ok(matches) => options_of(alloc, &matches, later),
        Err(error) => Err(error),
    }
}

/// The options with the FILE words of the parts, if these are accepted.
fn with_files(
    alloc: Global,
    matches: &ArgMatches,
    later: Option<&[String]>,
    numbers: (u32, u32, u64),
    history: bool,
    number: Option<u64>,
) -> Result<Options, WordsError>
    ensures taken { IfOk result (λ options. option_map
        (said.with_files numbers.0 numbers.1 numbers.2 history number) (said.with_parts number
        (found_values matches.now (codes "file")) (parts_behind (option_map (λ words. texts words.now) later.entry)))
        ≡ Some (shown options)) }
    ensures usage { IfErr result (λ error. error ≡ words_error.Usage → option_map
        (said.with_files numbers.0 numbers.1 numbers.2 history number) (said.with_parts number
        (found_values matches.now (codes "file")) (parts_behind (option_map (λ words. texts words.now) later.entry)))
        ≡ None) }
{
    let list = match with_parts(alloc, number, matches, later) {
        Ok(list) => list,
        Err(error) => return Err(error),
    };
    let (workers, nodes, turns) = numbers;
    Ok(Options {
        workers,
        nodes,
        turns,
        history,
        number,
        files: list.files,
        scripts: list.scripts,
        relations: list.relations,
        ends: list.ends,
    })
}

/// The options from the values of the first part, with the parts after it.
fn options_of(
    alloc: Global,
    matches: &ArgMatches,
    later: Option<&[String]>,
) -> Result<Options, WordsError>
    ensures taken { IfOk result (λ options. said.said_from (found_values matches.now)
        (parts_behind (option_map (λ words. texts words.now) later.entry)) ≡ Some (shown options)) }
    ensures usage { IfErr result (λ error. error ≡ words_error.Usage → said.said_from (found_values matches.now)
        (parts_behind (option_map (λ words. texts words.now) later.entry)) ≡ None) }
{
    let Some(workers) = number_or(matches, "workers", 1, 64, 1) else {
        return Err(WordsError::Usage);
    };
    let Some(nodes) = number_or(matches, "nodes", 10, 24, 20) else {
        return Err(WordsError::Usage);
    };
    let Some(turns) = number_or(matches, "turns", 0, 1_000_000_000, 1_000_000) else {
        return Err(WordsError::Usage);
    };
    let Some(history) = switched(matches) else {
        return Err(WordsError::Usage);
    };
    let Some(number) = gen_number(matches) else {
        return Err(WordsError::Usage);
    };
    with_files(
        alloc,
        matches,
        later,
        (workers as u32, nodes as u32, turns),
        history,
        number,
    )
}
