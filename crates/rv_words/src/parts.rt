//! The parts of the words, and the FILE words in them.
ghost use Rattle.std.specs.Prelude.{◌≡◌, ◌∷◌, codes, option_map, IfOk, OnOk, IfErr, Some, None};
ghost use Rattle.rv_words.specs.Parts.{parts_of, parts_behind};
ghost use Rattle.rv_words.specs.Said as said;
ghost use Rattle.rv_words.specs.Shown.{texts, found_values, listed_by, IsSorted};
ghost use Rattle.rv_words.specs.declared.options.WordsError.TheVariants as words_error;

use crate::WordsError;
use crate::command::found;
use crate::files::{FileList, add_part, no_part};
use clap::ArgMatches;
use std::alloc::Global;

/// The first part of the words, and the words after the `--then` that ends it, if there is one.
pub fn first_part(words: &[String]) -> (&[String], Option<&[String]>)
    ensures { parts_of (texts words.now)
        ≡ texts result.0.now ∷ parts_behind (option_map (λ later. texts later.now) result.1) }
{
    let mut count = 0;
    let mut rest = words;
    'words: while let [word, tail @ ..] = rest {
        if word.as_str() == "--then" {
            return (&words[..count], Some(tail));
        }
        if word.as_str() == "--" {
            return (words, None);
        }
        count += 1;
        rest = tail;
    }
    (words, None)
}

/// Whether clap found a value under a name.
fn stands(matches: &ArgMatches, name: &str) -> bool
    ensures { result ≡ said.stands (found_values matches.now) name.now }
{
    match matches.get_raw(name) {
        Some(values) => 1 <= values.len(),
        None => false,
    }
}

/// Whether clap found an option.
fn has_options(matches: &ArgMatches) -> bool
    ensures { result ≡ said.has_options (found_values matches.now) }
{
    stands(matches, "workers")
        || (stands(matches, "nodes")
            || (stands(matches, "turns") || (stands(matches, "gen") || stands(matches, "history"))))
}

/// Appends the FILE words that clap found in one more part.
fn add_found(alloc: Global, matches: &ArgMatches, list: &mut FileList) -> Result<(), WordsError>
    requires { IsSorted list.old }
    ensures taken { OnOk result (said.with_part (listed_by list.old) (found_values matches.now (codes "file"))
        ≡ Some (listed_by list.new)) }
    ensures sorted { OnOk result (IsSorted list.new) }
    ensures usage { IfErr result (λ error. error ≡ words_error.Usage
        → said.with_part (listed_by list.old) (found_values matches.now (codes "file")) ≡ None) }
{
    match matches.get_raw("file") {
        Some(files) => add_part(alloc, files, list),
        None => add_part(alloc, &[], list),
    }
}

/// Appends the FILE words of one more part, which must have no option.
fn add_later_part(alloc: Global, part: &[String], list: &mut FileList) -> Result<(), WordsError>
    requires { IsSorted list.old }
    ensures taken { OnOk result (said.with_later_part (listed_by list.old) (texts part.now)
        ≡ Some (listed_by list.new)) }
    ensures sorted { OnOk result (IsSorted list.new) }
    ensures usage { IfErr result (λ error. error ≡ words_error.Usage
        → said.with_later_part (listed_by list.old) (texts part.now) ≡ None) }
{
    match found(alloc, part) {
        Ok(matches) => {
            if has_options(&matches) {
                Err(WordsError::Usage)
            } else {
                add_found(alloc, &matches, list)
            }
        }
        Err(error) => Err(error),
    }
}

/// Appends the FILE words of the parts after the first, part by part.
fn add_later(alloc: Global, later: Option<&[String]>, list: &mut FileList) -> Result<(), WordsError>
    requires { IsSorted list.old }
    ensures taken { OnOk result (said.with_later (parts_behind (option_map (λ words. texts words.now) later.entry))
        (listed_by list.old) ≡ Some (listed_by list.new)) }
    ensures sorted { OnOk result (IsSorted list.new) }
    ensures usage { IfErr result (λ error. error ≡ words_error.Usage
        → said.with_later (parts_behind (option_map (λ words. texts words.now) later.entry)) (listed_by list.old)
        ≡ None) }
{
    let mut rest = later;
    'parts: while let Some(words) = rest {
        let (part, behind) = first_part(words);
        match add_later_part(alloc, part, list) {
            Ok(()) => {}
            Err(error) => return Err(error),
        }
        rest = behind;
    }
    Ok(())
}

/// The list for one part without a FILE word, as with `--gen`.
fn generated_part(
    alloc: Global,
    matches: &ArgMatches,
    later: Option<&[String]>,
) -> Result<FileList, WordsError>
    ensures taken { IfOk result (λ list. said.generated_part (found_values matches.now (codes "file"))
        (parts_behind (option_map (λ words. texts words.now) later.entry)) ≡ Some (listed_by list)) }
    ensures sorted { IfOk result IsSorted }
    ensures usage { IfErr result (λ error. error ≡ words_error.Usage
        → said.generated_part (found_values matches.now (codes "file"))
        (parts_behind (option_map (λ words. texts words.now) later.entry)) ≡ None) }
{
    if stands(matches, "file") {
        return Err(WordsError::Usage);
    }
    if later.is_some() {
        return Err(WordsError::Usage);
    }
    let mut list = no_part(alloc);
    match list.ends.push(0) {
        Ok(()) => Ok(list),
        Err(_) => Err(WordsError::NoMemory),
    }
}

/// The list for the first part with the parts after it.
fn several_parts(
    alloc: Global,
    matches: &ArgMatches,
    later: Option<&[String]>,
) -> Result<FileList, WordsError>
    ensures taken { IfOk result (λ list. said.with_parts None (found_values matches.now (codes "file"))
        (parts_behind (option_map (λ words. texts words.now) later.entry)) ≡ Some (listed_by list)) }
    ensures sorted { IfOk result IsSorted }
    ensures usage { IfErr result (λ error. error ≡ words_error.Usage
        → said.with_parts None (found_values matches.now (codes "file"))
        (parts_behind (option_map (λ words. texts words.now) later.entry)) ≡ None) }
{
    let mut list = no_part(alloc);
    match add_found(alloc, matches, &mut list) {
        Ok(()) => {}
        Err(error) => return Err(error),
    }
    match add_later(alloc, later, &mut list) {
        Ok(()) => Ok(list),
        Err(error) => Err(error),
    }
}

/// The list for the first part with the parts after it, given the number of `--gen`, if there is one.
pub fn with_parts(
    alloc: Global,
    number: Option<u64>,
    matches: &ArgMatches,
    later: Option<&[String]>,
) -> Result<FileList, WordsError>
    ensures taken { IfOk result (λ list. said.with_parts number (found_values matches.now (codes "file"))
        (parts_behind (option_map (λ words. texts words.now) later.entry)) ≡ Some (listed_by list)) }
    ensures sorted { IfOk result IsSorted }
    ensures usage { IfErr result (λ error. error ≡ words_error.Usage
        → said.with_parts number (found_values matches.now (codes "file"))
        (parts_behind (option_map (λ words. texts words.now) later.entry)) ≡ None) }
{
    match number {
        Some(_) => generated_part(alloc, matches, later),
        None => several_parts(alloc, matches, later),
    }
}
