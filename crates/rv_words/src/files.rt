//! The FILE words of the parts: which are accepted, which are scripts and which relation files, and where each part
//! ends.
ghost use Rattle.std.specs.Prelude.{◌≡◌, ◌++◌, ◌∷◌, [], ◌&&◌, nat_le, nat_lt, length, map, OnOk, IfErr, Some, None};
ghost use Rattle.std.specs.List.{list_all};
ghost use Rattle.rv_words.specs.Parts.{most_parts};
ghost use Rattle.rv_words.specs.Said as said;
ghost use Rattle.rv_words.specs.Shown.{texts, listed_by, IsSorted};
ghost use Rattle.rv_words.specs.declared.options.WordsError.TheVariants as words_error;

use crate::WordsError;
use std::alloc::{AllocError, Global};

/// The greatest number of scripts, and of relation files.
const MOST_FILES: usize = 64;

/// The greatest number of parts.
const MOST_PARTS: usize = 8;

/// The FILE words of some parts. On the heap.
#[derive(Debug, Drop)]
pub struct FileList {
    /// All of them, in order.
    pub files: Vec<String>,
    /// The scripts among them.
    pub scripts: Vec<String>,
    /// The relation files among them.
    pub relations: Vec<String>,
    /// For each part, the number of scripts up to its end.
    pub ends: Vec<u32>,
}

/// The list for no part.
pub fn no_part(alloc: Global) -> FileList
    ensures none { listed_by result ≡ said.no_part }
    ensures sorted { IsSorted result }
{
    FileList {
        files: Vec::new(alloc),
        scripts: Vec::new(alloc),
        relations: Vec::new(alloc),
        ends: Vec::new(alloc),
    }
}

/// Whether a FILE word is accepted: it is neither empty nor the word `-`.
fn is_file_word(word: &str) -> bool
    ensures { result ≡ said.is_file_word word.now }
{
    !(word.len() == 0) && !(word == "-")
}

/// Whether a FILE word ends in `.k2`.
fn is_relation_word(word: &[u8]) -> bool
    ensures { result ≡ said.is_relation_word word.now }
{
    let start = word.len().saturating_sub(3);
    &word[start..] == b".k2".as_slice()
}

/// Whether each FILE word is accepted.
fn all_file_words(files: &[&str]) -> bool
    ensures { result ≡ list_all said.is_file_word (map (λ file. file.now) files.now) }
{
    let mut rest = files;
    'each: while let [file, tail @ ..] = rest {
        if !is_file_word(file) {
            return false;
        }
        rest = tail;
    }
    true
}

/// Appends a name to the names.
fn add_name(alloc: Global, name: &str, names: &mut Vec<String>) -> Result<(), AllocError>
    ensures { OnOk result (texts names.new.items ≡ texts names.old.items ++ name.now ∷ []) }
{
    names.push(String::from_str(alloc, name)?)?;
    Ok(())
}

/// Appends a FILE word to the scripts or to the relation files.
fn sort_word(alloc: Global, file: &str, list: &mut FileList) -> Result<(), AllocError>
    ensures scripts { OnOk result (texts list.new.scripts.items
        ≡ texts list.old.scripts.items ++ said.scripts_in (file.now ∷ [])) }
    ensures relations { OnOk result (texts list.new.relations.items
        ≡ texts list.old.relations.items ++ said.relations_in (file.now ∷ [])) }
    ensures files { OnOk result (list.new.files.items ≡ list.old.files.items) }
    ensures ends { OnOk result (list.new.ends.items ≡ list.old.ends.items) }
{
    if is_relation_word(file.as_bytes()) {
        add_name(alloc, file, &mut list.relations)
    } else {
        add_name(alloc, file, &mut list.scripts)
    }
}

/// Appends a FILE word to the list of all, and to the scripts or the relation files.
fn add_word(alloc: Global, file: &str, list: &mut FileList) -> Result<(), AllocError>
    ensures files { OnOk result (texts list.new.files.items ≡ texts list.old.files.items ++ file.now ∷ []) }
    ensures sorted { OnOk result (IsSorted list.old → IsSorted list.new) }
    ensures ends { OnOk result (list.new.ends.items ≡ list.old.ends.items) }
{
    sort_word(alloc, file, list)?;
    add_name(alloc, file, &mut list.files)?;
    Ok(())
}

/// Appends FILE words, in order.
fn add_words(alloc: Global, files: &[&str], list: &mut FileList) -> Result<(), AllocError>
    ensures files { OnOk result (texts list.new.files.items
        ≡ texts list.old.files.items ++ map (λ file. file.now) files.now) }
    ensures sorted { OnOk result (IsSorted list.old → IsSorted list.new) }
    ensures ends { OnOk result (list.new.ends.items ≡ list.old.ends.items) }
{
    let mut rest = files;
    'each: while let [file, tail @ ..] = rest {
        add_word(alloc, file, list)?;
        rest = tail;
    }
    Ok(())
}

/// Whether the FILE words of a part are accepted, after they were appended to those before it, which included
/// `scripts_before` scripts.
fn is_part_taken(files: &[&str], scripts_before: usize, list: &FileList) -> bool
    requires { IsSorted list.now }
    ensures { result ≡ (list_all said.is_file_word (map (λ file. file.now) files.now)
        && (nat_lt scripts_before (length (said.scripts_in (texts list.now.files.items)))
        && (nat_lt (length list.now.ends.items) most_parts
        && (nat_le (length (said.scripts_in (texts list.now.files.items))) said.most_files
        && nat_le (length (said.relations_in (texts list.now.files.items))) said.most_files)))) }
{
    let scripts = list.scripts.len();
    all_file_words(files)
        && (scripts_before < scripts
            && (list.ends.len() < MOST_PARTS
                && (scripts <= MOST_FILES && list.relations.len() <= MOST_FILES)))
}

/// Appends the FILE words of one more part.
pub fn add_part(alloc: Global, files: &[&str], list: &mut FileList) -> Result<(), WordsError>
    requires { IsSorted list.old }
    ensures taken { OnOk result (said.with_part (listed_by list.old) (map (λ file. file.now) files.now)
        ≡ Some (listed_by list.new)) }
    ensures sorted { OnOk result (IsSorted list.new) }
    ensures usage { IfErr result (λ error. error ≡ words_error.Usage
        → said.with_part (listed_by list.old) (map (λ file. file.now) files.now) ≡ None) }
{
    let before = list.scripts.len();
    let Ok(()) = add_words(alloc, files, list) else {
        return Err(WordsError::NoMemory);
    };
    if !is_part_taken(files, before, list) {
        return Err(WordsError::Usage);
    }
    let scripts = list.scripts.len() as u32;
    match list.ends.push(scripts) {
        Ok(()) => Ok(()),
        Err(_) => Err(WordsError::NoMemory),
    }
}
