//! The files that the words name, read in the order of the words.
ghost use Rattle.std.specs.String.{string_bytes};
ghost use Rattle.rv_io.specs.declared.reading.ReadError.TheVariants as read_error;
ghost use Rattle.std.specs.Prelude.{ℕ, ◌≡◌, ◌≤◌, ◌++◌, ◌∷◌, [], List, map, length, IsTrue, All, IfOk, IfErr, OnOk};
ghost use Rattle.rv_io.specs.Outside.{Leaves, Told};
ghost use Rattle.rv_io.specs.Reading.{RefusesFile, CountsFault};
ghost use Rattle.rv_words.specs.Said.{is_relation_word, scripts_in, relations_in};
ghost use Rattle.rv_words.specs.Shown.{texts};
ghost use Rattle.rv_ends.specs.Given.{limit_of, IsTaken, IsHalted, GivesFiles, Adds};

use lang_model::limits::SCRIPT_LIMIT;
use run_model::files::Loaded;
use rv_io::{ReadError, Shelf, read_all};
use std::alloc::Global;

/// The greatest length of a relation file, in bytes.
const RELATION_LIMIT: u64 = 8_388_638;

/// The scripts and the relation files of a run. On the heap.
#[derive(Drop)]
pub struct Given {
    pub scripts: Vec<Vec<u8>>,
    pub files: Vec<Loaded>,
}

/// A FILE word whose file was not read, and why. 32 bytes.
#[derive(Clone, Copy, Debug)]
pub struct Halt<'a> {
    pub name: &'a str,
    pub error: ReadError,
}

/// Whether a FILE word names a relation file: it ends in `.k2`.
fn is_relation_word(word: &[u8]) -> bool
    ensures { result ≡ is_relation_word word.now }
{
    let start = word.len().saturating_sub(3);
    &word[start..] == b".k2".as_slice()
}

/// The greatest length of the file that a FILE word names, in bytes.
#[tactic(auto, unfolding(crate::specs::Given::limit_of))]
fn limit_of(word: &str) -> u64
    ensures { result ≡ limit_of word.now }
{
    if is_relation_word(word.as_bytes()) {
        RELATION_LIMIT
    } else {
        SCRIPT_LIMIT as u64
    }
}

/// Adds the bytes of a file, as a script or as a relation file.
fn add_file(alloc: Global, given: &mut Given, name: &str, bytes: Vec<u8>) -> Result<(), ReadError>
    ensures added { OnOk result (Adds name.now bytes.items given.old given.new) }
    ensures memory { IfErr result (λ error. error ≡ read_error.NoMemory) }
{
    if is_relation_word(name.as_bytes()) {
        let Ok(name) = String::from_str(alloc, name) else {
            return Err(ReadError::NoMemory);
        };
        given
            .files
            .push(Loaded { name, bytes })
            .map_err(|_| ReadError::NoMemory)
    } else {
        given.scripts.push(bytes).map_err(|_| ReadError::NoMemory)
    }
}

/// Reads the file that a FILE word names, within its limit, and adds it.
fn read_file<S: Shelf>(
    alloc: Global,
    shelf: &mut S,
    name: &str,
    given: &mut Given,
) -> Result<(), ReadError>
    requires { IsTrue ((S.told shelf.old).may_pick name.now) }
    ensures added { OnOk result ((bytes : List ℕ) × IsTaken (S.told shelf.old).files name.now bytes
        × Adds name.now bytes given.old given.new) }
    ensures refused { IfErr result (RefusesFile (S.told shelf.old) (S.told shelf.new) name.now (limit_of name.now)) }
    ensures kept { OnOk result ((S.told shelf.new).faults ≡ (S.told shelf.old).faults) }
    ensures leaves { Leaves (S.told shelf.old) (S.told shelf.new) }
{
    match read_all(alloc, shelf, name, limit_of(name)) {
        Ok(bytes) => add_file(alloc, given, name, bytes),
        Err(error) => Err(error),
    }
}

/// Reads the files of FILE words, in order, up to the first that cannot be read.
pub fn read_files<'a, S: Shelf>(
    alloc: Global,
    shelf: &mut S,
    names: &'a [String],
) -> Result<Given, Halt<'a>>
    requires { All (λ name. IsTrue ((S.told shelf.old).may_pick (string_bytes name))) names.now }
    ensures given { IfOk result (GivesFiles (S.told shelf.old).files (texts names.now)) }
    ensures halted { IfErr result (IsHalted (S.told shelf.old) (S.told shelf.new) (texts names.now)) }
    ensures leaves { Leaves (S.told shelf.old) (S.told shelf.new) }
{
    let mut given = Given {
        scripts: Vec::new(alloc),
        files: Vec::new(alloc),
    };
    match read_each(alloc, shelf, names, &mut given) {
        Ok(()) => Ok(given),
        Err(halt) => Err(halt),
    }
}

/// Reads the files of FILE words and adds each to the others, of which there are none yet.
fn read_each<'a, S: Shelf>(
    alloc: Global,
    shelf: &mut S,
    names: &'a [String],
    given: &mut Given,
) -> Result<(), Halt<'a>>
    requires may_pick { All (λ name. IsTrue ((S.told shelf.old).may_pick (string_bytes name))) names.now }
    requires no_scripts { given.old.scripts.items ≡ [] }
    requires no_files { given.old.files.items ≡ [] }
    ensures given { OnOk result (GivesFiles (S.told shelf.old).files (texts names.now) given.new) }
    ensures halted { IfErr result (IsHalted (S.told shelf.old) (S.told shelf.new) (texts names.now)) }
    ensures leaves { Leaves (S.told shelf.old) (S.told shelf.new) }
{
    let mut rest = names;
    'names: while let [name, tail @ ..] = rest {
        match read_file(alloc, shelf, name.as_str(), given) {
            Ok(()) => {}
            Err(error) => {
                return Err(Halt {
                    name: name.as_str(),
                    error,
                });
            }
        }
        rest = tail;
    }
    Ok(())
}
