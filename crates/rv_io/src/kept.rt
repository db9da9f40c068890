//! Files stored one after another in one row of bytes; the newest of a name counts.
ghost use Rattle.std.specs.Prelude.{◌≡◌, ◌≤◌, ◌<◌, ◌+◌, ◌⊎◌, ℕ, List, length, Some, None, MatchOption, OnOk, OnErr, IfOk};
ghost use Rattle.std.proofs.Props.{props};
ghost use Rattle.std.specs.Vec.{vec_len, vec_capacity};
ghost use Rattle.std.specs.Prelude.{[], ◌++◌};
ghost use Rattle.rv_io.specs.Memory.{file_at};
ghost use Rattle.rv_io.specs.Sure.{between, kept_at, is_named, IsWithin, AreWithin, IsPlaced, with_first};

use std::alloc::{AllocError, Global};

/// Where a file lies: its name, then its content, and where that ends. 24 bytes.
#[derive(Clone, Copy)]
pub(crate) struct Place {
    name: usize,
    content: usize,
    end: usize,
}

/// Files, newest first. On the heap.
#[derive(Drop)]
pub(crate) struct Kept {
    places: Vec<Place>,
    bytes: Vec<u8>,
    ghost within: { AreWithin bytes.items places.items } by { Prim.hlevel props },
}

impl Kept {
    /// No files.
    pub(crate) fn new(alloc: Global) -> Kept
        ensures places { result.places.items ≡ [] }
        ensures bytes { result.bytes.items ≡ [] }
    {
        Kept {
            places: Vec::new(alloc),
            bytes: Vec::new(alloc),
        }
    }

    /// Reserves room for this many more files and this many more bytes.
    pub(crate) fn reserve(&mut self, room: usize) -> Result<(), AllocError>
        ensures places { self.new.places.items ≡ self.old.places.items }
        ensures bytes { self.new.bytes.items ≡ self.old.bytes.items }
        ensures places_room { OnOk result (vec_len self.new.places + room ≤ vec_capacity self.new.places) }
        ensures bytes_room { OnOk result (vec_len self.new.bytes + room ≤ vec_capacity self.new.bytes) }
    {
        self.places.reserve(room)?;
        self.bytes.reserve(room)
    }

    /// Keeps a file in front of all others. Without room, the files stay as they are.
    pub(crate) fn add(&mut self, name: &str, content: &[u8]) -> Result<(), AllocError>
        ensures added { OnOk result ((other : List ℕ) → kept_at self.new.bytes.items self.new.places.items other
            ≡ with_first name.now content.now (kept_at self.old.bytes.items self.old.places.items) other) }
        ensures grown { (more : List ℕ) × (self.new.bytes.items ≡ self.old.bytes.items ++ more) }
        ensures room { OnOk result ((vec_len self.new.places ≡ vec_len self.old.places + 1)
            × (vec_len self.new.bytes ≡ vec_len self.old.bytes + (length name.now + length content.now))) }
        ensures capacity { (vec_capacity self.old.places ≤ vec_capacity self.new.places)
            × (vec_capacity self.old.bytes ≤ vec_capacity self.new.bytes) }
        ensures full { OnErr result ((vec_capacity self.old.places ≤ vec_len self.old.places)
            ⊎ (vec_capacity self.old.bytes < vec_len self.old.bytes + (length name.now + length content.now))) }
    {
        let place = append(&mut self.bytes, name.as_bytes(), content)?;
        match self.places.insert(0, place) {
            Ok(()) => Ok(()),
            Err(_) => Err(AllocError),
        }
    }

    /// Where the content of the newest file of this name lies, if there is one.
    pub(crate) fn find(&self, name: &str) -> Option<(usize, usize)>
        ensures { MatchOption result (kept_at self.now.bytes.items self.now.places.items name.now ≡ None)
            (λ r. (kept_at self.now.bytes.items self.now.places.items name.now
            ≡ Some (between self.now.bytes.items r.0 r.1))
            × (r.0 ≤ r.1) × (r.1 ≤ length self.now.bytes.items)) }
    {
        find_in(self.bytes.as_slice(), self.places.as_slice(), name)
    }

    /// The bytes between two places.
    pub(crate) fn part(&self, from: usize, to: usize) -> &[u8]
        requires order { from ≤ to }
        requires within { to ≤ length self.now.bytes.items }
        ensures { result.now ≡ between self.now.bytes.items from to }
    {
        &self.bytes[from..to]
    }
}

/// Appends a name and a content to the bytes.
#[tactic(auto, using(crate::proofs::Keeping::placed))]
fn append(bytes: &mut Vec<u8>, name: &[u8], content: &[u8]) -> Result<Place, AllocError>
    ensures placed { IfOk result (IsPlaced name.now content.now bytes.new.items) }
    ensures grown { (more : List ℕ) × (bytes.new.items ≡ bytes.old.items ++ more) }
    ensures len { OnOk result (vec_len bytes.new ≡ vec_len bytes.old + (length name.now + length content.now)) }
    ensures capacity { vec_capacity bytes.old ≤ vec_capacity bytes.new }
    ensures full { OnErr result (vec_capacity bytes.old < vec_len bytes.old + (length name.now + length content.now)) }
{
    let start = bytes.len();
    bytes.extend_from_slice(name)?;
    let middle = bytes.len();
    bytes.extend_from_slice(content)?;
    Ok(Place {
        name: start,
        content: middle,
        end: bytes.len(),
    })
}

/// Where the content of the first file of this name lies, if there is one.
fn find_in(bytes: &[u8], places: &[Place], name: &str) -> Option<(usize, usize)>
    requires { AreWithin bytes.now places.now }
    ensures { MatchOption result (kept_at bytes.now places.now name.now ≡ None)
        (λ r. (kept_at bytes.now places.now name.now ≡ Some (between bytes.now r.0 r.1))
        × (r.0 ≤ r.1) × (r.1 ≤ length bytes.now)) }
{
    let mut rest = places;
    'places: while let [place, tail @ ..] = rest {
        if is_named(bytes, *place, name) {
            return Some((place.content, place.end));
        }
        rest = tail;
    }
    None
}

/// Whether a file that lies within the bytes has this name.
fn is_named(bytes: &[u8], place: Place, name: &str) -> bool
    requires { IsWithin bytes.now place }
    ensures { result ≡ is_named bytes.now name.now place }
{
    &bytes[place.name..place.content] == name.as_bytes()
}

/// Keeps files, last one first, so that the first of a name counts.
pub(crate) fn keep_all(kept: &mut Kept, files: &[(String, Vec<u8>)]) -> Result<(), AllocError>
    requires { kept.old.places.items ≡ [] }
    ensures { OnOk result ((name : List ℕ) → kept_at kept.new.bytes.items kept.new.places.items name
        ≡ file_at files.now name) }
{
    let mut rest = files;
    'files: while let [before @ .., file] = rest {
        kept.add(file.0.as_str(), file.1.as_slice())?;
        rest = before;
    }
    Ok(())
}
