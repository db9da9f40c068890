//! Names of relations, and texts of files' names.
ghost use Rattle.std.specs.Prelude.{◌≡◌, ◌≤◌, length, IfOk, Some, refl, nat_eq};
ghost use Rattle.std.specs.Cmp;
ghost use Rattle.std.specs.Cmp.Lexicographic.{pointwise, slice_cmp, nat_list_cmp_total, nat_list_eq_equiv, texts_ties, texts_po};
ghost use Rattle.std.specs.Ordering.{nat_cmp};
ghost use Rattle.lang_model.specs.Limits.{name_limit, file_text_limit};

use rel_model::NoMemory;
use std::alloc::Global;
use std::cmp::Ordering;
use std::marker::Model;

/// A name of 1 to 64 bytes, on the heap.
#[derive(Drop)]
pub struct Name {
    bytes: Vec<u8>,
}

impl Model for Name {
    ghost use Rattle.std.specs.Prelude.{List, ℕ, length, ◌≤◌};
    ghost use Rattle.lang_model.specs.Limits.{name_limit};

    ghost Value = { List ℕ };

    ghost view = { λ n. n.bytes.items };

    ghost invariant = { λ n. (1 ≤ length n.bytes.items) × (length n.bytes.items ≤ name_limit) };
}

impl Name {
    /// The name with these bytes. Refused only if memory runs out.
    pub fn new(alloc: Global, bytes: &[u8]) -> Result<Name, NoMemory>
        requires { (1 ≤ length bytes.now) × (length bytes.now ≤ name_limit) }
        ensures { IfOk result (λ n. n ≡ bytes.now) }
    {
        let bytes = Vec::from_slice(alloc, bytes)?;
        Ok(Name { bytes })
    }

    /// A copy of a name. Refused only if memory runs out.
    pub fn copied(&self, alloc: Global) -> Result<Name, NoMemory>
        ensures { IfOk result (λ n. n ≡ self.now) }
    {
        Name::new(alloc, self.bytes.as_slice())
    }

    /// The bytes of a name.
    pub fn bytes(&self) -> &[u8]
        ensures { result.now ≡ self.now }
    {
        self.bytes.as_slice()
    }
}

impl PartialEq for Name {
    ghost eq = { pointwise nat_eq };

    ghost laws = { Cmp.partial_equiv_from_equiv nat_list_eq_equiv };

    fn eq(&self, other: &Name) -> bool {
        self.bytes() == other.bytes()
    }
}

impl Eq for Name {
    ghost laws = { nat_list_eq_equiv };
}

impl PartialOrd for Name {
    ghost partial_cmp = { λ a b. Some (slice_cmp nat_cmp a b) };

    ghost laws = { texts_po };

    fn partial_cmp(&self, other: &Name) -> Option<Ordering> {
        Some(self.cmp(other))
    }
}

/// Names are ordered by the first byte that differs; a prefix comes before the longer name.
impl Ord for Name {
    ghost cmp = { slice_cmp nat_cmp };

    ghost total = { nat_list_cmp_total };

    ghost matches_partial_cmp = { λ a b. refl };

    ghost matches_eq = { texts_ties };

    fn cmp(&self, other: &Name) -> Ordering {
        self.bytes().cmp(other.bytes())
    }
}

/// The text of a file's name, of 1 to 255 bytes, on the heap.
#[derive(Drop)]
pub struct FileText {
    bytes: Vec<u8>,
}

impl Model for FileText {
    ghost use Rattle.std.specs.Prelude.{List, ℕ, length, ◌≤◌};
    ghost use Rattle.lang_model.specs.Limits.{file_text_limit};

    ghost Value = { List ℕ };

    ghost view = { λ n. n.bytes.items };

    ghost invariant = { λ n. (1 ≤ length n.bytes.items) × (length n.bytes.items ≤ file_text_limit) };
}

impl FileText {
    /// The text with these bytes. Refused only if memory runs out.
    pub fn new(alloc: Global, bytes: &[u8]) -> Result<FileText, NoMemory>
        requires { (1 ≤ length bytes.now) × (length bytes.now ≤ file_text_limit) }
        ensures { IfOk result (λ n. n ≡ bytes.now) }
    {
        let bytes = Vec::from_slice(alloc, bytes)?;
        Ok(FileText { bytes })
    }

    /// A copy of a text. Refused only if memory runs out.
    pub fn copied(&self, alloc: Global) -> Result<FileText, NoMemory>
        ensures { IfOk result (λ n. n ≡ self.now) }
    {
        FileText::new(alloc, self.bytes.as_slice())
    }

    /// The bytes of a text.
    pub fn bytes(&self) -> &[u8]
        ensures { result.now ≡ self.now }
    {
        self.bytes.as_slice()
    }
}
