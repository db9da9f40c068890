/// Which pairs of two lists are wanted. 3 bytes.
#[derive(Clone, Copy, Debug)]
pub(crate) struct Part {
    /// Those of the first list only.
    pub(crate) left: bool,
    /// Those of both.
    pub(crate) both: bool,
    /// Those of the second list only.
    pub(crate) right: bool,
}

/// The pairs of either list.
pub(crate) const EITHER: Part = Part {
    left: true,
    both: true,
    right: true,
};

/// The pairs of both lists.
pub(crate) const COMMON: Part = Part {
    left: false,
    both: true,
    right: false,
};

/// The pairs of the first list that are not in the second.
pub(crate) const FIRST_ALONE: Part = Part {
    left: true,
    both: false,
    right: false,
};
