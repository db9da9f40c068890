//! The laws of relation files, the contract of a function with an empty body.
ghost use Rattle.run_model.specs.Files.{FilesLaws};

/// Bytes without a fault are those of their relation; the bytes of a relation have no fault, and are read back as it.
pub fn files_laws()
    ensures { FilesLaws }
{}
