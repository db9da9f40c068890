//! The relation files named on the command line.
ghost use Rattle.std.specs.Prelude.{◌≡◌, map};
ghost use Rattle.std.specs.Option.{option_map};
ghost use Rattle.run_model.specs.Inputs.{file_named};
ghost use Rattle.run_model.specs.Filed.{file_of};

use run_model::files::Loaded;

/// The bytes of the first file of this name, if there is one.
pub(crate) fn file_named<'a>(files: &'a [Loaded], name: &[u8]) -> Option<&'a [u8]>
    ensures { option_map (λ b. b.now) result ≡ file_named (map file_of files.now) name.now }
{
    'files: for file in files {
        if file.name.as_bytes() == name {
            return Some(file.bytes.as_slice());
        }
    }
    None
}
