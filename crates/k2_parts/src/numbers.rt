//! Numbers in bytes, highest byte first.
ghost use Rattle.std.specs.Prelude.{◌≡◌, ◌≤◌, ◌+◌, length};
ghost use Rattle.run_model.specs.SharedFiles.{number_at};

use byteorder::{BigEndian, ByteOrder};

/// The number of four bytes at a place.
pub(crate) fn number_at(bytes: &[u8], at: usize) -> u32
    requires { at + 4 ≤ length bytes.now }
    ensures { result ≡ number_at bytes.now at }
{
    BigEndian::read_u32(&bytes[at..at + 4])
}
