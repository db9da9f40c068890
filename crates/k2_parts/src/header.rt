//! The header of a file: its name, and how many quadrants and relations it lists.
ghost use Rattle.std.specs.Prelude.{◌≡◌, ◌*◌, ◌+◌, IfOk};
ghost use Rattle.std.specs.Result.{result_err};
ghost use Rattle.run_model.specs.SharedFiles.{begins_shared};
ghost use Rattle.k2_parts.specs.Tests.{IsHeader, header_fault};

use crate::numbers::number_at;
use run_model::outcome::BadFile;

/// The length of the header, in bytes.
pub(crate) const HEADER: usize = 12;

/// How many quadrants and relations a file lists. 8 bytes.
#[derive(Clone, Copy)]
pub(crate) struct Header {
    pub(crate) quads: u32,
    pub(crate) roots: u32,
}

impl Header {
    /// How many bytes come before the relations.
    pub(crate) fn end(&self) -> u64
        ensures { result ≡ 12 + 16 * self.now.quads }
    {
        12 + 16 * u64::from(self.quads)
    }
}

/// Whether bytes begin like those of a file of version 2.
pub fn begins_shared(bytes: &[u8]) -> bool
    ensures { result ≡ begins_shared bytes.now }
{
    bytes.starts_with(b"RVK2".as_slice())
}

/// The header of a file, or the first test of the header that the bytes fail.
pub(crate) fn read_header(bytes: &[u8]) -> Result<Header, BadFile>
    ensures header { IfOk result (IsHeader bytes.now) }
    ensures fault { result_err result ≡ header_fault bytes.now }
{
    if !begins_shared(bytes) {
        return Err(BadFile::Magic);
    }
    if bytes.len() < HEADER {
        return Err(BadFile::Short);
    }
    let header = Header {
        quads: number_at(bytes, 4),
        roots: number_at(bytes, 8),
    };
    if (bytes.len() as u64) < header.end() {
        return Err(BadFile::Short);
    }
    Ok(header)
}
