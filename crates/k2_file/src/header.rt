//! The header of a relation file: its name, sizes, height and counts of bits.
ghost use Rattle.std.specs.Prelude.{◌≡◌, ◌<◌, ◌≤◌, ◌+◌, ◌*◌, ◌^◌, IfOk, length, take, codes};
ghost use Rattle.lang_model.specs.Tokens.{same_text};
ghost use Rattle.std.specs.Result.{result_err};
ghost use Rattle.run_model.specs.Files.{bytes_for, part};
ghost use Rattle.k2_file.specs.Told.{AreFields, IsHeader, groups_of, header_fault};

use crate::bits::Bits;
use crate::limits::HEADER;
use crate::sides::height_of_file;
use byteorder::{BigEndian, ByteOrder};
use rel_model::SIZE_LIMIT;
use run_model::outcome::BadFile;

/// The contents of a file's header. 32 bytes.
#[derive(Drop)]
pub(crate) struct Header {
    pub(crate) rows: u32,
    pub(crate) cols: u32,
    pub(crate) height: u8,
    pub(crate) tree_count: u64,
    pub(crate) cell_count: u64,
}

/// How many bytes hold this many bits.
fn bytes_of_bits(bits: u64) -> u64
    ensures value { result ≡ bytes_for bits }
    ensures limit { result ≤ 2 ^ 61 }
{
    if bits % 8 == 0 {
        bits / 8
    } else {
        bits / 8 + 1
    }
}

impl Header {
    /// The numbers in the bytes of a header.
    fn decode(bytes: &[u8]) -> Header
        requires { 29 ≤ length bytes.now }
        ensures { AreFields bytes.now result }
    {
        Header {
            rows: BigEndian::read_u32(&bytes[4..8]),
            cols: BigEndian::read_u32(&bytes[8..12]),
            height: bytes[12],
            tree_count: BigEndian::read_u64(&bytes[13..21]),
            cell_count: BigEndian::read_u64(&bytes[21..29]),
        }
    }

    /// How many bytes a file with this header should have.
    pub(crate) fn end(&self) -> u64
        ensures { result ≡ 29 + bytes_for self.now.tree_count + bytes_for self.now.cell_count }
    {
        29 + bytes_of_bits(self.tree_count) + bytes_of_bits(self.cell_count)
    }

    /// How many groups the first level has: none for the empty relation, and otherwise one.
    pub(crate) fn groups(&self) -> u64
        ensures value { result ≡ groups_of self.now.tree_count self.now.cell_count }
        ensures limit { result ≤ 1 }
    {
        if self.tree_count == 0 && self.cell_count == 0 {
            0
        } else {
            1
        }
    }

    /// The bits T of a file.
    pub(crate) fn tree<'a>(&self, bytes: &'a [u8]) -> Bits<'a>
        requires { 29 + bytes_for self.now.tree_count + bytes_for self.now.cell_count ≤ length bytes.now }
        ensures count { result.count ≡ self.now.tree_count }
        ensures bytes { result.bytes.now ≡ part bytes.now 29 (bytes_for self.now.tree_count) }
    {
        part_of(bytes, HEADER as u64, self.tree_count)
    }

    /// The bits L of a file.
    pub(crate) fn cells<'a>(&self, bytes: &'a [u8]) -> Bits<'a>
        requires { 29 + bytes_for self.now.tree_count + bytes_for self.now.cell_count ≤ length bytes.now }
        ensures count { result.count ≡ self.now.cell_count }
        ensures bytes { result.bytes.now ≡ part bytes.now (29 + bytes_for self.now.tree_count)
            (bytes_for self.now.cell_count) }
    {
        part_of(bytes, 29 + bytes_of_bits(self.tree_count), self.cell_count)
    }
}

/// This many bits, from a byte on.
fn part_of(bytes: &[u8], at: u64, count: u64) -> Bits<'_>
    requires { at + bytes_for count ≤ length bytes.now }
    ensures count { result.count ≡ count }
    ensures bytes { result.bytes.now ≡ part bytes.now at (bytes_for count) }
{
    let (_, behind) = bytes.split_at(at as usize);
    let (bytes, _) = behind.split_at(bytes_of_bits(count) as usize);
    Bits { bytes, count }
}

/// Whether the bytes begin with the name of the format.
fn has_name(bytes: &[u8]) -> bool
    requires { 4 ≤ length bytes.now }
    ensures { result ≡ same_text (take 4 bytes.now) (codes "RVK1") }
{
    &bytes[..4] == b"RVK1".as_slice()
}

/// The header of a file, or the first test of the header that the bytes fail.
pub(crate) fn read_header(bytes: &[u8]) -> Result<Header, BadFile>
    ensures header { IfOk result (IsHeader bytes.now) }
    ensures fault { result_err result ≡ header_fault bytes.now }
{
    if bytes.len() < HEADER {
        return Err(BadFile::Short);
    }
    if !has_name(bytes) {
        return Err(BadFile::Magic);
    }
    let header = Header::decode(bytes);
    if SIZE_LIMIT < header.rows {
        return Err(BadFile::Sizes);
    }
    if SIZE_LIMIT < header.cols {
        return Err(BadFile::Sizes);
    }
    if header.height != height_of_file(header.rows, header.cols) {
        return Err(BadFile::Height);
    }
    if (bytes.len() as u64) < header.end() {
        return Err(BadFile::Short);
    }
    Ok(header)
}
