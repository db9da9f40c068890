//! Bits in bytes, the highest of each byte first.
ghost use Rattle.std.specs.Prelude.{◌≤◌, ◌*◌, length};

/// The first `count` bits of some bytes. 24 bytes.
#[derive(Drop)]
pub(crate) struct Bits<'a> {
    pub(crate) bytes: &'a [u8],
    pub(crate) count: u64,
    ghost fits: { count ≤ 8 * length bytes.now },
}

/// Four consecutive bits: whether each quarter of a submatrix has a pair. 4 bytes.
#[derive(Clone, Copy)]
pub(crate) struct Group {
    pub(crate) nw: bool,
    pub(crate) ne: bool,
    pub(crate) sw: bool,
    pub(crate) se: bool,
}

impl Group {
    ghost use Rattle.std.specs.Prelude.{◌≡◌, ◌+◌, ◌≤◌};
    ghost use Rattle.run_model.specs.Files.{number_of_bit};

    /// How many of the four bits are set.
    fn ones(self) -> u64
        ensures value { result ≡ number_of_bit self.nw + (number_of_bit self.ne + (number_of_bit self.sw
            + number_of_bit self.se)) }
        ensures limit { result ≤ 4 }
    {
        u64::from(self.nw) + (u64::from(self.ne) + (u64::from(self.sw) + u64::from(self.se)))
    }
}

impl Bits<'_> {
    ghost use Rattle.std.specs.Prelude.{◌≡◌, ◌<◌, ◌+◌, ◌^◌, ◌∷◌, take, drop, false};
    ghost use Rattle.std.specs.List.{slice_index_or};
    ghost use Rattle.run_model.specs.Files.{ones, unpacked};
    ghost use Rattle.k2_file.specs.Told.{bits_in};

    /// Whether a bit is set.
    pub(crate) fn is_set(&self, place: u64) -> bool
        requires { place < self.now.count }
        ensures { result ≡ slice_index_or (bits_in self.now) place false }
    {
        let byte = self.bytes[(place / 8) as usize];
        (byte >> ((7 - place % 8) as u32)) & 1 == 1
    }

    /// The group of four with this number.
    pub(crate) fn group(&self, number: u64) -> Group
        requires { 4 * number + 4 ≤ self.now.count }
        ensures bits { drop (4 * number) (bits_in self.now) ≡ result.nw ∷ result.ne ∷ result.sw ∷ result.se
            ∷ drop (4 * (number + 1)) (bits_in self.now) }
        ensures limit { 4 * number + 4 < 2 ^ 64 }
    {
        let _count = self.count;
        let byte = self.bytes[(number / 2) as usize];
        let low = 4 * (1 - (number % 2) as u32);
        Group {
            nw: (byte >> (low + 3)) & 1 == 1,
            ne: (byte >> (low + 2)) & 1 == 1,
            sw: (byte >> (low + 1)) & 1 == 1,
            se: (byte >> low) & 1 == 1,
        }
    }

    /// How many bits are set in `groups` groups from a number on.
    pub(crate) fn ones_in_groups(&self, from: u64, groups: u64) -> u64
        requires { 4 * from + 4 * groups ≤ self.now.count }
        ensures value { result ≡ ones (take (4 * groups) (drop (4 * from) (bits_in self.now))) }
        ensures limit { result ≤ 4 * groups }
    {
        let mut found = 0;
        'groups: for i in 0..groups {
            found += self.group(from + i).ones();
        }
        found
    }

    /// How many of `count` bits from a place on are set.
    pub(crate) fn ones(&self, from: u64, count: u64) -> u64
        requires { from + count ≤ self.now.count }
        ensures value { result ≡ ones (take count (drop from (bits_in self.now))) }
        ensures limit { result ≤ count }
    {
        let mut found = 0;
        'bits: for i in 0..count {
            if self.is_set(from + i) {
                found += 1;
            }
        }
        found
    }

    /// How many bits after the end are set.
    pub(crate) fn padding(&self) -> u64
        requires { 8 * length self.now.bytes.now < 2 ^ 64 }
        ensures { result ≡ ones (drop self.now.count (unpacked self.now.bytes.now)) }
    {
        let whole = Bits {
            bytes: self.bytes,
            count: 8 * self.bytes.len() as u64,
        };
        whole.ones(self.count, whole.count - self.count)
    }
}
