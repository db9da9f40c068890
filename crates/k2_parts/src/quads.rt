//! The listed quadrants of a file with their heights, or the first invalid one.
ghost use Rattle.std.specs.Prelude.{◌≡◌, ◌≤◌, ◌*◌, [], IfOk, IfErr, length};
ghost use Rattle.run_model.specs.SharedFiles.{quadrants_in};
ghost use Rattle.k2_file.specs.Told.{IsFaultOf};
ghost use Rattle.k2_parts.specs.Tests.{quads_fault, AreListed, IsAdded, IsListing, TellsFour};

use crate::form::Quadrant;
use crate::heights::sound_height;
use crate::numbers::number_at;
use indexmap::IndexSet;
use rel_model::NoMemory;
use run_model::outcome::BadFile;
use std::alloc::Global;

/// How many bytes a quadrant has in a file.
pub(crate) const QUADRANT: usize = 16;

/// Listed quadrants with their heights. 48 bytes, and 17 for each quadrant.
#[derive(Drop)]
pub(crate) struct Listed {
    pub(crate) quads: Vec<Quadrant>,
    pub(crate) heights: Vec<u8>,
}

/// The quadrants read so far, with their heights, and as a set. On the heap.
#[derive(Drop)]
pub(crate) struct Listing {
    pub(crate) quads: Vec<Quadrant>,
    pub(crate) heights: Vec<u8>,
    pub(crate) known: IndexSet<Quadrant>,
}

impl Listing {
    /// No quadrants.
    fn new(alloc: Global) -> Listing
        ensures quads { result.quads.items ≡ [] }
        ensures heights { result.heights.items ≡ [] }
        ensures known { IsListing result }
    {
        Listing {
            quads: Vec::new(alloc),
            heights: Vec::new(alloc),
            known: IndexSet::new(alloc),
        }
    }

    /// Adds the next quadrant if it is valid, and says whether it was added.
    fn add(&mut self, quad: Quadrant) -> Result<bool, NoMemory>
        requires { IsListing self.old }
        ensures { IfOk result (IsAdded self.old self.new quad) }
    {
        let Some(height) = sound_height(self.heights.as_slice(), &quad) else {
            return Ok(false);
        };
        let is_new = self.known.insert(quad)?;
        if !is_new {
            return Ok(false);
        }
        self.quads.push(quad)?;
        self.heights.push(height)?;
        Ok(true)
    }
}

/// The quadrant at the start of these bytes.
fn quadrant_in(bytes: &[u8]) -> Quadrant
    requires { 16 ≤ length bytes.now }
    ensures { TellsFour bytes.now result }
{
    Quadrant {
        nw: number_at(bytes, 0),
        ne: number_at(bytes, 4),
        sw: number_at(bytes, 8),
        se: number_at(bytes, 12),
    }
}

/// The first `count` quadrants of these bytes with their heights, or the first invalid one.
pub(crate) fn read_quads(alloc: Global, count: u32, bytes: &[u8]) -> Result<Listed, BadFile>
    requires { 16 * count ≤ length bytes.now }
    ensures listed { IfOk result (AreListed (quadrants_in count bytes.now)) }
    ensures fault { IfErr result (IsFaultOf (quads_fault (quadrants_in count bytes.now))) }
{
    let mut listing = Listing::new(alloc);
    'quads: for done in 0..count {
        let at = QUADRANT * done as usize;
        match listing.add(quadrant_in(&bytes[at..])) {
            Ok(true) => {}
            Ok(false) => {
                return Err(BadFile::Quad {
                    at: u64::from(done) + 2,
                });
            }
            Err(_) => return Err(BadFile::NoMemory),
        }
    }
    Ok(Listed {
        quads: listing.quads,
        heights: listing.heights,
    })
}
