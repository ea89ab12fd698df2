//! A batch, and what was fetched for it.

ghost use Rattle.std.specs.Prelude.{◌≡◌};
ghost use Rattle.std.specs.Option.{option_map};
ghost use Rattle.dispatcher.specs.Protocol.{by_image, bases_at, bases_for, fetched_for, wants_piece};
ghost use Rattle.dispatcher.specs.Inner.Held.{fetched_of, batch_held};

use crate::counting::copy_of;
use queries::Plan;
use wire::Counts;

/// The version that was fetched for a batch and the primary's base, each worker's frame count at
/// both, and how many pieces the image at the base has.
#[derive(Drop)]
pub struct Fetched {
    pub version: u64,
    pub base: u64,
    pub pieces: u64,
    pub lows: Counts,
    pub counts: Counts,
}

impl Fetched {
    /// Whether a batch of a replica at this version goes by the image at the base.
    pub fn is_by_image(&self, version: u64) -> bool
        ensures { result ≡ by_image version (fetched_of self.now) }
    {
        version < self.base
    }

    /// The bases, by worker, from which on such a batch needs frames; none if it does not go by image.
    pub fn bases_at(&self, version: u64) -> &[u64]
        ensures { result.now ≡ bases_at version (fetched_of self.now) }
    {
        if self.is_by_image(version) {
            self.lows.as_slice()
        } else {
            &[]
        }
    }

    /// A copy of it. Takes no memory.
    pub fn copied(&self) -> Fetched
        ensures { fetched_of result ≡ fetched_of self.now }
    {
        Fetched {
            version: self.version,
            base: self.base,
            pieces: self.pieces,
            lows: copy_of(&self.lows),
            counts: copy_of(&self.counts),
        }
    }
}

/// The queries that are answered together, and what was fetched for them.
#[derive(Drop)]
pub struct Batch {
    pub plans: Vec<Plan>,
    pub fetched: Option<Fetched>,
}

/// The bases from which on a batch of a replica at this version needs frames.
pub fn bases_for(version: u64, batch: &Option<Batch>) -> &[u64]
    ensures { result.now ≡ bases_for version (fetched_for (option_map batch_held batch.now)) }
{
    let Some(batch) = batch else {
        return &[];
    };
    match &batch.fetched {
        None => &[],
        Some(fetched) => fetched.bases_at(version),
    }
}

/// Whether it goes by the image at this base, and that has a piece of this number.
pub fn wants_piece(version: u64, batch: &Option<Batch>, base: u64, number: u64) -> bool
    ensures { result ≡ wants_piece version (fetched_for (option_map batch_held batch.now)) base number }
{
    let Some(batch) = batch else {
        return false;
    };
    match &batch.fetched {
        None => false,
        Some(fetched) => {
            fetched.is_by_image(version) && base == fetched.base && number < fetched.pieces
        }
    }
}
