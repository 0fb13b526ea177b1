ghost use Rattle.std.specs.Prelude.{◌≡◌};
ghost use Rattle.store_api.specs.declared.change.StoreFault.TheVariants.{Memory};

use mesh_base::{Bytes, Items};
use std::alloc::{AllocError, AllocFailed};

/// A key with its value.
#[derive(Debug, Drop)]
pub struct Pair {
    pub key: Bytes,
    pub value: Bytes,
}

/// What a revision did to one key.
#[derive(Debug, Drop)]
pub enum Change {
    /// The key has this value from here on, and is attached to the lease, where there is one.
    Put {
        key: Bytes,
        value: Bytes,
        lease: Option<u64>,
    },
    /// The key is no longer live.
    Delete {
        key: Bytes,
    },
}

/// What one transaction changed, all of it under one number.
#[derive(Debug, Drop)]
pub struct Revision {
    /// The store's revision after the transaction; the first is 2.
    pub number: u64,
    /// Who made it: the number of a pass, or 0 in a store that no threads share.
    pub writer: u32,
    pub changes: Items<Change>,
}

/// The live pairs of some ranges, in byte order of their keys.
#[derive(Debug, Drop)]
pub struct Listing {
    /// The store's revision that was listed.
    pub at: u64,
    pub pairs: Items<Pair>,
}

/// What a watch delivers: the revisions up to `upto` that change its ranges.
#[derive(Debug, Drop)]
pub struct Batch {
    /// The last revision that the batch covers, whether it changed the ranges or not.
    pub upto: u64,
    pub revisions: Items<Revision>,
}

/// What a reader of a store is handed.
#[derive(Debug, Drop)]
pub enum Delivery {
    Listing(Listing),
    Batch(Batch),
    /// The connection was lost.
    Lost,
}

/// Some keys.
#[derive(Debug, Drop)]
pub enum Range {
    /// This key alone.
    One(Bytes),
    /// Each key that begins with these bytes.
    Prefix(Bytes),
}

/// The keys of any of the ranges.
#[derive(Debug, Drop)]
pub struct Ranges {
    pub items: Items<Range>,
}

/// One operation of a transaction.
#[derive(Debug, Drop)]
pub enum Op {
    /// Puts the value, attached to the lease where there is one, and to none otherwise.
    Put {
        key: Bytes,
        value: Bytes,
        lease: Option<u64>,
    },
    /// Deletes the key; one that is not live stays so, and nothing changes.
    Delete {
        key: Bytes,
    },
}

/// Why a store did not answer a call, in the order in which the faults are met.
#[derive(Clone, Copy, Debug, PartialEq, Eq)]
pub enum StoreFault {
    /// The connection failed: the call had its whole effect, or none.
    Lost,
    /// The wanted history is compacted; it is there above this revision.
    Compacted { compacted: u64 },
    /// A put names this lease, which is not live.
    NoLease { lease: u64 },
    /// Memory was wanted, and there was none.
    Memory,
}

impl From<AllocError> for StoreFault {
    ghost from_gives = { λ _ e. e ≡ Memory };

    fn from(_: AllocError) -> Self {
        StoreFault::Memory
    }
}

impl<T: Drop> From<AllocFailed<T>> for StoreFault {
    ghost from_gives = { λ _ e. e ≡ Memory };

    fn from(_: AllocFailed<T>) -> Self {
        StoreFault::Memory
    }
}

impl From<mesh_base::Memory> for StoreFault {
    ghost from_gives = { λ _ e. e ≡ Memory };

    fn from(_: mesh_base::Memory) -> Self {
        StoreFault::Memory
    }
}
