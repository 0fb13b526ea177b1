use crate::reading::Reading;
use mesh_base::{Bytes, Items};

/// A pair with what it says.
#[derive(Debug, Drop)]
pub struct ReadPair {
    pub key: Bytes,
    pub value: Bytes,
    pub reading: Reading,
}

/// What a revision did to one key, with what the new pair says.
#[derive(Debug, Drop)]
pub enum ReadChange {
    Put(ReadPair),
    Delete { key: Bytes },
}

/// A listing whose pairs are read.
#[derive(Debug, Drop)]
pub struct ReadListing {
    /// The store's revision that was listed.
    pub at: u64,
    pub pairs: Items<ReadPair>,
}

/// A revision whose pairs are read.
#[derive(Debug, Drop)]
pub struct ReadRevision {
    pub number: u64,
    pub changes: Items<ReadChange>,
}

/// A batch whose pairs are read.
#[derive(Debug, Drop)]
pub struct ReadBatch {
    /// The last revision that the batch covers.
    pub upto: u64,
    pub revisions: Items<ReadRevision>,
}

/// What a reader of a store is handed, with each pair read once.
#[derive(Debug, Drop)]
pub enum ReadDelivery {
    Listing(ReadListing),
    Batch(ReadBatch),
    /// The connection was lost.
    Lost,
}
