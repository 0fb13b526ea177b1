/// Which store a key belongs to.
#[derive(Clone, Copy, Debug, PartialEq, Eq)]
pub enum Hop {
    /// The store that a cluster's exporter writes.
    State,
    /// The local store, into which KVStoreMesh copies a remote cluster's records.
    Cache,
}
