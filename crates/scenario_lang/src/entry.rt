use crate::scenario::{Action, Cluster, Remote};

/// What a line says.
#[derive(Debug, Drop)]
pub(crate) enum Entry {
    /// The version of the language.
    Mesh,
    Local(Cluster),
    /// The seconds of a lease.
    Lease(u64),
    Remote(Remote),
    Act(Action),
}
