use crate::rows::{AddressRow, BackendRow, IdentityRow, NodeRow, RejectRow};
use mesh_base::Items;

/// A row for an address, with the number of the cluster that has it.
pub(crate) type Claim = (u32, AddressRow);

/// What a walk over the pairs of all sources has found: each row that is shown, and for each
/// address the row of every cluster that has it.
#[derive(Drop)]
pub(crate) struct Merged {
    pub nodes: Items<NodeRow>,
    pub identities: Items<IdentityRow>,
    pub claims: Items<Claim>,
    pub backends: Items<BackendRow>,
    pub rejects: Items<RejectRow>,
}
