use key_paths::Hop;
use mesh_base::{Bytes, Items};
use mesh_text::{ClusterName, Ip, PartName, Text};
use record_check::Fault;
use record_values::{Backend, Label};

/// A source, and how far its records were seen.
#[derive(Debug, Drop)]
pub struct SourceRow {
    pub cluster: ClusterName,
    /// `State` for a source that is watched in its own store, `Cache` for one in the local store.
    pub hop: Hop,
    /// Its records are those that were last sighted, and not those of its store at `revision`.
    pub held: bool,
    /// A revision of the source's own store.
    pub revision: u64,
}

/// A node of a cluster.
#[derive(Debug, Drop)]
pub struct NodeRow {
    pub cluster: ClusterName,
    pub name: PartName,
    /// Its addresses in the order of the record, each with its type, as `InternalIP`.
    pub addresses: Items<(Text, Ip)>,
}

/// The labels of an identity of a cluster.
#[derive(Debug, Drop)]
pub struct IdentityRow {
    pub cluster: ClusterName,
    pub number: u32,
    /// In the order of the record.
    pub labels: Items<Label>,
}

/// An address of the mesh, and the cluster that it belongs to.
#[derive(Debug, Drop)]
pub struct AddressRow {
    pub ip: Ip,
    pub cluster: ClusterName,
    /// The number of its identity.
    pub identity: u32,
    /// The address of the host that it is on.
    pub host: Option<Ip>,
    /// The namespace of its pod.
    pub namespace: Option<Text>,
    /// The name of its pod.
    pub pod: Option<Text>,
}

/// A backend that a cluster offers for a service.
#[derive(Debug, Drop)]
pub struct BackendRow {
    pub namespace: PartName,
    pub name: PartName,
    pub cluster: ClusterName,
    pub backend: Backend,
}

/// Why something of a source is no part of the merge.
#[derive(Debug, Drop)]
pub enum Why {
    /// The pair or the config has this fault.
    Fault(Fault),
    /// The source's number is that of the local cluster.
    IdLocal,
    /// A source whose name is before this one in byte order has the same number.
    IdTaken,
}

/// A pair or a config that is no part of the merge.
#[derive(Debug, Drop)]
pub struct RejectRow {
    pub cluster: ClusterName,
    /// The bytes of the key, as the key stands in the exporter's store.
    pub key: Bytes,
    pub why: Why,
}

/// The rows of all sources, by kind. The order of rows within a kind says nothing.
#[derive(Debug, Drop)]
pub struct Report {
    pub sources: Items<SourceRow>,
    pub nodes: Items<NodeRow>,
    pub identities: Items<IdentityRow>,
    pub addresses: Items<AddressRow>,
    pub backends: Items<BackendRow>,
    /// The backends that the local cluster's services use.
    pub chosen: Items<BackendRow>,
    pub rejects: Items<RejectRow>,
}
