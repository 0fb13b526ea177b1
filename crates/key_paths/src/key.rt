use crate::hop::Hop;
use mesh_text::{ClusterName, Ip, Kind, PartName};

/// What a key of the mesh stands for (after Cilium's kvstore key formats).
#[derive(Clone, Debug, Drop, PartialEq, Eq)]
pub enum Key {
    /// The config of a cluster.
    Config {
        cluster: ClusterName,
    },
    /// The mark that all records of a kind are written.
    Synced {
        cluster: ClusterName,
        hop: Hop,
        kind: Kind,
    },
    /// The record of a node.
    Node {
        hop: Hop,
        cluster: ClusterName,
        node: PartName,
    },
    /// The record of a service.
    Service {
        hop: Hop,
        cluster: ClusterName,
        namespace: PartName,
        name: PartName,
    },
    /// The labels of an identity, in the exporter's store or, for a cluster, in its cache.
    Identity {
        cached: Option<ClusterName>,
        number: u32,
    },
    /// The record of an address, in the exporter's store or, for a cluster, in its cache.
    Address {
        cached: Option<ClusterName>,
        ip: Ip,
    },
    /// The remote revision of which a cluster's cache is the image.
    Cut {
        cluster: ClusterName,
    },
}
