ghost use Rattle.std.specs.Prelude.{◌≡◌, ◌<◌, Some, None, IfSome, length, if◌then◌else◌};
ghost use Rattle.record_values.specs.Backends.{AreInOrder, is_protocol};
ghost use Rattle.record_values.specs.Labels.{IsLabel};

use crate::protocol::is_protocol;
use mesh_base::{Bytes, Items};
use mesh_text::{Ip, Text};
use std::marker::Model;

/// What a cluster says of itself.
#[derive(Clone, Copy, Debug, PartialEq, Eq)]
pub struct ClusterConfig {
    /// The cluster's number.
    pub id: u32,
    /// The cluster puts a mark for each kind of record once all of that kind are written.
    pub synced_canaries: bool,
    /// The records are copies that KVStoreMesh keeps.
    pub cached: bool,
    /// How many clusters the mesh may have, never 0.
    pub max_connected: u32,
}

impl Model for ClusterConfig {
    ghost use Rattle.std.specs.Prelude.{◌<◌};
    ghost use Rattle.record_values.specs.Values.{Config};

    ghost Value = { Config };

    ghost view = { λ c. record { id = c.id; synced_canaries = c.synced_canaries; cached = c.cached; max_connected = c.max_connected } };

    ghost invariant = { λ c. 0 < c.max_connected };

    ghost inverse = { λ c. record { id = c.id; synced_canaries = c.synced_canaries; cached = c.cached; max_connected = c.max_connected } };
}

impl ClusterConfig {
    /// The config of these parts.
    pub fn new(id: u32, synced_canaries: bool, cached: bool, max_connected: u32) -> ClusterConfig
        requires { 0 < max_connected }
        ensures { result ≡ record { id = id; synced_canaries = synced_canaries; cached = cached; max_connected = max_connected } }
    {
        ClusterConfig {
            id,
            synced_canaries,
            cached,
            max_connected,
        }
    }
}

/// A node of a cluster.
#[derive(Clone, Debug, Drop)]
pub struct Node {
    pub name: Text,
    pub cluster: Text,
    /// The number of its cluster.
    pub cluster_id: u32,
    /// Its addresses in the order of the value, each with its type, as `InternalIP`.
    pub addresses: Items<(Text, Ip)>,
}

/// An address of the mesh.
#[derive(Clone, Debug, Drop)]
pub struct AddressRecord {
    pub ip: Ip,
    /// The address of the host that it is on.
    pub host: Option<Ip>,
    /// The number of its identity.
    pub id: u32,
    /// The namespace of its pod, never the empty text.
    pub namespace: Option<Text>,
    /// The name of its pod, never the empty text.
    pub pod: Option<Text>,
}

impl Model for AddressRecord {
    ghost use Rattle.std.specs.Prelude.{◌<◌, length, IfSome};
    ghost use Rattle.record_values.specs.Values.{Address};

    ghost Value = { Address };

    ghost view = { λ a. record { ip = a.ip; host = a.host; id = a.id; namespace = a.namespace; pod = a.pod } };

    ghost invariant = { λ a. IfSome a.namespace (λ t. 0 < length t) × IfSome a.pod (λ t. 0 < length t) };
}

impl AddressRecord {
    /// The address of these parts; a namespace or a pod that is there has a name.
    pub fn new(
        ip: Ip,
        host: Option<Ip>,
        id: u32,
        namespace: Option<Text>,
        pod: Option<Text>,
    ) -> AddressRecord
        requires namespace { IfSome namespace (λ name. 0 < length name) }
        requires pod { IfSome pod (λ name. 0 < length name) }
        ensures { result ≡ record { ip = ip; host = host; id = id; namespace = namespace; pod = pod } }
    {
        AddressRecord {
            ip,
            host,
            id,
            namespace,
            pod,
        }
    }
}

/// A label of an identity, as `k8s:app=web;`.
#[derive(Clone, Debug, Drop)]
pub struct Label {
    /// One or more bytes without `:`, `=` and `;`.
    pub source: Bytes,
    /// One or more bytes without `=` and `;`.
    pub key: Bytes,
    /// Bytes without `;`.
    pub value: Bytes,
}

impl Model for Label {
    ghost use Rattle.record_values.specs.Values.{LabelText};

    ghost Value = { LabelText };

    ghost use Rattle.record_values.specs.Labels.{IsLabel};

    ghost view = { λ l. record { source = l.source; key = l.key; value = l.value } };

    ghost invariant = { λ l. IsLabel (record { source = l.source; key = l.key; value = l.value }) };
}

impl Label {
    /// The label of these parts.
    pub fn new(source: Bytes, key: Bytes, value: Bytes) -> Label
        requires { IsLabel (record { source = source; key = key; value = value }) }
        ensures { result ≡ record { source = source; key = key; value = value } }
    {
        Label { source, key, value }
    }
}

/// The labels of an identity, in the order of the value.
#[derive(Clone, Debug, Drop)]
pub struct IdentityRecord {
    pub labels: Items<Label>,
}

/// A port of an address that a cluster offers for a service.
#[derive(Clone, Debug, Drop)]
pub struct Backend {
    pub ip: Ip,
    pub port: u16,
    /// 1 to 16 ASCII letters or digits, as `TCP`.
    pub protocol: Text,
    pub port_name: Text,
}

impl Model for Backend {
    ghost use Rattle.std.specs.Prelude.{◌≡◌, true};
    ghost use Rattle.record_values.specs.Values.{BackendPort};

    ghost Value = { BackendPort };

    ghost use Rattle.record_values.specs.Backends.{is_protocol};

    ghost view = { λ b. record { ip = b.ip; port = b.port; protocol = b.protocol; port_name = b.port_name } };

    ghost invariant = { λ b. is_protocol b.protocol ≡ true };
}

impl Backend {
    /// The backend of these parts, `None` exactly where `protocol` is not 1 to 16 ASCII letters or
    /// digits.
    pub fn new(ip: Ip, port: u16, protocol: Text, port_name: Text) -> Option<Backend>
        ensures { result ≡ (if is_protocol protocol then Some (record { ip = ip; port = port; protocol = protocol; port_name = port_name }) else None) }
    {
        if !is_protocol(protocol.as_bytes()) {
            return None;
        }
        Some(Backend {
            ip,
            port,
            protocol,
            port_name,
        })
    }
}

/// A service, with the backends that its cluster offers for it.
#[derive(Clone, Debug, Drop)]
pub struct ServiceRecord {
    pub cluster: Text,
    pub namespace: Text,
    pub name: Text,
    /// The number of its cluster.
    pub cluster_id: u32,
    /// In order of address and port name, no two equal in both.
    pub backends: Items<Backend>,
    /// Other clusters may use the backends.
    pub shared: bool,
}

impl Model for ServiceRecord {
    ghost use Rattle.record_values.specs.Values.{Service};

    ghost Value = { Service };

    ghost use Rattle.record_values.specs.Backends.{AreInOrder};

    ghost view = { λ s. record { cluster = s.cluster; namespace = s.namespace; name = s.name; cluster_id = s.cluster_id; backends = s.backends; shared = s.shared } };

    ghost invariant = { λ s. AreInOrder s.backends };
}

impl ServiceRecord {
    /// The service of these parts, whose backends stand in order of address and port name, no two
    /// equal in both.
    pub fn new(
        cluster: Text,
        namespace: Text,
        name: Text,
        cluster_id: u32,
        backends: Items<Backend>,
        shared: bool,
    ) -> ServiceRecord
        requires { AreInOrder backends }
        ensures { result ≡ record { cluster = cluster; namespace = namespace; name = name; cluster_id = cluster_id; backends = backends; shared = shared } }
    {
        ServiceRecord {
            cluster,
            namespace,
            name,
            cluster_id,
            backends,
            shared,
        }
    }
}

/// A record of one of the four kinds.
#[derive(Clone, Debug, Drop)]
pub enum Record {
    Node(Node),
    Service(ServiceRecord),
    Identity(IdentityRecord),
    Address(AddressRecord),
}
