// What was said, against the cluster that it came from and its key.
ghost use Rattle.std.specs.Prelude.{◌≡◌, ◌==◌, ◌∷◌, [], not, bytes_eq, nat_eq, Some, IfSome};
ghost use Rattle.record_check.specs.Limits.{cluster_part, cluster_owning};
ghost use Rattle.record_check.specs.Faults.{fault_if, first_fault, differ, IsNamed};
ghost use Rattle.record_check.specs.Reading.{IsOfKind};
ghost use Rattle.record_check.specs.Judging.{judgement, same_ip};

use crate::fault::Fault;
use crate::limit::Limit;
use key_paths::Key;
use mesh_text::{ClusterName, Ip, PartName};
use record_values::{AddressRecord, Node, Record, ServiceRecord};

fn same_ip(a: Ip, b: Ip) -> bool
    ensures { result ≡ same_ip a b }
{
    a.cmp(&b).is_eq()
}

fn node_fault(cluster: &ClusterName, id: u32, name: &PartName, node: &Node) -> Option<Fault>
    ensures fault { result ≡ first_fault (fault_if (not (bytes_eq node.now.cluster cluster.now)) Fault.Cluster ∷ fault_if (not (nat_eq node.now.cluster_id id)) Fault.ClusterId ∷ fault_if (not (bytes_eq node.now.name name.now)) Fault.Name ∷ []) }
    ensures named { IfSome result IsNamed }
{
    if node.cluster.as_bytes() != cluster.as_bytes() {
        return Some(Fault::Cluster);
    }
    if node.cluster_id != id {
        return Some(Fault::ClusterId);
    }
    if node.name.as_bytes() != name.as_bytes() {
        return Some(Fault::Name);
    }
    None
}

fn service_fault(
    cluster: &ClusterName,
    id: u32,
    namespace: &PartName,
    name: &PartName,
    service: &ServiceRecord,
) -> Option<Fault>
    ensures fault { result ≡ first_fault (fault_if (not (bytes_eq service.now.cluster cluster.now)) Fault.Cluster ∷ fault_if (not (nat_eq service.now.cluster_id id)) Fault.ClusterId ∷ fault_if (not (bytes_eq service.now.namespace namespace.now)) Fault.Namespace ∷ fault_if (not (bytes_eq service.now.name name.now)) Fault.Name ∷ []) }
    ensures named { IfSome result IsNamed }
{
    if service.cluster.as_bytes() != cluster.as_bytes() {
        return Some(Fault::Cluster);
    }
    if service.cluster_id != id {
        return Some(Fault::ClusterId);
    }
    if service.namespace.as_bytes() != namespace.as_bytes() {
        return Some(Fault::Namespace);
    }
    if service.name.as_bytes() != name.as_bytes() {
        return Some(Fault::Name);
    }
    None
}

fn identity_fault(id: u32, limit: Limit, number: u32) -> Option<Fault>
    ensures fault { result ≡ first_fault (fault_if (not (nat_eq (cluster_part limit number) id)) Fault.ClusterId ∷ []) }
    ensures named { IfSome result IsNamed }
{
    if limit.cluster_part(number) != id {
        return Some(Fault::ClusterId);
    }
    None
}

fn address_fault(id: u32, limit: Limit, ip: Ip, address: &AddressRecord) -> Option<Fault>
    ensures fault { result ≡ first_fault (fault_if (differ nat_eq (cluster_owning limit address.now.id) (Some id)) Fault.ClusterId ∷ fault_if (not (same_ip address.now.ip ip)) Fault.AddressKey ∷ []) }
    ensures named { IfSome result IsNamed }
{
    if let Some(number) = limit.cluster_owning(address.id)
        && number != id
    {
        return Some(Fault::ClusterId);
    }
    if !same_ip(address.ip, ip) {
        return Some(Fault::AddressKey);
    }
    None
}

/// The first fault of a pair that was read, as one of this cluster, which has this number, or
/// `None`: among `Cluster`, `ClusterId`, `Namespace`, `Name` and `AddressKey`.
///
/// A node and a service say their cluster and its number, an identity has the number above the low
/// bits of its key's number, and an address above those of its identity. The identities below 256
/// are reserved, and an address with one of them fits every cluster. It takes no memory, and costs
/// no more than comparing the names.
#[tactic(auto, unfolding(crate::specs::Judging::judgement))]
pub fn judge(
    cluster: &ClusterName,
    id: u32,
    limit: Limit,
    key: &Key,
    value: &Record,
) -> Option<Fault>
    requires { IsOfKind key.now value.now }
    ensures fault { result ≡ judgement cluster.now id limit key.now value.now }
    ensures named { IfSome result IsNamed }
{
    match (key, value) {
        (Key::Node { node, .. }, Record::Node(found)) => node_fault(cluster, id, node, found),
        (
            Key::Service {
                namespace,
                name,
                ..
            },
            Record::Service(found),
        ) => service_fault(cluster, id, namespace, name, found),
        (Key::Identity { number, .. }, Record::Identity(_)) => identity_fault(id, limit, *number),
        (Key::Address { ip, .. }, Record::Address(found)) => address_fault(id, limit, *ip, found),
        _ => unreachable!(),
    }
}
