// The walk over the pairs of all sources.
ghost use Rattle.std.specs.Prelude.{◌≡◌, ◌++◌, ◌∷◌, [], ℕ, List, map, flat_map, OnOk, IfOk};
ghost use Rattle.record_values.specs.declared.records.Record.TheVariants as records;
ghost use Rattle.shared_tables.specs.Merge as merge;
ghost use Rattle.shared_tables.specs.Merged.{arrived, with_rows, with_entry};

use crate::merged::{Claim, Merged};
use crate::rows::{AddressRow, BackendRow, IdentityRow, NodeRow};
use key_paths::Key;
use mesh_base::{Items, Memory};
use mesh_text::{ClusterName, PartName};
use record_values::{AddressRecord, Backend, IdentityRecord, Node, Record, ServiceRecord};

fn push_node(
    rows: &mut Items<NodeRow>,
    cluster: &ClusterName,
    key: &Key,
    node: &Node,
) -> Result<(), Memory>
    ensures { OnOk result (rows.new ≡ rows.old ++ merge.node_row_by cluster.now key.now (records.Node node.now)) }
{
    match key {
        Key::Node { node: name, .. } => {
            rows.push(NodeRow {
                cluster: cluster.clone()?,
                name: name.clone()?,
                addresses: node.addresses.clone()?,
            })?;
        }
        _ => {}
    }
    Ok(())
}

fn push_identity(
    rows: &mut Items<IdentityRow>,
    cluster: &ClusterName,
    key: &Key,
    identity: &IdentityRecord,
) -> Result<(), Memory>
    ensures { OnOk result (rows.new ≡ rows.old ++ merge.identity_row_by cluster.now key.now (records.Identity identity.now)) }
{
    match key {
        Key::Identity { number, .. } => {
            rows.push(IdentityRow {
                cluster: cluster.clone()?,
                number: *number,
                labels: identity.labels.clone()?,
            })?;
        }
        _ => {}
    }
    Ok(())
}

fn push_claim(
    claims: &mut Items<Claim>,
    cluster: &ClusterName,
    number: u32,
    address: &AddressRecord,
) -> Result<(), Memory>
    ensures { OnOk result (claims.new ≡ claims.old ++ (number, record { ip = address.now.ip; cluster = cluster.now; identity = address.now.id; host = address.now.host; namespace = address.now.namespace; pod = address.now.pod }) ∷ []) }
{
    let row = AddressRow {
        ip: address.ip,
        cluster: cluster.clone()?,
        identity: address.id,
        host: address.host,
        namespace: address.namespace.clone()?,
        pod: address.pod.clone()?,
    };
    claims.push((number, row))?;
    Ok(())
}

fn push_backends(
    rows: &mut Items<BackendRow>,
    cluster: &ClusterName,
    namespace: &PartName,
    name: &PartName,
    backends: &[Backend],
) -> Result<(), Memory>
    ensures { OnOk result (rows.new ≡ rows.old ++ map (merge.backend_row cluster.now namespace.now name.now) backends.now) }
{
    for backend in backends {
        rows.push(BackendRow {
            namespace: namespace.clone()?,
            name: name.clone()?,
            cluster: cluster.clone()?,
            backend: backend.clone()?,
        })?;
    }
    Ok(())
}

fn push_service(
    rows: &mut Items<BackendRow>,
    cluster: &ClusterName,
    key: &Key,
    service: &ServiceRecord,
) -> Result<(), Memory>
    ensures { OnOk result (rows.new ≡ rows.old ++ merge.backend_rows_by cluster.now key.now (records.Service service.now)) }
{
    match key {
        Key::Service {
            namespace,
            name,
            ..
        } => {
            if service.shared {
                push_backends(rows, cluster, namespace, name, service.backends.as_slice())?;
            }
        }
        _ => {}
    }
    Ok(())
}

/// The rows of a valid record.
pub(crate) fn push_valid(
    merged: &mut Merged,
    cluster: &ClusterName,
    number: u32,
    key: &Key,
    value: &Record,
) -> Result<(), Memory>
    ensures { OnOk result (merged.new ≡ with_entry merged.old (record { cluster = cluster.now; number = number; key = key.now; value = value.now })) }
{
    match value {
        Record::Node(node) => push_node(&mut merged.nodes, cluster, key, node),
        Record::Service(service) => push_service(&mut merged.backends, cluster, key, service),
        Record::Identity(identity) => {
            push_identity(&mut merged.identities, cluster, key, identity)
        }
        Record::Address(address) => push_claim(&mut merged.claims, cluster, number, address),
    }
}
