ghost use Rattle.std.specs.Prelude.{◌≡◌, ◌<◌, ◌≤◌, ◌^◌, ◌++◌, Some, Ok, IfOk, OnOk, false};
ghost use Rattle.std.specs.List.{All, flat_map};
ghost use Rattle.serde_json.specs.Data.{depth};
ghost use Rattle.serde_json.specs.View.{view};
ghost use Rattle.serde_json.specs.Written.{compact_text, has_float};
ghost use Rattle.record_values.specs.Labels.{IsLabel, label_text};
ghost use Rattle.record_reading.specs.Config.{config_of};
ghost use Rattle.record_reading.specs.Identity.{identity_of};
ghost use Rattle.record_reading.specs.Judgement.{judged, tree_of};
ghost use Rattle.record_reading.specs.Address.{address_record_of};
ghost use Rattle.record_reading.specs.Node.{node_of};
ghost use Rattle.record_reading.specs.Record.{record_of};
ghost use Rattle.record_reading.specs.Service.{service_of};
ghost use Rattle.mesh_records.specs.Trees.{address_tree, config_tree, node_tree, service_tree};
ghost use Rattle.mesh_records.specs.Written.{kind_of, text_of};

use crate::service_trees::service_value;
use crate::trees::{address_value, node_value};
use mesh_base::Memory;
use record_values::{
    AddressRecord, ClusterConfig, IdentityRecord, Label, Node, Record, ServiceRecord,
};
use serde_json::{Value, json};
use std::alloc::{AllocError, Global};

/// The compact text of a value.
fn written(alloc: Global, value: &Value) -> Result<Vec<u8>, Memory>
    ensures text { IfOk result (λ v. has_float (view value.now) ≡ false → v.items ≡ compact_text (view value.now)) }
    ensures reads_back { IfOk result (λ v. depth (view value.now) ≤ 127 → tree_of v.items ≡ Some (view value.now)) }
{
    let bytes = value.to_vec(alloc)?;
    Ok(bytes)
}

#[tactic(auto, unfolding(crate::specs::Trees::config_tree))]
fn config_value(alloc: Global, config: &ClusterConfig) -> Result<Value, AllocError>
    ensures tree { IfOk result (λ v. view v ≡ config_tree config.now) }
    ensures fits { IfOk result (λ _. (config.now.id < 2 ^ 32) × (0 < config.now.max_connected) × (config.now.max_connected < 2 ^ 32)) }
{
    json!(in alloc; {
        "capabilities": {
            "cached": config.cached,
            "maxConnectedClusters": config.max_connected,
            "syncedCanaries": config.synced_canaries
        },
        "id": config.id
    })
}

/// Writes a cluster's config, which `read_config` reads back.
pub fn write_config(alloc: Global, config: &ClusterConfig) -> Result<Vec<u8>, Memory>
    ensures text { IfOk result (λ v. v.items ≡ compact_text (config_tree config.now)) }
    ensures reads_back { IfOk result (λ v. judged config_of v.items ≡ Ok config.now) }
{
    let value = config_value(alloc, config)?;
    let bytes = written(alloc, &value)?;
    Ok(bytes)
}

fn push_label(text: &mut Vec<u8>, label: &Label) -> Result<(), Memory>
    ensures written { OnOk result (text.new.items ≡ text.old.items ++ label_text label.now) }
    ensures label { OnOk result (IsLabel label.now) }
{
    text.extend_from_slice(label.source.as_slice())?;
    text.push(b':')?;
    text.extend_from_slice(label.key.as_slice())?;
    text.push(b'=')?;
    text.extend_from_slice(label.value.as_slice())?;
    text.push(b';')?;
    Ok(())
}

fn labels_text(alloc: Global, labels: &[Label]) -> Result<Vec<u8>, Memory>
    ensures text { IfOk result (λ v. v.items ≡ flat_map label_text labels.now) }
    ensures labels { IfOk result (λ _. All IsLabel labels.now) }
{
    let mut text = Vec::new(alloc);
    for label in labels {
        push_label(&mut text, label)?;
    }
    Ok(text)
}

/// Writes an identity as the text of its labels.
fn write_identity(alloc: Global, identity: &IdentityRecord) -> Result<Vec<u8>, Memory>
    ensures text { IfOk result (λ v. v.items ≡ flat_map label_text identity.now.labels) }
    ensures reads_back { IfOk result (λ v. identity_of v.items ≡ Ok identity.now) }
{
    let text = labels_text(alloc, identity.labels.as_slice())?;
    Ok(text)
}

/// Writes an address; what it does not have is left out.
fn write_address_record(alloc: Global, address: &AddressRecord) -> Result<Vec<u8>, Memory>
    ensures text { IfOk result (λ v. v.items ≡ compact_text (address_tree address.now)) }
    ensures reads_back { IfOk result (λ v. judged address_record_of v.items ≡ Ok address.now) }
{
    let value = address_value(alloc, address)?;
    let bytes = written(alloc, &value)?;
    Ok(bytes)
}

/// Writes a node, its addresses in their order.
fn write_node(alloc: Global, node: &Node) -> Result<Vec<u8>, Memory>
    ensures text { IfOk result (λ v. v.items ≡ compact_text (node_tree node.now)) }
    ensures reads_back { IfOk result (λ v. judged node_of v.items ≡ Ok node.now) }
{
    let value = node_value(alloc, node)?;
    let bytes = written(alloc, &value)?;
    Ok(bytes)
}

/// Writes a service, its backends under the texts of their addresses and the names of their ports.
fn write_service(alloc: Global, service: &ServiceRecord) -> Result<Vec<u8>, Memory>
    ensures text { IfOk result (λ v. v.items ≡ compact_text (service_tree service.now)) }
    ensures reads_back { IfOk result (λ v. judged service_of v.items ≡ Ok service.now) }
{
    let value = service_value(alloc, service)?;
    let bytes = written(alloc, &value)?;
    Ok(bytes)
}

/// Writes a record, which `read_record` reads back.
///
/// A node, a service and an address are compact JSON (RFC 8259), the members in byte order of their
/// names, which are those of Cilium's records in the kvstore; what an address does not have is left
/// out. An identity is the text of its labels. The one fault is `Memory`.
pub fn write_record(alloc: Global, value: &Record) -> Result<Vec<u8>, Memory>
    ensures text { IfOk result (λ v. v.items ≡ text_of value.now) }
    ensures reads_back { IfOk result (λ v. record_of (kind_of value.now) v.items ≡ Ok value.now) }
{
    match value {
        Record::Node(node) => write_node(alloc, node),
        Record::Service(service) => write_service(alloc, service),
        Record::Identity(identity) => write_identity(alloc, identity),
        Record::Address(address) => write_address_record(alloc, address),
    }
}
