ghost use Rattle.std.specs.Prelude.{map, option_map, []};
ghost use Rattle.serde_json.specs.View.{view, items_of};
ghost use Rattle.record_reading.specs.Judgement.{Gives, judged};
ghost use Rattle.record_reading.specs.Forms.{each, list_of, optional};
ghost use Rattle.record_reading.specs.Node.{node_of, node_address};

use crate::faults::wrong_type;
use crate::forms::{required_address, required_text, required_u32};
use crate::tree::read_tree;
use mesh_base::Items;
use mesh_text::{Ip, Text};
use record_values::{Node, ReadFault};
use serde_json::Value;
use std::alloc::Global;

#[tactic(auto, unfolding(crate::specs::Node::node_address))]
fn read_node_address(alloc: Global, field: &str, value: &Value) -> Result<(Text, Ip), ReadFault>
    ensures { Gives result (node_address field.now (view value.now)) }
{
    if !value.is_object() {
        return Err(wrong_type(alloc, field));
    }
    let kind = required_text(alloc, "IPAddresses.Type", value.get("Type"))?;
    let ip = required_address(alloc, "IPAddresses.IP", value.get("IP"))?;
    Ok((kind, ip))
}

fn each_node_address(
    alloc: Global,
    field: &str,
    values: &[Value],
) -> Result<Items<(Text, Ip)>, ReadFault>
    ensures { Gives result (each node_address field.now (items_of (map view values.now))) }
{
    let mut addresses = Vec::new(alloc);
    for value in values {
        addresses.push(read_node_address(alloc, field, value)?)?;
    }
    Ok(Items::from_vec(addresses))
}

fn node_addresses(
    alloc: Global,
    field: &str,
    member: Option<&Value>,
) -> Result<Items<(Text, Ip)>, ReadFault>
    ensures { Gives result (optional (list_of node_address) [] field.now (option_map (λ v. view v.now) member.entry)) }
{
    let Some(value) = member else {
        return Ok(Items::new(alloc));
    };
    if value.is_null() {
        return Ok(Items::new(alloc));
    }
    match value.as_array() {
        Some(values) => each_node_address(alloc, field, values),
        None => Err(wrong_type(alloc, field)),
    }
}

#[tactic(auto, unfolding(crate::specs::Node::node_of))]
fn node_fields(alloc: Global, value: &Value) -> Result<Node, ReadFault>
    ensures { Gives result (node_of (view value.now)) }
{
    let name = required_text(alloc, "Name", value.get("Name"))?;
    let cluster = required_text(alloc, "Cluster", value.get("Cluster"))?;
    let cluster_id = required_u32(alloc, "ClusterID", value.get("ClusterID"))?;
    let addresses = node_addresses(alloc, "IPAddresses", value.get("IPAddresses"))?;
    Ok(Node {
        name,
        cluster,
        cluster_id,
        addresses,
    })
}

/// Reads a node, with the first fault of its fields where it has one.
pub(crate) fn read_node(alloc: Global, bytes: &[u8]) -> Result<Node, ReadFault>
    ensures { Gives result (judged node_of bytes.now) }
{
    let value = read_tree(alloc, bytes)?;
    if !value.is_object() {
        return Err(ReadFault::Shape);
    }
    node_fields(alloc, &value)
}
