// The JSON values that are written, built from their parts.
ghost use Rattle.std.specs.Prelude.{◌≡◌, ◌<◌, ◌^◌, Some, IfOk, IfSome, OnOk, length, map, option_map, string_bytes};
ghost use Rattle.std.specs.List.{AllByRecursion};
ghost use Rattle.serde_json.specs.Data.{string};
ghost use Rattle.serde_json.specs.View.{view, members_view};
ghost use Rattle.mesh_text.specs.Addresses.{address_of, address_text};
ghost use Rattle.mesh_text.specs.Laws.{IsIp};
ghost use Rattle.mesh_records.specs.Trees.{address_string, address_tree, node_address_tree, node_tree, put_some, whole};

use mesh_base::Memory;
use mesh_text::{Ip, Text, reads_written_address, write_ip};
use record_values::{AddressRecord, Node};
use serde_json::{Map, Value};
use std::alloc::Global;

pub(crate) fn fits(ip: Ip)
    ensures { IsIp ip }
{
    match ip {
        Ip::V4(_number) => {}
        Ip::V6(_number) => {}
    }
}

pub(crate) fn ip_text(alloc: Global, ip: Ip) -> Result<String, Memory>
    ensures text { IfOk result (λ s. string_bytes s ≡ address_text ip) }
    ensures reads_back { IfOk result (λ _. address_of (address_text ip) ≡ Some ip) }
{
    fits(ip);
    reads_written_address();
    let bytes = write_ip(alloc, ip)?;
    Ok(String::from_utf8(bytes).unwrap())
}

fn ip_value(alloc: Global, ip: Ip) -> Result<Value, Memory>
    ensures value { IfOk result (λ v. view v ≡ address_string ip) }
    ensures reads_back { IfOk result (λ _. address_of (address_text ip) ≡ Some ip) }
{
    let text = ip_text(alloc, ip)?;
    Ok(Value::String(text))
}

fn host_value(alloc: Global, host: Option<Ip>) -> Result<Option<Value>, Memory>
    ensures value { IfOk result (λ o. option_map view o ≡ option_map address_string host) }
    ensures reads_back { IfOk result (λ _. IfSome host (λ ip. address_of (address_text ip) ≡ Some ip)) }
{
    match host {
        Some(ip) => {
            let value = ip_value(alloc, ip)?;
            Ok(Some(value))
        }
        None => Ok(None),
    }
}

fn text_value(alloc: Global, text: &Option<Text>) -> Result<Option<Value>, Memory>
    ensures { IfOk result (λ o. option_map view o ≡ option_map string text.now) }
{
    match text {
        Some(text) => {
            let value = Value::try_from_str(alloc, text.as_str())?;
            Ok(Some(value))
        }
        None => Ok(None),
    }
}

pub(crate) fn id_value(id: u32) -> Value
    ensures value { view result ≡ whole id }
    ensures fits { id < 2 ^ 32 }
{
    Value::from(id)
}

/// Puts a member where there is a value, else nothing.
fn put_some(
    map: &mut Map<String, Value>,
    alloc: Global,
    name: &str,
    value: Option<Value>,
) -> Result<(), Memory>
    ensures { OnOk result (members_view map.new.entries ≡ put_some name.now (option_map view value) (members_view map.old.entries)) }
{
    match value {
        Some(value) => {
            serde_json::put(map, alloc, name, value)?;
            Ok(())
        }
        None => Ok(()),
    }
}

#[tactic(auto, unfolding(crate::specs::Trees::address_tree))]
pub(crate) fn address_value(alloc: Global, address: &AddressRecord) -> Result<Value, Memory>
    ensures tree { IfOk result (λ v. view v ≡ address_tree address.now) }
    ensures ip { IfOk result (λ _. address_of (address_text address.now.ip) ≡ Some address.now.ip) }
    ensures host { IfOk result (λ _. IfSome address.now.host (λ ip. address_of (address_text ip) ≡ Some ip)) }
    ensures id { IfOk result (λ _. address.now.id < 2 ^ 32) }
    ensures namespace { IfOk result (λ _. IfSome address.now.namespace (λ t. 0 < length t)) }
    ensures pod { IfOk result (λ _. IfSome address.now.pod (λ t. 0 < length t)) }
{
    let pod = text_value(alloc, &address.pod)?;
    let namespace = text_value(alloc, &address.namespace)?;
    let ip = ip_value(alloc, address.ip)?;
    let host = host_value(alloc, address.host)?;
    let id = id_value(address.id);
    let mut map = Map::new(alloc);
    put_some(&mut map, alloc, "K8sPodName", pod)?;
    put_some(&mut map, alloc, "K8sNamespace", namespace)?;
    serde_json::put(&mut map, alloc, "IP", ip)?;
    serde_json::put(&mut map, alloc, "ID", id)?;
    put_some(&mut map, alloc, "HostIP", host)?;
    Ok(Value::Object(map))
}

fn node_address_value(alloc: Global, address: &(Text, Ip)) -> Result<Value, Memory>
    ensures tree { IfOk result (λ v. view v ≡ node_address_tree address.now) }
    ensures reads_back { IfOk result (λ _. address_of (address_text address.now.1) ≡ Some address.now.1) }
{
    let kind = Value::try_from_str(alloc, address.0.as_str())?;
    let ip = ip_value(alloc, address.1)?;
    let mut map = Map::new(alloc);
    serde_json::put(&mut map, alloc, "Type", kind)?;
    serde_json::put(&mut map, alloc, "IP", ip)?;
    Ok(Value::Object(map))
}

fn node_address_values(alloc: Global, addresses: &[(Text, Ip)]) -> Result<Vec<Value>, Memory>
    ensures trees { IfOk result (λ v. map view v.items ≡ map node_address_tree addresses.now) }
    ensures read_back { IfOk result (λ _. AllByRecursion (λ a. address_of (address_text a.1) ≡ Some a.1) addresses.now) }
{
    let mut values = Vec::new(alloc);
    for address in addresses {
        values.push(node_address_value(alloc, address)?)?;
    }
    Ok(values)
}

#[tactic(auto, unfolding(crate::specs::Trees::node_tree))]
pub(crate) fn node_value(alloc: Global, node: &Node) -> Result<Value, Memory>
    ensures tree { IfOk result (λ v. view v ≡ node_tree node.now) }
    ensures id { IfOk result (λ _. node.now.cluster_id < 2 ^ 32) }
    ensures addresses { IfOk result (λ _. AllByRecursion (λ a. address_of (address_text a.1) ≡ Some a.1) node.now.addresses) }
{
    let name = Value::try_from_str(alloc, node.name.as_str())?;
    let addresses = node_address_values(alloc, node.addresses.as_slice())?;
    let id = id_value(node.cluster_id);
    let cluster = Value::try_from_str(alloc, node.cluster.as_str())?;
    let mut map = Map::new(alloc);
    serde_json::put(&mut map, alloc, "Name", name)?;
    serde_json::put(&mut map, alloc, "IPAddresses", Value::Array(addresses))?;
    serde_json::put(&mut map, alloc, "ClusterID", id)?;
    serde_json::put(&mut map, alloc, "Cluster", cluster)?;
    Ok(Value::Object(map))
}
