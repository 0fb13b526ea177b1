ghost use Rattle.std.specs.Prelude.{◌≡◌, [], IfOk, is_some, option_map};
ghost use Rattle.std.specs.List.{AllByRecursion, flat_map};
ghost use Rattle.std.specs.Map.{lookup};
ghost use Rattle.std.specs.BTreeMap.{insert_entry, is_at};
ghost use Rattle.serde_json.specs.View.{view, members_view};
ghost use Rattle.mesh_text.specs.Laws.{ip_cmp};
ghost use Rattle.record_values.specs.Backends.{AreInOrder, ArePortsOf};
ghost use Rattle.record_reading.specs.Judgement.{Gives, GivesSeen, judged};
ghost use Rattle.record_reading.specs.Forms.{optional};
ghost use Rattle.record_reading.specs.Service.{addresses_of, backends, port_of, ports_of, service_of};

use crate::faults::{no_address, wrong_type};
use crate::forms::{
    either, optional_truth, required_protocol, required_text, required_u16, required_u32,
};
use crate::tree::read_tree;
use mesh_base::{Items, Memory};
use mesh_text::{Ip, Text, read_ip};
use record_values::{Backend, ReadFault, ServiceRecord};
use serde_json::Value;
use std::alloc::Global;
use std::collections::BTreeMap;

/// Addresses, each with its ports in order of their names.
type Addresses = BTreeMap<Ip, Items<Backend>>;

#[tactic(auto, unfolding(crate::specs::Service::port_of))]
fn read_port(alloc: Global, ip: Ip, name: &str, value: &Value) -> Result<Backend, ReadFault>
    ensures { Gives result (port_of ip name.now (view value.now)) }
{
    if !value.is_object() {
        return Err(wrong_type(alloc, "backends"));
    }
    let protocol = required_protocol(
        alloc,
        "backends.protocol",
        either(value.get("Protocol"), value.get("protocol")),
    )?;
    let port = required_u16(
        alloc,
        "backends.port",
        either(value.get("Port"), value.get("port")),
    )?;
    let port_name = Text::from_str(alloc, name)?;
    Ok(Backend {
        ip,
        port,
        protocol,
        port_name,
    })
}

fn read_ports(
    alloc: Global,
    ip: Ip,
    ports: &BTreeMap<String, Value>,
) -> Result<Items<Backend>, ReadFault>
    ensures read { Gives result (ports_of ip (members_view ports.now.entries)) }
    ensures ordered { IfOk result (λ backends. ArePortsOf ip backends) }
{
    let mut backends = Vec::new(alloc);
    for (name, value) in ports {
        backends.push(read_port(alloc, ip, name.as_str(), value)?)?;
    }
    Ok(Items::from_vec(backends))
}

fn has_address(addresses: &Addresses, ip: Ip) -> bool
    ensures { result ≡ is_some (lookup (is_at (ip_cmp ip)) addresses.now.entries) }
{
    addresses.contains_key(&ip)
}

fn put_address(addresses: &mut Addresses, ip: Ip, ports: Items<Backend>) -> Result<(), Memory>
    ensures { IfOk result (λ _. addresses.new.entries ≡ insert_entry ip_cmp addresses.old.entries ip ports) }
{
    addresses.insert(ip, ports)?;
    Ok(())
}

fn read_addresses(alloc: Global, members: &BTreeMap<String, Value>) -> Result<Addresses, ReadFault>
    ensures read { GivesSeen (λ m. m.entries) result (addresses_of [] (members_view members.now.entries)) }
    ensures ordered { IfOk result (λ m. AllByRecursion (λ a. ArePortsOf a.0 a.1) m.entries) }
{
    let mut addresses = BTreeMap::new(alloc);
    for (name, value) in members {
        let Some(ip) = read_ip(name.as_bytes()) else {
            return Err(no_address(alloc, "backends"));
        };
        if has_address(&addresses, ip) {
            return Err(no_address(alloc, "backends"));
        }
        let Some(ports) = value.as_object() else {
            return Err(wrong_type(alloc, "backends"));
        };
        put_address(&mut addresses, ip, read_ports(alloc, ip, ports)?)?;
    }
    Ok(addresses)
}

/// All ports, one address behind the other.
fn all_ports(alloc: Global, addresses: Addresses) -> Result<Items<Backend>, Memory>
    requires { AllByRecursion (λ a. ArePortsOf a.0 a.1) addresses.entries }
    ensures ports { IfOk result (λ v. v ≡ flat_map (λ a. a.1) addresses.entries) }
    ensures ordered { IfOk result (λ v. AreInOrder v) }
{
    let mut backends = Vec::new(alloc);
    for (_, ports) in addresses {
        let mut ports = ports.into_vec();
        backends.append(&mut ports)?;
    }
    Ok(Items::from_vec(backends))
}

fn optional_backends(
    alloc: Global,
    field: &str,
    member: Option<&Value>,
) -> Result<Items<Backend>, ReadFault>
    ensures read { Gives result (optional backends [] field.now (option_map (λ v. view v.now) member.entry)) }
    ensures ordered { IfOk result (λ v. AreInOrder v) }
{
    let Some(value) = member else {
        return Ok(Items::new(alloc));
    };
    if value.is_null() {
        return Ok(Items::new(alloc));
    }
    let Some(members) = value.as_object() else {
        return Err(wrong_type(alloc, field));
    };
    let addresses = read_addresses(alloc, members)?;
    Ok(all_ports(alloc, addresses)?)
}

#[tactic(auto, unfolding(crate::specs::Service::service_of))]
fn service_fields(alloc: Global, value: &Value) -> Result<ServiceRecord, ReadFault>
    ensures { Gives result (service_of (view value.now)) }
{
    let cluster = required_text(alloc, "cluster", value.get("cluster"))?;
    let namespace = required_text(alloc, "namespace", value.get("namespace"))?;
    let name = required_text(alloc, "name", value.get("name"))?;
    let cluster_id = required_u32(alloc, "clusterID", value.get("clusterID"))?;
    let backends = optional_backends(alloc, "backends", value.get("backends"))?;
    let shared = optional_truth(alloc, "shared", true, value.get("shared"))?;
    Ok(ServiceRecord {
        cluster,
        namespace,
        name,
        cluster_id,
        backends,
        shared,
    })
}

/// Reads a service, with the first fault of its fields where it has one.
///
/// Its backends come in order of address and port name, whatever their order in the value.
pub(crate) fn read_service(alloc: Global, bytes: &[u8]) -> Result<ServiceRecord, ReadFault>
    ensures { Gives result (judged service_of bytes.now) }
{
    let value = read_tree(alloc, bytes)?;
    if !value.is_object() {
        return Err(ReadFault::Shape);
    }
    service_fields(alloc, &value)
}
