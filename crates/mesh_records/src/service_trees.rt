// The JSON value that is written for a service, built from its parts.
ghost use Rattle.std.specs.Prelude.{◌≡◌, ◌<◌, ◌^◌, IfOk, map};
ghost use Rattle.std.specs.List.{AllByRecursion};
ghost use Rattle.serde_json.specs.View.{view};
ghost use Rattle.record_values.specs.Backends.{AreInOrder, IsBackend};
ghost use Rattle.mesh_records.specs.Trees.{by_address, named_port, object_of, port_tree, ports_under_address, put_all, same_address, service_tree, whole};

use crate::trees::{fits, id_value, ip_text};
use mesh_base::Memory;
use mesh_text::Ip;
use record_values::{Backend, ServiceRecord};
use serde_json::{Map, Value};
use std::alloc::Global;

fn port_number(port: u16) -> Value
    ensures value { view result ≡ whole port }
    ensures fits { port < 65536 }
{
    Value::from(port)
}

fn port_value(alloc: Global, backend: &Backend) -> Result<Value, Memory>
    ensures tree { IfOk result (λ v. view v ≡ port_tree backend.now) }
    ensures fits { IfOk result (λ _. IsBackend backend.now) }
{
    fits(backend.ip);
    let number = port_number(backend.port);
    let protocol = Value::try_from_str(alloc, backend.protocol.as_str())?;
    let mut map = Map::new(alloc);
    serde_json::put(&mut map, alloc, "Protocol", protocol)?;
    serde_json::put(&mut map, alloc, "Port", number)?;
    Ok(Value::Object(map))
}

/// The ports of one address, each under its name.
fn ports_value(alloc: Global, ports: &[Backend]) -> Result<Value, Memory>
    ensures tree { IfOk result (λ v. view v ≡ object_of (map named_port ports.now)) }
    ensures fit { IfOk result (λ _. AllByRecursion IsBackend ports.now) }
{
    let mut map = Map::new(alloc);
    for port in ports {
        let value = port_value(alloc, port)?;
        serde_json::put(&mut map, alloc, port.port_name.as_str(), value)?;
    }
    Ok(Value::Object(map))
}

/// How many backends at the front are of this address.
fn same_address(backends: &[Backend], ip: Ip) -> usize
    ensures { result ≡ same_address ip backends.now }
{
    for (place, backend) in backends.iter().enumerate() {
        if backend.ip != ip {
            return place;
        }
    }
    backends.len()
}

fn addresses_value(alloc: Global, backends: &[Backend]) -> Result<Value, Memory>
    ensures tree { IfOk result (λ v. view v ≡ object_of (map ports_under_address (by_address backends.now))) }
    ensures fit { IfOk result (λ _. AllByRecursion IsBackend backends.now) }
{
    let mut map = Map::new(alloc);
    let mut rest = backends;
    while let Some(first) = rest.first() {
        let (ports, others) = rest.split_at(same_address(rest, first.ip));
        let address = ip_text(alloc, first.ip)?;
        let ports = ports_value(alloc, ports)?;
        serde_json::put(&mut map, alloc, address.as_str(), ports)?;
        rest = others;
    }
    Ok(Value::Object(map))
}

#[tactic(auto, unfolding(crate::specs::Trees::service_tree))]
pub(crate) fn service_value(alloc: Global, service: &ServiceRecord) -> Result<Value, Memory>
    ensures tree { IfOk result (λ v. view v ≡ service_tree service.now) }
    ensures id { IfOk result (λ _. service.now.cluster_id < 2 ^ 32) }
    ensures ordered { IfOk result (λ _. AreInOrder service.now.backends) }
    ensures fit { IfOk result (λ _. AllByRecursion IsBackend service.now.backends) }
{
    let backends = addresses_value(alloc, service.backends.as_slice())?;
    let cluster = Value::try_from_str(alloc, service.cluster.as_str())?;
    let name = Value::try_from_str(alloc, service.name.as_str())?;
    let namespace = Value::try_from_str(alloc, service.namespace.as_str())?;
    let id = id_value(service.cluster_id);
    let mut map = Map::new(alloc);
    serde_json::put(&mut map, alloc, "shared", Value::Bool(service.shared))?;
    serde_json::put(&mut map, alloc, "namespace", namespace)?;
    serde_json::put(&mut map, alloc, "name", name)?;
    serde_json::put(&mut map, alloc, "clusterID", id)?;
    serde_json::put(&mut map, alloc, "cluster", cluster)?;
    serde_json::put(&mut map, alloc, "backends", backends)?;
    Ok(Value::Object(map))
}
