use mesh_base::Memory;
use mesh_records::{
    ClusterConfig, ReadFault, Record, ServiceRecord, read_config, read_record, write_config,
    write_record,
};
use mesh_text::{Kind, escape, unescape};
use std::alloc::Global;
use std::fmt::Write;
use test_cases::{Answers, Wrong, each_line_holds};

#[derive(Drop)]
enum Value {
    Config(ClusterConfig),
    Record(Record),
}

// Reads a value of the kind that the word names.
fn read_value(alloc: Global, kind: &str, value: &[u8]) -> Result<Value, ReadFault> {
    let kind = match kind {
        "node" => Kind::Nodes,
        "service" | "backends" => Kind::Services,
        "identity" => Kind::Identities,
        "address" => Kind::Addresses,
        _ => return Ok(Value::Config(read_config(alloc, value)?)),
    };
    Ok(Value::Record(read_record(alloc, kind, value)?))
}

fn write_value(alloc: Global, value: &Value) -> Result<Vec<u8>, Memory> {
    match value {
        Value::Config(config) => write_config(alloc, config),
        Value::Record(record) => write_record(alloc, record),
    }
}

/// The fault in words.
pub(crate) fn told(alloc: Global, fault: &ReadFault) -> Result<String, Memory> {
    Ok(match fault {
        ReadFault::Missing { field } => format!(in alloc; "Missing {}", field.as_str())?,
        ReadFault::WrongType { field } => format!(in alloc; "WrongType {}", field.as_str())?,
        ReadFault::Range { field } => format!(in alloc; "Range {}", field.as_str())?,
        ReadFault::AddressText { field } => format!(in alloc; "AddressText {}", field.as_str())?,
        _ => format!(in alloc; "{fault:?}")?,
    })
}

/// The bytes that an escaped word stands for; none where it is not escaped so.
pub(crate) fn bytes_of(alloc: Global, word: &str) -> Result<Vec<u8>, Memory> {
    Ok(unescape(alloc, word.as_bytes())?.unwrap_or(Vec::new(alloc)))
}

// A service with these backends.
fn service_with(alloc: Global, backends: &str) -> Result<Vec<u8>, Memory> {
    let service = format!(in alloc;
        r#"{{"cluster":"east","namespace":"shop","name":"web","clusterID":1,"backends":{backends}}}"#
    )?;
    Ok(service.into_bytes())
}

// A config with an unknown member that nests so deep.
fn nested(alloc: Global, depth: usize) -> Result<Vec<u8>, Memory> {
    let mut text = String::from_str(alloc, r#"{"id":1,"x":"#)?;
    for _place in 0..depth {
        text.push('[')?;
    }
    for _place in 0..depth {
        text.push(']')?;
    }
    text.push('}')?;
    Ok(text.into_bytes())
}

// The value that a word stands for: of `backends` a service, and of `nested` a config.
fn value_of(alloc: Global, kind: &str, word: &str) -> Result<Vec<u8>, Memory> {
    match kind {
        "backends" => service_with(alloc, word),
        "nested" => nested(alloc, word.parse::<usize>().unwrap_or(0)),
        _ => bytes_of(alloc, word),
    }
}

// Answers a kind and a value with `ok` or the value's first fault.
#[derive(Drop)]
struct Reading;

impl Answers for Reading {
    fn answer(&mut self, alloc: Global, asked: &str) -> Result<String, Memory> {
        let (kind, word) = asked.split_once(" ").unwrap_or((asked, ""));
        let value = value_of(alloc, kind, word)?;
        match read_value(alloc, kind, value.as_slice()) {
            Ok(_) => Ok("ok".to_string(alloc)?),
            Err(fault) => told(alloc, &fault),
        }
    }
}

fn rewritten(alloc: Global, kind: &str, value: &[u8]) -> Result<Vec<u8>, ReadFault> {
    let value = read_value(alloc, kind, value)?;
    Ok(write_value(alloc, &value)?)
}

// What is written for what a value says, if that is written again for itself.
fn settled(alloc: Global, kind: &str, value: &[u8]) -> Result<Option<Vec<u8>>, ReadFault> {
    let once = rewritten(alloc, kind, value)?;
    let again = rewritten(alloc, kind, once.as_slice())?;
    Ok((once == again).then_some(once))
}

// Answers a kind and a value with what is written for it.
#[derive(Drop)]
struct Writing;

impl Answers for Writing {
    fn answer(&mut self, alloc: Global, asked: &str) -> Result<String, Memory> {
        let (kind, word) = asked.split_once(" ").unwrap_or((asked, ""));
        let value = value_of(alloc, kind, word)?;
        match settled(alloc, kind, value.as_slice()) {
            Ok(Some(written)) => {
                let word = escape(alloc, written.as_slice())?;
                Ok(String::from_utf8_lossy(alloc, word.as_slice())?)
            }
            Ok(None) => Ok("otherwise each time".to_string(alloc)?),
            Err(fault) => told(alloc, &fault),
        }
    }
}

fn ports(alloc: Global, service: &ServiceRecord) -> Result<String, Memory> {
    let sharing = if service.shared { "shared" } else { "alone" };
    let mut ports = sharing.to_string(alloc)?;
    for backend in service.backends.as_slice() {
        write!(ports, " {}", backend.port)?;
    }
    Ok(ports)
}

// Answers a service with whether it is shared, and the ports of its backends in their order.
#[derive(Drop)]
struct Offers;

impl Answers for Offers {
    fn answer(&mut self, alloc: Global, asked: &str) -> Result<String, Memory> {
        match read_record(alloc, Kind::Services, asked.as_bytes()) {
            Ok(Record::Service(service)) => ports(alloc, &service),
            Ok(_) => Ok("no service".to_string(alloc)?),
            Err(fault) => told(alloc, &fault),
        }
    }
}

const NODES: &str =
    r#"node {"Name":"n1","Cluster":"east","ClusterID":1,"IPAddresses":[{"Type":"InternalIP","IP":"10.0.0.1"}],"Key":3} => ok
node {"ClusterID":4294967295,"Cluster":"east","Name":"n1"} => ok
node {"Name":"n1","Cluster":"east","ClusterID":1,"IPAddresses":null} => ok
node {"Name":1,"Name":"n1","Cluster":"east","ClusterID":1} => ok
node {"Name": => Json
node [] => Shape
node {} => Missing Name
node {"Name":null,"Cluster":1} => WrongType Name
node {"Name":"n1","Cluster":null} => WrongType Cluster
node {"Name":"n1","Cluster":"east","ClusterID":null} => WrongType ClusterID
node {"\u004eame":"n1","Cluster":"east","ClusterID":1} => ok
node {"Name":"n1","ClusterID":-1} => Missing Cluster
node {"Name":"n1","Cluster":2} => WrongType Cluster
node {"Name":"n1","Cluster":"east"} => Missing ClusterID
node {"Name":"n1","Cluster":"east","ClusterID":1.0} => WrongType ClusterID
node {"Name":"n1","Cluster":"east","ClusterID":1e0} => WrongType ClusterID
node {"Name":"n1","Cluster":"east","ClusterID":-0} => WrongType ClusterID
node {"Name":"n1","Cluster":"east","ClusterID":-1} => WrongType ClusterID
node {"Name":"n1","Cluster":"east","ClusterID":4294967296} => Range ClusterID
node {"Name":"n1","Cluster":"east","ClusterID":18446744073709551616} => WrongType ClusterID
node {"Name":"n1","Cluster":"east","ClusterID":1,"IPAddresses":{}} => WrongType IPAddresses
node {"Name":"n1","Cluster":"east","ClusterID":1,"IPAddresses":[7,{}]} => WrongType IPAddresses
node {"Name":"n1","Cluster":"east","ClusterID":1,"IPAddresses":[{}]} => Missing IPAddresses.Type
node {"Name":"n1","Cluster":"east","ClusterID":1,"IPAddresses":[{"Type":0}]} => WrongType IPAddresses.Type
node {"Name":"n1","Cluster":"east","ClusterID":1,"IPAddresses":[{"Type":""}]} => Missing IPAddresses.IP
node {"Name":"n1","Cluster":"east","ClusterID":1,"IPAddresses":[{"Type":"","IP":null}]} => WrongType IPAddresses.IP
node {"Name":"n1","Cluster":"east","ClusterID":1,"IPAddresses":[{"Type":"","IP":"10.0.0.01"}]} => AddressText IPAddresses.IP
"#;

#[test]
fn a_node_is_refused_with_its_first_fault(rt: HostRuntime) -> Result<(), Wrong> {
    each_line_holds(&mut Reading, rt.alloc(), NODES)
}

const ADDRESSES: &str =
    r#"address {"IP":"10.0.0.1","Mask":null,"HostIP":"fd00::1","ID":65537,"K8sNamespace":"shop","K8sPodName":"web"} => ok
address {"IP":"10.0.0.1","HostIP":"","ID":0,"K8sNamespace":"","K8sPodName":null} => ok
address {"ID":1} => Missing IP
address {"IP":null,"ID":1} => WrongType IP
address {"IP":167772161,"ID":1} => WrongType IP
address {"IP":"10.0.0","Mask":"/8"} => AddressText IP
address {"IP":"10.0.0.1","Mask":"/8","HostIP":3} => Mask
address {"IP":"10.0.0.1","HostIP":3} => WrongType HostIP
address {"IP":"10.0.0.1","HostIP":"::ffff:10.0.0.1"} => AddressText HostIP
address {"IP":"10.0.0.1"} => Missing ID
address {"IP":"10.0.0.1","ID":null} => WrongType ID
address {"IP":"10.0.0.1","ID":4294967296} => Range ID
address {"IP":"10.0.0.1","ID":1,"K8sNamespace":[]} => WrongType K8sNamespace
address {"IP":"10.0.0.1","ID":1,"K8sPodName":false} => WrongType K8sPodName
"#;

#[test]
fn an_address_is_refused_with_its_first_fault(rt: HostRuntime) -> Result<(), Wrong> {
    each_line_holds(&mut Reading, rt.alloc(), ADDRESSES)
}

const SERVICES: &str =
    r#"service {"cluster":"east","namespace":"shop","name":"web","clusterID":1} => ok
service {"cluster":"east","namespace":"shop","name":"web","clusterID":1,"backends":{"10.0.0.1":{"http":{"Port":80,"Protocol":"TCP","port":-1,"protocol":7}},"::1":{"http":{"port":0,"protocol":"udp"}}},"shared":null} => ok
service {"clusterID":"1"} => Missing cluster
service {"cluster":null} => WrongType cluster
service {"cluster":"east"} => Missing namespace
service {"cluster":"east","namespace":null} => WrongType namespace
service {"cluster":"east","namespace":"shop","name":null} => WrongType name
service {"cluster":"east","namespace":"shop","name":"web"} => Missing clusterID
service {"cluster":"east","namespace":"shop","name":"web","clusterID":null} => WrongType clusterID
service {"cluster":"east","namespace":"shop","name":"web","clusterID":4294967296,"backends":1} => Range clusterID
service {"cluster":"east","namespace":1} => WrongType namespace
service {"cluster":"east","namespace":"shop"} => Missing name
service {"cluster":"east","namespace":"shop","name":"web","clusterID":true,"backends":1} => WrongType clusterID
service {"cluster":"east","namespace":"shop","name":"web","clusterID":1,"shared":1} => WrongType shared
"#;

#[test]
fn a_service_is_refused_with_its_first_fault(rt: HostRuntime) -> Result<(), Wrong> {
    each_line_holds(&mut Reading, rt.alloc(), SERVICES)
}

const BACKENDS: &str = r#"backends [] => WrongType backends
backends {"b":{},"a":3} => AddressText backends
backends {"10.0.0.1":{},"10.0.0.1/8":3} => AddressText backends
backends null => ok
backends {"10.0.0.1":3,"10.0.0.1":{}} => ok
backends {"10.0.0.1":null} => WrongType backends
backends {"10.0.0.1":{"http":null}} => WrongType backends
backends {"0:0:0:0:0:0:0:1":{},"::1":{}} => AddressText backends
backends {"10.0.0.1":3,"x":{}} => WrongType backends
backends {"10.0.0.1":{"http":3}} => WrongType backends
backends {"10.0.0.1":{"http":{"Port":-1}}} => Missing backends.protocol
backends {"10.0.0.1":{"http":{"Protocol":null,"protocol":"TCP"}}} => WrongType backends.protocol
backends {"10.0.0.1":{"http":{"Protocol":""}}} => Range backends.protocol
backends {"10.0.0.1":{"http":{"Protocol":"abcdefghijklmnopq"}}} => Range backends.protocol
backends {"10.0.0.1":{"http":{"Protocol":"t-p"}}} => Range backends.protocol
backends {"10.0.0.1":{"http":{"Protocol":"TCP"}}} => Missing backends.port
backends {"10.0.0.1":{"http":{"Protocol":"TCP","Port":null,"port":1}}} => WrongType backends.port
backends {"10.0.0.1":{"http":{"Protocol":"TCP","Port":65536}}} => Range backends.port
"#;

#[test]
fn backends_are_refused_with_their_first_fault(rt: HostRuntime) -> Result<(), Wrong> {
    each_line_holds(&mut Reading, rt.alloc(), BACKENDS)
}

const ORDERED_BACKENDS: &str =
    r#"{"cluster":"east","namespace":"shop","name":"web","clusterID":1,"backends":{"::1":{"a":{"Port":1,"Protocol":"TCP"}},"10.0.0.9":{"b":{"Port":2,"Protocol":"TCP"},"a":{"Port":3,"Protocol":"TCP"}},"10.0.0.10":{"a":{"Port":4,"Protocol":"TCP"}}}} => shared 3 2 4 1
"#;

#[test]
fn backends_come_in_order_of_address_and_port_name(rt: HostRuntime) -> Result<(), Wrong> {
    each_line_holds(&mut Offers, rt.alloc(), ORDERED_BACKENDS)
}

const LABELS: &str = r#"identity - => ok
identity k8s:app=web; => ok
identity k8s:io.cilium:x=a=b:c;reserved:host=; => ok
identity k8s:app=web => Label { at: 0 }
identity k8s:app=web;k8s:tier; => Label { at: 12 }
identity k8s:=web; => Label { at: 0 }
identity :app=web; => Label { at: 0 }
identity a=b:c=d; => Label { at: 0 }
identity k8s:app=web;; => Label { at: 12 }
"#;

#[test]
fn labels_are_read_up_to_the_first_that_is_none(rt: HostRuntime) -> Result<(), Wrong> {
    each_line_holds(&mut Reading, rt.alloc(), LABELS)
}

const CONFIGS: &str = r#"config {"id":4294967295} => ok
config {"id":1,"capabilities":null} => ok
config {"id":1,"capabilities":{"syncedCanaries":null,"cached":null,"maxConnectedClusters":null}} => ok
config {"id":1, => Json
config 1 => Shape
config {"capabilities":3} => Missing id
config {"id":null} => WrongType id
config {"id":4294967296,"capabilities":3} => Range id
config {"id":1,"capabilities":3} => WrongType capabilities
config {"id":1,"capabilities":{"cached":0,"syncedCanaries":1}} => WrongType syncedCanaries
config {"id":1,"capabilities":{"cached":0}} => WrongType cached
config {"id":1,"capabilities":{"maxConnectedClusters":"255"}} => WrongType maxConnectedClusters
config {"id":1,"capabilities":{"maxConnectedClusters":4294967296}} => Range maxConnectedClusters
"#;

#[test]
fn a_config_is_refused_with_its_first_fault(rt: HostRuntime) -> Result<(), Wrong> {
    each_line_holds(&mut Reading, rt.alloc(), CONFIGS)
}

const WRITTEN_CONFIGS: &str =
    r#"config {"id":1,"capabilities":{"syncedCanaries":true,"maxConnectedClusters":0}} => {"capabilities":{"cached":false,"maxConnectedClusters":255,"syncedCanaries":true},"id":1}
config {"id":7} => {"capabilities":{"cached":false,"maxConnectedClusters":255,"syncedCanaries":false},"id":7}
config {"capabilities":{"maxConnectedClusters":511,"cached":true},"id":0} => {"capabilities":{"cached":true,"maxConnectedClusters":511,"syncedCanaries":false},"id":0}
"#;

#[test]
fn a_config_is_read_with_its_defaults_and_written_whole(rt: HostRuntime) -> Result<(), Wrong> {
    each_line_holds(&mut Writing, rt.alloc(), WRITTEN_CONFIGS)
}

const WRITTEN_RECORDS: &str =
    r#"node {"Name":"n1","Cluster":"east","ClusterID":1,"IPAddresses":[{"Type":"InternalIP","IP":"10.0.0.1"},{"IP":"0:0::01","Type":""}],"Key":3} => {"Cluster":"east","ClusterID":1,"IPAddresses":[{"IP":"10.0.0.1","Type":"InternalIP"},{"IP":"::1","Type":""}],"Name":"n1"}
node {"Name":"a\"b","Cluster":"","ClusterID":0} => {"Cluster":"","ClusterID":0,"IPAddresses":[],"Name":"a\"b"}
address {"IP":"10.0.0.1","Mask":null,"HostIP":"FD00::1","ID":65537,"K8sNamespace":"shop","K8sPodName":"web"} => {"HostIP":"fd00::1","ID":65537,"IP":"10.0.0.1","K8sNamespace":"shop","K8sPodName":"web"}
address {"IP":"::ffff:0:0","HostIP":"","ID":0,"K8sNamespace":"","K8sPodName":null} => {"ID":0,"IP":"::ffff:0:0"}
service {"cluster":"east","namespace":"shop","name":"web","clusterID":1,"backends":{"::1":{"a":{"port":0,"protocol":"udp"}},"10.0.0.9":{"b":{"Port":2,"Protocol":"TCP"},"a":{"Port":65535,"Protocol":"TCP"}},"10.0.0.11":{},"10.0.0.10":{"":{"Port":4,"Protocol":"TCP"}}}} => {"backends":{"10.0.0.10":{"":{"Port":4,"Protocol":"TCP"}},"10.0.0.9":{"a":{"Port":65535,"Protocol":"TCP"},"b":{"Port":2,"Protocol":"TCP"}},"::1":{"a":{"Port":0,"Protocol":"udp"}}},"cluster":"east","clusterID":1,"name":"web","namespace":"shop","shared":true}
service {"cluster":"east","namespace":"shop","name":"web","clusterID":4294967295,"shared":false} => {"backends":{},"cluster":"east","clusterID":4294967295,"name":"web","namespace":"shop","shared":false}
identity k8s:app=web;reserved:host=; => k8s:app=web;reserved:host=;
identity - => -
"#;

#[test]
fn a_record_is_written_with_its_members_in_byte_order(rt: HostRuntime) -> Result<(), Wrong> {
    each_line_holds(&mut Writing, rt.alloc(), WRITTEN_RECORDS)
}

const DEPTHS: &str = r#"nested 100 => ok
nested 126 => ok
nested 127 => Json
nested 200 => Json
"#;

#[test]
fn a_value_nests_up_to_127_deep(rt: HostRuntime) -> Result<(), Wrong> {
    each_line_holds(&mut Reading, rt.alloc(), DEPTHS)
}

const OTHER_BYTES: &str = r#"config {"id":1,"%FF":0} => Json
node {"IP":"%FF"} => Json
service {"IP":"%FF"} => Json
address {"IP":"%FF"} => Json
identity k8s:a=%FF; => ok
"#;

#[test]
fn json_is_utf_8_and_labels_are_bytes(rt: HostRuntime) -> Result<(), Wrong> {
    each_line_holds(&mut Reading, rt.alloc(), OTHER_BYTES)
}
