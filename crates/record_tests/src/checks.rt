use crate::values;
use mesh_base::Memory;
use mesh_text::{ClusterName, NameFault};
use record_check::{Fault, Limit, check, check_config, judge, read_pair};
use std::alloc::Global;
use std::test::Fail;
use test_cases::{Answers, Wrong, each_line_holds};

// A record, a config or a judgement in words.
fn told<T>(alloc: Global, checked: &Result<T, Fault>) -> Result<String, Memory> {
    Ok(match checked {
        Ok(_) => "ok".to_string(alloc)?,
        Err(Fault::Read(fault)) => values::told(alloc, fault)?,
        Err(fault) => format!(in alloc; "{fault:?}")?,
    })
}

// The value that a word stands for, behind which ` to ` and a length fill it up with spaces.
fn value_of(alloc: Global, word: &str) -> Result<Vec<u8>, Memory> {
    let (word, len) = word.split_once(" to ").unwrap_or((word, ""));
    let mut value = values::bytes_of(alloc, word)?;
    for _place in value.len()..len.parse::<usize>().unwrap_or(0) {
        value.push(b' ')?;
    }
    Ok(value)
}

// Answers a key and a value with what they are as a pair of the cluster, which has this number.
#[derive(Drop)]
struct Checking {
    cluster: ClusterName,
    id: u32,
}

impl Checking {
    fn of_east(alloc: Global) -> Result<Checking, NameFault> {
        let cluster = ClusterName::read(alloc, b"east")?;
        Ok(Checking { cluster, id: 1 })
    }
}

impl Answers for Checking {
    fn answer(&mut self, alloc: Global, asked: &str) -> Result<String, Memory> {
        let (key, word) = asked.split_once(" ").unwrap_or((asked, ""));
        let value = value_of(alloc, word)?;
        let (key, value) = (key.as_bytes(), value.as_slice());
        let checked = check(alloc, &self.cluster, self.id, Limit::Small, key, value)?;
        told(alloc, &checked)
    }
}

// Answers a value with what it is as a config.
#[derive(Drop)]
struct CheckingConfigs;

impl Answers for CheckingConfigs {
    fn answer(&mut self, alloc: Global, asked: &str) -> Result<String, Memory> {
        let value = value_of(alloc, asked)?;
        let checked = check_config(alloc, Limit::Small, value.as_slice())?;
        told(alloc, &checked)
    }
}

// What a pair is judged as for the cluster, which has this number, once it is read.
fn judged(
    alloc: Global,
    cluster: &ClusterName,
    id: u32,
    key: &str,
    value: &str,
) -> Result<Result<(), Fault>, Memory> {
    let (key, record) = match read_pair(alloc, key.as_bytes(), value.as_bytes())? {
        Ok(pair) => pair,
        Err(fault) => return Ok(Err(fault)),
    };
    Ok(match judge(cluster, id, Limit::Small, &key, &record) {
        Some(fault) => Err(fault),
        None => Ok(()),
    })
}

// Answers a cluster and its number with what a node of `east`, number 7, is judged as for it.
#[derive(Drop)]
struct Judging;

impl Answers for Judging {
    fn answer(&mut self, alloc: Global, asked: &str) -> Result<String, Memory> {
        let (name, id) = asked.split_once(" ").unwrap_or((asked, ""));
        let Ok(cluster) = ClusterName::read(alloc, name.as_bytes()) else {
            return Ok("no cluster".to_string(alloc)?);
        };
        let id = id.parse::<u32>().unwrap_or(0);
        let value = r#"{"Name":"n1","Cluster":"east","ClusterID":7}"#;
        let judged = judged(alloc, &cluster, id, "cilium/state/nodes/v1/east/n1", value)?;
        told(alloc, &judged)
    }
}

// each fault stands beside the next one
const NODES: &str =
    r#"cilium/state/nodes/v1/east/n1 {"Name":"n1","Cluster":"east","ClusterID":1} => ok
cilium/state/nodes/v1/east/n1 {"Name":"n1","Cluster":"east","IPAddresses":[{"Type":"InternalIP","IP":"192.168.0.2"},{"Type":"CiliumInternalIP","IP":"10.1.0.146"}],"IPv4AllocCIDR":{"IP":"10.1.0.0","Mask":"////AA=="},"IPv4SecondaryAllocCIDRs":null,"IPv6AllocCIDR":null,"IPv4HealthIP":"10.1.0.3","IPv6HealthIP":"","ClusterID":1,"Source":"local","Key":0,"Labels":{"kubernetes.io/os":"linux"},"Annotations":null,"NodeIdentity":65536,"WireguardPubKey":""} => ok
cilium/cache/nodes/v1/east/n1 {"Name":"n1","Cluster":"east","ClusterID":1} => ok
cilium/state/node/v1/east/n1 {"Name":"n2"} => Key(UnknownPrefix)
cilium/state/nodes/v1/east {"Name":"n2"} => Key(Parts { have: 1 })
cilium/state/nodes/v1/east/N1 {"Name":"n2"} => Key(Name { at: 27 })
cilium/state/nodes/v1/east/n1 {"Name":"n2","Cluster":"west" => Json
cilium/state/nodes/v1/east/n1 [{"Name":"n2","Cluster":"west"}] => Shape
cilium/state/nodes/v1/east/n1 {"Name":"n2","Cluster":"west"} => Missing ClusterID
cilium/state/nodes/v1/east/n1 {"Name":"n2","Cluster":"west","ClusterID":"2"} => WrongType ClusterID
cilium/state/nodes/v1/east/n1 {"Name":"n2","Cluster":"west","ClusterID":4294967296} => Range ClusterID
cilium/state/nodes/v1/east/n1 {"Name":"n2","Cluster":"west","ClusterID":2} => Cluster
cilium/state/nodes/v1/east/n1 {"Name":"n2","Cluster":"eas","ClusterID":1} => Cluster
cilium/state/nodes/v1/east/n1 {"Name":"n2","Cluster":"east","ClusterID":2} => ClusterId
cilium/state/nodes/v1/east/n1 {"Name":"n2","Cluster":"east","ClusterID":1} => Name
"#;

#[test]
fn a_node_is_answered_with_its_first_fault(rt: HostRuntime) -> Result<(), Fail> {
    each_line_holds(&mut Checking::of_east(rt.alloc())?, rt.alloc(), NODES)?;
    Ok(())
}

const SERVICES: &str =
    r#"cilium/state/services/v1/east/shop/web {"cluster":"east","namespace":"shop","name":"web","clusterID":1} => ok
cilium/state/services/v1/east/shop/web {"cluster":"east","namespace":"shop","name":"web","frontends":{"172.20.0.177":{"http":{"Protocol":"TCP","Port":80}}},"backends":{"10.1.0.13":{"http":{"Protocol":"TCP","Port":8080}}},"labels":{},"selector":{"app":"web"},"includeExternal":true,"shared":true,"clusterID":1} => ok
cilium/state/services/v1/east/shop/web/http {"cluster":"west"} => Key(Parts { have: 4 })
cilium/state/services/v1/east/shop/Web {"cluster":"west"} => Key(Name { at: 35 })
cilium/state/services/v1/east/shop/web {"cluster":"west","namespace":"market","name":"api"} => Missing clusterID
cilium/state/services/v1/east/shop/web {"cluster":"west","namespace":"market","name":"api","clusterID":2} => Cluster
cilium/state/services/v1/east/shop/web {"cluster":"east","namespace":"market","name":"api","clusterID":2} => ClusterId
cilium/state/services/v1/east/shop/web {"cluster":"east","namespace":"market","name":"api","clusterID":1} => Namespace
cilium/state/services/v1/east/shop/web {"cluster":"east","namespace":"shop","name":"api","clusterID":1} => Name
"#;

#[test]
fn a_service_is_answered_with_its_first_fault(rt: HostRuntime) -> Result<(), Fail> {
    each_line_holds(&mut Checking::of_east(rt.alloc())?, rt.alloc(), SERVICES)?;
    Ok(())
}

// 65792 is 1 * 65536 + 256, and 131328 is 2 * 65536 + 256
const IDENTITIES: &str =
    r#"cilium/state/identities/v1/id/65792 k8s:app=web;k8s:io.cilium.k8s.policy.cluster=east; => ok
cilium/cache/identities/v1/east/id/65792 k8s:app=web; => ok
cilium/state/identities/v1/id/131071 - => ok
cilium/state/identities/v1/id/065792 app => Key(Number { at: 30 })
cilium/state/identities/v1/id/131328 app => Label { at: 0 }
cilium/state/identities/v1/id/131328 k8s:app=web; => ClusterId
cilium/state/identities/v1/id/131072 k8s:app=web; => ClusterId
cilium/state/identities/v1/id/255 k8s:app=web; => ClusterId
"#;

#[test]
fn an_identity_is_answered_with_its_first_fault(rt: HostRuntime) -> Result<(), Fail> {
    each_line_holds(&mut Checking::of_east(rt.alloc())?, rt.alloc(), IDENTITIES)?;
    Ok(())
}

// an identity below 256 is reserved
const ADDRESSES: &str = r#"cilium/state/ip/v1/default/10.1.0.13 {"IP":"10.1.0.13","ID":65792} => ok
cilium/state/ip/v1/default/10.1.0.13 {"IP":"10.1.0.13","Mask":null,"HostIP":"192.168.0.2","ID":65792,"Key":0,"Metadata":"cilium-global:east:n1:1","K8sNamespace":"shop","K8sPodName":"web-1"} => ok
cilium/cache/ip/v1/east/10.1.0.13 {"IP":"10.1.0.13","ID":65792} => ok
cilium/state/ip/v1/default/fd00::d {"IP":"FD00:0::D","ID":255} => ok
cilium/state/ip/v1/default/10.1.0.13 {"IP":"10.1.0.13","ID":1} => ok
cilium/state/ip/v1/default/10.1.0.13 {"IP":"10.1.0.13","ID":255} => ok
cilium/state/ip/v1/default/10.1.0.13 {"IP":"10.1.0.14","ID":256} => ClusterId
cilium/state/ip/v1/default/10.1.0.13/32 {"IP":"10.1.0.14","ID":131328,"Mask":"/////w=="} => Key(Parts { have: 2 })
cilium/state/ip/v1/default/10.1.0.013 {"IP":"10.1.0.14","ID":131328,"Mask":"/////w=="} => Key(Address { at: 27 })
cilium/state/ip/v1/default/10.1.0.13 {"IP":"10.1.0.14","ID":131328,"Mask":"/////w=="} => Mask
cilium/state/ip/v1/default/10.1.0.13 {"IP":"10.1.0.014","ID":131328} => AddressText IP
cilium/state/ip/v1/default/10.1.0.13 {"IP":"10.1.0.14","ID":131328} => ClusterId
cilium/state/ip/v1/default/10.1.0.13 {"IP":"10.1.0.14","ID":65792} => AddressKey
cilium/state/ip/v1/default/fd00::d {"IP":"10.1.0.13","ID":2} => AddressKey
"#;

#[test]
fn an_address_is_answered_with_its_first_fault(rt: HostRuntime) -> Result<(), Fail> {
    each_line_holds(&mut Checking::of_east(rt.alloc())?, rt.alloc(), ADDRESSES)?;
    Ok(())
}

const OTHER_KEYS: &str = r#"cilium/cluster-config/east {"id":1} => Key(UnknownPrefix)
cilium/synced/east/cilium/state/nodes/v1 {"id":1} => Key(UnknownPrefix)
cilium/cuts/v1/east 4 => Key(UnknownPrefix)
"#;

#[test]
fn a_key_of_no_record_has_no_beginning_of_a_records_key(rt: HostRuntime) -> Result<(), Fail> {
    each_line_holds(&mut Checking::of_east(rt.alloc())?, rt.alloc(), OTHER_KEYS)?;
    Ok(())
}

const SIZES: &str =
    r#"cilium/state/nodes/v1/east/n1 {"Name":"n1","Cluster":"east","ClusterID":1} to 32768 => ok
cilium/state/nodes/v1/east/n1 {"Name":"n1","Cluster":"east","ClusterID":1} to 32769 => TooLarge { len: 32769 }
cilium/state/nodes/v1/east/n1 {"Name":"n1"} to 32769 => TooLarge { len: 32769 }
cilium/state/nodes/v1/east/n1 {"Name":"n1"} to 32768 => Missing Cluster
cilium/state/nodes/v1/east/n1/n2 {"Name":"n1","Cluster":"east","ClusterID":1} to 32769 => Key(Parts { have: 3 })
cilium/state/nodes/v1/east/n1 {"Name":"n1","Cluster":"east","ClusterID":1} to 40000 => TooLarge { len: 40000 }
"#;

#[test]
fn a_value_has_at_most_32768_bytes(rt: HostRuntime) -> Result<(), Fail> {
    each_line_holds(&mut Checking::of_east(rt.alloc())?, rt.alloc(), SIZES)?;
    Ok(())
}

const CLUSTERS: &str = r#"east 7 => ok
east 8 => ClusterId
west 7 => Cluster
west 8 => Cluster
"#;

#[test]
fn what_was_read_is_judged_for_the_cluster_that_it_came_from(rt: HostRuntime) -> Result<(), Wrong> {
    each_line_holds(&mut Judging, rt.alloc(), CLUSTERS)
}

const CONFIGS: &str = r#"{"id":1} => ok
{"id":255} => ok
{"id":0} => ClusterId
{"id":256} => ClusterId
{"id":1,"capabilities":{"maxConnectedClusters":0}} => ok
{"id":1,"capabilities":{"maxConnectedClusters":255}} => ok
{"id":1,"capabilities":{"maxConnectedClusters":511}} => Limit { have: 511 }
{"id":1,"capabilities":{"maxConnectedClusters":254}} => Limit { have: 254 }
{"id":0,"capabilities":{"maxConnectedClusters":511}} => ClusterId
{"id":511,"capabilities":{"maxConnectedClusters":511}} => ClusterId
{"id":0,"capabilities":{"syncedCanaries":1,"maxConnectedClusters":511}} => WrongType syncedCanaries
{"capabilities":{"maxConnectedClusters":511}} => Missing id
{"id":1,"capabilities":{"syncedCanaries":true,"maxConnectedClusters":255,"serviceExportsEnabled":null}} => ok
- => Json
{"id":0} to 32769 => TooLarge { len: 32769 }
"#;

#[test]
fn a_config_is_answered_with_its_first_fault(rt: HostRuntime) -> Result<(), Wrong> {
    each_line_holds(&mut CheckingConfigs, rt.alloc(), CONFIGS)
}
