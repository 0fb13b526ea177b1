// The records that a remote declares and withdraws.
ghost use Rattle.std.specs.Prelude.{◌≡◌, ◌<◌, IfOk, OnOk, codes, length, map};
ghost use Rattle.mesh_text.specs.declared.ip.Ip.{Ip};
ghost use Rattle.mesh_world.specs.Records.{address_key, address_of, declaring, declaring_node, identity_key, identity_of, node_key_of, node_record, withdrawing, withdrawn_key};
ghost use Rattle.mesh_remote.specs.Shown.{Changes};
ghost use Rattle.mesh_world.specs.World.{with_exporter};

use crate::remote::Remote;
use key_paths::{Hop, Key};
use mesh_base::{Items, Memory};
use mesh_text::{ClusterName, Ip, PartName, Text};
use record_values::{AddressRecord, IdentityRecord, Label, Node, Record};
use scenario_lang::{Pod, Withdrawn};
use std::alloc::Global;

// A cluster's name as a text.
fn cluster_text(alloc: Global, name: &ClusterName) -> Result<Text, Memory>
    ensures { IfOk result (λ t. t ≡ name.now) }
{
    match str::from_utf8(name.as_bytes()) {
        Ok(text) => Ok(Text::from_str(alloc, text)?),
        Err(_) => unreachable!(),
    }
}

// The name of a node, a namespace or a pod as a text.
fn part_text(alloc: Global, name: &PartName) -> Result<Text, Memory>
    ensures text { IfOk result (λ t. t ≡ name.now) }
    ensures some { 0 < length name.now }
{
    match str::from_utf8(name.as_bytes()) {
        Ok(text) => Ok(Text::from_str(alloc, text)?),
        Err(_) => unreachable!(),
    }
}

// The addresses of a node, all internal ones.
fn internal_addresses(alloc: Global, addresses: &[Ip]) -> Result<Items<(Text, Ip)>, Memory>
    ensures { IfOk result (λ items. items ≡ map (λ (ip : Ip). (codes "InternalIP", ip)) addresses.now) }
{
    let mut items = Items::new(alloc);
    for ip in addresses {
        items.push((Text::from_str(alloc, "InternalIP")?, *ip))?;
    }
    Ok(items)
}

fn node(
    alloc: Global,
    cluster: &ClusterName,
    number: u32,
    name: &PartName,
    addresses: &[Ip],
) -> Result<Record, Memory>
    ensures { IfOk result (λ r. r ≡ node_record cluster.now number name.now addresses.now) }
{
    Ok(Record::Node(Node {
        name: part_text(alloc, name)?,
        cluster: cluster_text(alloc, cluster)?,
        cluster_id: number,
        addresses: internal_addresses(alloc, addresses)?,
    }))
}

fn copy_label(label: &Label) -> Result<Label, Memory>
    ensures { IfOk result (λ copy. copy ≡ label.now) }
{
    Ok(Label {
        source: label.source.clone()?,
        key: label.key.clone()?,
        value: label.value.clone()?,
    })
}

fn identity(alloc: Global, labels: &IdentityRecord) -> Result<Record, Memory>
    ensures { IfOk result (λ r. r ≡ identity_of labels.now) }
{
    let mut copy = Items::new(alloc);
    for label in labels.labels.as_slice() {
        copy.push(copy_label(label)?)?;
    }
    Ok(Record::Identity(IdentityRecord { labels: copy }))
}

// The namespace and the name of a pod that is there.
fn pod_texts(alloc: Global, pod: &Pod) -> Result<(Text, Text), Memory>
    ensures texts { IfOk result (λ texts. (texts.0 ≡ pod.now.namespace) × (texts.1 ≡ pod.now.name)) }
    ensures some { IfOk result (λ texts. (0 < length texts.0) × (0 < length texts.1)) }
{
    Ok((
        part_text(alloc, &pod.namespace)?,
        part_text(alloc, &pod.name)?,
    ))
}

fn address(
    alloc: Global,
    ip: Ip,
    identity: u32,
    host: Option<Ip>,
    pod: &Option<Pod>,
) -> Result<Record, Memory>
    ensures { IfOk result (λ r. r ≡ address_of ip identity host pod.now) }
{
    match pod {
        None => Ok(Record::Address(AddressRecord::new(ip, host, identity, None, None))),
        Some(pod) => {
            let (namespace, name) = pod_texts(alloc, pod)?;
            Ok(Record::Address(AddressRecord::new(ip, host, identity, Some(namespace), Some(name))))
        }
    }
}

fn node_key(cluster: &ClusterName, name: &PartName) -> Result<Key, Memory>
    ensures { IfOk result (λ k. k ≡ node_key_of cluster.now name.now) }
{
    Ok(Key::Node {
        hop: Hop::State,
        cluster: cluster.clone()?,
        node: name.clone()?,
    })
}

fn withdrawn_key(cluster: &ClusterName, withdrawn: &Withdrawn) -> Result<Key, Memory>
    ensures { IfOk result (λ k. k ≡ withdrawn_key cluster.now withdrawn.now) }
{
    Ok(match withdrawn {
        Withdrawn::Node(name) => node_key(cluster, name)?,
        Withdrawn::Identity(number) => Key::Identity {
            cached: None,
            number: *number,
        },
        Withdrawn::Address(ip) => Key::Address {
            cached: None,
            ip: *ip,
        },
    })
}

impl Remote {
    /// The exporter declares a node with these internal addresses.
    pub fn declare_node(
        &mut self,
        alloc: Global,
        name: &PartName,
        addresses: &[Ip],
    ) -> Result<(), Memory>
        ensures changes { OnOk result (Changes (with_exporter (declaring_node name.now addresses.now)) self.old self.new) }
        ensures agent { self.new.agent ≡ self.old.agent }
    {
        let cluster = self.exporter.cluster();
        let key = node_key(cluster, name)?;
        let record = node(alloc, cluster, self.number, name, addresses)?;
        self.exporter.declare(&key, &record)
    }

    /// The exporter declares an identity with its labels.
    pub fn declare_identity(
        &mut self,
        alloc: Global,
        number: u32,
        labels: &IdentityRecord,
    ) -> Result<(), Memory>
        ensures changes { OnOk result (Changes (with_exporter (declaring (identity_key number) (identity_of labels.now))) self.old self.new) }
        ensures agent { self.new.agent ≡ self.old.agent }
    {
        let key = Key::Identity {
            cached: None,
            number,
        };
        let record = identity(alloc, labels)?;
        self.exporter.declare(&key, &record)
    }

    /// The exporter declares an address with its identity, its host and its pod.
    pub fn declare_address(
        &mut self,
        alloc: Global,
        ip: Ip,
        number: u32,
        host: Option<Ip>,
        pod: &Option<Pod>,
    ) -> Result<(), Memory>
        ensures changes { OnOk result (Changes (with_exporter (declaring (address_key ip) (address_of ip number host pod.now))) self.old self.new) }
        ensures agent { self.new.agent ≡ self.old.agent }
    {
        let key = Key::Address { cached: None, ip };
        let record = address(alloc, ip, number, host, pod)?;
        self.exporter.declare(&key, &record)
    }

    /// The exporter withdraws a record.
    pub fn withdraw(&mut self, withdrawn: &Withdrawn) -> Result<(), Memory>
        ensures changes { OnOk result (Changes (with_exporter (withdrawing withdrawn.now)) self.old self.new) }
        ensures agent { self.new.agent ≡ self.old.agent }
    {
        let key = withdrawn_key(self.exporter.cluster(), withdrawn)?;
        self.exporter.withdraw(&key)
    }
}
