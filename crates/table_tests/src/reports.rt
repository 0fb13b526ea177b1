// Reports by their rows, and the texts that they must have.

use crate::words::{first_word, number, on_one_line};
use key_paths::{Hop, KeyFault};
use mesh_base::{Bytes, Items, Memory};
use mesh_text::{ClusterName, Ip, Kind, NameFault, PartName, Text, read_ip, unescape};
use record_check::Fault;
use record_reading::read_record;
use record_values::{Backend, Label, ReadFault, Record};
use report_text::{Head, report_bytes};
use shared_tables::{
    AddressRow, BackendRow, IdentityRow, NodeRow, RejectRow, Report, SourceRow, Why,
};
use std::alloc::{AllocError, AllocFailed, Global};
use test_cases::{Answers, Wrong, each_line_holds};

/// Why a row is none.
#[derive(Debug, Drop)]
enum RowFault {
    Words,
    Memory,
}

impl From<Memory> for RowFault {
    fn from(_: Memory) -> Self {
        RowFault::Memory
    }
}

impl From<AllocError> for RowFault {
    fn from(_: AllocError) -> Self {
        RowFault::Memory
    }
}

impl From<NameFault> for RowFault {
    fn from(fault: NameFault) -> Self {
        match fault {
            NameFault::Memory => RowFault::Memory,
            _ => RowFault::Words,
        }
    }
}

fn cluster(alloc: Global, word: &str) -> Result<ClusterName, RowFault> {
    Ok(ClusterName::read(alloc, word.as_bytes())?)
}

fn part(alloc: Global, word: &str) -> Result<PartName, RowFault> {
    Ok(PartName::read(alloc, word.as_bytes())?)
}

fn ip(word: &str) -> Result<Ip, RowFault> {
    read_ip(word.as_bytes()).ok_or(RowFault::Words)
}

/// An address, or none for `-`.
fn ip_or_none(word: &str) -> Result<Option<Ip>, RowFault> {
    if word == "-" {
        return Ok(None);
    }
    Ok(Some(ip(word)?))
}

/// The bytes that a word stands for, none for `-`.
fn bytes(alloc: Global, word: &str) -> Result<Vec<u8>, RowFault> {
    match unescape(alloc, word.as_bytes())? {
        Some(bytes) => Ok(bytes),
        None => Err(RowFault::Words),
    }
}

fn text(alloc: Global, word: &str) -> Result<Text, RowFault> {
    match String::from_utf8(bytes(alloc, word)?) {
        Ok(text) => Ok(Text::from_string(text)),
        Err(_) => Err(RowFault::Words),
    }
}

/// A text, or none for `-`.
fn text_or_none(alloc: Global, word: &str) -> Result<Option<Text>, RowFault> {
    if word == "-" {
        return Ok(None);
    }
    Ok(Some(text(alloc, word)?))
}

/// A source by its name, its hop, `held` where it is, and its revision.
fn source_row(alloc: Global, words: &str) -> Result<SourceRow, RowFault> {
    let (name, words) = first_word(words);
    let (hop, words) = first_word(words);
    let (held, revision) = match words.strip_prefix("held ") {
        Some(revision) => (true, revision),
        None => (false, words),
    };
    Ok(SourceRow {
        cluster: cluster(alloc, name)?,
        hop: if hop == "Cache" {
            Hop::Cache
        } else {
            Hop::State
        },
        held,
        revision: number(revision),
    })
}

/// Addresses with their types.
fn typed(alloc: Global, words: &str) -> Result<Items<(Text, Ip)>, RowFault> {
    let mut addresses = Items::new(alloc);
    for word in words.split_ascii_whitespace() {
        let (name, address) = word.split_once("=").unwrap_or((word, ""));
        addresses.push((text(alloc, name)?, ip(address)?))?;
    }
    Ok(addresses)
}

/// A node of `east` by its name and its addresses.
fn node_row(alloc: Global, words: &str) -> Result<NodeRow, RowFault> {
    let (name, words) = first_word(words);
    Ok(NodeRow {
        cluster: cluster(alloc, "east")?,
        name: part(alloc, name)?,
        addresses: typed(alloc, words)?,
    })
}

/// The labels of a record with this value.
fn labels(alloc: Global, value: &[u8]) -> Result<Items<Label>, RowFault> {
    match read_record(alloc, Kind::Identities, value) {
        Ok(Record::Identity(identity)) => Ok(identity.labels),
        _ => Err(RowFault::Words),
    }
}

/// An identity of `east` by its number and its value.
fn identity_row(alloc: Global, words: &str) -> Result<IdentityRow, RowFault> {
    let (identity, value) = first_word(words);
    let value = bytes(alloc, value)?;
    Ok(IdentityRow {
        cluster: cluster(alloc, "east")?,
        number: identity.parse::<u32>().unwrap_or(0),
        labels: labels(alloc, value.as_slice())?,
    })
}

/// The address 10.0.0.5 of `east` by its host, its namespace and its pod.
fn address_row(alloc: Global, words: &str) -> Result<AddressRow, RowFault> {
    let (host, words) = first_word(words);
    let (namespace, pod) = first_word(words);
    Ok(AddressRow {
        ip: ip("10.0.0.5")?,
        cluster: cluster(alloc, "east")?,
        identity: 68714,
        host: ip_or_none(host)?,
        namespace: text_or_none(alloc, namespace)?,
        pod: text_or_none(alloc, pod)?,
    })
}

/// A backend by its address, its port and the port's name.
fn backend(alloc: Global, words: &str) -> Result<Backend, RowFault> {
    let (address, words) = first_word(words);
    let (port, name) = first_word(words);
    let ip = ip(address)?;
    let port = port.parse::<u16>().unwrap_or(0);
    let protocol = text(alloc, "TCP")?;
    let name = text(alloc, name)?;
    Backend::new(ip, port, protocol, name).ok_or(RowFault::Words)
}

/// A backend of a service in the namespace `prod`, by the service, the cluster and the backend.
fn backend_row(alloc: Global, words: &str) -> Result<BackendRow, RowFault> {
    let (service, words) = first_word(words);
    let (name, words) = first_word(words);
    Ok(BackendRow {
        namespace: part(alloc, "prod")?,
        name: part(alloc, service)?,
        cluster: cluster(alloc, name)?,
        backend: backend(alloc, words)?,
    })
}

fn why(word: &str) -> Result<Why, RowFault> {
    match word {
        "IdTaken" => Ok(Why::IdTaken),
        "Name" => Ok(Why::Fault(Fault::Name)),
        "Mask" => Ok(Why::Fault(Fault::Read(ReadFault::Mask))),
        "KeyName" => Ok(Why::Fault(Fault::Key(KeyFault::Name { at: 27 }))),
        _ => Err(RowFault::Words),
    }
}

/// What `east` has that is rejected, by why it is and by the key.
fn reject_row(alloc: Global, words: &str) -> Result<RejectRow, RowFault> {
    let (word, key) = first_word(words);
    Ok(RejectRow {
        cluster: cluster(alloc, "east")?,
        key: Bytes::from_vec(bytes(alloc, key)?),
        why: why(word)?,
    })
}

fn push_row(alloc: Global, report: &mut Report, row: &str) -> Result<(), RowFault> {
    let (kind, words) = first_word(row);
    match kind {
        "source" => report.sources.push(source_row(alloc, words)?)?,
        "node" => report.nodes.push(node_row(alloc, words)?)?,
        "identity" => report.identities.push(identity_row(alloc, words)?)?,
        "address" => report.addresses.push(address_row(alloc, words)?)?,
        "backend" => report.backends.push(backend_row(alloc, words)?)?,
        "chosen" => report.chosen.push(backend_row(alloc, words)?)?,
        "reject" => report.rejects.push(reject_row(alloc, words)?)?,
        _ => return Err(RowFault::Words),
    }
    Ok(())
}

/// The report of the rows.
fn report(alloc: Global, rows: &str) -> Result<Report, RowFault> {
    let mut report = Report {
        sources: Items::new(alloc),
        nodes: Items::new(alloc),
        identities: Items::new(alloc),
        addresses: Items::new(alloc),
        backends: Items::new(alloc),
        chosen: Items::new(alloc),
        rejects: Items::new(alloc),
    };
    for row in rows.split("|") {
        push_row(alloc, &mut report, row)?;
    }
    Ok(report)
}

/// The text of a report, by its first line and its rows with `|` between them.
fn report_words(alloc: Global, asked: &str) -> Result<String, RowFault> {
    let (first, rows) = asked.split_once("|").unwrap_or((asked, ""));
    let (word, count) = first_word(first);
    let head = if word == "probe" {
        Head::Probe
    } else {
        Head::Report
    };
    let report = report(alloc, rows)?;
    let text = report_bytes(alloc, head, number(count), &report)?;
    Ok(on_one_line(alloc, text.as_slice())?)
}

#[derive(Drop)]
struct Texts;

impl Answers for Texts {
    fn answer(&mut self, alloc: Global, asked: &str) -> Result<String, Memory> {
        match report_words(alloc, asked) {
            Ok(words) => Ok(words),
            Err(RowFault::Words) => Ok("no row".to_string(alloc)?),
            Err(RowFault::Memory) => Err(Memory),
        }
    }
}

#[test]
fn each_row_has_its_line(rt: HostRuntime) -> Result<(), Wrong> {
    let lines = "report 1|\
        source east State 10|\
        node n1 InternalIP=172.18.0.2 CiliumInternalIP=10.0.0.41|\
        identity 68714 k8s:app=web;k8s:io.cilium.k8s.policy.cluster=east;|\
        address 172.18.0.2 prod web-0|\
        backend web east 10.0.0.5 8080 http => \
        report 1|\
        source east direct 10|\
        node east n1 InternalIP=172.18.0.2 CiliumInternalIP=10.0.0.41|\
        identity east 68714 k8s:app=web;k8s:io.cilium.k8s.policy.cluster=east;|\
        address 10.0.0.5 east 68714 172.18.0.2 prod web-0|\
        backend prod web east 10.0.0.5,8080,TCP,http|\
        end|";
    each_line_holds(&mut Texts, rt.alloc(), lines)
}

#[test]
fn a_source_that_is_not_caught_up_is_held(rt: HostRuntime) -> Result<(), Wrong> {
    let lines = "probe 2|\
        source west Cache 206|\
        source east State held 3|\
        source north Cache held 0 => \
        probe 2|\
        source east direct held 3|\
        source north cached held 0|\
        source west cached 206|\
        end|";
    each_line_holds(&mut Texts, rt.alloc(), lines)
}

#[test]
fn rows_stand_in_byte_order_of_their_lines(rt: HostRuntime) -> Result<(), Wrong> {
    let lines = "report 1|\
        node n2|\
        node n10|\
        node n1|\
        chosen web home 10.9.0.1 80 http|\
        chosen api home 10.9.0.2 80 http|\
        backend api east 10.1.0.2 80 http => \
        report 1|\
        node east n1|\
        node east n10|\
        node east n2|\
        backend prod api east 10.1.0.2,80,TCP,http|\
        chosen prod api home 10.9.0.2,80,TCP,http|\
        chosen prod web home 10.9.0.1,80,TCP,http|\
        end|";
    each_line_holds(&mut Texts, rt.alloc(), lines)
}

#[test]
fn what_is_none_or_no_plain_word_can_be_told(rt: HostRuntime) -> Result<(), Wrong> {
    let lines = "report 1|\
        node n8 Internal%20IP=2001:db8:0:0:0:0:0:1|\
        identity 1 -|\
        identity 65792 k8s:app=a%20b;|\
        address - - %2D|\
        backend web east 10.0.0.5 80 -|\
        reject KeyName cilium/state/nodes/v1/east/n%202 => \
        report 1|\
        node east n8 Internal%20IP=2001:db8::1|\
        identity east 1 -|\
        identity east 65792 k8s:app=a%20b;|\
        address 10.0.0.5 east 68714 - - %2D|\
        backend prod web east 10.0.0.5,80,TCP,-|\
        reject east cilium/state/nodes/v1/east/n%202 key_name|\
        end|";
    each_line_holds(&mut Texts, rt.alloc(), lines)
}

const REJECTS: &str = "\
report 1|reject Name cilium/state/nodes/v1/east/n2 => report 1|reject east cilium/state/nodes/v1/east/n2 name|end|
report 1|reject Mask cilium/state/nodes/v1/east/n2 => report 1|reject east cilium/state/nodes/v1/east/n2 mask|end|
report 1|reject IdTaken cilium/state/nodes/v1/east/n2 => report 1|reject east cilium/state/nodes/v1/east/n2 id_taken|end|";

#[test]
fn a_reject_says_why(rt: HostRuntime) -> Result<(), Wrong> {
    each_line_holds(&mut Texts, rt.alloc(), REJECTS)
}
