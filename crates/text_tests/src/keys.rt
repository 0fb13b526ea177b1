use crate::texts::{number_of, unquoted};
use key_paths::{
    Hop, Key, KeyFault, is_record_key, ranges, read_key, to_cache, to_state, write_key,
};
use mesh_base::Memory;
use mesh_text::ClusterName;
use std::alloc::Global;
use std::str;
use std::test::Fail;
use store_api::Range;
use test_cases::{Answers, Wrong, each_line_holds};

/// What a key says in words, where it is written and copied as it was read, or why it is none.
#[derive(Drop)]
struct KeysInWords;

fn as_text(bytes: &[u8]) -> &str {
    str::from_utf8(bytes).unwrap_or("?")
}

fn of_cluster(alloc: Global, what: String, cached: &Option<ClusterName>) -> Result<String, Memory> {
    match cached {
        Some(cluster) => {
            let cluster = as_text(cluster.as_bytes());
            Ok(format!(in alloc; "{what} of {cluster}")?)
        }
        None => Ok(what),
    }
}

fn record_in_words(alloc: Global, kind: &str, hop: Hop, names: &[&[u8]]) -> Result<String, Memory> {
    let mut words = format!(in alloc; "{kind} {hop:?}")?;
    for name in names {
        words.push_str(" ")?;
        words.push_str(as_text(name))?;
    }
    Ok(words)
}

fn key_in_words(alloc: Global, key: &Key) -> Result<String, Memory> {
    match key {
        Key::Config { cluster } => {
            let cluster = as_text(cluster.as_bytes());
            Ok(format!(in alloc; "config {cluster}")?)
        }
        Key::Synced { cluster, hop, kind } => {
            let cluster = as_text(cluster.as_bytes());
            Ok(format!(in alloc; "synced {cluster} {hop:?} {kind:?}")?)
        }
        Key::Node { hop, cluster, node } => {
            record_in_words(alloc, "node", *hop, &[cluster.as_bytes(), node.as_bytes()])
        }
        Key::Service {
            hop,
            cluster,
            namespace,
            name,
        } => record_in_words(
            alloc,
            "service",
            *hop,
            &[cluster.as_bytes(), namespace.as_bytes(), name.as_bytes()],
        ),
        Key::Identity { cached, number } => {
            of_cluster(alloc, format!(in alloc; "identity {number}")?, cached)
        }
        Key::Address { cached, ip } => {
            let number = number_of(alloc, *ip)?;
            of_cluster(alloc, format!(in alloc; "address {number}")?, cached)
        }
        Key::Cut { cluster } => {
            let cluster = as_text(cluster.as_bytes());
            Ok(format!(in alloc; "cut {cluster}")?)
        }
    }
}

fn is_written_so(alloc: Global, key: &Key, text: &str) -> Result<bool, Memory> {
    let written = write_key(alloc, key)?;
    Ok(written.as_slice() == text.as_bytes())
}

fn is_copied_so(key: &Key) -> Result<bool, Memory> {
    let copy = key.clone()?;
    Ok(copy == *key)
}

/// The key in words, where it is written and copied as it was read.
fn checked_in_words(alloc: Global, key: &Key, text: &str) -> Result<String, Memory> {
    if !is_written_so(alloc, key, text)? {
        return Ok("written otherwise".to_string(alloc)?);
    }
    if !is_copied_so(key)? {
        return Ok("copied otherwise".to_string(alloc)?);
    }
    key_in_words(alloc, key)
}

fn fault_in_words(alloc: Global, fault: KeyFault) -> Result<String, Memory> {
    match fault {
        KeyFault::Memory => Err(Memory),
        fault => Ok(format!(in alloc; "{fault:?}")?),
    }
}

impl Answers for KeysInWords {
    fn answer(&mut self, alloc: Global, asked: &str) -> Result<String, Memory> {
        let text = unquoted(asked);
        match read_key(alloc, text.as_bytes()) {
            Ok(key) => checked_in_words(alloc, &key, text),
            Err(fault) => fault_in_words(alloc, fault),
        }
    }
}

const KEYS: &str = "\
cilium/state/nodes/v1/east/n1 => node State east n1
cilium/cache/nodes/v1/east/n1 => node Cache east n1
cilium/state/services/v1/east/prod/web.0 => service State east prod web.0
cilium/cache/services/v1/east/prod/web.0 => service Cache east prod web.0
cilium/state/identities/v1/id/0 => identity 0
cilium/state/identities/v1/id/131328 => identity 131328
cilium/state/identities/v1/id/4294967295 => identity 4294967295
cilium/state/ip/v1/default/10.0.0.5 => address V4 0A000005
cilium/state/ip/v1/default/2001:db8::1 => address V6 20010DB8000000000000000000000001
cilium/cache/identities/v1/east/id/65792 => identity 65792 of east
cilium/cache/ip/v1/east/2001:db8::1 => address V6 20010DB8000000000000000000000001 of east
cilium/cluster-config/east => config east
cilium/cuts/v1/east => cut east
cilium/synced/east/cilium/state/nodes/v1 => synced east State Nodes
cilium/synced/east/cilium/state/services/v1 => synced east State Services
cilium/synced/east/cilium/state/identities/v1 => synced east State Identities
cilium/synced/east/cilium/state/ip/v1 => synced east State Addresses
cilium/synced/east/cilium/cache/nodes/v1 => synced east Cache Nodes
cilium/synced/east/cilium/cache/services/v1 => synced east Cache Services
cilium/synced/east/cilium/cache/identities/v1 => synced east Cache Identities
cilium/synced/east/cilium/cache/ip/v1 => synced east Cache Addresses
cilium/state/services/v1/east/default/web => service State east default web
";

#[test]
fn each_key_is_read_written_and_copied(rt: HostRuntime) -> Result<(), Wrong> {
    each_line_holds(&mut KeysInWords, rt.alloc(), KEYS)
}

const FAULTY_KEYS: &str = "\
'' => UnknownPrefix
cilium/ => UnknownPrefix
cilium/cluster-config => UnknownPrefix
/cilium/cuts/v1/east => UnknownPrefix
cilium/state/nodes/v2/east/n1 => UnknownPrefix
cilium/state/identities/v1/ip/1 => UnknownPrefix
cilium/cluster-config/ => Name { at: 22 }
cilium/cluster-config/East => Name { at: 22 }
cilium/cluster-config/east/ => Parts { have: 2 }
cilium/synced/east => Parts { have: 1 }
cilium/synced/east/cilium/state/nodes/v2 => Parts { have: 5 }
cilium/synced/East/cilium/state/pods/v1 => Parts { have: 5 }
cilium/synced/east/cilium/state/nodes/v1/ => Parts { have: 6 }
cilium/synced/-east/cilium/state/nodes/v1 => Name { at: 14 }
cilium/cuts/v1/east/1 => Parts { have: 2 }
cilium/cuts/v1/east- => Name { at: 15 }
cilium/state/nodes/v1/east => Parts { have: 1 }
cilium/state/nodes/v1/east/n1/ => Parts { have: 3 }
cilium/state/nodes/v1/e_st/N1 => Name { at: 22 }
cilium/state/nodes/v1/east/ => Name { at: 27 }
cilium/state/services/v1/east/prod => Parts { have: 2 }
cilium/state/services/v1//prod/web => Name { at: 25 }
cilium/state/services/v1/east/pr_d/we_b => Name { at: 30 }
cilium/state/services/v1/east/prod/we_b => Name { at: 35 }
cilium/state/identities/v1/id/ => Number { at: 30 }
cilium/state/identities/v1/id/007 => Number { at: 30 }
cilium/state/identities/v1/id/4294967296 => Number { at: 30 }
cilium/state/identities/v1/id/1/ => Parts { have: 2 }
cilium/state/ip/v1/default/10.0.0.256 => Address { at: 27 }
cilium/state/ip/v1/default/2001:DB8::1 => Address { at: 27 }
cilium/state/ip/v1/default/10.0.0.0/24 => Parts { have: 2 }
cilium/cache/nodes/v1/east => Parts { have: 1 }
cilium/cache/nodes/v1/east/n 1 => Name { at: 27 }
cilium/cache/services/v1/east/prod/web/ => Parts { have: 4 }
cilium/cache/services/v1/east/prod/ => Name { at: 35 }
cilium/cache/identities/v1/east/65792 => Parts { have: 2 }
cilium/cache/identities/v1/East/ip/x => Parts { have: 3 }
cilium/cache/identities/v1/East/id/x => Name { at: 27 }
cilium/cache/identities/v1/east/id/65792x => Number { at: 35 }
cilium/cache/ip/v1/10.0.0.5 => Parts { have: 1 }
cilium/cache/ip/v1/ea.st/x => Name { at: 19 }
cilium/cache/ip/v1/east/2001:db8:0::1 => Address { at: 24 }
";

#[test]
fn the_first_fault_of_a_key_is_answered(rt: HostRuntime) -> Result<(), Wrong> {
    each_line_holds(&mut KeysInWords, rt.alloc(), FAULTY_KEYS)
}

// Each key as its beginning, the byte behind it, and how often that comes.
const LONG_KEYS: &str = "\
cilium/cluster-config/ a 1002 => 1024 bytes: Name { at: 22 }
cilium/cuts/v1/ / 1009 => 1024 bytes: Parts { have: 1010 }
cilium/cache/nodes/v1/east/ n 253 => 280 bytes: a key
";

/// Whether a key of many bytes is one, and is written as it was read.
#[derive(Drop)]
struct LongKeys;

fn long_key(alloc: Global, front: &str, byte: &str, count: usize) -> Result<String, Memory> {
    let many = byte.repeat(alloc, count)?;
    Ok(format!(in alloc; "{front}{many}")?)
}

fn judged(alloc: Global, key: &Key, text: &str) -> Result<String, Memory> {
    let told = if is_written_so(alloc, key, text)? {
        "a key"
    } else {
        "written otherwise"
    };
    Ok(told.to_string(alloc)?)
}

fn read_and_judged(alloc: Global, text: &str) -> Result<String, Memory> {
    match read_key(alloc, text.as_bytes()) {
        Ok(key) => judged(alloc, &key, text),
        Err(fault) => fault_in_words(alloc, fault),
    }
}

impl Answers for LongKeys {
    fn answer(&mut self, alloc: Global, asked: &str) -> Result<String, Memory> {
        let (front, rest) = asked.split_once(" ").unwrap_or((asked, ""));
        let (byte, count) = rest.split_once(" ").unwrap_or((rest, ""));
        let text = long_key(alloc, front, byte, count.parse().unwrap_or(0))?;
        let length = text.len();
        let judged = read_and_judged(alloc, text.as_str())?;
        Ok(format!(in alloc; "{length} bytes: {judged}")?)
    }
}

#[test]
fn keys_of_many_bytes_are_judged_too(rt: HostRuntime) -> Result<(), Wrong> {
    each_line_holds(&mut LongKeys, rt.alloc(), LONG_KEYS)
}

const RANGES: &str = "\
State 0 => One cilium/cluster-config/east
State 1 => Prefix cilium/synced/east/
State 2 => Prefix cilium/state/nodes/v1/east/
State 3 => Prefix cilium/state/services/v1/east/
State 4 => Prefix cilium/state/identities/v1/id/
State 5 => Prefix cilium/state/ip/v1/default/
State 6 => none
Cache 0 => One cilium/cluster-config/east
Cache 1 => Prefix cilium/synced/east/
Cache 2 => Prefix cilium/cache/nodes/v1/east/
Cache 3 => Prefix cilium/cache/services/v1/east/
Cache 4 => Prefix cilium/cache/identities/v1/east/id/
Cache 5 => Prefix cilium/cache/ip/v1/east/
Cache 6 => One cilium/cuts/v1/east
Cache 7 => none
";

/// The ranges of a cluster by hop and place.
#[derive(Drop)]
struct RangesOf {
    cluster: ClusterName,
}

fn range_in_words(alloc: Global, range: &Range) -> Result<String, Memory> {
    match range {
        Range::One(key) => {
            let key = as_text(key.as_slice());
            Ok(format!(in alloc; "One {key}")?)
        }
        Range::Prefix(front) => {
            let front = as_text(front.as_slice());
            Ok(format!(in alloc; "Prefix {front}")?)
        }
    }
}

impl Answers for RangesOf {
    fn answer(&mut self, alloc: Global, asked: &str) -> Result<String, Memory> {
        let (hop, place) = asked.split_once(" ").unwrap_or((asked, ""));
        let hop = if hop == "State" {
            Hop::State
        } else {
            Hop::Cache
        };
        let followed = ranges(alloc, &self.cluster, hop)?;
        match followed.items.as_slice().get(place.parse().unwrap_or(0)) {
            Some(range) => range_in_words(alloc, range),
            None => Ok("none".to_string(alloc)?),
        }
    }
}

#[test]
fn a_reader_follows_the_ranges_of_its_cluster(rt: HostRuntime) -> Result<(), Fail> {
    let mut east = RangesOf {
        cluster: ClusterName::read(rt.alloc(), b"east")?,
    };
    each_line_holds(&mut east, rt.alloc(), RANGES)?;
    Ok(())
}

const MOVED_KEYS: &str = "\
cilium/state/nodes/v1/east/n1 => cilium/cache/nodes/v1/east/n1
cilium/state/nodes/v1/east/ => cilium/cache/nodes/v1/east/
cilium/state/services/v1/east/prod/web => cilium/cache/services/v1/east/prod/web
cilium/state/services/v1/east/ /%// => cilium/cache/services/v1/east/ /%//
cilium/state/identities/v1/id/65792 => cilium/cache/identities/v1/east/id/65792
cilium/state/identities/v1/id/x/y => cilium/cache/identities/v1/east/id/x/y
cilium/state/ip/v1/default/10.0.0.5 => cilium/cache/ip/v1/east/10.0.0.5
cilium/state/ip/v1/default/10.0.0.0/24 => cilium/cache/ip/v1/east/10.0.0.0/24
";

const OTHER_KEYS: &str = "\
'' => stays
cilium/cluster-config/east => stays
cilium/synced/east/cilium/state/nodes/v1 => stays
cilium/cuts/v1/east => stays
cilium/state/nodes/v1/east => stays
cilium/state/nodes/v1/east2/n1 => stays
cilium/cache/ip/v1/east2/10.0.0.5 => stays
cilium/cache/identities/v1/east/ip/65792 => stays
";

/// The cache key of a state key of the cluster, where moving it back gives the state key again.
#[derive(Drop)]
struct Moves {
    cluster: ClusterName,
}

fn is_moved_back(
    alloc: Global,
    cluster: &ClusterName,
    state: &str,
    cache: &[u8],
) -> Result<bool, Memory> {
    let back = to_state(alloc, cluster, cache)?;
    Ok(match back {
        Some(back) => back.as_slice() == state.as_bytes(),
        None => false,
    })
}

fn moved_back(
    alloc: Global,
    cluster: &ClusterName,
    state: &str,
    cache: &[u8],
) -> Result<String, Memory> {
    if is_moved_back(alloc, cluster, state, cache)? {
        return Ok(as_text(cache).to_string(alloc)?);
    }
    Ok("moved back otherwise".to_string(alloc)?)
}

fn not_to_cache(alloc: Global, cluster: &ClusterName, key: &str) -> Result<String, Memory> {
    match to_state(alloc, cluster, key.as_bytes())? {
        Some(_) => Ok("moved to state".to_string(alloc)?),
        None => Ok("stays".to_string(alloc)?),
    }
}

impl Answers for Moves {
    fn answer(&mut self, alloc: Global, asked: &str) -> Result<String, Memory> {
        let key = unquoted(asked);
        match to_cache(alloc, &self.cluster, key.as_bytes())? {
            Some(cache) => moved_back(alloc, &self.cluster, key, cache.as_slice()),
            None => not_to_cache(alloc, &self.cluster, key),
        }
    }
}

#[test]
fn record_keys_are_moved_between_the_hops(rt: HostRuntime) -> Result<(), Fail> {
    let mut east = Moves {
        cluster: ClusterName::read(rt.alloc(), b"east")?,
    };
    each_line_holds(&mut east, rt.alloc(), MOVED_KEYS)?;
    Ok(())
}

#[test]
fn other_keys_are_not_moved(rt: HostRuntime) -> Result<(), Fail> {
    let mut east = Moves {
        cluster: ClusterName::read(rt.alloc(), b"east")?,
    };
    each_line_holds(&mut east, rt.alloc(), OTHER_KEYS)?;
    Ok(())
}

const KEYS_BY_BEGINNING: &str = "\
cilium/state/nodes/v1/east/n1 => at State
cilium/state/services/v1/east/default/web => at State
cilium/state/identities/v1/id/65792 => at State
cilium/state/ip/v1/default/10.0.0.1 => at State
cilium/state/nodes/v1/east/ => at State
cilium/cluster-config/east => no record
cilium/synced/east/cilium/state/nodes/v1 => no record
cilium/state/nodes/v1/east2/n1 => no record
cilium/state/nodes/v1/east => no record
cilium/cache/identities/v1/east/id/65792 => at Cache
cilium/cache/identities/v1/west/id/65792 => no record
";

/// At which hop a key is that of a record of the cluster.
#[derive(Drop)]
struct RecordKeys {
    cluster: ClusterName,
}

impl Answers for RecordKeys {
    fn answer(&mut self, alloc: Global, asked: &str) -> Result<String, Memory> {
        let at_state = is_record_key(&self.cluster, Hop::State, asked.as_bytes());
        let at_cache = is_record_key(&self.cluster, Hop::Cache, asked.as_bytes());
        let told = match (at_state, at_cache) {
            (true, true) => "at both",
            (true, false) => "at State",
            (false, true) => "at Cache",
            (false, false) => "no record",
        };
        Ok(told.to_string(alloc)?)
    }
}

#[test]
fn the_keys_of_records_are_told_by_their_beginning(rt: HostRuntime) -> Result<(), Fail> {
    let mut east = RecordKeys {
        cluster: ClusterName::read(rt.alloc(), b"east")?,
    };
    each_line_holds(&mut east, rt.alloc(), KEYS_BY_BEGINNING)?;
    Ok(())
}
