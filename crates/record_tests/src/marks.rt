use key_paths::{Hop, Kind};
use mesh_base::Memory;
use mesh_records::ClusterConfig;
use mesh_text::{ClusterName, NameFault};
use std::alloc::Global;
use std::test::Fail;
use synced_marks::{cut_key, cut_value, is_synced, mark_key, read_cut};
use test_cases::{Answers, Wrong, each_line_holds};

// The config that a word names, if it names one.
fn config_of(word: &str) -> Option<ClusterConfig> {
    match word {
        "plain" => Some(ClusterConfig::new(1, false, false, 255)),
        "canaries" => Some(ClusterConfig::new(1, true, false, 255)),
        _ => None,
    }
}

// The marks of the four kinds, each there where its digit is `1`.
fn marks_of(digits: &str) -> [bool; 4] {
    let mut marks = [false; 4];
    for (mark, digit) in marks.iter_mut().zip(digits.as_bytes()) {
        *mark = *digit == b'1';
    }
    marks
}

// Answers a config and marks with whether their source is synced.
#[derive(Drop)]
struct Sources;

impl Answers for Sources {
    fn answer(&mut self, alloc: Global, asked: &str) -> Result<String, Memory> {
        let (word, digits) = asked.split_once(" ").unwrap_or((asked, ""));
        let config = config_of(word);
        let synced = is_synced(config.as_ref(), marks_of(digits));
        Ok(synced.to_string(alloc)?)
    }
}

const SOURCES: &str = "\
    none 1111 => false\n\
    plain 0000 => true\n\
    canaries 1111 => true\n\
    canaries 0111 => false\n\
    canaries 1011 => false\n\
    canaries 1101 => false\n\
    canaries 1110 => false\n";

#[test]
fn a_source_is_synced_by_its_config_and_its_marks(rt: HostRuntime) -> Result<(), Wrong> {
    each_line_holds(&mut Sources, rt.alloc(), SOURCES)
}

fn hop_of(word: &str) -> Hop {
    match word {
        "cache" => Hop::Cache,
        _ => Hop::State,
    }
}

fn kind_of(word: &str) -> Kind {
    match word {
        "nodes" => Kind::Nodes,
        "services" => Kind::Services,
        "identities" => Kind::Identities,
        _ => Kind::Addresses,
    }
}

// Answers `cut`, or a hop and a kind, with the cluster's key for it.
#[derive(Drop)]
struct Keys {
    cluster: ClusterName,
}

impl Keys {
    fn of_east(alloc: Global) -> Result<Keys, NameFault> {
        let cluster = ClusterName::read(alloc, b"east")?;
        Ok(Keys { cluster })
    }
}

impl Answers for Keys {
    fn answer(&mut self, alloc: Global, asked: &str) -> Result<String, Memory> {
        let key = match asked.split_once(" ") {
            Some((hop, kind)) => mark_key(alloc, &self.cluster, hop_of(hop), kind_of(kind))?,
            None => cut_key(alloc, &self.cluster)?,
        };
        Ok(String::from_utf8_lossy(alloc, key.as_slice())?)
    }
}

const KEYS: &str = "\
    state nodes => cilium/synced/east/cilium/state/nodes/v1\n\
    state services => cilium/synced/east/cilium/state/services/v1\n\
    cache identities => cilium/synced/east/cilium/cache/identities/v1\n\
    cache addresses => cilium/synced/east/cilium/cache/ip/v1\n\
    cut => cilium/cuts/v1/east\n";

#[test]
fn marks_and_cuts_have_their_keys(rt: HostRuntime) -> Result<(), Fail> {
    each_line_holds(&mut Keys::of_east(rt.alloc())?, rt.alloc(), KEYS)?;
    Ok(())
}

// Answers `write` and a revision with the value of its cut, and `read` and a value with its revision.
#[derive(Drop)]
struct Cuts;

impl Answers for Cuts {
    fn answer(&mut self, alloc: Global, asked: &str) -> Result<String, Memory> {
        let (verb, word) = asked.split_once(" ").unwrap_or((asked, ""));
        if verb == "read" {
            let revision = read_cut(word.as_bytes());
            return Ok(format!(in alloc; "{revision:?}")?);
        }
        let value = cut_value(alloc, word.parse::<u64>().unwrap_or(0))?;
        Ok(String::from_utf8_lossy(alloc, value.as_slice())?)
    }
}

const CUTS: &str = "\
    write 206 => 206\n\
    read 206 => Some(206)\n\
    read 0206 => None\n\
    read => None\n\
    read 18446744073709551616 => None\n";

#[test]
fn a_cut_is_a_canonical_decimal(rt: HostRuntime) -> Result<(), Wrong> {
    each_line_holds(&mut Cuts, rt.alloc(), CUTS)
}
