// Bytes as a key.
ghost use Rattle.std.specs.Prelude.{◌≡◌, length, map};
ghost use Rattle.key_paths.specs.Parts.{seen};
ghost use Rattle.key_paths.specs.Reading.{Gives, hop_named, kind_named, path_of, key_of, mark_of_parts, node_of_parts, names_at, service_of_parts, identity_of_parts, address_of_parts, record_of_parts, key_of_parts};
ghost use Rattle.key_paths.specs.Reading.{cluster_alone};
ghost use Rattle.key_paths.specs.declared.hop.Hop.TheVariants.{State, Cache};

use crate::fault::KeyFault;
use crate::front::{Front, front_at};
use crate::hop::Hop;
use crate::key::Key;
use crate::parts::{Part, cluster_at, ip_at, name_at, number_at, parts_behind};
use crate::words::{HOPS, KINDS, hop_word, kind_word};
use mesh_text::{ClusterName, Kind, PartName};
use std::alloc::Global;

/// The fault of parts that are not those that there must be.
fn other_parts(parts: &[Part<'_>]) -> KeyFault
    ensures { result ≡ KeyFault.Parts (length parts.now) }
{
    KeyFault::Parts {
        have: parts.len() as u64,
    }
}

fn hop_named(word: &[u8]) -> Option<Hop>
    ensures { result ≡ hop_named word.now }
{
    HOPS.iter().copied().find(|hop| word == hop_word(*hop))
}

fn kind_named(word: &[u8]) -> Option<Kind>
    ensures { result ≡ kind_named word.now }
{
    KINDS.iter().copied().find(|kind| word == kind_word(*kind))
}

/// The hop and the kind of which four parts are the path, as `cilium/state/nodes/v1`.
fn path_of(first: &[u8], hop: &[u8], kind: &[u8], last: &[u8]) -> Option<(Hop, Kind)>
    ensures { result ≡ path_of first.now hop.now kind.now last.now }
{
    if first == b"cilium".as_slice() && last == b"v1".as_slice() {
        let hop = hop_named(hop)?;
        let kind = kind_named(kind)?;
        Some((hop, kind))
    } else {
        None
    }
}

fn mark_of_parts(alloc: Global, parts: &[Part<'_>]) -> Result<Key, KeyFault>
    ensures { Gives result (mark_of_parts (map seen parts.now)) }
{
    let [cluster, first, hop, kind, last] = parts else {
        return Err(other_parts(parts));
    };
    let Some((hop, kind)) = path_of(first.text, hop.text, kind.text, last.text) else {
        return Err(other_parts(parts));
    };
    let cluster = cluster_at(alloc, cluster)?;
    Ok(Key::Synced { cluster, hop, kind })
}

fn node_of_parts(alloc: Global, hop: Hop, parts: &[Part<'_>]) -> Result<Key, KeyFault>
    ensures { Gives result (node_of_parts hop (map seen parts.now)) }
{
    let [cluster, node] = parts else {
        return Err(other_parts(parts));
    };
    let cluster = cluster_at(alloc, cluster)?;
    let node = name_at(alloc, node)?;
    Ok(Key::Node { hop, cluster, node })
}

/// A namespace and a name in it.
fn names_at(
    alloc: Global,
    namespace: &Part<'_>,
    name: &Part<'_>,
) -> Result<(PartName, PartName), KeyFault>
    ensures { Gives result (names_at (seen namespace.now) (seen name.now)) }
{
    let namespace = name_at(alloc, namespace)?;
    let name = name_at(alloc, name)?;
    Ok((namespace, name))
}

fn service_of_parts(alloc: Global, hop: Hop, parts: &[Part<'_>]) -> Result<Key, KeyFault>
    ensures { Gives result (service_of_parts hop (map seen parts.now)) }
{
    let [cluster, namespace, name] = parts else {
        return Err(other_parts(parts));
    };
    let cluster = cluster_at(alloc, cluster)?;
    let (namespace, name) = names_at(alloc, namespace, name)?;
    Ok(Key::Service {
        hop,
        cluster,
        namespace,
        name,
    })
}

fn state_identity(parts: &[Part<'_>]) -> Result<Key, KeyFault>
    ensures { Gives result (identity_of_parts State (map seen parts.now)) }
{
    let [number] = parts else {
        return Err(other_parts(parts));
    };
    let number = number_at(number)?;
    Ok(Key::Identity {
        cached: None,
        number,
    })
}

fn cached_identity(alloc: Global, parts: &[Part<'_>]) -> Result<Key, KeyFault>
    ensures { Gives result (identity_of_parts Cache (map seen parts.now)) }
{
    let [cluster, word, number] = parts else {
        return Err(other_parts(parts));
    };
    if word.text != b"id".as_slice() {
        return Err(other_parts(parts));
    }
    let cluster = cluster_at(alloc, cluster)?;
    let number = number_at(number)?;
    Ok(Key::Identity {
        cached: Some(cluster),
        number,
    })
}

fn state_address(alloc: Global, parts: &[Part<'_>]) -> Result<Key, KeyFault>
    ensures { Gives result (address_of_parts State (map seen parts.now)) }
{
    let [address] = parts else {
        return Err(other_parts(parts));
    };
    let ip = ip_at(alloc, address)?;
    Ok(Key::Address { cached: None, ip })
}

fn cached_address(alloc: Global, parts: &[Part<'_>]) -> Result<Key, KeyFault>
    ensures { Gives result (address_of_parts Cache (map seen parts.now)) }
{
    let [cluster, address] = parts else {
        return Err(other_parts(parts));
    };
    let cluster = cluster_at(alloc, cluster)?;
    let ip = ip_at(alloc, address)?;
    Ok(Key::Address {
        cached: Some(cluster),
        ip,
    })
}

fn record_of_parts(alloc: Global, kind: Kind, hop: Hop, parts: &[Part<'_>]) -> Result<Key, KeyFault>
    ensures { Gives result (record_of_parts kind hop (map seen parts.now)) }
{
    match (kind, hop) {
        (Kind::Nodes, _) => node_of_parts(alloc, hop, parts),
        (Kind::Services, _) => service_of_parts(alloc, hop, parts),
        (Kind::Identities, Hop::State) => state_identity(parts),
        (Kind::Identities, Hop::Cache) => cached_identity(alloc, parts),
        (Kind::Addresses, Hop::State) => state_address(alloc, parts),
        (Kind::Addresses, Hop::Cache) => cached_address(alloc, parts),
    }
}

/// The only part, which must be a cluster.
fn cluster_alone(alloc: Global, parts: &[Part<'_>]) -> Result<ClusterName, KeyFault>
    ensures { Gives result (cluster_alone (map seen parts.now)) }
{
    let [cluster] = parts else {
        return Err(other_parts(parts));
    };
    cluster_at(alloc, cluster)
}

fn key_of_parts(alloc: Global, front: Front, parts: &[Part<'_>]) -> Result<Key, KeyFault>
    ensures { Gives result (key_of_parts front (map seen parts.now)) }
{
    match front {
        Front::Configs => {
            let cluster = cluster_alone(alloc, parts)?;
            Ok(Key::Config { cluster })
        }
        Front::Marks => mark_of_parts(alloc, parts),
        Front::Records(hop, kind) => record_of_parts(alloc, kind, hop, parts),
        Front::Cuts => {
            let cluster = cluster_alone(alloc, parts)?;
            Ok(Key::Cut { cluster })
        }
    }
}

/// Reads a key.
///
/// The faults come in the order of `KeyFault`, and the first is answered; `Memory` comes where
/// memory was wanted.
#[tactic(auto, using(crate::proofs::FrontLemmas::front_at_within), unfolding(crate::specs::Reading::key_of))]
pub fn read_key(alloc: Global, bytes: &[u8]) -> Result<Key, KeyFault>
    ensures { Gives result (key_of bytes.now) }
{
    let Some(front) = front_at(bytes) else {
        return Err(KeyFault::UnknownPrefix);
    };
    let parts = parts_behind(alloc, bytes, front.as_bytes().len())?;
    key_of_parts(alloc, front, parts.as_slice())
}
