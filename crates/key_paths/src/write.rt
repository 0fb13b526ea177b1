// A key as bytes.
ghost use Rattle.std.specs.Prelude.{◌≡◌, ◌++◌, ◌∷◌, IfOk, OnOk, map, flat_map};
ghost use Rattle.std.specs.List.{join_with_byte};
ghost use Rattle.key_paths.specs.Beginnings.{beginning};
ghost use Rattle.key_paths.specs.Keys.{key_bytes};

use crate::front::Front;
use crate::hop::Hop;
use crate::key::Key;
use crate::words::{hop_word, kind_word};
use mesh_base::Memory;
use mesh_text::{ClusterName, Ip, Kind, write_ip};
use std::alloc::Global;

/// Appends parts, each behind a `/`.
fn push_parts(bytes: &mut Vec<u8>, parts: &[&[u8]]) -> Result<(), Memory>
    ensures { OnOk result (bytes.new.items ≡ bytes.old.items ++ flat_map (λ part. 47 ∷ part.now) parts.now) }
{
    for part in parts {
        bytes.push(b'/')?;
        bytes.extend_from_slice(part)?;
    }
    Ok(())
}

/// A beginning, and the parts behind it, joined by `/`.
fn joined(alloc: Global, front: Front, first: &[u8], more: &[&[u8]]) -> Result<Vec<u8>, Memory>
    ensures { IfOk result (λ v. v.items ≡ beginning front ++ join_with_byte 47 (first.now ∷ map (λ part. part.now) more.now)) }
{
    let mut bytes = Vec::from_slice(alloc, front.as_bytes())?;
    bytes.extend_from_slice(first)?;
    push_parts(&mut bytes, more)?;
    Ok(bytes)
}

#[tactic(auto, unfolding(crate::specs::Keys::key_bytes))]
fn write_identity(
    alloc: Global,
    cached: &Option<ClusterName>,
    number: u32,
) -> Result<Vec<u8>, Memory>
    ensures { IfOk result (λ v. v.items ≡ key_bytes (Key.Identity cached.now number)) }
{
    let number = number.to_string(alloc)?;
    match cached {
        None => joined(
            alloc,
            Front::Records(Hop::State, Kind::Identities),
            number.as_bytes(),
            &[],
        ),
        Some(cluster) => joined(
            alloc,
            Front::Records(Hop::Cache, Kind::Identities),
            cluster.as_bytes(),
            &[b"id", number.as_bytes()],
        ),
    }
}

#[tactic(auto, unfolding(crate::specs::Keys::key_bytes))]
fn write_address(alloc: Global, cached: &Option<ClusterName>, ip: Ip) -> Result<Vec<u8>, Memory>
    ensures { IfOk result (λ v. v.items ≡ key_bytes (Key.Address cached.now ip)) }
{
    let address = write_ip(alloc, ip)?;
    match cached {
        None => joined(
            alloc,
            Front::Records(Hop::State, Kind::Addresses),
            address.as_slice(),
            &[],
        ),
        Some(cluster) => joined(
            alloc,
            Front::Records(Hop::Cache, Kind::Addresses),
            cluster.as_bytes(),
            &[address.as_slice()],
        ),
    }
}

#[tactic(auto, unfolding(crate::specs::Keys::key_bytes))]
fn write_mark(alloc: Global, cluster: &ClusterName, hop: Hop, kind: Kind) -> Result<Vec<u8>, Memory>
    ensures { IfOk result (λ v. v.items ≡ key_bytes (Key.Synced cluster.now hop kind)) }
{
    let path = [b"cilium", hop_word(hop), kind_word(kind), b"v1"];
    joined(alloc, Front::Marks, cluster.as_bytes(), &path)
}

/// The bytes of a key: its beginning, and its parts in their canonical texts, joined by `/`.
#[tactic(auto, unfolding(crate::specs::Keys::key_bytes))]
pub fn write_key(alloc: Global, key: &Key) -> Result<Vec<u8>, Memory>
    ensures { IfOk result (λ v. v.items ≡ key_bytes key.now) }
{
    match key {
        Key::Config { cluster } => joined(alloc, Front::Configs, cluster.as_bytes(), &[]),
        Key::Synced { cluster, hop, kind } => write_mark(alloc, cluster, *hop, *kind),
        Key::Node { hop, cluster, node } => joined(
            alloc,
            Front::Records(*hop, Kind::Nodes),
            cluster.as_bytes(),
            &[node.as_bytes()],
        ),
        Key::Service {
            hop,
            cluster,
            namespace,
            name,
        } => joined(
            alloc,
            Front::Records(*hop, Kind::Services),
            cluster.as_bytes(),
            &[namespace.as_bytes(), name.as_bytes()],
        ),
        Key::Identity { cached, number } => write_identity(alloc, cached, *number),
        Key::Address { cached, ip } => write_address(alloc, cached, *ip),
        Key::Cut { cluster } => joined(alloc, Front::Cuts, cluster.as_bytes(), &[]),
    }
}
