ghost use Rattle.std.specs.Prelude.{◌≡◌, decimal, IfOk, Some};
ghost use Rattle.mesh_text.specs.Numbers.{number_of};
ghost use Rattle.key_paths.specs.Keys.{key_bytes};
ghost use Rattle.key_paths.specs.Paths as paths;

use key_paths::{Hop, Key};
use mesh_base::Memory;
use mesh_text::{ClusterName, Kind, read_number};
use std::alloc::Global;

/// The path of a kind of record at a hop.
fn kind_path(hop: Hop, kind: Kind) -> &'static str
    ensures { result.now ≡ paths.kind_path hop kind }
{
    match (hop, kind) {
        (Hop::State, Kind::Nodes) => "cilium/state/nodes/v1",
        (Hop::State, Kind::Services) => "cilium/state/services/v1",
        (Hop::State, Kind::Identities) => "cilium/state/identities/v1",
        (Hop::State, Kind::Addresses) => "cilium/state/ip/v1",
        (Hop::Cache, Kind::Nodes) => "cilium/cache/nodes/v1",
        (Hop::Cache, Kind::Services) => "cilium/cache/services/v1",
        (Hop::Cache, Kind::Identities) => "cilium/cache/identities/v1",
        (Hop::Cache, Kind::Addresses) => "cilium/cache/ip/v1",
    }
}

/// The key of the cluster's mark for a kind at a hop: all records of the kind are written.
#[tactic(auto, using(crate::proofs::KeyTexts::mark_bytes), unfolding(key_paths::specs::Beginnings::beginning))]
pub fn mark_key(
    alloc: Global,
    cluster: &ClusterName,
    hop: Hop,
    kind: Kind,
) -> Result<Vec<u8>, Memory>
    ensures mark { IfOk result (λ key. key.items ≡ paths.mark_key cluster.now hop kind) }
    ensures key { IfOk result (λ key. key.items ≡ key_bytes (Key.Synced cluster.now hop kind)) }
{
    let mut key = Vec::from_slice(alloc, "cilium/synced/".as_bytes())?;
    key.extend_from_slice(cluster.as_bytes())?;
    key.extend_from_slice("/".as_bytes())?;
    key.extend_from_slice(kind_path(hop, kind).as_bytes())?;
    Ok(key)
}

/// The key of the cluster's cut, which says of which revision a cache is the image.
#[tactic(auto, using(crate::proofs::KeyTexts::cut_bytes), unfolding(key_paths::specs::Beginnings::beginning))]
pub fn cut_key(alloc: Global, cluster: &ClusterName) -> Result<Vec<u8>, Memory>
    ensures cut { IfOk result (λ key. key.items ≡ paths.cut_key cluster.now) }
    ensures key { IfOk result (λ key. key.items ≡ key_bytes (Key.Cut cluster.now)) }
{
    let mut key = Vec::from_slice(alloc, "cilium/cuts/v1/".as_bytes())?;
    key.extend_from_slice(cluster.as_bytes())?;
    Ok(key)
}

/// The value of a cut at this revision: its canonical decimal, which `read_cut` reads back.
#[tactic(auto, using(crate::proofs::KeyTexts::reads_decimal))]
pub fn cut_value(alloc: Global, revision: u64) -> Result<Vec<u8>, Memory>
    ensures decimal { IfOk result (λ value. value.items ≡ decimal revision) }
    ensures reads_back { IfOk result (λ value. number_of value.items ≡ Some revision) }
{
    let text = revision.to_string(alloc)?;
    let value = Vec::from_slice(alloc, text.as_bytes())?;
    Ok(value)
}

/// The revision of a cut's value; `None` exactly where it is no canonical decimal. Takes no memory.
pub fn read_cut(value: &[u8]) -> Option<u64>
    ensures { result ≡ number_of value.now }
{
    read_number(value)
}
