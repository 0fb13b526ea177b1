// The keys of a cluster's records at one hop as its keys at the other.
ghost use Rattle.std.specs.Prelude.{◌≡◌, IfOk, option_map};
ghost use Rattle.key_paths.specs.Mapping.{cache_key_of, state_key_of, moved_among, moved};

use crate::hop::Hop;
use crate::paths::{behind_record_front, record_front};
use crate::words::KINDS;
use mesh_base::Memory;
use mesh_text::{ClusterName, Kind};
use std::alloc::Global;

fn moved_among(
    alloc: Global,
    kinds: &[Kind],
    from: Hop,
    to: Hop,
    cluster: &[u8],
    key: &[u8],
) -> Result<Option<Vec<u8>>, Memory>
    ensures { IfOk result (λ o. option_map (λ v. v.items) o ≡ moved_among kinds.now from to cluster.now key.now) }
{
    for kind in kinds {
        if let Some(rest) = behind_record_front(key, from, *kind, cluster) {
            let mut moved = record_front(alloc, to, *kind, cluster)?;
            moved.extend_from_slice(rest)?;
            return Ok(Some(moved.into_vec()));
        }
    }
    Ok(None)
}

/// The cluster's key in its cache for its key in the exporter's store.
///
/// The beginning of one of the four kinds of record, with the cluster where the key says it, is
/// exchanged for that of the same kind in the cache. What follows is kept, also where it isn't what
/// a key may have there. `None` exactly where the key has none of the four beginnings.
#[tactic(auto, unfolding(crate::specs::Mapping::moved))]
pub fn to_cache(alloc: Global, cluster: &ClusterName, key: &[u8]) -> Result<Option<Vec<u8>>, Memory>
    ensures { IfOk result (λ o. option_map (λ v. v.items) o ≡ cache_key_of cluster.now key.now) }
{
    moved_among(
        alloc,
        &KINDS,
        Hop::State,
        Hop::Cache,
        cluster.as_bytes(),
        key,
    )
}

/// The cluster's key in the exporter's store for its key in the cache.
///
/// It undoes `to_cache`: the beginning of one of the four kinds in the cache is exchanged for that
/// of the same kind in the exporter's store, and what follows is kept. `None` exactly where the key
/// has none of the four beginnings.
#[tactic(auto, unfolding(crate::specs::Mapping::moved))]
pub fn to_state(alloc: Global, cluster: &ClusterName, key: &[u8]) -> Result<Option<Vec<u8>>, Memory>
    ensures { IfOk result (λ o. option_map (λ v. v.items) o ≡ state_key_of cluster.now key.now) }
{
    moved_among(
        alloc,
        &KINDS,
        Hop::Cache,
        Hop::State,
        cluster.as_bytes(),
        key,
    )
}
