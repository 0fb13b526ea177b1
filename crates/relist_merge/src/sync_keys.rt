ghost use Rattle.std.specs.Prelude.{◌≡◌, IfOk, map};
ghost use Rattle.key_paths.specs.Paths as paths;

use key_paths::{Hop, Kind};
use mesh_base::{Bytes, Items, Memory};
use mesh_text::ClusterName;
use std::alloc::Global;
use synced_marks::{cut_key, mark_key};

/// The keys by which a cluster's pairs count as synced, and that of its cut.
#[derive(Drop)]
pub(crate) struct SyncKeys {
    pub(crate) config: Bytes,
    /// The marks, in order of their kinds.
    pub(crate) marks: Items<Bytes>,
    pub(crate) cut: Bytes,
}

#[tactic(auto, unfolding(key_paths::specs::Beginnings::beginning))]
fn config_key(alloc: Global, cluster: &ClusterName) -> Result<Bytes, Memory>
    ensures { IfOk result (λ key. key ≡ paths.config_key cluster.now) }
{
    let mut key = Bytes::from_slice(alloc, "cilium/cluster-config/".as_bytes())?;
    key.extend_from_slice(cluster.as_bytes())?;
    Ok(key)
}

fn one_mark(alloc: Global, cluster: &ClusterName, hop: Hop, kind: Kind) -> Result<Bytes, Memory>
    ensures { IfOk result (λ key. key ≡ paths.mark_key cluster.now hop kind) }
{
    Ok(Bytes::from_vec(mark_key(alloc, cluster, hop, kind)?))
}

fn mark_keys(alloc: Global, cluster: &ClusterName, hop: Hop) -> Result<Items<Bytes>, Memory>
    ensures { IfOk result (λ keys. keys ≡ map (paths.mark_key cluster.now hop) paths.kinds) }
{
    let mut keys = Vec::new(alloc);
    keys.push(one_mark(alloc, cluster, hop, Kind::Nodes)?)?;
    keys.push(one_mark(alloc, cluster, hop, Kind::Services)?)?;
    keys.push(one_mark(alloc, cluster, hop, Kind::Identities)?)?;
    keys.push(one_mark(alloc, cluster, hop, Kind::Addresses)?)?;
    Ok(Items::from_vec(keys))
}

/// The keys of a cluster at a hop.
pub(crate) fn sync_keys(alloc: Global, cluster: &ClusterName, hop: Hop) -> Result<SyncKeys, Memory>
    ensures config { IfOk result (λ keys. keys.config ≡ paths.config_key cluster.now) }
    ensures marks { IfOk result (λ keys. keys.marks ≡ map (paths.mark_key cluster.now hop) paths.kinds) }
    ensures cut { IfOk result (λ keys. keys.cut ≡ paths.cut_key cluster.now) }
{
    let config = config_key(alloc, cluster)?;
    let marks = mark_keys(alloc, cluster, hop)?;
    let cut = Bytes::from_vec(cut_key(alloc, cluster)?);
    Ok(SyncKeys { config, marks, cut })
}
