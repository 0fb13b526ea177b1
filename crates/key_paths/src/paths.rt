// What the keys of a cluster begin with, and the ranges that its readers follow.
ghost use Rattle.std.specs.Prelude.{◌≡◌, ◌++◌, IfOk, OnOk, MatchOption, map, length, drop, nat_eq, true, false};
ghost use Rattle.std.specs.List.{starts_with};
ghost use Rattle.store_api.specs.History.{in_ranges};
ghost use Rattle.key_paths.specs.Beginnings.{beginning};
ghost use Rattle.key_paths.specs.Paths.{record_front, record_range, record_ranges, ranges_of};

use crate::front::Front;
use crate::hop::Hop;
use crate::words::KINDS;
use mesh_base::{Bytes, Items, Memory};
use mesh_text::{ClusterName, Kind};
use std::alloc::Global;
use store_api::{Range, Ranges};

/// A beginning, and what follows it.
fn behind(alloc: Global, front: Front, cluster: &[u8], end: &[u8]) -> Result<Bytes, Memory>
    ensures { IfOk result (λ b. b ≡ beginning front ++ (cluster.now ++ end.now)) }
{
    let mut bytes = Bytes::from_slice(alloc, front.as_bytes())?;
    bytes.extend_from_slice(cluster)?;
    bytes.extend_from_slice(end)?;
    Ok(bytes)
}

/// What every key of a record of the cluster begins with, by hop and kind.
#[tactic(auto, unfolding(crate::specs::Paths::record_front))]
pub(crate) fn record_front(
    alloc: Global,
    hop: Hop,
    kind: Kind,
    cluster: &[u8],
) -> Result<Bytes, Memory>
    ensures { IfOk result (λ b. b ≡ record_front hop kind cluster.now) }
{
    let front = Front::Records(hop, kind);
    match (hop, kind) {
        (Hop::State, Kind::Identities) | (Hop::State, Kind::Addresses) => {
            Ok(Bytes::from_slice(alloc, front.as_bytes())?)
        }
        (Hop::Cache, Kind::Identities) => behind(alloc, front, cluster, b"/id/"),
        _ => behind(alloc, front, cluster, b"/"),
    }
}

/// What follows the front, where the bytes begin with it.
fn rest_of<'a>(bytes: &'a [u8], front: &[u8]) -> Option<&'a [u8]>
    ensures { MatchOption result (starts_with nat_eq bytes.now (front.now) ≡ false) (λ rest. (starts_with nat_eq bytes.now (front.now) ≡ true) × (rest.now ≡ drop (length (front.now)) bytes.now)) }
{
    bytes.strip_prefix(front)
}

/// What follows a beginning, the cluster and the end, where the bytes begin with these.
#[tactic(auto, using(crate::proofs::Fronts::starts_both, crate::proofs::Fronts::drop_both))]
fn rest_behind<'a>(bytes: &'a [u8], front: Front, cluster: &[u8], end: &[u8]) -> Option<&'a [u8]>
    ensures { MatchOption result (starts_with nat_eq bytes.now (beginning front ++ (cluster.now ++ end.now)) ≡ false) (λ rest. (starts_with nat_eq bytes.now (beginning front ++ (cluster.now ++ end.now)) ≡ true) × (rest.now ≡ drop (length (beginning front ++ (cluster.now ++ end.now))) bytes.now)) }
{
    let rest = rest_of(bytes, front.as_bytes())?;
    let rest = rest_of(rest, cluster)?;
    rest_of(rest, end)
}

/// What follows the front of the cluster's records of the kind, where the bytes begin with it.
#[tactic(auto, unfolding(crate::specs::Paths::record_front))]
pub(crate) fn behind_record_front<'a>(
    bytes: &'a [u8],
    hop: Hop,
    kind: Kind,
    cluster: &[u8],
) -> Option<&'a [u8]>
    ensures { MatchOption result (starts_with nat_eq bytes.now (record_front hop kind cluster.now) ≡ false) (λ rest. (starts_with nat_eq bytes.now (record_front hop kind cluster.now) ≡ true) × (rest.now ≡ drop (length (record_front hop kind cluster.now)) bytes.now)) }
{
    let front = Front::Records(hop, kind);
    match (hop, kind) {
        (Hop::State, Kind::Identities) | (Hop::State, Kind::Addresses) => {
            rest_of(bytes, front.as_bytes())
        }
        (Hop::Cache, Kind::Identities) => rest_behind(bytes, front, cluster, b"/id/"),
        _ => rest_behind(bytes, front, cluster, b"/"),
    }
}

/// Whether the key is that of a record of the cluster, by what it begins with.
///
/// What follows the beginning may be anything. In an exporter's store every identity and address
/// counts, since their keys do not say the cluster. Takes no memory.
pub fn is_record_key(cluster: &ClusterName, hop: Hop, key: &[u8]) -> bool
    ensures { result ≡ in_ranges (record_ranges cluster.now hop) key.now }
{
    let cluster = cluster.as_bytes();
    behind_record_front(key, hop, Kind::Nodes, cluster).is_some()
        || behind_record_front(key, hop, Kind::Services, cluster).is_some()
        || behind_record_front(key, hop, Kind::Identities, cluster).is_some()
        || behind_record_front(key, hop, Kind::Addresses, cluster).is_some()
}

fn push_record_ranges(
    alloc: Global,
    ranges: &mut Items<Range>,
    hop: Hop,
    cluster: &[u8],
    kinds: &[Kind],
) -> Result<(), Memory>
    ensures { OnOk result (ranges.new ≡ ranges.old ++ map (record_range hop cluster.now) kinds.now) }
{
    for kind in kinds {
        let front = record_front(alloc, hop, *kind, cluster)?;
        ranges.push(Range::Prefix(front))?;
    }
    Ok(())
}

/// What a reader of the cluster follows at a hop.
///
/// These are the cluster's config, what stands below its marks, its records of the four kinds and,
/// in a cache, its cut. In an exporter's store the keys of identities and addresses do not say the
/// cluster, and all of them are followed.
#[tactic(auto, unfolding(crate::specs::Paths::ranges_of))]
pub fn ranges(alloc: Global, cluster: &ClusterName, hop: Hop) -> Result<Ranges, Memory>
    ensures { IfOk result (λ r. r.items ≡ ranges_of cluster.now hop) }
{
    let cluster = cluster.as_bytes();
    let mut items = Items::new(alloc);
    items.push(Range::One(behind(alloc, Front::Configs, cluster, b"")?))?;
    items.push(Range::Prefix(behind(alloc, Front::Marks, cluster, b"/")?))?;
    push_record_ranges(alloc, &mut items, hop, cluster, &KINDS)?;
    if hop == Hop::Cache {
        items.push(Range::One(behind(alloc, Front::Cuts, cluster, b"")?))?;
    }
    Ok(Ranges { items })
}
