ghost use Rattle.relist_merge.specs.Viewed.{IsKept};

mod calls;
mod contents;

use crate::phase::Phase;
use crate::rows::Rows;
use crate::sync_keys::SyncKeys;
use key_paths::Hop;
use mesh_text::ClusterName;
use record_check::Limit;

/// What a reader has sighted of a cluster's pairs: each key with its value, what the pair says, and
/// whether it was listed or put since the last list began.
///
/// Being unlisted counts only in a span that was synced at some revision.
///
/// A reader lists its ranges and then watches them. When the connection was lost it lists again, and
/// what it had stays until the source is synced. So a lost connection or an exporter that has just
/// begun anew empties nothing by mistake. For example, with node n1 sighted and the source synced:
///
/// 1. the connection is lost: waiting, n1 stays;
/// 2. the exporter's lease lapses, and a new run has put its config alone;
/// 3. a list at revision 9 has the config without n1: held, n1 stays;
/// 4. the watch brings the marks of all four kinds: caught up, and n1 goes;
/// 5. had the watch brought the deletion of n1 instead, it would have gone at once.
#[derive(Drop)]
pub struct View {
    cluster: ClusterName,
    hop: Hop,
    limit: Limit,
    rows: Rows,
    /// The last revision that was seen.
    cursor: u64,
    phase: Phase,
    /// There from the first reservation on.
    keys: Option<SyncKeys>,
    ghost kept: { IsKept (record { cluster = cluster; hop = hop; limit = limit }) keys rows.room rows.map.entries },
}
