ghost use Rattle.std.specs.Prelude.{◌≡◌, IfOk, flat_map, map, nat_eq};
ghost use Rattle.std.specs.Cmp.Lexicographic.{pointwise};
ghost use Rattle.std.specs.List.{IsDistinct};
ghost use Rattle.std.specs.Map.{keys_of};
ghost use Rattle.store_api.specs.History.{entry_of};
ghost use Rattle.record_check.specs.declared.limit.Limit.{Limit};
ghost use Rattle.relist_merge.specs.Shown.{pair_of};
ghost use Rattle.relist_merge.specs.Told.{told_of};
ghost use Rattle.relist_merge.specs.Viewed.{AreRead};

use crate::rows::{Row, Rows};
use crate::telling::{ReadRecord, records_of};
use indexmap::IndexMap;
use key_paths::Hop;
use mesh_base::{Bytes, Items, Memory};
use mesh_text::ClusterName;
use std::alloc::Global;
use store_api::Pair;

// Copies of all pairs.
fn copy_pairs(alloc: Global, rows: &IndexMap<Bytes, Row>) -> Result<Items<Pair>, Memory>
    ensures pairs { IfOk result (λ pairs. map entry_of pairs ≡ map pair_of rows.now.entries) }
    ensures distinct { IsDistinct (pointwise nat_eq) (keys_of rows.now.entries) }
{
    let mut pairs = Items::new(alloc);
    for (key, row) in rows {
        pairs.push(Pair {
            key: key.clone()?,
            value: row.value.clone()?,
        })?;
    }
    Ok(pairs)
}

// No two rows have the same key, which a map says of its iterator.
fn keys_are_distinct(rows: &IndexMap<Bytes, Row>)
    ensures { IsDistinct (pointwise nat_eq) (keys_of rows.now.entries) }
{
    let _rows = rows.iter();
}

impl Rows {
    /// The key and the value of each row.
    pub(crate) fn pairs(&self, alloc: Global) -> Result<Items<Pair>, Memory>
        ensures pairs { IfOk result (λ pairs. map entry_of pairs ≡ map pair_of self.now.map.entries) }
        ensures distinct { IsDistinct (pointwise nat_eq) (keys_of self.now.map.entries) }
    {
        copy_pairs(alloc, &self.map)
    }

    /// The records of the cluster among the rows.
    pub(crate) fn records(
        &self,
        alloc: Global,
        hop: Hop,
        cluster: &ClusterName,
    ) -> Result<Items<ReadRecord>, Memory>
        requires { (limit : Limit) × AreRead limit self.now.map.entries }
        ensures records { IfOk result (λ records. records ≡ flat_map (told_of hop cluster.now) (map pair_of self.now.map.entries)) }
        ensures distinct { IsDistinct (pointwise nat_eq) (keys_of self.now.map.entries) }
    {
        keys_are_distinct(&self.map);
        records_of(alloc, hop, cluster, &self.map)
    }
}
