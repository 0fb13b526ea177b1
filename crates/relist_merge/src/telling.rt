// What is told of rows to those who report a source's records.
ghost use Rattle.std.specs.Prelude.{◌≡◌, ◌++◌, List, IfOk, OnOk, flat_map, map};
ghost use Rattle.std.specs.List.{AllByRecursion};
ghost use Rattle.record_check.specs.declared.limit.Limit.{Limit};
ghost use Rattle.relist_merge.specs.Readings.{SaysRecord, of_record};
ghost use Rattle.relist_merge.specs.Shown.{pair_of};
ghost use Rattle.relist_merge.specs.Told.{record_key, told_of};
ghost use Rattle.relist_merge.specs.Viewed.{IsRowRead};

use crate::reading::Reading;
use crate::rows::Row;
use indexmap::IndexMap;
use key_paths::{Hop, Key, is_record_key, to_state};
use mesh_base::{Bytes, Items, Memory};
use mesh_text::ClusterName;
use record_check::Fault;
use record_values::Record;
use std::alloc::Global;

/// A pair of a record, as it was read.
#[derive(Debug, Drop)]
pub struct ReadRecord {
    /// The bytes of the key, as the key stands in the exporter's store.
    pub key: Bytes,
    /// What the pair says: a record under its key, or the first fault of its bytes.
    pub reading: Result<(Key, Record), Fault>,
}

// The key in the exporter's store; `None` where it is of no record of the cluster.
fn record_key(
    alloc: Global,
    hop: Hop,
    cluster: &ClusterName,
    key: &Bytes,
) -> Result<Option<Bytes>, Memory>
    ensures { IfOk result (λ found. found ≡ record_key hop cluster.now key.now) }
{
    match hop {
        Hop::State => {
            if is_record_key(cluster, Hop::State, key.as_slice()) {
                Ok(Some(key.clone()?))
            } else {
                Ok(None)
            }
        }
        Hop::Cache => match to_state(alloc, cluster, key.as_slice())? {
            Some(key) => Ok(Some(Bytes::from_vec(key))),
            None => Ok(None),
        },
    }
}

fn copy_key(key: &Key) -> Result<Key, Memory>
    ensures { IfOk result (λ copy. copy ≡ key.now) }
{
    Ok(key.clone()?)
}

fn copy_record(value: &Record) -> Result<Record, Memory>
    ensures { IfOk result (λ copy. copy ≡ value.now) }
{
    Ok(value.clone()?)
}

// A copy of what a record's pair says.
fn copy_said(reading: &Reading) -> Result<Result<(Key, Record), Fault>, Memory>
    requires { SaysRecord reading.now }
    ensures { IfOk result (λ said. of_record said ≡ reading.now) }
{
    match reading {
        Reading::Pair { key, value } => Ok(Ok((copy_key(key)?, copy_record(value)?))),
        Reading::Bad(fault) => Ok(Err(fault.clone()?)),
        _ => unreachable!(),
    }
}

fn push_record(
    alloc: Global,
    records: &mut Items<ReadRecord>,
    hop: Hop,
    cluster: &ClusterName,
    key: &Bytes,
    row: &Row,
) -> Result<(), Memory>
    requires { (limit : Limit) × IsRowRead limit (key.now, row.now) }
    ensures { OnOk result (records.new ≡ records.old ++ told_of hop cluster.now (pair_of (key.now, row.now))) }
{
    let Some(key) = record_key(alloc, hop, cluster, key)? else {
        return Ok(());
    };
    let reading = copy_said(&row.reading)?;
    records.push(ReadRecord { key, reading })?;
    Ok(())
}

/// The records among the rows, in their order, as they were read.
pub(crate) fn records_of(
    alloc: Global,
    hop: Hop,
    cluster: &ClusterName,
    rows: &IndexMap<Bytes, Row>,
) -> Result<Items<ReadRecord>, Memory>
    requires { (limit : Limit) × AllByRecursion (IsRowRead limit) rows.now.entries }
    ensures { IfOk result (λ records. records ≡ flat_map (told_of hop cluster.now) (map pair_of rows.now.entries)) }
{
    let mut records = Items::new(alloc);
    for (key, row) in rows {
        push_record(alloc, &mut records, hop, cluster, key, row)?;
    }
    Ok(records)
}
