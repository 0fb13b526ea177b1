// Reading a delivery, each pair once.
ghost use Rattle.std.specs.Prelude.{◌≡◌, All, map, IfOk, true};
ghost use Rattle.store_api.specs.Followed.{part_of};
ghost use Rattle.store_api.specs.History.{entry_of};
ghost use Rattle.relist_merge.specs.Deliveries.{edit_of, edits_of};
ghost use Rattle.relist_merge.specs.Given.{AreChangesRead, IsChangeRead, IsRead, IsReading, delivery_from, delivery_of, edit_in, edits_in, pair_of};

use crate::delivery::{ReadBatch, ReadChange, ReadDelivery, ReadListing, ReadPair, ReadRevision};
use crate::reading::read;
use mesh_base::{Bytes, Items, Memory};
use record_check::Limit;
use std::alloc::Global;
use store_api::{Batch, Change, Delivery, Listing, Pair, Revision};

fn read_one(alloc: Global, limit: Limit, key: Bytes, value: Bytes) -> Result<ReadPair, Memory>
    ensures read { IfOk result (λ p. IsReading limit p) }
    ensures key { IfOk result (λ p. p.key ≡ key) }
    ensures value { IfOk result (λ p. p.value ≡ value) }
{
    let reading = read(alloc, limit, key.as_slice(), value.as_slice())?;
    Ok(ReadPair {
        key,
        value,
        reading,
    })
}

fn read_pairs(alloc: Global, limit: Limit, pairs: Items<Pair>) -> Result<Items<ReadPair>, Memory>
    ensures read { IfOk result (λ made. All (IsReading limit) made) }
    ensures same { IfOk result (λ made. map pair_of made ≡ map entry_of pairs) }
{
    let mut made = Vec::new(alloc);
    for pair in pairs.into_vec() {
        let Pair { key, value } = pair;
        made.push(read_one(alloc, limit, key, value)?)?;
    }
    Ok(Items::from_vec(made))
}

fn read_change(alloc: Global, limit: Limit, change: Change) -> Result<ReadChange, Memory>
    ensures read { IfOk result (λ made. IsChangeRead limit made) }
    ensures same { IfOk result (λ made. edit_in made ≡ edit_of change) }
{
    match change {
        Change::Put { key, value, .. } => Ok(ReadChange::Put(read_one(alloc, limit, key, value)?)),
        Change::Delete { key } => Ok(ReadChange::Delete { key }),
    }
}

fn read_changes(
    alloc: Global,
    limit: Limit,
    changes: Items<Change>,
) -> Result<Items<ReadChange>, Memory>
    ensures read { IfOk result (λ made. All (IsChangeRead limit) made) }
    ensures same { IfOk result (λ made. map edit_in made ≡ map edit_of changes) }
{
    let mut made = Vec::new(alloc);
    for change in changes.into_vec() {
        made.push(read_change(alloc, limit, change)?)?;
    }
    Ok(Items::from_vec(made))
}

fn read_revision(alloc: Global, limit: Limit, revision: Revision) -> Result<ReadRevision, Memory>
    ensures read { IfOk result (λ made. AreChangesRead limit made) }
    ensures same { IfOk result (λ made. edits_in made ≡ edits_of (part_of revision)) }
{
    let Revision {
        number,
        changes,
        ..
    } = revision;
    let changes = read_changes(alloc, limit, changes)?;
    Ok(ReadRevision { number, changes })
}

fn read_revisions(
    alloc: Global,
    limit: Limit,
    revisions: Items<Revision>,
) -> Result<Items<ReadRevision>, Memory>
    ensures read { IfOk result (λ made. All (AreChangesRead limit) made) }
    ensures same { IfOk result (λ made. map edits_in made ≡ map edits_of (map part_of revisions)) }
{
    let mut made = Vec::new(alloc);
    for revision in revisions.into_vec() {
        made.push(read_revision(alloc, limit, revision)?)?;
    }
    Ok(Items::from_vec(made))
}

/// Reads each pair of a delivery once.
///
/// `Memory` comes where memory was wanted. Linear in the delivery.
pub fn read_delivery(
    alloc: Global,
    limit: Limit,
    delivery: Delivery,
) -> Result<ReadDelivery, Memory>
    ensures same { IfOk result (λ made. delivery_of made ≡ delivery_from delivery) }
    ensures read { IfOk result (λ made. IsRead limit made) }
{
    match delivery {
        Delivery::Listing(Listing { at, pairs }) => Ok(ReadDelivery::Listing(ReadListing {
            at,
            pairs: read_pairs(alloc, limit, pairs)?,
        })),
        Delivery::Batch(Batch { upto, revisions }) => Ok(ReadDelivery::Batch(ReadBatch {
            upto,
            revisions: read_revisions(alloc, limit, revisions)?,
        })),
        Delivery::Lost => Ok(ReadDelivery::Lost),
    }
}
