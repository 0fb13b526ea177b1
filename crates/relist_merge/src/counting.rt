// How many rows a delivery needs.
ghost use Rattle.std.specs.Prelude.{◌≡◌, length, IfSome};
ghost use Rattle.std.specs.List.{sum_by};
ghost use Rattle.relist_merge.specs.Given.{rows_in};

use crate::delivery::{ReadDelivery, ReadRevision};

// The changes of all the revisions; `None` where they are more than a number holds.
fn changes_in(revisions: &[ReadRevision]) -> Option<usize>
    ensures { IfSome result (λ n. n ≡ sum_by (λ r. length r.changes) revisions.now) }
{
    let mut sum: usize = 0;
    for revision in revisions {
        sum = sum.checked_add(revision.changes.len())?;
    }
    Some(sum)
}

/// For how many rows more the delivery needs memory; `None` where they are more than a number holds.
pub(crate) fn rows_in(delivery: &ReadDelivery) -> Option<usize>
    ensures { IfSome result (λ n. n ≡ rows_in delivery.now) }
{
    match delivery {
        ReadDelivery::Listing(listing) => Some(listing.pairs.len()),
        ReadDelivery::Batch(batch) => {
            let more = changes_in(batch.revisions.as_slice())?;
            Some(more)
        }
        ReadDelivery::Lost => Some(0),
    }
}
