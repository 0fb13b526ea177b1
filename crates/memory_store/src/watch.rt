// What a watch delivers of the history.
ghost use Rattle.std.specs.Prelude.{◌≡◌, ◌≤◌, ◌+◌, ◌^◌, ◌⊎◌, ℕ, List, filter, map, max, length, IfOk};
ghost use Rattle.store_api.specs.Followed.{changed_key, part_of, parts};
ghost use Rattle.store_api.specs.History.{in_range, in_ranges};
ghost use Rattle.store_api.specs.declared.change.Change.{Change};
ghost use Rattle.memory_store.specs.Kept.{history_in, writers_in};
ghost use Rattle.memory_store.specs.Writers.{AreWrittenBy};

use crate::live::Made;
use mesh_base::{Bytes, Items, Memory};
use std::alloc::Global;
use store_api::{Change, Range, Ranges, Revision};

fn is_in(range: &Range, key: &Bytes) -> bool
    ensures { result ≡ in_range key.now range.now }
{
    match range {
        Range::One(one) => key == one,
        Range::Prefix(front) => key.as_slice().starts_with(front.as_slice()),
    }
}

fn is_in_any(ranges: &Ranges, key: &Bytes) -> bool
    ensures { result ≡ in_ranges ranges.now.items key.now }
{
    for range in ranges.items.as_slice() {
        if is_in(range, key) {
            return true;
        }
    }
    false
}

fn key_of(change: &Change) -> &Bytes
    ensures { result.now ≡ changed_key change.now }
{
    match change {
        Change::Put { key, .. } | Change::Delete { key } => key,
    }
}

fn copy_of(change: &Change) -> Result<Change, Memory>
    ensures { IfOk result (λ copy. copy ≡ change.now) }
{
    match change {
        Change::Put { key, value, lease } => Ok(Change::Put {
            key: key.clone()?,
            value: value.clone()?,
            lease: *lease,
        }),
        Change::Delete { key } => Ok(Change::Delete { key: key.clone()? }),
    }
}

// The changes that are of keys in the ranges.
fn changes_in(alloc: Global, ranges: &Ranges, changes: &[Change]) -> Result<Vec<Change>, Memory>
    ensures { IfOk result (λ some. some.items ≡ filter (λ (c : Change). in_ranges ranges.now.items (changed_key c)) changes.now) }
{
    let mut some = Vec::new(alloc);
    for change in changes {
        if is_in_any(ranges, key_of(change)) {
            some.push(copy_of(change)?)?;
        }
    }
    Ok(some)
}

/// The revisions above `after` and up to `upto` that change a key of the ranges, with these changes
/// alone, each with its writer.
pub fn delivered(
    alloc: Global,
    history: &[Made],
    ranges: &Ranges,
    after: u64,
    upto: u64,
) -> Result<Items<Revision>, Memory>
    requires { (upto ≤ after) ⊎ (upto ≤ length history.now + 1) }
    ensures parts { IfOk result (λ revisions. map part_of revisions ≡ parts (in_ranges ranges.now.items) (history_in history.now) after upto) }
    ensures writers { IfOk result (λ revisions. AreWrittenBy (writers_in history.now) revisions) }
{
    let mut revisions = Vec::new(alloc);
    for place in after.max(1) - 1..upto.max(1) - 1 {
        let made = &history[place as usize];
        let changes = changes_in(alloc, ranges, made.changes.as_slice())?;
        if !changes.is_empty() {
            revisions.push(Revision {
                number: place + 2,
                writer: made.writer,
                changes: Items::from_vec(changes),
            })?;
        }
    }
    Ok(Items::from_vec(revisions))
}
