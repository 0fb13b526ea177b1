// What the lapse of leases deletes.
ghost use Rattle.std.specs.Prelude.{◌≡◌, length, replicate, IfOk};
ghost use Rattle.store_api.specs.History.{History};
ghost use Rattle.memory_store.specs.Kept.{IsCurrentIn, history_in, writers_in};
ghost use Rattle.memory_store.specs.Lapses.{AllLapse, Deletes, Lapses};

use crate::live::{Current, Made};
use mesh_base::{Bytes, Items, Memory};
use std::alloc::Global;
use std::collections::BTreeSet;
use store_api::Change;

// Deletes the keys, in order.
fn delete_keys(
    alloc: Global,
    current: &mut Current,
    keys: BTreeSet<Bytes>,
) -> Result<Vec<Change>, Memory>
    ensures { IfOk result (λ changes. Deletes keys changes.items current.old current.new) }
{
    let mut changes = Vec::with_capacity(alloc, keys.len())?;
    for key in keys {
        current.live.remove(&key);
        current.attached.leases.remove(&key);
        changes.push(Change::Delete { key })?;
    }
    Ok(changes)
}

// Deletes the keys of the lease.
fn lapse(alloc: Global, current: &mut Current, lease: u64) -> Result<Vec<Change>, Memory>
    ensures { IfOk result (λ changes. (history : History) → IsCurrentIn history current.old → Lapses history lease changes.items current.new) }
{
    match current.attached.keys.remove(&lease) {
        Some(keys) => delete_keys(alloc, current, keys),
        None => Ok(Vec::new(alloc)),
    }
}

/// The revisions that the leases make as they lapse, one after another, each by the writer.
pub fn lapses(
    alloc: Global,
    current: &mut Current,
    writer: u32,
    leases: &[u64],
) -> Result<Vec<Made>, Memory>
    ensures lapse { IfOk result (λ made. (history : History) → IsCurrentIn history current.old → AllLapse history leases.now (history_in made.items) current.new) }
    ensures writers { IfOk result (λ made. writers_in made.items ≡ replicate (length made.items) writer) }
{
    let mut made = Vec::new(alloc);
    for lease in leases {
        let changes = lapse(alloc, current, *lease)?;
        if !changes.is_empty() {
            let changes = Items::from_vec(changes);
            made.push(Made { writer, changes })?;
        }
    }
    Ok(made)
}
