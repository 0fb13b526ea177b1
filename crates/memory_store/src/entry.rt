// What is noted in the log of a store.
ghost use Rattle.std.specs.Prelude.{◌≡◌, ◌++◌, ◌∷◌, []};
ghost use Rattle.memory_store.specs.Entries.{noted_where};
ghost use Rattle.memory_store.specs.declared.entry.StoreEntry.TheVariants.{Committed};

use mesh_base::Items;
use std::snapshot::Snapshot;
use store_api::Change;
use turn_cell::Log;

/// What one call did to a store.
#[derive(Drop)]
pub enum StoreEntry {
    /// A transaction made these changes.
    Committed(Items<Change>),
    /// A lease of so many seconds was granted.
    Granted(u64),
    /// The lease was kept alive.
    KeptAlive(u64),
    /// The clock went on by so many seconds.
    Ticked(u64),
    /// The history was compacted up to this revision.
    Compacted(u64),
}

/// The changes of a transaction, as the history keeps them and as the log notes them.
pub fn committed(changes: Vec<Change>) -> (Items<Change>, Snapshot<StoreEntry>)
    ensures changes { result.0 ≡ changes.items }
    ensures entry { result.1.value ≡ Committed changes.items }
{
    let entry = StoreEntry::Committed(Items::from_vec(changes));
    let noted = Snapshot::of(&entry);
    match entry {
        StoreEntry::Committed(changes) => (changes, noted),
        _ => unreachable!(),
    }
}

/// Puts an entry of this owner behind the others.
pub fn note(log: &mut Log<StoreEntry>, owner: u32, entry: StoreEntry)
    ensures { log.new ≡ log.old ++ (owner, entry) ∷ [] }
{
    log.note(owner, Snapshot::of(&entry));
}

/// Puts an entry of this owner behind the others where it tells of an effect.
pub fn note_where(effect: bool, log: &mut Log<StoreEntry>, owner: u32, entry: StoreEntry)
    ensures { log.new ≡ noted_where effect log.old owner entry }
{
    if effect {
        note(log, owner, entry);
    }
}
