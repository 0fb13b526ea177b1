// Stores of which one holds records already.
ghost use Rattle.std.specs.Prelude.{◌≡◌, ◌∷◌, [], length, map, All, IfOk, None};
ghost use Rattle.store_api.specs.declared.change.Change.TheVariants.{Put};
ghost use Rattle.memory_store.specs.Journal.{IsJournal};
ghost use Rattle.mesh_world.specs.Goes.{IsOpen};

use memory_store::MemoryStore;
use scenario_replay::fresh_stores;
use std::alloc::Global;
use store_api::{Bytes, Change, Items, Memory, Revision, Store};

// A revision of this number that puts the key.
fn putting(alloc: Global, number: u64, key: &[u8], value: &[u8]) -> Result<Revision, Memory>
    ensures number { IfOk result (λ r. r.number ≡ number) }
    ensures changes { IfOk result (λ r. r.changes ≡ Put key.now value.now None ∷ []) }
{
    let mut changes = Items::new(alloc);
    changes.push(Change::Put {
        key: Bytes::from_slice(alloc, key)?,
        value: Bytes::from_slice(alloc, value)?,
        lease: None,
    })?;
    Ok(Revision {
        number,
        writer: 7,
        changes,
    })
}

// A config at 2, and a node at 3.
fn config_and_node(alloc: Global) -> Result<Vec<Revision>, Memory>
    ensures { IfOk result (λ journal. IsJournal journal.items 0) }
{
    let key = b"cilium/state/nodes/v1/east/n7";
    let value = b"{\"Name\":\"n7\",\"Cluster\":\"east\",\"ClusterID\":1}";
    let config = putting(alloc, 2, b"cilium/cluster-config/east", b"{\"id\":1}")?;
    let node = putting(alloc, 3, key, value)?;
    let mut journal = Vec::new(alloc);
    journal.push(config)?;
    journal.push(node)?;
    Ok(journal)
}

fn journaled_store(alloc: Global) -> Result<MemoryStore, Memory> {
    MemoryStore::from_journal(alloc, config_and_node(alloc)?, 0)
}

/// Fresh stores, but that of the first remote has a config and a node from a journal.
pub fn journaled_stores(alloc: Global) -> Result<Vec<MemoryStore>, Memory>
    ensures many { IfOk result (λ v. length v.items ≡ 256) }
    ensures open { IfOk result (λ v. All IsOpen (map ⟦<MemoryStore as Store>⟧.meaning v.items)) }
{
    let mut stores = fresh_stores(alloc)?;
    stores[1] = journaled_store(alloc)?;
    Ok(stores)
}
