ghost use Rattle.std.specs.Prelude.{◌≡◌, length, map, All, IfOk};
ghost use Rattle.mesh_world.specs.Goes.{IsFresh, IsOpen, NumberInTurn};

use memory_store::MemoryStore;
use std::alloc::Global;
use store_api::{Memory, Store};

/// The local store and the stores of 255 remotes, all fresh: empty, with no call made or failed, written to
/// by nobody else, every key may be written, and leases are numbered in turn.
pub fn fresh_stores(alloc: Global) -> Result<Vec<MemoryStore>, Memory>
    ensures many { IfOk result (λ v. length v.items ≡ 256) }
    ensures fresh { IfOk result (λ v. All IsFresh (map ⟦<MemoryStore as Store>⟧.meaning v.items)) }
    ensures open { IfOk result (λ v. All IsOpen (map ⟦<MemoryStore as Store>⟧.meaning v.items)) }
    ensures numbered { IfOk result (λ v. NumberInTurn (map ⟦<MemoryStore as Store>⟧.meaning v.items)) }
{
    let mut stores = Vec::with_capacity(alloc, 256)?;
    for place in 0..256usize {
        let _ = place;
        stores.push(MemoryStore::new(alloc))?;
    }
    Ok(stores)
}
