// The calls that are made straight on a store, without a link.
ghost use Rattle.std.specs.Prelude.{◌≡◌, ℕ, List, OnOk, IfOk, ◌∷◌, [], true};
ghost use Rattle.flaky_link.specs.Crossed.{IsAsked};
ghost use Rattle.store_api.specs.Calls.{Answers, Called, to_commit, to_compact, to_tick};
ghost use Rattle.mesh_world.specs.Actions.{raw_op};

use mesh_base::Memory;
use scenario_lang::RawWrite;
use std::alloc::Global;
use store_api::{Op, Store, StoreAdmin, StoreFault};

// The operation of a write without a lease.
fn raw_op(write: &RawWrite) -> Result<Op, Memory>
    ensures { IfOk result (λ op. op ≡ raw_op write.now) }
{
    Ok(match write {
        RawWrite::Put { key, value } => Op::Put {
            key: key.clone()?,
            value: value.clone()?,
            lease: None,
        },
        RawWrite::Delete { key } => Op::Delete { key: key.clone()? },
    })
}

/// Commits one operation. A lost call is no refusal.
pub fn write_raw<S: Store>(alloc: Global, store: &mut S, write: &RawWrite) -> Result<(), Memory>
    requires writable { (key : List ℕ) → (S.meaning store.old).writable key ≡ true }
    ensures asked { OnOk result (IsAsked (to_commit (raw_op write.now ∷ [])) (S.meaning store.old) (S.meaning store.new)) }
    ensures named { S.name store.new ≡ S.name store.old }
    ensures loans { S.loans store.new ≡ S.loans store.old }
{
    let ops = [raw_op(write)?];
    match store.commit(alloc, &ops) {
        Ok(_) => Ok(()),
        Err(StoreFault::Lost) => Ok(()),
        Err(_) => Err(Memory),
    }
}

/// Moves the clock on by so many seconds. A lost call is no refusal.
pub fn tick<S: StoreAdmin>(alloc: Global, store: &mut S, seconds: u64) -> Result<(), Memory>
    ensures asked { OnOk result (IsAsked (to_tick seconds) (S.meaning store.old) (S.meaning store.new)) }
    ensures named { S.name store.new ≡ S.name store.old }
    ensures loans { S.loans store.new ≡ S.loans store.old }
{
    match store.tick(alloc, seconds) {
        Ok(_) | Err(StoreFault::Lost) => Ok(()),
        Err(_) => Err(Memory),
    }
}

/// Compacts the history up to this revision.
pub fn compact<S: StoreAdmin>(alloc: Global, store: &mut S, upto: u64) -> Result<(), Memory>
    ensures called { OnOk result (Called (to_compact upto) Answers (S.meaning store.old) (S.meaning store.new)) }
    ensures named { S.name store.new ≡ S.name store.old }
    ensures loans { S.loans store.new ≡ S.loans store.old }
{
    let _ = store.compact(alloc, upto)?;
    Ok(())
}
