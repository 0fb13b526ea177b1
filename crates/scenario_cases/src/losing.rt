// Stores in memory that lose calls by a plan.
ghost use Rattle.std.specs.Prelude.{◌≡◌, ◌+◌, length, map, All, IfOk, if◌then◌else◌, is_some};
ghost use Rattle.mesh_world.specs.Goes.{IsOpen};
ghost use Rattle.scenario_cases.specs.Losing.{losing};

use memory_store::MemoryStore;
use mesh_base::Count;
use std::alloc::Global;
use store_api::{Batch, Listing, Memory, Op, Ranges, Store, StoreAdmin, StoreFault};

/// When a call is lost.
#[derive(Clone, Copy)]
pub enum When {
    /// It does not reach the store.
    Before,
    /// The store makes it, and its answer is lost.
    After,
}

/// A call that a store loses.
#[derive(Clone, Copy)]
pub struct Loss {
    /// The place of the store, where the local one has 0.
    pub place: usize,
    /// The number of the call among those of the store, from 1 on.
    pub call: u64,
    pub when: When,
}

/// The calls that a store is still to lose, and how many it was asked and has lost.
#[derive(Drop)]
struct Losses {
    plan: Vec<Loss>,
    calls: u64,
    lost: Count,
}

impl Losses {
    // Counts a call, and tells whether it is lost.
    fn meet(&mut self) -> Option<When>
        ensures { self.new.lost ≡ self.old.lost + (if is_some result then 1 else 0) }
    {
        self.calls = self.calls.saturating_add(1);
        let call = self.calls;
        let at = self.plan.iter().position(|loss| loss.call == call)?;
        self.lost.raise();
        Some(self.plan.remove(at).when)
    }
}

/// A store in memory that loses calls. A compaction is not counted, and is never lost.
#[derive(Drop)]
pub struct LosingStore {
    losses: Losses,
    inner: MemoryStore,
}

impl LosingStore {
    fn fresh(alloc: Global, plan: Vec<Loss>) -> LosingStore {
        LosingStore {
            losses: Losses {
                plan,
                calls: 0,
                lost: Count::new(),
            },
            inner: MemoryStore::new(alloc),
        }
    }

    /// Whether it has lost every call that it was to lose.
    pub fn is_done(&self) -> bool {
        self.losses.plan.is_empty()
    }
}

impl Store for LosingStore {
    type Name = ();

    ghost name = { λ _. tt };

    ghost meaning = { λ s. losing s.losses.lost (⟦<MemoryStore as Store>⟧.meaning s.inner) };

    fn list(&mut self, alloc: Global, ranges: &Ranges) -> Result<Listing, StoreFault> {
        match self.losses.meet() {
            None => self.inner.list(alloc, ranges),
            Some(When::Before) => Err(StoreFault::Lost),
            Some(When::After) => {
                let _ = self.inner.list(alloc, ranges);
                Err(StoreFault::Lost)
            }
        }
    }

    fn pull(
        &mut self,
        alloc: Global,
        ranges: &Ranges,
        from: u64,
        most: u64,
    ) -> Result<Batch, StoreFault> {
        match self.losses.meet() {
            None => self.inner.pull(alloc, ranges, from, most),
            Some(When::Before) => Err(StoreFault::Lost),
            Some(When::After) => {
                let _ = self.inner.pull(alloc, ranges, from, most);
                Err(StoreFault::Lost)
            }
        }
    }

    fn commit(&mut self, alloc: Global, ops: &[Op]) -> Result<u64, StoreFault> {
        match self.losses.meet() {
            None => self.inner.commit(alloc, ops),
            Some(When::Before) => Err(StoreFault::Lost),
            Some(When::After) => {
                let _ = self.inner.commit(alloc, ops);
                Err(StoreFault::Lost)
            }
        }
    }

    fn grant(&mut self, alloc: Global, seconds: u64) -> Result<u64, StoreFault> {
        match self.losses.meet() {
            None => self.inner.grant(alloc, seconds),
            Some(When::Before) => Err(StoreFault::Lost),
            Some(When::After) => {
                let _ = self.inner.grant(alloc, seconds);
                Err(StoreFault::Lost)
            }
        }
    }

    fn keep_alive(&mut self, lease: u64) -> Result<(), StoreFault> {
        match self.losses.meet() {
            None => self.inner.keep_alive(lease),
            Some(When::Before) => Err(StoreFault::Lost),
            Some(When::After) => {
                let _ = self.inner.keep_alive(lease);
                Err(StoreFault::Lost)
            }
        }
    }
}

impl StoreAdmin for LosingStore {
    fn tick(&mut self, alloc: Global, seconds: u64) -> Result<u64, StoreFault> {
        match self.losses.meet() {
            None => self.inner.tick(alloc, seconds),
            Some(When::Before) => Err(StoreFault::Lost),
            Some(When::After) => {
                let _ = self.inner.tick(alloc, seconds);
                Err(StoreFault::Lost)
            }
        }
    }

    fn compact(&mut self, alloc: Global, upto: u64) -> Result<u64, Memory> {
        self.inner.compact(alloc, upto)
    }
}

// The losses of the store at the place.
fn losses_at(alloc: Global, losses: &[Loss], place: usize) -> Result<Vec<Loss>, Memory> {
    let mut plan = Vec::new(alloc);
    for loss in losses {
        if loss.place == place {
            plan.push(*loss)?;
        }
    }
    Ok(plan)
}

/// The local store and the stores of 255 remotes, all fresh, which lose these calls.
pub fn losing_stores(alloc: Global, losses: &[Loss]) -> Result<Vec<LosingStore>, Memory>
    ensures many { IfOk result (λ v. length v.items ≡ 256) }
    ensures open { IfOk result (λ v. All IsOpen (map ⟦<LosingStore as Store>⟧.meaning v.items)) }
{
    let mut stores = Vec::with_capacity(alloc, 256)?;
    for place in 0..256usize {
        let plan = losses_at(alloc, losses, place)?;
        stores.push(LosingStore::fresh(alloc, plan))?;
    }
    Ok(stores)
}
