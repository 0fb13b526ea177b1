ghost use Rattle.std.specs.Prelude.{◌≡◌, ◌++◌, ◌∷◌, [], true, false, OnOk, OnErr};
ghost use Rattle.flaky_link.specs.Link.{fate, met};
ghost use Rattle.flaky_link.specs.Through.{after_hidden, hidden};
ghost use Rattle.flaky_link.specs.declared.state.Fate.TheVariants.{FailsAfter};

use mesh_base::Memory;
use std::alloc::Global;
use std::collections::VecDeque;
use std::marker::Model;
use store_api::StoreFault;

/// When a planned failure comes.
#[derive(Clone, Copy, Debug, PartialEq, Eq)]
pub enum When {
    /// The call does not reach the store.
    Before,
    /// The store makes the call, and its answer is lost.
    After,
}

/// What a link does to a call.
#[derive(Clone, Copy, Debug, PartialEq, Eq)]
pub enum Fate {
    Passes,
    FailsBefore,
    FailsAfter,
}

/// What a link keeps between its calls.
#[derive(Debug, Drop)]
pub struct LinkState {
    down: bool,
    /// The planned failures, the next one first: how many calls pass before it, and when it comes.
    plan: VecDeque<(u32, When)>,
    /// How many calls the link failed; at the last value it fails none.
    faults: u64,
}

impl Model for LinkState {
    ghost use Rattle.flaky_link.specs.Link.{Link};

    ghost Value = { Link };

    ghost view = { λ s. record { down = s.down; plan = s.plan.items; faults = s.faults } };
}

impl LinkState {
    /// A link that is up, without a plan.
    pub fn new(alloc: Global) -> LinkState
        ensures { result ≡ record { down = false; plan = []; faults = 0 } }
    {
        LinkState {
            down: false,
            plan: VecDeque::new(alloc),
            faults: 0,
        }
    }

    /// Plans a failure behind the others of the plan: `skip` calls pass before it.
    pub fn fail(&mut self, skip: u32, when: When) -> Result<(), Memory>
        ensures planned { OnOk result (self.new ≡ record self.old { plan = self.old.plan ++ (skip, when) ∷ [] }) }
        ensures refused { OnErr result (self.new ≡ self.old) }
    {
        self.plan.push_back((skip, when))?;
        Ok(())
    }

    /// From now on no call reaches the store.
    pub fn set_down(&mut self)
        ensures { self.new ≡ record self.old { down = true } }
    {
        self.down = true;
    }

    /// From now on the plan decides.
    pub fn set_up(&mut self)
        ensures { self.new ≡ record self.old { down = false } }
    {
        self.down = false;
    }

    /// No failure is planned any more.
    pub fn clear(&mut self)
        ensures { self.new ≡ record self.old { plan = [] } }
    {
        self.plan.clear();
    }

    // What becomes of the next call. A failure after the call is not yet counted.
    pub fn meet(&mut self) -> Fate
        ensures fate { result ≡ fate self.old }
        ensures state { self.new ≡ (met (fate self.old) self.old) }
    {
        if self.faults == u64::MAX {
            return Fate::Passes;
        }
        if self.down {
            self.faults += 1;
            return Fate::FailsBefore;
        }
        match self.plan.front().copied() {
            None => Fate::Passes,
            Some((0, When::Before)) => {
                self.plan.pop_front();
                self.faults += 1;
                Fate::FailsBefore
            }
            Some((0, When::After)) => Fate::FailsAfter,
            Some((skip, _)) => {
                self.plan[0].0 = skip - 1;
                Fate::Passes
            }
        }
    }
    // Loses the answer of a call that the store made, as planned.
    pub fn hide<T: Drop>(&mut self, answer: Result<T, StoreFault>) -> Result<T, StoreFault>
        requires { fate self.old ≡ FailsAfter }
        ensures state { self.new ≡ after_hidden T answer self.old }
        ensures answer { result ≡ hidden T answer }
    {
        if let Err(StoreFault::Memory) = answer {
            return Err(StoreFault::Memory);
        }
        self.plan.pop_front();
        self.faults += 1;
        Err(StoreFault::Lost)
    }
}
