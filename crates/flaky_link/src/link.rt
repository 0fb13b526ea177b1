ghost use Rattle.std.specs.Prelude.{◌≡◌, ◌≤◌, ℕ, List, IsTrue, All, length, map};
ghost use Rattle.std.specs.List.{IsDistinct};
ghost use Rattle.mesh_base.specs.Order.{same_bytes};
ghost use Rattle.store_api.specs.History.{key_of};
ghost use Rattle.store_api.specs.declared.change.Batch as batch;
ghost use Rattle.store_api.specs.declared.change.Listing as listing;
ghost use Rattle.flaky_link.specs.Answers.{IsCommit, IsGrant, IsKeepAlive, IsList, IsPull};
ghost use Rattle.flaky_link.specs.Crossed.{Crossed};
ghost use Rattle.store_api.specs.Calls.{Called, ending_of, to_commit, to_grant, to_keep_alive, to_list, to_pull};
ghost use Rattle.flaky_link.specs.Link.{linked, loans_of};
ghost use Rattle.flaky_link.specs.Through.{Through};

use crate::state::{Fate, LinkState};
use std::alloc::Global;
use store_api::{Batch, Listing, MAX_OPS, Op, Ranges, Store, StoreFault};

/// A link before a store.
///
/// It is a store itself: its name and its contents are those of the store behind it, and its faults
/// are the store's and its own. While it is down, no call reaches the store and the plan stays.
/// Otherwise the plan decides: a call passes, or it does not reach the store, or the store makes it
/// and its answer is lost. A link lends its store, and gives it back at its end.
#[derive(Drop)]
pub struct FlakyLink<'a, S: Store> {
    pub state: &'a mut LinkState,
    pub store: &'a mut S,
}

impl<'a, S: Store> FlakyLink<'a, S> {
    /// A link in this state before the store. Takes no memory.
    pub fn new(state: &'a mut LinkState, store: &'a mut S) -> FlakyLink<'a, S>
        ensures same_state { result.state.ghost_name ≡ state.entry.ghost_name }
        ensures same_store { result.store.ghost_name ≡ store.entry.ghost_name }
        ensures state { result.state.now ≡ state.old }
        ensures store { result.store.now ≡ store.old }
    {
        FlakyLink { state, store }
    }
}

impl<S: Store> Store for FlakyLink<'_, S> {
    type Name = S::Name;

    ghost name = { λ l. S.name l.store.now };

    ghost meaning = { λ l. linked l.state.now (S.meaning l.store.now) };

    ghost crossed = { λ before after request end. Crossed before.state.now after.state.now (S.meaning before.store.now) (S.meaning after.store.now) request end };

    ghost loans = { λ l. loans_of l.state.ghost_name l.store.ghost_name (S.loans l.store.now) };

    fn list(&mut self, alloc: Global, ranges: &Ranges) -> Result<Listing, StoreFault>
        ensures through { Through listing.Listing (IsList ranges.now.items) self.old.state.now self.new.state.now (S.meaning self.old.store.now) (S.meaning self.new.store.now) result }
        ensures answers { IsList ranges.now.items (linked self.old.state.now (S.meaning self.old.store.now)) (linked self.new.state.now (S.meaning self.new.store.now)) result }
        ensures call { Called to_list (ending_of listing.Listing result) (linked self.old.state.now (S.meaning self.old.store.now)) (linked self.new.state.now (S.meaning self.new.store.now)) }
        ensures crossed { Crossed self.old.state.now self.new.state.now (S.meaning self.old.store.now) (S.meaning self.new.store.now) to_list (ending_of listing.Listing result) }
        ensures named { S.name self.new.store.now ≡ S.name self.old.store.now }
        ensures loans { loans_of self.new.state.ghost_name self.new.store.ghost_name (S.loans self.new.store.now) ≡ loans_of self.old.state.ghost_name self.old.store.ghost_name (S.loans self.old.store.now) }
    {
        match self.state.meet() {
            Fate::Passes => self.store.list(alloc, ranges),
            Fate::FailsBefore => Err(StoreFault::Lost),
            Fate::FailsAfter => self.state.hide(self.store.list(alloc, ranges)),
        }
    }

    fn pull(
        &mut self,
        alloc: Global,
        ranges: &Ranges,
        from: u64,
        most: u64,
    ) -> Result<Batch, StoreFault>
        requires { 1 ≤ from }
        ensures through { Through batch.Batch (IsPull ranges.now.items from most) self.old.state.now self.new.state.now (S.meaning self.old.store.now) (S.meaning self.new.store.now) result }
        ensures answers { IsPull ranges.now.items from most (linked self.old.state.now (S.meaning self.old.store.now)) (linked self.new.state.now (S.meaning self.new.store.now)) result }
        ensures call { Called (to_pull from) (ending_of batch.Batch result) (linked self.old.state.now (S.meaning self.old.store.now)) (linked self.new.state.now (S.meaning self.new.store.now)) }
        ensures crossed { Crossed self.old.state.now self.new.state.now (S.meaning self.old.store.now) (S.meaning self.new.store.now) (to_pull from) (ending_of batch.Batch result) }
        ensures named { S.name self.new.store.now ≡ S.name self.old.store.now }
        ensures loans { loans_of self.new.state.ghost_name self.new.store.ghost_name (S.loans self.new.store.now) ≡ loans_of self.old.state.ghost_name self.old.store.ghost_name (S.loans self.old.store.now) }
    {
        match self.state.meet() {
            Fate::Passes => self.store.pull(alloc, ranges, from, most),
            Fate::FailsBefore => Err(StoreFault::Lost),
            Fate::FailsAfter => self.state.hide(self.store.pull(alloc, ranges, from, most)),
        }
    }

    fn commit(&mut self, alloc: Global, ops: &[Op]) -> Result<u64, StoreFault>
        requires few { length ops.now ≤ MAX_OPS }
        requires distinct { IsDistinct same_bytes (map key_of ops.now) }
        requires writable { All (λ op. IsTrue ((S.meaning self.old.store.now).writable (key_of op))) ops.now }
        ensures through { Through ℕ (IsCommit ops.now) self.old.state.now self.new.state.now (S.meaning self.old.store.now) (S.meaning self.new.store.now) result }
        ensures answers { IsCommit ops.now (linked self.old.state.now (S.meaning self.old.store.now)) (linked self.new.state.now (S.meaning self.new.store.now)) result }
        ensures call { Called (to_commit ops.now) (ending_of ℕ result) (linked self.old.state.now (S.meaning self.old.store.now)) (linked self.new.state.now (S.meaning self.new.store.now)) }
        ensures crossed { Crossed self.old.state.now self.new.state.now (S.meaning self.old.store.now) (S.meaning self.new.store.now) (to_commit ops.now) (ending_of ℕ result) }
        ensures named { S.name self.new.store.now ≡ S.name self.old.store.now }
        ensures loans { loans_of self.new.state.ghost_name self.new.store.ghost_name (S.loans self.new.store.now) ≡ loans_of self.old.state.ghost_name self.old.store.ghost_name (S.loans self.old.store.now) }
    {
        match self.state.meet() {
            Fate::Passes => self.store.commit(alloc, ops),
            Fate::FailsBefore => Err(StoreFault::Lost),
            Fate::FailsAfter => self.state.hide(self.store.commit(alloc, ops)),
        }
    }

    fn grant(&mut self, alloc: Global, seconds: u64) -> Result<u64, StoreFault>
        requires { 1 ≤ seconds }
        ensures through { Through ℕ (IsGrant seconds) self.old.state.now self.new.state.now (S.meaning self.old.store.now) (S.meaning self.new.store.now) result }
        ensures answers { IsGrant seconds (linked self.old.state.now (S.meaning self.old.store.now)) (linked self.new.state.now (S.meaning self.new.store.now)) result }
        ensures call { Called (to_grant seconds) (ending_of ℕ result) (linked self.old.state.now (S.meaning self.old.store.now)) (linked self.new.state.now (S.meaning self.new.store.now)) }
        ensures crossed { Crossed self.old.state.now self.new.state.now (S.meaning self.old.store.now) (S.meaning self.new.store.now) (to_grant seconds) (ending_of ℕ result) }
        ensures named { S.name self.new.store.now ≡ S.name self.old.store.now }
        ensures loans { loans_of self.new.state.ghost_name self.new.store.ghost_name (S.loans self.new.store.now) ≡ loans_of self.old.state.ghost_name self.old.store.ghost_name (S.loans self.old.store.now) }
    {
        match self.state.meet() {
            Fate::Passes => self.store.grant(alloc, seconds),
            Fate::FailsBefore => Err(StoreFault::Lost),
            Fate::FailsAfter => self.state.hide(self.store.grant(alloc, seconds)),
        }
    }

    fn keep_alive(&mut self, lease: u64) -> Result<(), StoreFault>
        ensures through { Through (Unit {0}) (IsKeepAlive lease) self.old.state.now self.new.state.now (S.meaning self.old.store.now) (S.meaning self.new.store.now) result }
        ensures answers { IsKeepAlive lease (linked self.old.state.now (S.meaning self.old.store.now)) (linked self.new.state.now (S.meaning self.new.store.now)) result }
        ensures call { Called (to_keep_alive lease) (ending_of (Unit {0}) result) (linked self.old.state.now (S.meaning self.old.store.now)) (linked self.new.state.now (S.meaning self.new.store.now)) }
        ensures crossed { Crossed self.old.state.now self.new.state.now (S.meaning self.old.store.now) (S.meaning self.new.store.now) (to_keep_alive lease) (ending_of (Unit {0}) result) }
        ensures named { S.name self.new.store.now ≡ S.name self.old.store.now }
        ensures loans { loans_of self.new.state.ghost_name self.new.store.ghost_name (S.loans self.new.store.now) ≡ loans_of self.old.state.ghost_name self.old.store.ghost_name (S.loans self.old.store.now) }
    {
        match self.state.meet() {
            Fate::Passes => self.store.keep_alive(lease),
            Fate::FailsBefore => Err(StoreFault::Lost),
            Fate::FailsAfter => self.state.hide(self.store.keep_alive(lease)),
        }
    }
}
