ghost use Rattle.std.specs.Prelude.{◌≡◌, ◌≢◌, ◌≤◌, ◌<◌, ◌⊎◌, ℕ, List, [], true, false, IsTrue, All, length, map, IfOk, IfErr, OnOk, OnErr, Some, None};
ghost use Rattle.std.specs.List.{IsDistinct};
ghost use Rattle.mesh_base.specs.Order.{same_bytes};
ghost use Rattle.store_api.specs.History.{key_of, revision};
ghost use Rattle.store_api.specs.Contents.{IsBatch, IsListing, after_commit, after_compact, after_grant, after_keep_alive, after_tick, dead_lease, unchanged};
ghost use Rattle.store_api.specs.Calls.{Called, Ending, Request, ending_of, memory_ending, to_commit, to_compact, to_grant, to_keep_alive, to_list, to_pull, to_tick};
ghost use Rattle.store_api.specs.Leases.{is_live_lease};
ghost use Rattle.store_api.specs.declared.change.Batch as batch;
ghost use Rattle.store_api.specs.declared.change.Listing as listing;
ghost use Rattle.store_api.specs.Meaning.{Meaning, Keeps, Makes, MayMake};

use crate::change::{Batch, Listing, Op, Ranges, StoreFault};
use mesh_base::Memory;
use std::alloc::Global;

/// The most operations of one transaction (etcd's `--max-txn-ops` by default).
pub const MAX_OPS: usize = 128;

/// A key-value store with etcd's guarantees.
///
/// Its meaning is one record: the contents (history, compacted revision, leases), how many calls
/// failed and how many were made, what each call found and left (where the store tells it),
/// whether nobody else writes, whether leases are numbered in turn, and which keys may be written.
/// Every call finds the contents as they were, or later ones where others write too; its answer
/// speaks of what it leaves.
pub trait Store {
    /// What tells this store from others.
    type Name;

    /// Which store this is. It stays over every call.
    ghost name: { Self → Self.Name };

    /// What the store means.
    ghost meaning: { Self → Meaning };

    /// The names of the references that the value holds. They stay over every call.
    ghost loans: { Self → List ℕ } = { λ _. [] };

    /// What a call (the value before it, the value after it, the call, its end) says of whatever
    /// lies between the caller and the store, as a link with planned failures. Nothing, by default.
    ghost crossed: { Self → Self → Request → Ending → Type 0 } = { λ _ _ _ _. Unit {0} };

    /// Lists the pairs of the ranges that are live at the store's revision, in byte order of keys.
    ///
    /// After `Lost` and `Memory` nothing is known of the pairs, and the contents are as found.
    fn list(&mut self, alloc: Global, ranges: &Ranges) -> Result<Listing, StoreFault>
        ensures listing { IfOk result (IsListing ranges.now.items (meaning self.new).contents) }
        ensures made { OnOk result (Makes (meaning self.old) (meaning self.new) unchanged) }

        // No effect after a refusal.
        ensures lost { result ≡ Err StoreFault.Lost → MayMake (meaning self.old) (meaning self.new) unchanged }
        ensures refused { IfErr result (λ fault. fault ≢ StoreFault.Lost → Makes (meaning self.old) (meaning self.new) unchanged) }
        ensures refusals { IfErr result (λ fault. (fault ≡ StoreFault.Lost) ⊎ (fault ≡ StoreFault.Memory)) }

        // How it ended, in the words that are the same for every call.
        ensures call { Called to_list (ending_of listing.Listing result) (meaning self.old) (meaning self.new) }

        ensures keeps { Keeps (meaning self.old) (meaning self.new) }
        ensures named { name self.new ≡ name self.old }
        ensures crossed { crossed self.old self.new to_list (ending_of listing.Listing result) }
        ensures loans { loans self.new ≡ loans self.old };

    /// Delivers what the revisions from `from` on changed in the ranges (etcd: a watch from there).
    ///
    /// The batch covers at most `most` revisions, ends at the store's revision at the latest, and
    /// has every change of the ranges in it: in the order of the revisions, each once, and no
    /// revision in parts. Its `upto` says how far it goes, also where the last revisions changed
    /// other keys; the next pull is from `upto + 1`.
    ///
    /// `Compacted` exactly where `from` is at or below the compacted revision. The border is the
    /// safe one: etcd 3.4 serves a watch from the compacted revision itself, but without the
    /// deletions of that revision (measured), so a reader that trusts it keeps withdrawn records.
    fn pull(
        &mut self,
        alloc: Global,
        ranges: &Ranges,
        from: u64,
        most: u64,
    ) -> Result<Batch, StoreFault>
        requires { 1 ≤ from }
        ensures batch { IfOk result (IsBatch ranges.now.items from most (meaning self.new).contents) }
        ensures made { OnOk result (Makes (meaning self.old) (meaning self.new) unchanged) }

        // The history behind the compacted revision alone is there.
        ensures there { OnOk result ((meaning self.new).contents.compacted < from) }
        ensures compacted { (compacted : ℕ) → result ≡ Err (StoreFault.Compacted compacted) → (compacted ≡ (meaning self.new).contents.compacted) × (from ≤ compacted) }

        // No effect after a refusal.
        ensures lost { result ≡ Err StoreFault.Lost → MayMake (meaning self.old) (meaning self.new) unchanged }
        ensures refused { IfErr result (λ fault. fault ≢ StoreFault.Lost → Makes (meaning self.old) (meaning self.new) unchanged) }
        ensures not_no_lease { (lease : ℕ) → result ≢ Err (StoreFault.NoLease lease) }

        // How it ended, in the words that are the same for every call.
        ensures call { Called (to_pull from) (ending_of batch.Batch result) (meaning self.old) (meaning self.new) }

        ensures keeps { Keeps (meaning self.old) (meaning self.new) }
        ensures named { name self.new ≡ name self.old }
        ensures crossed { crossed self.old self.new (to_pull from) (ending_of batch.Batch result) }
        ensures loans { loans self.new ≡ loans self.old };

    /// Applies the operations as one transaction, and answers the store's revision after it.
    ///
    /// What they change is one revision, in their order. A deletion of a key that is not live
    /// changes nothing, and a transaction that changes nothing adds no revision.
    fn commit(&mut self, alloc: Global, ops: &[Op]) -> Result<u64, StoreFault>
        requires few { length ops.now ≤ MAX_OPS }
        requires distinct { IsDistinct same_bytes (map key_of ops.now) }
        requires writable { All (λ op. IsTrue ((meaning self.old).writable (key_of op))) ops.now }

        ensures made { OnOk result (Makes (meaning self.old) (meaning self.new) (after_commit ops.now)) }
        ensures revision { IfOk result (λ number. number ≡ revision (meaning self.new).contents.history) }

        // The first put under a lease that is not live decides.
        ensures all_live { OnOk result (dead_lease (meaning self.new).contents.leases ops.now ≡ None) }
        ensures no_lease { (lease : ℕ) → result ≡ Err (StoreFault.NoLease lease) → dead_lease (meaning self.new).contents.leases ops.now ≡ Some lease }

        // A lost transaction was made whole or not at all, and another refusal has no effect.
        ensures lost { result ≡ Err StoreFault.Lost → MayMake (meaning self.old) (meaning self.new) (after_commit ops.now) }
        ensures refused { IfErr result (λ fault. fault ≢ StoreFault.Lost → Makes (meaning self.old) (meaning self.new) unchanged) }
        ensures not_compacted { (compacted : ℕ) → result ≢ Err (StoreFault.Compacted compacted) }

        // How it ended, in the words that are the same for every call.
        ensures call { Called (to_commit ops.now) (ending_of ℕ result) (meaning self.old) (meaning self.new) }

        ensures keeps { Keeps (meaning self.old) (meaning self.new) }
        ensures named { name self.new ≡ name self.old }
        ensures crossed { crossed self.old self.new (to_commit ops.now) (ending_of ℕ result) }
        ensures loans { loans self.new ≡ loans self.old };

    /// Grants a lease of so many seconds, and answers its number (etcd: LeaseGrant).
    ///
    /// It is live until the store's clock reaches its deadline, which is so many seconds from now.
    fn grant(&mut self, alloc: Global, seconds: u64) -> Result<u64, StoreFault>
        requires { 1 ≤ seconds }
        ensures made { OnOk result (Makes (meaning self.old) (meaning self.new) (after_grant seconds)) }
        ensures number { IfOk result (λ number. number ≡ (meaning self.new).contents.leases.last) }

        // A lost grant was made whole or not at all, and another refusal has no effect.
        ensures lost { result ≡ Err StoreFault.Lost → MayMake (meaning self.old) (meaning self.new) (after_grant seconds) }
        ensures refused { IfErr result (λ fault. fault ≢ StoreFault.Lost → Makes (meaning self.old) (meaning self.new) unchanged) }
        ensures refusals { IfErr result (λ fault. (fault ≡ StoreFault.Lost) ⊎ (fault ≡ StoreFault.Memory)) }

        // How it ended, in the words that are the same for every call.
        ensures call { Called (to_grant seconds) (ending_of ℕ result) (meaning self.old) (meaning self.new) }

        ensures keeps { Keeps (meaning self.old) (meaning self.new) }
        ensures named { name self.new ≡ name self.old }
        ensures crossed { crossed self.old self.new (to_grant seconds) (ending_of ℕ result) }
        ensures loans { loans self.new ≡ loans self.old };

    /// Moves the lease's deadline to now plus the seconds that were granted (etcd: LeaseKeepAlive).
    ///
    /// Takes no memory.
    fn keep_alive(&mut self, lease: u64) -> Result<(), StoreFault>
        ensures made { OnOk result (Makes (meaning self.old) (meaning self.new) (after_keep_alive lease)) }

        // A lease that is not live is refused.
        ensures live { OnOk result (is_live_lease (meaning self.new).contents.leases.live lease ≡ true) }
        ensures no_lease { (named : ℕ) → result ≡ Err (StoreFault.NoLease named) → (named ≡ lease) × (is_live_lease (meaning self.new).contents.leases.live lease ≡ false) }

        // A lost call was made whole or not at all, and another refusal has no effect.
        ensures lost { result ≡ Err StoreFault.Lost → MayMake (meaning self.old) (meaning self.new) (after_keep_alive lease) }
        ensures refused { IfErr result (λ fault. fault ≢ StoreFault.Lost → Makes (meaning self.old) (meaning self.new) unchanged) }
        ensures refusals { IfErr result (λ fault. (fault ≡ StoreFault.Lost) ⊎ (fault ≡ StoreFault.NoLease lease)) }

        // How it ended, in the words that are the same for every call.
        ensures call { Called (to_keep_alive lease) (ending_of (Unit {0}) result) (meaning self.old) (meaning self.new) }

        ensures keeps { Keeps (meaning self.old) (meaning self.new) }
        ensures named { name self.new ≡ name self.old }
        ensures crossed { crossed self.old self.new (to_keep_alive lease) (ending_of (Unit {0}) result) }
        ensures loans { loans self.new ≡ loans self.old };
}

/// What is done to a store from outside the control plane.
pub trait StoreAdmin: Store {
    /// Moves the store's clock on by so many seconds, and answers the store's revision after it.
    ///
    /// Each lease whose deadline is at or before the new time lapses, in order of deadline and then
    /// number: its live keys are deleted in one revision, in byte order, and a lease without keys
    /// makes none. A clock that would pass 2 ^ 64 - 1 stays there.
    fn tick(&mut self, alloc: Global, seconds: u64) -> Result<u64, StoreFault>
        ensures made { OnOk result (Makes (Self.meaning self.old) (Self.meaning self.new) (after_tick seconds)) }
        ensures revision { IfOk result (λ number. number ≡ revision (Self.meaning self.new).contents.history) }

        // A lost tick was made whole or not at all, and another refusal has no effect.
        ensures lost { result ≡ Err StoreFault.Lost → MayMake (Self.meaning self.old) (Self.meaning self.new) (after_tick seconds) }
        ensures refused { IfErr result (λ fault. fault ≢ StoreFault.Lost → Makes (Self.meaning self.old) (Self.meaning self.new) unchanged) }
        ensures refusals { IfErr result (λ fault. (fault ≡ StoreFault.Lost) ⊎ (fault ≡ StoreFault.Memory)) }

        // How it ended, in the words that are the same for every call.
        ensures call { Called (to_tick seconds) (ending_of ℕ result) (Self.meaning self.old) (Self.meaning self.new) }

        ensures keeps { Keeps (Self.meaning self.old) (Self.meaning self.new) }
        ensures named { Self.name self.new ≡ Self.name self.old }
        ensures loans { Self.loans self.new ≡ Self.loans self.old };

    /// Compacts the history up to `upto`, and answers the compacted revision (etcd: Compact).
    ///
    /// It is at most the store's revision, and never falls. Pulls from there or before are refused
    /// from then on; what is live stays.
    fn compact(&mut self, alloc: Global, upto: u64) -> Result<u64, Memory>
        ensures made { OnOk result (Makes (Self.meaning self.old) (Self.meaning self.new) (after_compact upto)) }
        ensures number { IfOk result (λ number. number ≡ (Self.meaning self.new).contents.compacted) }
        ensures refused { OnErr result (Makes (Self.meaning self.old) (Self.meaning self.new) unchanged) }

        // How it ended, in the words that are the same for every call.
        ensures call { Called (to_compact upto) (memory_ending ℕ result) (Self.meaning self.old) (Self.meaning self.new) }

        ensures keeps { Keeps (Self.meaning self.old) (Self.meaning self.new) }
        ensures named { Self.name self.new ≡ Self.name self.old }
        ensures loans { Self.loans self.new ≡ Self.loans self.old };
}
