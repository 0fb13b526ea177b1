ghost use Rattle.std.specs.Prelude.{◌≡◌, ◌≢◌, ◌<◌, ◌≤◌, ◌+◌, ◌⊎◌, ◌++◌, ◌∷◌, ℕ, List, [], true, false, not, length, map, IsOk, OnOk, OnErr, IfOk, IfErr, Some, None};
ghost use Rattle.std.specs.List.{IsDistinct};
ghost use Rattle.mesh_base.specs.Order.{same_bytes};
ghost use Rattle.store_api.specs.History.{key_of, revision};
ghost use Rattle.store_api.specs.Contents.{IsBatch, after_commit, after_compact, after_grant, after_keep_alive, after_tick, dead_lease, empty_contents, unchanged};
ghost use Rattle.store_api.specs.Leases.{is_live_lease};
ghost use Rattle.store_api.specs.Calls.{Called, ending_of, to_pull};
ghost use Rattle.store_api.specs.Meaning.{Keeps, Makes, MayMake};
ghost use Rattle.store_api.specs.declared.change.Batch as batch;
ghost use Rattle.store_api.specs.declared.change.Revision.{Revision};
ghost use Rattle.memory_store.specs.declared.entry.StoreEntry.TheVariants.{Granted, Ticked};
ghost use Rattle.memory_store.specs.Entries.{contents_of};
ghost use Rattle.memory_store.specs.Formed.{IsFormed};
ghost use Rattle.memory_store.specs.Journal.{IsJournal, contents_of_journal, log_of_journal};
ghost use Rattle.memory_store.specs.Stored.{history_of, leases_of, logged, meaning_of, with_compaction, with_keep_alive};
ghost use Rattle.memory_store.specs.Writers.{NameWriters, writers_of};

use crate::entry::{StoreEntry, committed, note, note_where};
use crate::journal::{Replayed, note_compaction, replay};
use crate::lapses::lapses;
use crate::listing::listed;
use crate::live::{Current, Made, apply_changes, changes_over, dead_lease, live_after, live_now};
use crate::watch::delivered;
use lease_clock::Leases;
use mesh_base::{Count, Memory};
use std::alloc::Global;
use std::marker::Model;
use store_api::{Batch, Listing, MAX_OPS, Op, Ranges, Revision, Store, StoreAdmin, StoreFault};
use turn_cell::{Kept, Log};

/// The most revisions of one store, so that numbers stay below 2 ^ 63.
const MOST_REVISIONS: usize = (1 << 63) - 2;

/// A store in memory.
///
/// Contracts see its log and the number of its calls. Its calls never answer `Lost`.
#[derive(Drop)]
pub struct MemoryStore {
    history: Vec<Made>,
    compacted: u64,
    leases: Leases,
    /// What is live now; not there after a call that wanted memory, and made again at the next one.
    current: Option<Current>,
    log: Log<StoreEntry>,
    calls: Count,
}

impl Model for MemoryStore {
    ghost use Rattle.memory_store.specs.Kept.{IsKept};
    ghost use Rattle.memory_store.specs.Stored.{Stored};

    ghost Value = { Stored };

    ghost view = { λ s. record { log = s.log; calls = s.calls } };

    ghost invariant = { λ s. IsKept s.log s.history.items s.compacted s.leases s.current };
}

impl Kept for MemoryStore {
    type Entry = StoreEntry;

    type Fixed = ();

    ghost log = { λ s. s.log };

    ghost fixed = { λ _. tt };
}

impl MemoryStore {
    /// An empty store.
    pub fn new(alloc: Global) -> MemoryStore
        ensures log { result.log ≡ [] }
        ensures contents { (⟦<MemoryStore as Store>⟧.meaning result).contents ≡ empty_contents }
        ensures faults { (⟦<MemoryStore as Store>⟧.meaning result).faults ≡ 0 }
        ensures calls { (⟦<MemoryStore as Store>⟧.meaning result).calls ≡ 0 }
        ensures told { (⟦<MemoryStore as Store>⟧.meaning result).told ≡ None }
        ensures quiet { (⟦<MemoryStore as Store>⟧.meaning result).quiet ≡ true }
        ensures writable { (k : List ℕ) → (⟦<MemoryStore as Store>⟧.meaning result).writable k ≡ true }
    {
        MemoryStore {
            history: Vec::new(alloc),
            compacted: 0,
            leases: Leases::new(alloc),
            current: Some(Current::new(alloc)),
            log: Log::new(),
            calls: Count::new(),
        }
    }

    /// The store that a journal made: its revisions, each by its writer, and its history compacted up
    /// to `compacted`. No lease was granted, and the clock is at 0.
    ///
    /// The revisions are numbered from 2 on; each changes something, no key twice, deletes live keys
    /// alone and names no lease. `compacted` is at most the last number, or 1 without revisions.
    /// Linear in the journal, times the logarithm of the live keys.
    pub fn from_journal(
        alloc: Global,
        journal: Vec<Revision>,
        compacted: u64,
    ) -> Result<MemoryStore, Memory>
        requires { IsJournal journal.items compacted }

        ensures log { IfOk result (λ store. store.log ≡ log_of_journal journal.items compacted) }
        ensures writers { IfOk result (λ store. writers_of store.log ≡ map (λ (r : Revision). r.writer) journal.items) }
        ensures contents { IfOk result (λ store. (⟦<MemoryStore as Store>⟧.meaning store).contents ≡ contents_of_journal journal.items compacted) }
        ensures faults { IfOk result (λ store. (⟦<MemoryStore as Store>⟧.meaning store).faults ≡ 0) }
        ensures calls { IfOk result (λ store. (⟦<MemoryStore as Store>⟧.meaning store).calls ≡ 0) }
        ensures told { IfOk result (λ store. (⟦<MemoryStore as Store>⟧.meaning store).told ≡ None) }
        ensures quiet { IfOk result (λ store. (⟦<MemoryStore as Store>⟧.meaning store).quiet ≡ true) }
        ensures writable { IfOk result (λ store. (k : List ℕ) → (⟦<MemoryStore as Store>⟧.meaning store).writable k ≡ true) }
    {
        let Replayed { history, log } = replay(alloc, journal)?;
        let current = live_after(alloc, history.as_slice())?;
        Ok(MemoryStore {
            history,
            compacted,
            leases: Leases::new(alloc),
            current: Some(current),
            log: note_compaction(log, compacted),
            calls: Count::new(),
        })
    }

    /// Each revision changes something, no key twice, and deletes live keys alone.
    pub fn is_formed(&self)
        ensures { IsFormed (history_of self.now.log) }
    {
        let _ = &self.history;
    }

    /// `commit` by this writer.
    ///
    /// A store at its last revision answers `Memory` to operations that change something.
    pub fn commit_as(&mut self, alloc: Global, writer: u32, ops: &[Op]) -> Result<u64, StoreFault>
        requires few { length ops.now ≤ MAX_OPS }
        requires distinct { IsDistinct same_bytes (map key_of ops.now) }

        ensures log { OnOk result (self.new.log ≡ logged self.old.log writer ops.now) }
        ensures contents { OnOk result (contents_of self.new.log ≡ after_commit ops.now (contents_of self.old.log)) }
        ensures revision { IfOk result (λ number. number ≡ revision (history_of self.new.log)) }
        ensures refused { OnErr result (self.new.log ≡ self.old.log) }

        // The first put under a lease that is not live decides.
        ensures all_live { OnOk result (dead_lease (leases_of self.old.log) ops.now ≡ None) }
        ensures no_lease { (lease : ℕ) → result ≡ Err (StoreFault.NoLease lease) → dead_lease (leases_of self.old.log) ops.now ≡ Some lease }
        ensures not_lost { result ≢ Err StoreFault.Lost }
        ensures not_compacted { (compacted : ℕ) → result ≢ Err (StoreFault.Compacted compacted) }

        ensures calls { self.new.calls ≡ self.old.calls + 1 }
    {
        self.calls.raise();
        if let Some(lease) = dead_lease(&self.leases, ops) {
            return Err(StoreFault::NoLease { lease });
        }
        let mut current = live_now(alloc, self.current.take(), self.history.as_slice())?;
        let changes = changes_over(alloc, &current.live, ops)?;
        let at = self.history.len();
        if changes.is_empty() {
            self.current = Some(current);
            return Ok(at as u64 + 1);
        }
        if at >= MOST_REVISIONS {
            self.current = Some(current);
            return Err(StoreFault::Memory);
        }
        apply_changes(alloc, &mut current, changes.as_slice())?;
        let (changes, noted) = committed(changes);
        self.history.push(Made { writer, changes })?;
        self.current = Some(current);
        self.log.note(writer, noted);
        Ok(at as u64 + 2)
    }

    /// `grant` by this writer.
    ///
    /// Once 2 ^ 64 - 1 leases are granted, the answer is `Memory`. Logarithmic in the live leases, but
    /// for the growth of a vector.
    pub fn grant_as(&mut self, writer: u32, seconds: u64) -> Result<u64, StoreFault>
        requires { 1 ≤ seconds }

        ensures log { OnOk result (self.new.log ≡ self.old.log ++ (writer, Granted seconds) ∷ []) }
        ensures contents { OnOk result (contents_of self.new.log ≡ after_grant seconds (contents_of self.old.log)) }
        ensures number { IfOk result (λ number. number ≡ (leases_of self.new.log).last) }
        ensures refused { OnErr result (self.new.log ≡ self.old.log) }
        ensures refusals { IfErr result (λ fault. fault ≡ StoreFault.Memory) }

        // The number behind the last one is no live lease's.
        ensures fresh { OnOk result (not (is_live_lease (leases_of self.old.log).live ((leases_of self.old.log).last + 1)) ≡ true) }

        ensures calls { self.new.calls ≡ self.old.calls + 1 }
    {
        self.calls.raise();
        self.leases.is_numbered();
        let number = self.leases.grant(seconds)?;
        note(&mut self.log, writer, StoreEntry::Granted(seconds));
        Ok(number)
    }

    /// `keep_alive` by this writer. Logarithmic in the live leases; takes no memory.
    ///
    /// Where the deadline stays as it is the log does too.
    pub fn keep_as(&mut self, writer: u32, lease: u64) -> Result<(), StoreFault>
        ensures log { OnOk result (self.new.log ≡ with_keep_alive self.old.log writer lease) }
        ensures contents { OnOk result (contents_of self.new.log ≡ after_keep_alive lease (contents_of self.old.log)) }
        ensures refused { OnErr result (self.new.log ≡ self.old.log) }

        // A lease that is not live is refused.
        ensures live { OnOk result (is_live_lease (leases_of self.old.log).live lease ≡ true) }
        ensures no_lease { OnErr result (is_live_lease (leases_of self.old.log).live lease ≡ false) }
        ensures refusals { IfErr result (λ fault. fault ≡ StoreFault.NoLease lease) }

        ensures calls { self.new.calls ≡ self.old.calls + 1 }
    {
        self.calls.raise();
        self.leases.is_numbered();
        let before = self.leases.deadline(lease);
        let Some(deadline) = self.leases.renew(lease) else {
            return Err(StoreFault::NoLease { lease });
        };
        let moves = before != Some(deadline);
        note_where(moves, &mut self.log, writer, StoreEntry::KeptAlive(lease));
        Ok(())
    }

    /// `tick` by this writer.
    ///
    /// Takes no memory where no lease is due, and is constant then. Where leases lapse it costs their
    /// keys, each logarithmic in the live ones, and, taken over all ticks, these leases, each
    /// logarithmic in the live ones. A store at its last revision answers `Memory` to a tick that
    /// makes one.
    pub fn tick_as(&mut self, alloc: Global, writer: u32, seconds: u64) -> Result<u64, StoreFault>
        ensures log { OnOk result (self.new.log ≡ self.old.log ++ (writer, Ticked seconds) ∷ []) }
        ensures contents { OnOk result (contents_of self.new.log ≡ after_tick seconds (contents_of self.old.log)) }
        ensures revision { IfOk result (λ number. number ≡ revision (history_of self.new.log)) }
        ensures refused { OnErr result (self.new.log ≡ self.old.log) }
        ensures refusals { IfErr result (λ fault. fault ≡ StoreFault.Memory) }

        ensures calls { self.new.calls ≡ self.old.calls + 1 }
    {
        self.calls.raise();
        if !self.leases.has_due_after(seconds) {
            self.leases.advance(seconds);
            note(&mut self.log, writer, StoreEntry::Ticked(seconds));
            return Ok(self.history.len() as u64 + 1);
        }
        let due = self.leases.due_after(alloc, seconds)?;
        let mut current = live_now(alloc, self.current.take(), self.history.as_slice())?;
        let mut made = lapses(alloc, &mut current, writer, due.as_slice())?;
        if made.len() > MOST_REVISIONS - self.history.len() {
            return Err(StoreFault::Memory);
        }
        self.history.append(&mut made)?;
        self.current = Some(current);
        self.leases.advance(seconds);
        self.leases.expire();
        note(&mut self.log, writer, StoreEntry::Ticked(seconds));
        Ok(self.history.len() as u64 + 1)
    }

    /// `compact` by this writer. Constant; takes no memory, and is always served.
    ///
    /// Where the compacted revision stays as it is the log does too.
    pub fn compact_as(&mut self, writer: u32, upto: u64) -> Result<u64, Memory>
        ensures served { IsOk result }
        ensures log { OnOk result (self.new.log ≡ with_compaction self.old.log writer upto) }
        ensures contents { OnOk result (contents_of self.new.log ≡ after_compact upto (contents_of self.old.log)) }
        ensures number { IfOk result (λ number. number ≡ (contents_of self.new.log).compacted) }

        ensures calls { self.new.calls ≡ self.old.calls + 1 }
    {
        self.calls.raise();
        let revision = self.history.len() as u64 + 1;
        let compacted = self.compacted.max(upto.min(revision));
        let raises = self.compacted < compacted;
        self.compacted = compacted;
        note_where(raises, &mut self.log, writer, StoreEntry::Compacted(upto));
        Ok(compacted)
    }
}

impl Store for MemoryStore {
    type Name = ();

    ghost name = { λ _. tt };

    ghost meaning = { meaning_of };

    fn list(&mut self, alloc: Global, ranges: &Ranges) -> Result<Listing, StoreFault> {
        self.calls.raise();
        let current = live_now(alloc, self.current.take(), self.history.as_slice())?;
        let pairs = listed(alloc, &current.live, ranges);
        self.current = Some(current);
        Ok(Listing {
            at: self.history.len() as u64 + 1,
            pairs: pairs?,
        })
    }

    fn pull(
        &mut self,
        alloc: Global,
        ranges: &Ranges,
        from: u64,
        most: u64,
    ) -> Result<Batch, StoreFault>
        requires { 1 ≤ from }
        ensures batch { IfOk result (IsBatch ranges.now.items from most (meaning_of self.new).contents) }
        ensures made { OnOk result (Makes (meaning_of self.old) (meaning_of self.new) unchanged) }

        ensures there { OnOk result ((meaning_of self.new).contents.compacted < from) }
        ensures compacted { (compacted : ℕ) → result ≡ Err (StoreFault.Compacted compacted) → (compacted ≡ (meaning_of self.new).contents.compacted) × (from ≤ compacted) }

        ensures lost { result ≡ Err StoreFault.Lost → MayMake (meaning_of self.old) (meaning_of self.new) unchanged }
        ensures refused { IfErr result (λ fault. fault ≢ StoreFault.Lost → Makes (meaning_of self.old) (meaning_of self.new) unchanged) }
        ensures not_no_lease { (lease : ℕ) → result ≢ Err (StoreFault.NoLease lease) }

        ensures call { Called (to_pull from) (ending_of batch.Batch result) (meaning_of self.old) (meaning_of self.new) }
        ensures keeps { Keeps (meaning_of self.old) (meaning_of self.new) }

        // Each revision names who wrote it.
        ensures writers { IfOk result (λ batch. NameWriters self.new.log batch.revisions) }

        ensures log { self.new.log ≡ self.old.log }
        ensures calls { self.new.calls ≡ self.old.calls + 1 }
    {
        self.calls.raise();
        if from <= self.compacted {
            return Err(StoreFault::Compacted {
                compacted: self.compacted,
            });
        }
        let after = from - 1;
        let last = self.history.len() as u64 + 1;
        let upto = after.max(after.saturating_add(most).min(last));
        let revisions = delivered(alloc, self.history.as_slice(), ranges, after, upto)?;
        Ok(Batch { upto, revisions })
    }

    fn commit(&mut self, alloc: Global, ops: &[Op]) -> Result<u64, StoreFault> {
        self.commit_as(alloc, 0, ops)
    }

    fn grant(&mut self, _: Global, seconds: u64) -> Result<u64, StoreFault> {
        self.grant_as(0, seconds)
    }

    fn keep_alive(&mut self, lease: u64) -> Result<(), StoreFault> {
        self.keep_as(0, lease)
    }
}

impl StoreAdmin for MemoryStore {
    fn tick(&mut self, alloc: Global, seconds: u64) -> Result<u64, StoreFault> {
        self.tick_as(alloc, 0, seconds)
    }

    fn compact(&mut self, _: Global, upto: u64) -> Result<u64, Memory> {
        self.compact_as(0, upto)
    }
}
