ghost use Rattle.std.specs.Prelude.{◌≡◌, ◌≢◌, ◌<◌, ◌≤◌, ◌&&◌, ℕ, List, [], ◌∷◌, length, not, true, is_some, Some, None, Err, IsTrue, IfOk, OnOk, OnErr};
ghost use Rattle.std.specs.FinMap.{get, keys};
ghost use Rattle.std.specs.List.{list_any};
ghost use Rattle.key_paths.specs.Keys.{key_bytes};
ghost use Rattle.key_paths.specs.Paths.{record_ranges};
ghost use Rattle.mesh_records.specs.Written.{text_of};
ghost use Rattle.record_check.specs.Reading.{IsOfKind};
ghost use Rattle.key_paths.specs.declared.hop.Hop.TheVariants.{State};
ghost use Rattle.store_api.specs.History.{in_ranges};
ghost use Rattle.store_api.specs.Calls.{Talked, on_store, to_commit, to_grant};
ghost use Rattle.store_api.specs.Meaning.{Keeps};
ghost use Rattle.exporter.specs.State.{IsExport, IsExported, after_declare, after_item, after_items, after_start, after_stop, after_withdraw, everything, is_record, is_synced, new_export, next_ops, op_of, record_op, turns, waiting};
ghost use Rattle.exporter.specs.Talks.{StopsForMemory, WantedMemory, export_talk, fault_of, keep_talk, start_talk};

use crate::declared::Declared;
use crate::fault::ExportFault;
use crate::item::Item;
use crate::queue::Queue;
use crate::texts::{config_key, config_value, place};
use key_paths::{Hop, Key, write_key};
use mesh_base::{Bytes, Memory};
use mesh_records::write_record;
use mesh_text::ClusterName;
use record_values::Record;
use std::alloc::Global;
use std::marker::Model;
use store_api::{Op, Store, StoreFault};
use synced_marks::mark_key;

/// How far an export came.
#[derive(Clone, Copy, Debug, PartialEq, Eq)]
pub struct Exported {
    /// How many items were written.
    pub done: u64,
    /// How many items wait.
    pub left: u64,
}

/// The records that a cluster declares, and what of them waits to be written to its store.
#[derive(Drop)]
pub struct Exporter {
    alloc: Global,
    cluster: ClusterName,
    /// The cluster's number.
    number: u32,
    /// The time to live of its leases.
    seconds: u64,
    declared: Declared,
    queue: Queue,
    /// The lease of the last start, while the exporter runs.
    lease: Option<u64>,
    /// For each kind, whether its mark was written since the start.
    marked: [bool; 4],
}

impl Model for Exporter {
    ghost use Rattle.exporter.specs.State.{Export};
    ghost use Rattle.exporter.specs.Kept.{export_code};

    ghost Value = { Export };

    ghost coded = { export_code };

    ghost use Rattle.exporter.specs.Fields.{export_of};
    ghost use Rattle.exporter.specs.State.{IsExport};

    ghost view = { export_of };

    ghost invariant = { λ e. IsExport (export_of e) };
}

impl Exporter {
    /// A stopped exporter of the cluster with this number, which declares nothing.
    ///
    /// Its leases are granted for so many seconds.
    pub fn new(alloc: Global, cluster: ClusterName, number: u32, seconds: u64) -> Exporter
        requires { 1 ≤ seconds }
        ensures { result ≡ new_export cluster number seconds }
    {
        Exporter {
            alloc,
            cluster,
            number,
            seconds,
            declared: Declared::new(alloc),
            queue: Queue::new(alloc),
            lease: None,
            marked: [false; 4],
        }
    }

    /// Whether it runs: it was started, and neither stopped since nor told that its lease is dead.
    pub fn is_running(&self) -> bool
        ensures { result ≡ is_some self.now.lease }
    {
        self.lease.is_some()
    }

    /// Whether it runs and the marks of all four kinds were written since the start.
    pub fn is_synced(&self) -> bool
        ensures { result ≡ is_synced self.now }
    {
        self.lease.is_some() && self.marked.iter().all(|mark| *mark)
    }

    /// The name of its cluster.
    pub fn cluster(&self) -> &ClusterName
        ensures { result.now ≡ self.now.cluster }
    {
        &self.cluster
    }

    /// How many items wait.
    pub fn left(&self) -> u64
        ensures { result ≡ length self.now.queue }
    {
        self.queue.len() as u64
    }

    /// Declares the record under its key, in place of what was declared there before.
    ///
    /// Where the exporter runs, the key waits to be written; one that waits already keeps its place,
    /// and the last declared value is written. Logarithmic in the declared records and in those that
    /// wait. After `Memory` nothing changed.
    pub fn declare(&mut self, key: &Key, value: &Record) -> Result<(), Memory>
        requires kind { IsOfKind key.now value.now }
        requires exported { IsExported self.old.cluster key.now }
        ensures declared { OnOk result (self.new ≡ after_declare (key_bytes key.now) (text_of value.now) self.old) }
        ensures refused { OnErr result (self.new ≡ self.old) }
    {
        let key = Bytes::from_vec(write_key(self.alloc, key)?);
        let value = Bytes::from_vec(write_record(self.alloc, value)?);
        self.declare_bytes(key, value)
    }

    /// Withdraws the record under the key; where none is declared nothing changes.
    ///
    /// Where the exporter runs, the key waits to be deleted from the store, and one that waits
    /// already keeps its place. After `Memory` nothing changed. Costs what `declare` costs.
    pub fn withdraw(&mut self, key: &Key) -> Result<(), Memory>
        ensures withdrawn { OnOk result (self.new ≡ after_withdraw (key_bytes key.now) self.old) }
        ensures refused { OnErr result (self.new ≡ self.old) }
    {
        let key = Bytes::from_vec(write_key(self.alloc, key)?);
        self.withdraw_bytes(&key)
    }

    /// Nothing waits where it is stopped, and what is declared are records of its cluster.
    pub fn is_export(&self)
        ensures { IsExport self.now }
    {
        let _ = &self.queue;
    }

    /// Grants a lease, and puts everything in the queue: the config, the declared records in byte
    /// order of their keys, and the four marks.
    ///
    /// An exporter that runs starts anew: its queue is replaced, with the deletions of withdrawn
    /// records that wait in it, and its old lease is left to lapse. After `Lost` and `Memory` it is
    /// as before; a lost grant may have been made, and that lease lapses unused.
    pub fn start<S: Store>(&mut self, store: &mut S) -> Result<(), ExportFault>
        ensures talk { result ≢ Err ExportFault.Memory → Talked (on_store S.meaning S.crossed) (start_talk self.old) store.old store.new (record { exporter = self.new; fault = fault_of result }) }
        ensures memory { result ≡ Err ExportFault.Memory → WantedMemory S.meaning S.crossed (to_grant self.old.seconds) store.old store.new }
        ensures unchanged { OnErr result (self.new ≡ self.old) }

        ensures keeps { Keeps (S.meaning store.old) (S.meaning store.new) }
        ensures named { S.name store.new ≡ S.name store.old }
        ensures loans { S.loans store.new ≡ S.loans store.old }
    {
        let queue = Queue::everything(self.alloc, &self.declared)?;
        match store.grant(self.alloc, self.seconds) {
            Ok(lease) => {
                self.begin(queue, lease);
                Ok(())
            }
            Err(StoreFault::Lost) => Err(ExportFault::Lost),
            Err(_) => Err(ExportFault::Memory),
        }
    }

    /// Empties the queue, and leaves the lease to lapse.
    ///
    /// What is exported lives on until then. Records stay declared. Takes no memory.
    pub fn stop(&mut self)
        ensures { self.new ≡ after_stop self.old }
    {
        self.queue.clear();
        self.lease = None;
        self.marked = [false; 4];
    }

    /// Writes the item in front, by one commit.
    ///
    /// A declared record is put under the lease with its declared value, and another record is
    /// deleted. The config and the marks are put under the lease. After `Lost` and `Memory` the item
    /// is still in front; a lost commit may have been made. `NoLease` exactly where a put was reached
    /// and the lease is not live in the store as the commit found it, and then the exporter is
    /// stopped.
    pub fn export_one<S: Store>(&mut self, store: &mut S) -> Result<(), ExportFault>
        requires waiting { 0 < length self.old.queue }
        requires writable { (key : List ℕ) → (S.meaning store.old).writable key ≡ true }

        ensures talk { result ≢ Err ExportFault.Memory → Talked (on_store S.meaning S.crossed) (export_talk 1 self.old) store.old store.new (record { exporter = self.new; fault = fault_of result }) }
        ensures memory { result ≡ Err ExportFault.Memory → WantedMemory S.meaning S.crossed (to_commit (next_ops self.old)) store.old store.new }
        ensures after { OnOk result (self.new ≡ after_item self.old) }
        ensures unchanged { result ≡ Err ExportFault.Memory → self.new ≡ self.old }

        ensures keeps { Keeps (S.meaning store.old) (S.meaning store.new) }
        ensures named { S.name store.new ≡ S.name store.old }
        ensures loans { S.loans store.new ≡ S.loans store.old }
    {
        let ops = [self.next_op()?];
        match store.commit(self.alloc, &ops) {
            Ok(_) => {
                self.finish_item();
                Ok(())
            }
            Err(StoreFault::NoLease { lease }) => Err(self.lose_lease(lease)),
            Err(StoreFault::Lost) => Err(ExportFault::Lost),
            Err(_) => Err(ExportFault::Memory),
        }
    }

    /// Writes as many items as wait, and at most so many, from the front and one by one.
    ///
    /// Each is written as by `export_one`. At the first that is refused the export ends, and what
    /// was written before stays written. A stopped exporter, and one with an empty queue, makes no
    /// call.
    pub fn export<S: Store>(&mut self, store: &mut S, most: u64) -> Result<Exported, ExportFault>
        requires writable { (key : List ℕ) → (S.meaning store.old).writable key ≡ true }

        ensures done { IfOk result (λ exported. exported.done ≡ turns most self.old) }
        ensures left { IfOk result (λ exported. exported.left ≡ length self.new.queue) }
        ensures after { OnOk result (self.new ≡ after_items (turns most self.old) self.old) }
        ensures talk { result ≢ Err ExportFault.Memory → Talked (on_store S.meaning S.crossed) (export_talk (turns most self.old) self.old) store.old store.new (record { exporter = self.new; fault = fault_of result }) }
        ensures memory { result ≡ Err ExportFault.Memory → StopsForMemory S.meaning S.crossed most self.old self.new store.old store.new }

        ensures keeps { Keeps (S.meaning store.old) (S.meaning store.new) }
        ensures named { S.name store.new ≡ S.name store.old }
        ensures loans { S.loans store.new ≡ S.loans store.old }
    {
        let done = most.min(self.left());
        for _turn in 0..done {
            self.export_one(store)?;
        }
        Ok(Exported {
            done,
            left: self.left(),
        })
    }

    /// Keeps the lease alive; a stopped exporter makes no call.
    ///
    /// `NoLease` exactly where the lease is not live in the store, and then the exporter is stopped.
    /// A lost call may have kept it alive. Takes no memory.
    pub fn keep<S: Store>(&mut self, store: &mut S) -> Result<(), ExportFault>
        ensures talk { Talked (on_store S.meaning S.crossed) (keep_talk self.old) store.old store.new (record { exporter = self.new; fault = fault_of result }) }

        ensures keeps { Keeps (S.meaning store.old) (S.meaning store.new) }
        ensures named { S.name store.new ≡ S.name store.old }
        ensures loans { S.loans store.new ≡ S.loans store.old }
    {
        let Some(lease) = self.lease else {
            return Ok(());
        };
        match store.keep_alive(lease) {
            Ok(()) => Ok(()),
            Err(StoreFault::NoLease { lease: _ }) => Err(self.lose_lease(lease)),
            Err(_) => Err(ExportFault::Lost),
        }
    }

    // Everything waits, under this lease.
    fn begin(&mut self, queue: Queue, lease: u64)
        requires { queue ≡ everything (keys self.old.declared) }
        ensures { self.new ≡ after_start lease self.old }
    {
        self.queue = queue;
        self.lease = Some(lease);
        self.marked = [false; 4];
    }

    // The lease is not live: nothing is exported any more.
    fn lose_lease(&mut self, lease: u64) -> ExportFault
        ensures fault { result ≡ ExportFault.NoLease lease }
        ensures stopped { self.new ≡ after_stop self.old }
    {
        self.stop();
        ExportFault::NoLease { lease }
    }

    // The item in front was written.
    fn finish_item(&mut self)
        ensures { self.new ≡ after_item self.old }
    {
        if let Some(Item::Mark(kind)) = self.queue.front() {
            self.marked[place(*kind)] = true;
        }
        self.queue.drop_front();
    }

    // The commit of the item in front.
    fn next_op(&self) -> Result<Op, Memory>
        requires { 0 < length self.now.queue }
        ensures { IfOk result (λ op. op ∷ [] ≡ next_ops self.now) }
    {
        match self.queue.front() {
            Some(item) => self.op_of(item),
            None => unreachable!(),
        }
    }

    fn op_of(&self, item: &Item) -> Result<Op, Memory>
        ensures { IfOk result (λ op. op ≡ op_of self.now item.now) }
    {
        match item {
            Item::Config => {
                let key = config_key(self.alloc, &self.cluster)?;
                let value = config_value(self.alloc, self.number)?;
                Ok(self.put(key, value))
            }
            Item::Record { key } => self.record_op(key),
            Item::Mark(kind) => {
                let key = mark_key(self.alloc, &self.cluster, Hop::State, *kind)?;
                let value = Bytes::from_slice(self.alloc, "1".as_bytes())?;
                Ok(self.put(Bytes::from_vec(key), value))
            }
        }
    }

    fn record_op(&self, key: &Bytes) -> Result<Op, Memory>
        ensures { IfOk result (λ op. op ≡ record_op key.now (get self.now.declared key.now) self.now.lease) }
    {
        let copy = key.clone()?;
        match self.declared.get(key) {
            Some(value) => {
                let value = value.clone()?;
                Ok(self.put(copy, value))
            }
            None => Ok(Op::Delete { key: copy }),
        }
    }

    // A put under the lease.
    fn put(&self, key: Bytes, value: Bytes) -> Op
        ensures { result ≡ Op.Put key value self.now.lease }
    {
        Op::Put {
            key,
            value,
            lease: self.lease,
        }
    }

    // Declares these bytes.
    fn declare_bytes(&mut self, key: Bytes, value: Bytes) -> Result<(), Memory>
        requires { IsTrue (in_ranges (record_ranges self.old.cluster State) key) }
        ensures declared { OnOk result (self.new ≡ after_declare key value self.old) }
        ensures refused { OnErr result (self.new ≡ self.old) }
    {
        let added = self.wait(&key)?;
        match self.declared.set(key, value) {
            Ok(()) => Ok(()),
            Err(Memory) => {
                if added {
                    self.queue.drop_last();
                }
                Err(Memory)
            }
        }
    }

    // Withdraws the record of these bytes.
    fn withdraw_bytes(&mut self, key: &Bytes) -> Result<(), Memory>
        ensures withdrawn { OnOk result (self.new ≡ after_withdraw key.now self.old) }
        ensures refused { OnErr result (self.new ≡ self.old) }
    {
        if self.declared.has(key) {
            let _ = self.wait(key)?;
            self.declared.remove(key);
        }
        Ok(())
    }

    // Puts the key in the queue where the exporter runs, and answers whether it was put there.
    fn wait(&mut self, key: &Bytes) -> Result<bool, Memory>
        ensures queue { OnOk result (self.new ≡ waiting key.now self.old) }
        ensures added { IfOk result (λ added. added ≡ (is_some self.old.lease && not (list_any (is_record key.now) self.old.queue))) }
        ensures refused { OnErr result (self.new ≡ self.old) }
    {
        if self.lease.is_some() {
            self.queue.add(key)
        } else {
            Ok(false)
        }
    }
}
