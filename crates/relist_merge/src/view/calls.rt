ghost use Rattle.std.specs.Prelude.{◌≡◌, ◌+◌, ◌-◌, ◌≤◌, ◌<◌, ℕ, List, All, length, map, OnOk, OnErr, option_map, is_some, Some, None};
ghost use Rattle.std.specs.List.{sum_by};
ghost use Rattle.std.specs.Option.{option_copied};
ghost use Rattle.store_api.specs.History.{History};
ghost use Rattle.store_api.specs.Spans.{Record};
ghost use Rattle.key_paths.specs.Paths.{config_key, kinds, mark_key, ranges_of};
ghost use Rattle.synced_marks.specs.Synced.{config_in, has_mark};
ghost use Rattle.relist_merge.specs.Deliveries.{Listing, delivered};
ghost use Rattle.store_api.specs.Given.{IsGiven, gone_on};
ghost use Rattle.relist_merge.specs.Given.{AreChangesRead, IsChangeRead, IsRead, IsReading, delivery_from, delivery_of, edit_in, edits_in, pair_of, rows_in};
ghost use Rattle.relist_merge.specs.Readings.{reading_in};
ghost use Rattle.relist_merge.specs.View.{Follows, Reads, begun, finished, finishes, fresh_part, is_caught_up, lost, new_view, put_of, values, view_after, with_cursor, with_listing, with_parts, with_revision};
ghost use Rattle.relist_merge.specs.Sight.{viewed};
ghost use Rattle.relist_merge.specs.Viewed.{cost, followed, with_edit, with_edits};

use crate::counting::rows_in;
use crate::delivery::{ReadBatch, ReadChange, ReadDelivery, ReadListing, ReadPair, ReadRevision};
use crate::phase::Phase;
use crate::reading::{Reading, config_said};
use crate::reads::read_delivery;
use crate::rows::{Row, Rows};
use crate::sync_keys::sync_keys;
use crate::view::View;
use key_paths::Hop;
use mesh_base::{Bytes, Items, Memory};
use mesh_text::ClusterName;
use record_check::Limit;
use record_values::ClusterConfig;
use std::alloc::Global;
use store_api::Delivery;
use synced_marks::is_synced;

impl View {
    /// A view without entries, waiting, with its cursor at 0.
    pub fn new(alloc: Global, cluster: ClusterName, hop: Hop, limit: Limit) -> View
        ensures { viewed result ≡ record { source = record { cluster = cluster; hop = hop; limit = limit }; shown = new_view; room = 0 } }
    {
        View {
            cluster,
            hop,
            limit,
            rows: Rows::new(alloc),
            cursor: 0,
            phase: Phase::Waiting,
            keys: None,
        }
    }

    /// Every entry counts as sighted before the list that begins now.
    pub fn begin_list(&mut self)
        ensures { viewed self.new ≡ record (viewed self.old) { shown = begun (viewed self.old).shown } }
    {
        self.rows.age();
        self.phase = Phase::Waiting;
    }

    /// The connection was lost: entries and cursor stay.
    pub fn lose(&mut self)
        ensures { viewed self.new ≡ record (viewed self.old) { shown = lost (viewed self.old).shown } }
    {
        self.phase = Phase::Waiting;
    }

    /// Everything up to this revision was seen.
    pub fn move_cursor(&mut self, upto: u64)
        ensures { viewed self.new ≡ record (viewed self.old) { shown = with_cursor upto (viewed self.old).shown } }
    {
        self.cursor = upto;
    }

    /// Whether the view was synced at some revision since its last list, and the connection stands.
    pub fn is_caught_up(&self) -> bool
        ensures { result ≡ is_caught_up (viewed self.now).shown.phase }
    {
        self.phase == Phase::CaughtUp
    }

    /// How the view stands to its store.
    pub fn phase(&self) -> Phase
        ensures { result ≡ (viewed self.now).shown.phase }
    {
        self.phase
    }

    /// The last revision that was seen, or 0.
    pub fn cursor(&self) -> u64
        ensures { result ≡ (viewed self.now).shown.cursor }
    {
        self.cursor
    }
}

impl View {
    /// Makes room for a delivery. All else is as before.
    pub fn reserve(&mut self, alloc: Global, delivery: &ReadDelivery) -> Result<(), Memory>
        ensures same { viewed self.new ≡ record (viewed self.old) { room = (viewed self.new).room } }
        ensures room { OnOk result (rows_in delivery.now ≤ (viewed self.new).room) }
        ensures kept { (viewed self.old).room ≤ (viewed self.new).room }
    {
        let Some(more) = rows_in(delivery) else {
            return Err(Memory);
        };
        if self.keys.is_none() {
            let keys = sync_keys(alloc, &self.cluster, self.hop)?;
            self.keys = Some(keys);
        }
        self.rows.reserve(more)
    }

    // Puts a pair in sight, where there is room.
    fn put(&mut self, pair: ReadPair)
        requires room { 0 < (viewed self.old).room }
        requires read { IsReading (viewed self.old).source.limit pair }
        ensures { viewed self.new ≡ with_edit (pair.key, Some pair.value) (viewed self.old) }
    {
        let ReadPair {
            key,
            value,
            reading,
        } = pair;
        self.rows.put(key, Row { value, reading });
    }

    // Drops the pair of the key.
    fn forget(&mut self, key: &Bytes)
        ensures { viewed self.new ≡ with_edit (key.now, None) (viewed self.old) }
    {
        self.rows.forget(key);
    }

    fn apply(&mut self, change: ReadChange)
        requires room { cost (edit_in change) ≤ (viewed self.old).room }
        requires read { IsChangeRead (viewed self.old).source.limit change }
        ensures { viewed self.new ≡ with_edit (edit_in change) (viewed self.old) }
    {
        match change {
            ReadChange::Put(pair) => self.put(pair),
            ReadChange::Delete { key } => self.forget(&key),
        }
    }

    fn apply_changes(&mut self, changes: Items<ReadChange>)
        requires room { length changes ≤ (viewed self.old).room }
        requires read { All (IsChangeRead (viewed self.old).source.limit) changes }
        ensures { viewed self.new ≡ with_edits (map edit_in changes) (viewed self.old) }
    {
        for change in changes.into_vec() {
            self.apply(change);
        }
    }

    fn put_all(&mut self, pairs: Items<ReadPair>)
        requires room { length pairs ≤ (viewed self.old).room }
        requires read { All (IsReading (viewed self.old).source.limit) pairs }
        ensures { viewed self.new ≡ with_edits (map put_of (map pair_of pairs)) (viewed self.old) }
    {
        for pair in pairs.into_vec() {
            self.put(pair);
        }
    }
}

impl View {
    /// Takes a listing into the view, after `begin_list`. Takes no memory.
    pub fn apply_listing(&mut self, listing: ReadListing)
        requires room { length listing.pairs ≤ (viewed self.old).room }
        requires read { All (IsReading (viewed self.old).source.limit) listing.pairs }
        ensures view { (viewed self.new).shown ≡ with_listing listing.at (map pair_of listing.pairs) (viewed self.old).shown }
        ensures source { (viewed self.new).source ≡ (viewed self.old).source }
        ensures room { (viewed self.old).room ≤ (viewed self.new).room + length listing.pairs }
    {
        let ReadListing { at, pairs } = listing;
        self.put_all(pairs);
        self.cursor = at;
        self.phase = Phase::Held;
    }

    /// Takes the changes of a revision into the view. Takes no memory.
    pub fn apply_revision(&mut self, revision: ReadRevision)
        requires room { length revision.changes ≤ (viewed self.old).room }
        requires read { AreChangesRead (viewed self.old).source.limit revision }
        ensures view { (viewed self.new).shown ≡ with_revision revision.number (map edit_in revision.changes) (viewed self.old).shown }
        ensures source { (viewed self.new).source ≡ (viewed self.old).source }
        ensures room { (viewed self.old).room ≤ (viewed self.new).room + length revision.changes }
    {
        let ReadRevision { number, changes } = revision;
        self.apply_changes(changes);
        self.cursor = number;
    }

    // The source's config, where a fresh row has a valid one.
    fn fresh_config(&self, key: &Bytes) -> Option<&ClusterConfig>
        requires { key.now ≡ config_key (viewed self.now).source.cluster }
        ensures { option_copied result ≡ config_in (viewed self.now).source.cluster (viewed self.now).source.limit (fresh_part (viewed self.now).shown.entries) }
    {
        let _ = self.cluster.as_bytes();
        config_said(&self.rows.get_fresh(key)?.reading)
    }

    // Which marks have a fresh row.
    fn fresh_marks(&self, keys: &[Bytes]) -> [bool; 4]
        requires { keys.now ≡ map (mark_key (viewed self.now).source.cluster (viewed self.now).source.hop) kinds }
        ensures { result ≡ map (has_mark (viewed self.now).source.cluster (viewed self.now).source.hop (fresh_part (viewed self.now).shown.entries)) kinds }
    {
        [
            self.rows.is_fresh(&keys[0]),
            self.rows.is_fresh(&keys[1]),
            self.rows.is_fresh(&keys[2]),
            self.rows.is_fresh(&keys[3]),
        ]
    }

    // Whether the fresh part of the view is synced.
    fn is_synced(&self) -> bool
        ensures { result ≡ (followed (viewed self.now).source).synced (fresh_part (viewed self.now).shown.entries) }
    {
        match &self.keys {
            None => false,
            Some(keys) => is_synced(
                self.fresh_config(&keys.config),
                self.fresh_marks(keys.marks.as_slice()),
            ),
        }
    }

    /// Where the view is held and its fresh part is synced, what is not fresh goes and the view is
    /// caught up; the answer says whether. Else nothing changes. It is called after a listing and
    /// after each revision. Takes no memory; it costs what it drops.
    pub fn finish_sync(&mut self) -> bool
        ensures answer { result ≡ finishes (followed (viewed self.old).source) (viewed self.old).shown }
        ensures view { viewed self.new ≡ record (viewed self.old) { shown = finished (followed (viewed self.old).source) (viewed self.old).shown } }
    {
        if self.phase == Phase::Held && self.is_synced() {
            self.rows.drop_stale();
            self.phase = Phase::CaughtUp;
            true
        } else {
            false
        }
    }

    // A whole listing.
    fn take_listing(&mut self, listing: ReadListing)
        requires room { length listing.pairs ≤ (viewed self.old).room }
        requires read { All (IsReading (viewed self.old).source.limit) listing.pairs }
        ensures view { (viewed self.new).shown ≡ view_after (followed (viewed self.old).source) (Listing listing.at (map pair_of listing.pairs)) (viewed self.old).shown }
        ensures source { (viewed self.new).source ≡ (viewed self.old).source }
        ensures room { (viewed self.old).room ≤ (viewed self.new).room + length listing.pairs }
    {
        self.begin_list();
        self.apply_listing(listing);
        let _ = self.finish_sync();
    }

    // All revisions of a batch, with a look for the marks after each.
    fn take_revisions(&mut self, revisions: Items<ReadRevision>)
        requires room { sum_by (λ (r : ReadRevision). length r.changes) revisions ≤ (viewed self.old).room }
        requires read { All (AreChangesRead (viewed self.old).source.limit) revisions }
        ensures view { (viewed self.new).shown ≡ with_parts (followed (viewed self.old).source) (map edits_in revisions) (viewed self.old).shown }
        ensures source { (viewed self.new).source ≡ (viewed self.old).source }
        ensures room { (viewed self.old).room ≤ (viewed self.new).room + sum_by (λ (r : ReadRevision). length r.changes) revisions }
    {
        for revision in revisions.into_vec() {
            self.apply_revision(revision);
            let _ = self.finish_sync();
        }
    }

    // A whole delivery, as plain data.
    fn take_any(&mut self, delivery: ReadDelivery)
        requires room { rows_in delivery ≤ (viewed self.old).room }
        requires read { IsRead (viewed self.old).source.limit delivery }
        ensures view { (viewed self.new).shown ≡ view_after (followed (viewed self.old).source) (delivery_of delivery) (viewed self.old).shown }
        ensures source { (viewed self.new).source ≡ (viewed self.old).source }
        ensures room { (viewed self.old).room ≤ (viewed self.new).room + rows_in delivery }
    {
        match delivery {
            ReadDelivery::Listing(listing) => self.take_listing(listing),
            ReadDelivery::Batch(batch) => {
                let ReadBatch { upto, revisions } = batch;
                self.take_revisions(revisions);
                self.move_cursor(upto);
            }
            ReadDelivery::Lost => self.lose(),
        }
    }

    /// Takes a whole delivery into the view: a listing, or the revisions of a batch with a look for
    /// the marks after each, or that the connection was lost.
    ///
    /// For every history that the delivery is read from, a view that follows it does so again, with
    /// the delivery in its record. Takes no memory, where `reserve` made room for the delivery.
    pub fn take(&mut self, delivery: ReadDelivery)
        requires room { rows_in delivery ≤ (viewed self.old).room }
        requires read { IsRead (viewed self.old).source.limit delivery }
        ensures view { (viewed self.new).shown ≡ view_after (followed (viewed self.old).source) (delivery_of delivery) (viewed self.old).shown }
        ensures follows { (history : History) (r : Record) → Follows (followed (viewed self.old).source) history r (viewed self.old).shown → Reads (followed (viewed self.old).source) history r (delivery_of delivery)
            → Follows (followed (viewed self.old).source) history (delivered (delivery_of delivery) r) (viewed self.new).shown }

        ensures source { (viewed self.new).source ≡ (viewed self.old).source }
        ensures room { (viewed self.old).room ≤ (viewed self.new).room + rows_in delivery }
    {
        self.take_any(delivery);
    }

    /// Takes what a reader was handed into the view: reads it, makes room and takes it whole.
    ///
    /// For every history of which it was handed to a reader of the source's ranges, a view that
    /// follows the history does so again, with the delivery in its record: its entries are what was
    /// sighted, and its cursor and phase are those of the spans. `Memory` comes where memory was
    /// wanted, and then the view is as before.
    pub fn follow(&mut self, alloc: Global, delivery: Delivery) -> Result<(), Memory>
        ensures view { OnOk result ((viewed self.new).shown ≡ view_after (followed (viewed self.old).source) (delivery_from delivery) (viewed self.old).shown) }
        ensures follows { OnOk result ((history : History) (r : Record) → Follows (followed (viewed self.old).source) history r (viewed self.old).shown → IsGiven (ranges_of (viewed self.old).source.cluster (viewed self.old).source.hop) history r delivery
            → Follows (followed (viewed self.old).source) history (gone_on delivery r) (viewed self.new).shown) }

        ensures source { (viewed self.new).source ≡ (viewed self.old).source }
        ensures refused { OnErr result (viewed self.new ≡ record (viewed self.old) { room = (viewed self.new).room }) }
    {
        let delivery = read_delivery(alloc, self.limit, delivery)?;
        self.reserve(alloc, &delivery)?;
        self.take(delivery);
        Ok(())
    }

    /// What the entry of the key says; `None` exactly where there is no entry.
    pub fn get(&self, key: &Bytes) -> Option<&Reading>
        ensures { option_copied result ≡ option_map (reading_in (viewed self.now).source.limit key.now) (values (viewed self.now).shown.entries key.now) }
    {
        match self.rows.get(key) {
            Some(row) => Some(&row.reading),
            None => None,
        }
    }

    /// Whether the key has an entry that was listed or put since the last list began.
    pub fn is_fresh(&self, key: &Bytes) -> bool
        ensures { result ≡ is_some (fresh_part (viewed self.now).shown.entries key.now) }
    {
        self.rows.is_fresh(key)
    }

    /// What the entry of the source's config says; `None` exactly where there is none.
    pub fn config(&self) -> Option<&Reading>
        ensures { option_copied result ≡ option_map (reading_in (viewed self.now).source.limit (config_key (viewed self.now).source.cluster)) (values (viewed self.now).shown.entries (config_key (viewed self.now).source.cluster)) }
    {
        match &self.keys {
            Some(keys) => self.get(&keys.config),
            None => None,
        }
    }
}
