ghost use Rattle.std.specs.Prelude.{◌≡◌, ℕ, List, ◌+◌, ◌-◌, ◌≤◌, ◌<◌, ◌||◌, OnOk, OnErr, false, None, Some, length, if◌then◌else◌, nat_eq, slice_index_or, [], option_map};
ghost use Rattle.std.specs.Cmp.Lexicographic.{pointwise};
ghost use Rattle.std.specs.Map.{lookup};
ghost use Rattle.std.specs.Option.{option_copied};
ghost use Rattle.indexmap.specs.IndexMap.{keys, spare, index_map_len};
ghost use Rattle.relist_merge.specs.Deliveries.{Edit};
ghost use Rattle.relist_merge.specs.View.{edited, fresh_of, kept_of, stale_of};
ghost use Rattle.relist_merge.specs.Shown.{entry_in, fresh_row, is_fresh, row_at};

use crate::rows::{Row, Rows};
use indexmap::IndexMap;
use mesh_base::{Bytes, Memory};
use std::alloc::Global;

impl Rows {
    pub(crate) fn new(alloc: Global) -> Rows
        ensures entries { (k : List ℕ) → entry_in result.fresh result.map.entries k ≡ None }
        ensures empty { result.map.entries ≡ [] }
        ensures room { result.room ≡ 0 }
    {
        Rows {
            map: IndexMap::new(alloc),
            fresh: 0,
            room: 0,
        }
    }

    /// Makes room for so many more rows.
    pub(crate) fn reserve(&mut self, more: usize) -> Result<(), Memory>
        ensures same { (self.new.map.entries ≡ self.old.map.entries) × (self.new.fresh ≡ self.old.fresh) }
        ensures room { OnOk result (more ≤ self.new.room) }
        ensures kept { self.old.room ≤ self.new.room }
    {
        if self.room < more {
            self.map.reserve(more)?;
            self.room = more;
        }
        Ok(())
    }

    /// No row is fresh.
    pub(crate) fn age(&mut self)
        ensures entries { (k : List ℕ) → entry_in self.new.fresh self.new.map.entries k ≡ stale_of (entry_in self.old.fresh self.old.map.entries k) }
        ensures map { self.new.map.entries ≡ self.old.map.entries }
        ensures room { self.new.room ≡ self.old.room }
    {
        self.fresh = 0;
    }

    /// Drops the rows that are not fresh.
    pub(crate) fn drop_stale(&mut self)
        ensures entries { (k : List ℕ) → entry_in self.new.fresh self.new.map.entries k ≡ kept_of (entry_in self.old.fresh self.old.map.entries k) }
        ensures rows { (k : List ℕ) → row_at self.new.map.entries k ≡ fresh_row self.old.fresh self.old.map.entries k }
        ensures fewer { length self.new.map.entries ≤ length self.old.map.entries }
        ensures room { self.new.room ≡ self.old.room }
    {
        self.map.truncate(self.fresh);
    }

    /// Whether the key has a fresh row.
    pub(crate) fn is_fresh(&self, key: &Bytes) -> bool
        ensures { result ≡ is_fresh self.now.fresh self.now.map.entries key.now }
    {
        match self.map.get_index_of(key) {
            Some(place) => place < self.fresh,
            None => false,
        }
    }

    /// The row of the key.
    pub(crate) fn get(&self, key: &Bytes) -> Option<&Row>
        ensures { option_copied result ≡ row_at self.now.map.entries key.now }
    {
        self.map.get(key)
    }

    /// The row of the key, where it is fresh.
    pub(crate) fn get_fresh(&self, key: &Bytes) -> Option<&Row>
        ensures { option_copied result ≡ fresh_row self.now.fresh self.now.map.entries key.now }
    {
        if self.is_fresh(key) {
            self.map.get(key)
        } else {
            None
        }
    }

    /// Makes the row at the place the last fresh one, if it is not fresh.
    fn freshen(&mut self, place: usize)
        requires { place < index_map_len self.old.map }
        ensures rows { (k : List ℕ) → lookup (pointwise nat_eq k) self.new.map.entries ≡ lookup (pointwise nat_eq k) self.old.map.entries }
        ensures fresh { (k : List ℕ) → is_fresh self.new.fresh self.new.map.entries k ≡ (is_fresh self.old.fresh self.old.map.entries k || pointwise nat_eq k (slice_index_or (keys self.old.map) place [])) }
        ensures room { (spare self.old.map ≤ spare self.new.map) × (self.new.room ≡ self.old.room) }
    {
        let _len = self.map.len();
        if self.fresh <= place {
            self.map.swap_indices(place, self.fresh);
            self.fresh += 1;
        }
    }

    /// Puts a fresh row, where there is room.
    pub(crate) fn put(&mut self, key: Bytes, row: Row)
        requires { 0 < self.old.room }
        ensures entries { (k : List ℕ) → entry_in self.new.fresh self.new.map.entries k ≡ edited (key, Some row.value) k (entry_in self.old.fresh self.old.map.entries k) }
        ensures rows { (k : List ℕ) → row_at self.new.map.entries k ≡ (if pointwise nat_eq key k then Some row else row_at self.old.map.entries k) }
        ensures room { self.new.room ≡ self.old.room - 1 }
    {
        let (place, old) = self.map.insert_full(key, row).unwrap();
        let_go_of_row(old);
        self.room -= 1;
        self.freshen(place);
    }

    /// Drops the row of the key.
    pub(crate) fn forget(&mut self, key: &Bytes)
        ensures entries { (k : List ℕ) → entry_in self.new.fresh self.new.map.entries k ≡ edited (key.now, None) k (entry_in self.old.fresh self.old.map.entries k) }
        ensures rows { (k : List ℕ) → row_at self.new.map.entries k ≡ (if pointwise nat_eq key.now k then None else row_at self.old.map.entries k) }
        ensures fewer { length self.new.map.entries ≤ length self.old.map.entries }
        ensures room { self.new.room ≡ self.old.room }
    {
        if let Some(place) = self.map.get_index_of(key) {
            if place < self.fresh {
                let last = self.fresh - 1;
                self.map.swap_indices(place, last);
                self.fresh = last;
                let_go(self.map.swap_remove_index(last));
            } else {
                let_go(self.map.swap_remove_index(place));
            }
        }
    }
}

// Drops the row.
fn let_go(_row: Option<(Bytes, Row)>) {}

fn let_go_of_row(_row: Option<Row>) {}
