// What is told of one source.
ghost use Rattle.std.specs.Prelude.{◌≡◌, ◌+◌, ◌-◌, ◌≤◌, ◌<◌, true, nat_eq, Some, None, OnOk, OnErr, is_some, if◌then◌else◌};
ghost use Rattle.std.specs.Option.{ForSome};
ghost use Rattle.std.specs.Cmp.Lexicographic.{pointwise};
ghost use Rattle.std.specs.FinMap.{from_entries, insert, remove};
ghost use Rattle.indexmap.specs.IndexMap.{spare, IsUnique};
ghost use Rattle.shared_tables.specs.Fitting.{AreFit, is_fit};
ghost use Rattle.shared_tables.specs.Told.{nothing_told, readings, rows_after, source_told};

use crate::change::{Reading, Row};
use crate::source::Source;
use indexmap::IndexMap;
use mesh_base::{Bytes, Memory};
use mesh_text::ClusterName;
use std::alloc::Global;

#[tactic(auto, using(crate::proofs::Arrivals::inserted, crate::proofs::Fits::inserted_fit))]
fn put_row(rows: &mut IndexMap<Bytes, Reading>, key: Bytes, reading: Reading)
    requires room { 0 < spare rows.old }
    requires fit { AreFit rows.old }
    requires reading { is_fit reading ≡ true }
    ensures rows { readings rows.new.entries ≡ insert (readings rows.old.entries) key reading }
    ensures room { spare rows.old ≤ spare rows.new + 1 }
    ensures unique { IsUnique (pointwise nat_eq) rows.new }
    ensures fit { AreFit rows.new }
{
    let _old = rows.insert(key, reading).unwrap();
}

#[tactic(auto, using(crate::proofs::Arrivals::removed, crate::proofs::Fits::removed_fit))]
fn drop_row(rows: &mut IndexMap<Bytes, Reading>, key: &Bytes)
    requires fit { AreFit rows.old }
    ensures rows { readings rows.new.entries ≡ remove (readings rows.old.entries) key.now }
    ensures room { spare rows.old ≤ spare rows.new }
    ensures unique { IsUnique (pointwise nat_eq) rows.new }
    ensures fit { AreFit rows.new }
{
    let _old = rows.swap_remove(key);
}

impl Source {
    /// A source of which nothing was told yet.
    pub fn new(alloc: Global, name: ClusterName) -> Source
        ensures told { source_told result ≡ nothing_told name }
        ensures room { result.room ≡ 0 }
    {
        Source {
            name,
            config: None,
            rows: IndexMap::new(alloc),
            room: 0,
        }
    }

    /// Drops its config, its rows and their room; its name stays.
    pub fn forget(&mut self, alloc: Global)
        ensures told { source_told self.new ≡ nothing_told self.old.name }
        ensures room { self.new.room ≡ 0 }
    {
        self.config = None;
        self.rows = IndexMap::new(alloc);
        self.room = 0;
    }

    /// Makes room for so many more rows; an `Err` changes nothing.
    pub fn reserve(&mut self, more: usize) -> Result<(), Memory>
        ensures told { source_told self.new ≡ source_told self.old }
        ensures ok { OnOk result (self.new.room ≡ self.old.room + more) }
        ensures err { OnErr result (self.new.room ≡ self.old.room) }
    {
        let Some(room) = self.room.checked_add(more) else {
            return Err(Memory);
        };
        self.rows.reserve(room)?;
        self.room = room;
        Ok(())
    }

    /// Puts a row in the place of another, where there is room.
    pub fn replace(&mut self, old: Option<Row>, new: Option<Row>)
        requires room { (if is_some new then 1 else 0) ≤ self.old.room }
        requires fit { ForSome new (λ row. is_fit row.reading ≡ true) }
        ensures told { source_told self.new ≡ record (source_told self.old) { rows = rows_after old new (source_told self.old).rows } }
        ensures room { self.new.room ≡ self.old.room - (if is_some new then 1 else 0) }
    {
        match new {
            Some(new) => {
                put_row(&mut self.rows, new.key, new.reading);
                self.room -= 1;
            }
            None => {
                if let Some(old) = old {
                    drop_row(&mut self.rows, &old.key);
                }
            }
        }
    }
}
