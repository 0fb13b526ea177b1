// The declared values by key.
ghost use Rattle.std.specs.Prelude.{◌≡◌, ◌++◌, ℕ, List, false, map, OnOk, OnErr};
ghost use Rattle.std.specs.FinMap as finite;
ghost use Rattle.std.specs.List.{list_any};
ghost use Rattle.std.specs.Option.{option_copied};
ghost use Rattle.exporter.specs.State.{is_record, record_item};

use crate::queue::Queue;
use mesh_base::{Bytes, Memory};
use std::alloc::Global;
use std::collections::BTreeMap;
use std::marker::Model;

/// Values by key, in byte order of the keys.
#[derive(Drop)]
pub(crate) struct Declared {
    values: BTreeMap<Bytes, Bytes>,
}

impl Model for Declared {
    ghost use Rattle.std.specs.Coded.{coded_ℕ, coded_list};
    ghost use Rattle.std.specs.FinMap.{code, from_entries};
    ghost use Rattle.store_api.specs.History.{Pairing};

    ghost Value = { Pairing };

    ghost coded = { code (coded_list coded_ℕ) (coded_list coded_ℕ) };

    ghost view = { λ d. from_entries d.values.entries };
}

impl Declared {
    pub fn new(alloc: Global) -> Declared
        ensures { result ≡ finite.empty }
    {
        Declared {
            values: BTreeMap::new(alloc),
        }
    }

    pub fn get(&self, key: &Bytes) -> Option<&Bytes>
        ensures { option_copied result ≡ finite.get self.now key.now }
    {
        self.values.get(key)
    }

    pub fn has(&self, key: &Bytes) -> bool
        ensures { result ≡ finite.contains_key self.now key.now }
    {
        self.values.contains_key(key)
    }

    /// Sets the value of the key.
    pub fn set(&mut self, key: Bytes, value: Bytes) -> Result<(), Memory>
        ensures set { OnOk result (self.new ≡ finite.insert self.old key value) }
        ensures refused { OnErr result (self.new ≡ self.old) }
    {
        self.values.insert(key, value)?;
        Ok(())
    }

    /// Takes the key out, where it is there.
    pub fn remove(&mut self, key: &Bytes)
        ensures { self.new ≡ finite.remove self.old key.now }
    {
        self.values.remove(key);
    }

    /// Puts the keys in the queue, in byte order.
    pub fn add_keys(&self, queue: &mut Queue) -> Result<(), Memory>
        requires { (key : List ℕ) → list_any (is_record key) queue.old ≡ false }
        ensures { OnOk result (queue.new ≡ queue.old ++ map record_item (finite.keys self.now)) }
    {
        for key in self.values.keys() {
            let _ = queue.add(key)?;
        }
        Ok(())
    }
}
