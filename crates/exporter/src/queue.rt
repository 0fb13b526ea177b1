// What waits to be written.
ghost use Rattle.std.specs.Prelude.{◌≡◌, ◌-◌, ◌++◌, ◌∷◌, [], ℕ, List, length, take, drop, not, is_some, nat_lt, false, IfOk, IfSome, OnOk, OnErr};
ghost use Rattle.std.specs.List.{list_any};
ghost use Rattle.std.specs.FinMap.{keys};
ghost use Rattle.exporter.specs.State.{everything, is_record, with_key};

use crate::declared::Declared;
use crate::item::Item;
use mesh_base::{Bytes, Memory};
use mesh_text::Kind;
use std::alloc::Global;
use std::collections::{BTreeSet, VecDeque};
use std::marker::Model;

/// The items that wait, in order; the key of a record stands among them once.
#[derive(Drop)]
pub(crate) struct Queue {
    items: VecDeque<Item>,
    /// The keys of the records among them.
    keys: BTreeSet<Bytes>,
}

impl Model for Queue {
    ghost use Rattle.std.specs.Prelude.{List};
    ghost use Rattle.exporter.specs.declared.item.Item.{Item};
    ghost use Rattle.exporter.specs.Kept.{HasKeys};

    ghost Value = { List Item };

    ghost view = { λ q. q.items.items };

    ghost invariant = { λ q. HasKeys q.items.items q.keys };
}

impl Queue {
    pub fn new(alloc: Global) -> Queue
        ensures { result ≡ [] }
    {
        Queue {
            items: VecDeque::new(alloc),
            keys: BTreeSet::new(alloc),
        }
    }

    pub fn len(&self) -> usize
        ensures { result ≡ length self.now }
    {
        self.items.len()
    }

    /// Puts the key behind the others, and answers whether it did not wait yet; one that waits keeps
    /// its place.
    pub fn add(&mut self, key: &Bytes) -> Result<bool, Memory>
        ensures queue { OnOk result (self.new ≡ with_key key.now self.old) }
        ensures added { IfOk result (λ added. added ≡ not (list_any (is_record key.now) self.old)) }
        ensures refused { OnErr result (self.new ≡ self.old) }
    {
        if self.keys.contains(key) {
            return Ok(false);
        }
        let item = Item::Record { key: key.clone()? };
        self.items.try_reserve(1)?;
        self.keys.insert(key.clone()?)?;
        self.items.push_back_reserved(item);
        Ok(true)
    }

    /// The item in front.
    pub fn front(&self) -> Option<&Item>
        ensures some { is_some result ≡ nat_lt 0 (length self.now) }
        ensures front { IfSome result (λ item. self.now ≡ item.now ∷ drop 1 self.now) }
    {
        self.items.front()
    }

    /// Takes the item in front out.
    pub fn drop_front(&mut self)
        ensures { self.new ≡ drop 1 self.old }
    {
        if let Some(Item::Record { key }) = self.items.pop_front() {
            self.keys.remove(&key);
        }
    }

    /// Takes the last item out.
    pub fn drop_last(&mut self)
        ensures { self.new ≡ take (length self.old - 1) self.old }
    {
        match self.items.pop_back() {
            Some(Item::Record { key }) => {
                self.keys.remove(&key);
            }
            Some(Item::Config) => {}
            Some(Item::Mark(_)) => {}
            None => {}
        }
    }

    pub fn clear(&mut self)
        ensures { self.new ≡ [] }
    {
        self.items.clear();
        self.keys.clear();
    }

    // Puts an item that is no record behind the others.
    fn add_other(&mut self, item: Item) -> Result<(), Memory>
        requires { (key : List ℕ) → is_record key item ≡ false }
        ensures { OnOk result (self.new ≡ self.old ++ item ∷ []) }
    {
        self.items.push_back(item)?;
        Ok(())
    }

    /// The queue of everything, where these records are declared.
    pub fn everything(alloc: Global, declared: &Declared) -> Result<Queue, Memory>
        ensures { IfOk result (λ queue. queue ≡ everything (keys declared.now)) }
    {
        let mut queue = Queue::new(alloc);
        queue.add_other(Item::Config)?;
        declared.add_keys(&mut queue)?;
        queue.add_other(Item::Mark(Kind::Nodes))?;
        queue.add_other(Item::Mark(Kind::Services))?;
        queue.add_other(Item::Mark(Kind::Identities))?;
        queue.add_other(Item::Mark(Kind::Addresses))?;
        Ok(queue)
    }
}
