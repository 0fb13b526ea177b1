// Which lease each key is attached to, and the keys of each lease.
ghost use Rattle.std.specs.Prelude.{◌≡◌, ◌==◌, ℕ, List, true, false, Some, None, OnOk, if◌then◌else◌};
ghost use Rattle.std.specs.Ordering.{nat_cmp};
ghost use Rattle.std.specs.Cmp.Lexicographic.{slice_cmp};
ghost use Rattle.std.specs.BTreeMap.{get};
ghost use Rattle.mesh_base.specs.Order.{same_bytes};
ghost use Rattle.memory_store.specs.Index.{HasKeys, is_under};

use mesh_base::{Bytes, Memory};
use std::alloc::Global;
use std::collections::{BTreeMap, BTreeSet};

pub type Keys = BTreeMap<u64, BTreeSet<Bytes>>;

/// The attachments of live keys, by key and by lease.
#[derive(Drop)]
pub struct Attached {
    pub leases: BTreeMap<Bytes, u64>,
    /// The keys of each lease that has some.
    pub keys: Keys,
}

impl Attached {
    pub fn new(alloc: Global) -> Attached
        ensures none { (k : List ℕ) → get (slice_cmp nat_cmp) result.leases k ≡ None }
        ensures keys { HasKeys result.leases result.keys }
    {
        Attached {
            leases: BTreeMap::new(alloc),
            keys: BTreeMap::new(alloc),
        }
    }

    /// Attaches the key to the lease, or to none.
    pub fn attach(&mut self, alloc: Global, key: &Bytes, lease: Option<u64>) -> Result<(), Memory>
        requires { HasKeys self.old.leases self.old.keys }
        ensures leases { OnOk result ((k : List ℕ) → get (slice_cmp nat_cmp) self.new.leases k ≡ (if same_bytes key.now k then lease else get (slice_cmp nat_cmp) self.old.leases k)) }
        ensures keys { OnOk result (HasKeys self.new.leases self.new.keys) }
    {
        self.detach(key)?;
        match lease {
            Some(lease) => self.attach_first(alloc, key, lease),
            None => Ok(()),
        }
    }

    fn detach(&mut self, key: &Bytes) -> Result<(), Memory>
        requires { HasKeys self.old.leases self.old.keys }
        ensures leases { OnOk result ((k : List ℕ) → get (slice_cmp nat_cmp) self.new.leases k ≡ (if same_bytes key.now k then None else get (slice_cmp nat_cmp) self.old.leases k)) }
        ensures keys { OnOk result (HasKeys self.new.leases self.new.keys) }
    {
        match self.leases.remove(key) {
            Some(lease) => forget(&mut self.keys, lease, key),
            None => Ok(()),
        }
    }

    // Attaches a key that is attached to no lease.
    fn attach_first(&mut self, alloc: Global, key: &Bytes, lease: u64) -> Result<(), Memory>
        requires none { get (slice_cmp nat_cmp) self.old.leases key.now ≡ None }
        requires keys { HasKeys self.old.leases self.old.keys }
        ensures leases { OnOk result ((k : List ℕ) → get (slice_cmp nat_cmp) self.new.leases k ≡ (if same_bytes key.now k then Some lease else get (slice_cmp nat_cmp) self.old.leases k)) }
        ensures keys { OnOk result (HasKeys self.new.leases self.new.keys) }
    {
        self.leases.insert(key.clone()?, lease)?;
        add(alloc, &mut self.keys, lease, key.clone()?)
    }
}

// Puts the key to those of the lease.
fn add(alloc: Global, keys: &mut Keys, lease: u64, key: Bytes) -> Result<(), Memory>
    ensures { OnOk result ((n : ℕ) (k : List ℕ) → is_under keys.new n k ≡ (if lease == n then (if same_bytes key k then true else is_under keys.old n k) else is_under keys.old n k)) }
{
    let mut under = match keys.remove(&lease) {
        Some(under) => under,
        None => BTreeSet::new(alloc),
    };
    under.insert(key)?;
    keys.insert(lease, under)?;
    Ok(())
}

// Takes the key from those of the lease.
fn forget(keys: &mut Keys, lease: u64, key: &Bytes) -> Result<(), Memory>
    ensures { OnOk result ((n : ℕ) (k : List ℕ) → is_under keys.new n k ≡ (if lease == n then (if same_bytes key.now k then false else is_under keys.old n k) else is_under keys.old n k)) }
{
    if let Some(mut under) = keys.remove(&lease) {
        under.remove(key);
        if !under.is_empty() {
            keys.insert(lease, under)?;
        }
    }
    Ok(())
}
