// What is live, and what operations change over it.
ghost use Rattle.std.specs.Prelude.{◌≡◌, ◌∷◌, ℕ, List, [], Option, IfOk, OnOk};
ghost use Rattle.std.specs.Ordering.{nat_cmp};
ghost use Rattle.std.specs.Cmp.Lexicographic.{slice_cmp};
ghost use Rattle.std.specs.BTreeMap.{get};
ghost use Rattle.store_api.specs.Contents.{dead_lease};
ghost use Rattle.store_api.specs.History.{changes_of};
ghost use Rattle.memory_store.specs.Index.{HasKeys};
ghost use Rattle.memory_store.specs.Kept.{IsAfter, IsCurrent, IsCurrentIn, history_in};

use crate::attached::Attached;
use lease_clock::Leases;
use mesh_base::{Bytes, Items, Memory};
use std::alloc::Global;
use std::collections::BTreeMap;
use store_api::{Change, Op};

pub type Live = BTreeMap<Bytes, Bytes>;

/// A revision as the store keeps it: its place in the history tells its number.
#[derive(Drop)]
pub struct Made {
    pub writer: u32,
    pub changes: Items<Change>,
}

/// The live pairs, and their leases.
#[derive(Drop)]
pub struct Current {
    pub live: Live,
    pub attached: Attached,
}

impl Current {
    /// Nothing is live.
    pub fn new(alloc: Global) -> Current
        ensures { IsCurrentIn [] result }
    {
        Current {
            live: BTreeMap::new(alloc),
            attached: Attached::new(alloc),
        }
    }
}

fn apply_change(alloc: Global, current: &mut Current, change: &Change) -> Result<(), Memory>
    requires { HasKeys current.old.attached.leases current.old.attached.keys }
    ensures { OnOk result (IsAfter (change.now ∷ []) current.old current.new) }
{
    match change {
        Change::Put { key, value, lease } => {
            current.live.insert(key.clone()?, value.clone()?)?;
            current.attached.attach(alloc, key, *lease)?;
        }
        Change::Delete { key } => {
            current.live.remove(key);
            current.attached.attach(alloc, key, None)?;
        }
    }
    Ok(())
}

pub fn apply_changes(alloc: Global, current: &mut Current, changes: &[Change]) -> Result<(), Memory>
    requires { HasKeys current.old.attached.leases current.old.attached.keys }
    ensures { OnOk result (IsAfter changes.now current.old current.new) }
{
    for change in changes {
        apply_change(alloc, current, change)?;
    }
    Ok(())
}

/// What is live after the revisions.
pub fn live_after(alloc: Global, history: &[Made]) -> Result<Current, Memory>
    ensures { IfOk result (IsCurrentIn (history_in history.now)) }
{
    let mut current = Current::new(alloc);
    for made in history {
        apply_changes(alloc, &mut current, made.changes.as_slice())?;
    }
    Ok(current)
}

/// What is there, or else what is live after the revisions.
pub fn live_now(alloc: Global, kept: Option<Current>, history: &[Made]) -> Result<Current, Memory>
    requires { IsCurrent (history_in history.now) kept }
    ensures { IfOk result (IsCurrentIn (history_in history.now)) }
{
    match kept {
        Some(current) => Ok(current),
        None => live_after(alloc, history),
    }
}

/// The changes that the operations make.
pub fn changes_over(alloc: Global, live: &Live, ops: &[Op]) -> Result<Vec<Change>, Memory>
    ensures { IfOk result (λ changes. changes.items ≡ changes_of (get (slice_cmp nat_cmp) live.now) ops.now) }
{
    let mut changes = Vec::new(alloc);
    for op in ops {
        match op {
            Op::Put { key, value, lease } => {
                let key = key.clone()?;
                let value = value.clone()?;
                changes.push(Change::Put {
                    key,
                    value,
                    lease: *lease,
                })?;
            }
            Op::Delete { key } => {
                if live.contains_key(key) {
                    let key = key.clone()?;
                    changes.push(Change::Delete { key })?;
                }
            }
        }
    }
    Ok(changes)
}

/// The first lease that a put names and that is not live.
pub fn dead_lease(leases: &Leases, ops: &[Op]) -> Option<u64>
    ensures { result ≡ dead_lease leases.now ops.now }
{
    for op in ops {
        if let Op::Put {
            lease: Some(lease),
            ..
        } = op
            && !leases.is_live(*lease)
        {
            return Some(*lease);
        }
    }
    None
}
