// The live pairs of some ranges, in order.
ghost use Rattle.std.specs.Prelude.{◌≡◌, ℕ, List, map, IfOk, OnOk};
ghost use Rattle.std.specs.Ordering.{nat_cmp};
ghost use Rattle.std.specs.Cmp.Lexicographic.{slice_cmp};
ghost use Rattle.std.specs.BTreeMap.{get, IsOrdered};
ghost use Rattle.store_api.specs.History.{entry_of};
ghost use Rattle.store_api.specs.declared.change.Range.TheVariants.{Prefix};
ghost use Rattle.memory_store.specs.Kept.{IsListed, gathered};

use crate::live::Live;
use mesh_base::{Bytes, Items, Memory};
use std::alloc::Global;
use store_api::{Pair, Range, Ranges};

/// Puts in the pairs whose keys begin with `front`, and looks at one key more at most.
fn gather_prefix(found: &mut Live, live: &Live, front: &Bytes) -> Result<(), Memory>
    ensures { OnOk result ((k : List ℕ) → get (slice_cmp nat_cmp) found.new k ≡ gathered (Prefix front.now) (get (slice_cmp nat_cmp) live.now) (get (slice_cmp nat_cmp) found.old) k) }
{
    for (key, value) in live.range(front..) {
        if !key.as_slice().starts_with(front.as_slice()) {
            break;
        }
        found.insert(key.clone()?, value.clone()?)?;
    }
    Ok(())
}

/// Puts in the pairs of the range.
fn gather(found: &mut Live, live: &Live, range: &Range) -> Result<(), Memory>
    ensures { OnOk result ((k : List ℕ) → get (slice_cmp nat_cmp) found.new k ≡ gathered range.now (get (slice_cmp nat_cmp) live.now) (get (slice_cmp nat_cmp) found.old) k) }
{
    match range {
        Range::One(key) => {
            if let Some(value) = live.get(key) {
                found.insert(key.clone()?, value.clone()?)?;
            }
        }
        Range::Prefix(front) => gather_prefix(found, live, front)?,
    }
    Ok(())
}

fn pairs_of(alloc: Global, found: Live) -> Result<Items<Pair>, Memory>
    ensures ordered { IsOrdered (slice_cmp nat_cmp) found }
    ensures pairs { IfOk result (λ pairs. map entry_of pairs ≡ found.entries) }
{
    let mut pairs = Vec::with_capacity(alloc, found.len())?;
    for (key, value) in found {
        pairs.push(Pair { key, value })?;
    }
    Ok(Items::from_vec(pairs))
}

/// The pairs of the ranges, in order.
pub fn listed(alloc: Global, live: &Live, ranges: &Ranges) -> Result<Items<Pair>, Memory>
    ensures { IfOk result (IsListed ranges.now.items (get (slice_cmp nat_cmp) live.now)) }
{
    let mut found = Live::new(alloc);
    for range in ranges.items.as_slice() {
        gather(&mut found, live, range)?;
    }
    pairs_of(alloc, found)
}
