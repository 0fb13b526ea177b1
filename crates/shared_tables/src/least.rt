// The row of an address that several clusters have.
ghost use Rattle.std.specs.Prelude.{◌≡◌, ◌||◌, ℕ, map, not, OnOk, IfOk};
ghost use Rattle.std.specs.BTreeMap.{get};
ghost use Rattle.mesh_text.specs.contracts.ip.IpOrd.TheImpl as ip_order;
ghost use Rattle.shared_tables.specs.declared.rows.AddressRow.{AddressRow};
ghost use Rattle.shared_tables.specs.Least as rule;
ghost use Rattle.shared_tables.specs.Least.{TellsOf};
ghost use Rattle.shared_tables.specs.Merge.{is_before, least_claims};

use crate::merged::Claim;
use crate::rows::AddressRow;
use mesh_base::{Items, Memory};
use mesh_text::Ip;
use std::alloc::Global;
use std::collections::BTreeMap;

fn number_at(least: &BTreeMap<Ip, u32>, ip: Ip) -> Option<u32>
    ensures { result ≡ get (ip_order.ghosts).cmp least.now ip }
{
    least.get(&ip).copied()
}

/// Keeps the claim's number where it is the least yet at the claim's address.
fn note(least: &mut BTreeMap<Ip, u32>, claim: &Claim) -> Result<(), Memory>
    ensures { OnOk result ((c : ℕ × AddressRow) → rule.has_lesser least.new c ≡ (is_before c claim.now || rule.has_lesser least.old c)) }
{
    match number_at(least, claim.1.ip) {
        Some(number) if number <= claim.0 => {}
        _ => {
            least.insert(claim.1.ip, claim.0)?;
        }
    }
    Ok(())
}

fn least_numbers(alloc: Global, claims: &[Claim]) -> Result<BTreeMap<Ip, u32>, Memory>
    ensures { IfOk result (TellsOf claims.now) }
{
    let mut least = BTreeMap::new(alloc);
    for claim in claims {
        note(&mut least, claim)?;
    }
    Ok(least)
}

fn has_lesser(least: &BTreeMap<Ip, u32>, claim: &Claim) -> bool
    ensures { result ≡ rule.has_lesser least.now claim.now }
{
    match number_at(least, claim.1.ip) {
        Some(number) => number < claim.0,
        None => false,
    }
}

/// The rows of the claims that no other has a lesser number for.
#[tactic(auto, using(crate::proofs::Merges::least_is))]
pub(crate) fn least_rows(alloc: Global, claims: Items<Claim>) -> Result<Items<AddressRow>, Memory>
    ensures { IfOk result (λ rows. rows ≡ map (λ c. c.1) (least_claims claims)) }
{
    let least = least_numbers(alloc, claims.as_slice())?;
    let mut rows = Items::new(alloc);
    for claim in claims.into_vec() {
        if !has_lesser(&least, &claim) {
            rows.push(claim.1)?;
        }
    }
    Ok(rows)
}
