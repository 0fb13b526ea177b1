// The walk over the pairs of all sources.
ghost use Rattle.std.specs.Prelude.{◌≡◌, ◌∷◌, [], ℕ, List, map, flat_map, true, OnOk, IfOk};
ghost use Rattle.std.specs.List.{AllByRecursion};
ghost use Rattle.key_paths.specs.Paths as paths;
ghost use Rattle.shared_tables.specs.Fitting.{is_fit};
ghost use Rattle.shared_tables.specs.Merge.{pair_reject, part, parts, reject_rows, rejects, valid_of};
ghost use Rattle.shared_tables.specs.Merged.{arrived, nothing_merged, with_rows};

use crate::admission::standing;
use crate::change::Reading;
use crate::merged::Merged;
use crate::merging::push_valid;
use crate::rows::{RejectRow, Why};
use crate::source::Source;
use crate::standing::Standing;
use crate::steps::Steps;
use indexmap::IndexMap;
use key_paths::{Key, write_key};
use mesh_base::{Bytes, Items, Memory};
use mesh_text::ClusterName;
use record_check::{Limit, judge};
use std::alloc::Global;
use std::sync::ledger::Ledger;

#[tactic(auto, unfolding(key_paths::specs::Keys::key_bytes))]
fn config_key(alloc: Global, cluster: &ClusterName) -> Result<Bytes, Memory>
    ensures { IfOk result (λ key. key ≡ paths.config_key cluster.now) }
{
    let key = Key::Config {
        cluster: cluster.clone()?,
    };
    Ok(Bytes::from_vec(write_key(alloc, &key)?))
}

#[tactic(auto, using(crate::proofs::Gathered::rows_rejected))]
fn push_reject(
    merged: &mut Merged,
    cluster: &ClusterName,
    key: Bytes,
    why: Why,
) -> Result<(), Memory>
    ensures { OnOk result (merged.new ≡ with_rows merged.old [] (record { cluster = cluster.now; key = key; why = why } ∷ [])) }
{
    let cluster = cluster.clone()?;
    merged.rejects.push(RejectRow { cluster, key, why })?;
    Ok(())
}

/// The rows of a pair of an admitted source.
#[tactic(auto, using(crate::proofs::Gathered::rows_valid, crate::proofs::Fits::kind_from_fit))]
fn push_pair(
    merged: &mut Merged,
    limit: Limit,
    cluster: &ClusterName,
    number: u32,
    key: &Bytes,
    reading: &Reading,
) -> Result<(), Memory>
    requires { is_fit reading.now ≡ true }
    ensures { OnOk result (merged.new ≡ with_rows merged.old (valid_of limit cluster.now number reading.now) (pair_reject limit cluster.now number (key.now, reading.now))) }
{
    match reading {
        Err(fault) => push_reject(merged, cluster, key.clone()?, Why::Fault(fault.clone()?)),
        Ok((read, value)) => match judge(cluster, number, limit, read, value) {
            Some(fault) => push_reject(merged, cluster, key.clone()?, Why::Fault(fault)),
            None => push_valid(merged, cluster, number, read, value),
        },
    }
}

fn push_pairs<L: Ledger>(
    merged: &mut Merged,
    limit: Limit,
    cluster: &ClusterName,
    number: u32,
    rows: &IndexMap<Bytes, Reading>,
    steps: &mut Steps<L>,
) -> Result<(), Memory>
    requires { AllByRecursion (λ pair. is_fit pair.1 ≡ true) rows.now.entries }
    ensures { OnOk result (merged.new ≡ with_rows merged.old (flat_map (λ pair. valid_of limit cluster.now number pair.1) rows.now.entries) (flat_map (pair_reject limit cluster.now number) rows.now.entries)) }
{
    for (key, reading) in rows {
        steps.tick();
        push_pair(merged, limit, cluster, number, key, reading)?;
    }
    Ok(())
}

/// The rows of a source that stands so.
#[tactic(auto, using(crate::proofs::Gathered::rows_none, crate::proofs::Fits::all_fit))]
fn push_source<L: Ledger>(
    alloc: Global,
    merged: &mut Merged,
    limit: Limit,
    standing: Standing,
    source: &Source,
    steps: &mut Steps<L>,
) -> Result<(), Memory>
    ensures { OnOk result (merged.new ≡ with_rows merged.old (part limit standing (arrived source.now)) (rejects limit standing (arrived source.now))) }
{
    match standing {
        Standing::NoConfig => Ok(()),
        Standing::Refused(why) => {
            push_reject(merged, &source.name, config_key(alloc, &source.name)?, why)
        }
        Standing::Admitted(number) => push_pairs(
            merged,
            limit,
            &source.name,
            number,
            &source.rows,
            steps,
        ),
    }
}

/// The rows of all sources.
pub(crate) fn merge_all<L: Ledger>(
    alloc: Global,
    limit: Limit,
    local: u32,
    sources: &[Source],
    steps: &mut Steps<L>,
) -> Result<Merged, Memory>
    ensures { IfOk result (λ m. m ≡ with_rows nothing_merged (parts limit local (map arrived sources.now)) (reject_rows limit local (map arrived sources.now))) }
{
    let mut merged = Merged {
        nodes: Items::new(alloc),
        identities: Items::new(alloc),
        claims: Items::new(alloc),
        backends: Items::new(alloc),
        rejects: Items::new(alloc),
    };
    for source in sources {
        let standing = standing(local, sources, &source.name, &source.config)?;
        push_source(alloc, &mut merged, limit, standing, source, steps)?;
    }
    Ok(merged)
}
