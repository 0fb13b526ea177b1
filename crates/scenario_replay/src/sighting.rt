// The tables of what the agent has sighted of all remotes, and of which remotes they were told it.
ghost use Rattle.std.specs.Prelude.{◌≡◌, ◌≤◌, ◌<◌, ◌∷◌, ℕ, List, IfOk, OnOk, false, length, map, slice_get, true};
ghost use Rattle.std.proofs.Math.ListN.{set};
ghost use Rattle.std.specs.List.{AllByRecursion, IsDistinct};
ghost use Rattle.std.specs.Option.{ForSome};
ghost use Rattle.mesh_base.specs.Order.{same_bytes};
ghost use Rattle.record_check.specs.declared.limit.Limit.TheVariants.{Small};
ghost use Rattle.relist_merge.specs.Sight.{viewed};
ghost use Rattle.shared_tables.specs.Merge.{IsMerge};
ghost use Rattle.shared_tables.specs.Told.{nothing_told, told, with_change};
ghost use Rattle.store_api.specs.Contents.{Contents};
ghost use Rattle.mesh_remote.specs.Shown.{IsOwnView, IsViewOf};
ghost use Rattle.scenario_replay.specs.Rows.{AreFirst, AreMarked, HasTables, IsFirst, TellsSource, first_told, with_records};
ghost use Rattle.scenario_replay.specs.Shown.{AreShown};
ghost use Rattle.mesh_world.specs.Sources.{of_each, sighted_set};
ghost use Rattle.mesh_world.specs.World as world;
ghost use Rattle.mesh_remote.specs.declared.remote.Remote as remote;

use mesh_base::{Items, Memory};
use mesh_remote::Remote;
use mesh_text::ClusterName;
use record_check::Limit;
use relist_merge::{ReadRecord, View};
use shared_tables::{RecordChange, Report, Row, Steps, Tables};
use std::alloc::Global;
use std::sync::ledger::{Blank, Ledger};

fn names_of(alloc: Global, remotes: &[Remote]) -> Result<Vec<ClusterName>, Memory>
    ensures { IfOk result (λ v. v.items ≡ map (λ (r : remote.Remote). r.exporter.cluster) remotes.now) }
{
    let mut names = Vec::new(alloc);
    for remote in remotes {
        names.push(remote.exporter.cluster().clone()?)?;
    }
    Ok(names)
}

// Tells the tables a record of the source that they do not have yet.
fn tell_record<L: Ledger>(
    tables: &mut Tables,
    source: u32,
    read: ReadRecord,
    steps: &mut Steps<L>,
) -> Result<(), Memory>
    requires source { source < length (told tables.old).sources }
    requires first { ForSome (slice_get (told tables.old).sources source) (λ s. IsFirst s read) }
    ensures { OnOk result (told tables.new ≡ with_change (first_told source read) (told tables.old)) }
{
    let ReadRecord { key, reading } = read;
    let change = RecordChange {
        source,
        old: None,
        new: Some(Row { key, reading }),
    };
    tables.reserve(&change)?;
    tables.apply(change, steps);
    Ok(())
}

// Tells the tables all records of a source.
fn tell_records<L: Ledger>(
    tables: &mut Tables,
    source: u32,
    records: Items<ReadRecord>,
    steps: &mut Steps<L>,
) -> Result<(), Memory>
    requires source { source < length (told tables.old).sources }
    requires first { ForSome (slice_get (told tables.old).sources source) (λ s. AreFirst s records) }
    ensures { OnOk result (told tables.new ≡ with_records source records (told tables.old)) }
{
    for read in records.into_vec() {
        tell_record(tables, source, read, steps)?;
    }
    Ok(())
}

// Tells the tables what the agent has sighted of a remote, of which they were told nothing.
fn tell_source<L: Ledger>(
    alloc: Global,
    tables: &mut Tables,
    source: u32,
    view: &View,
    steps: &mut Steps<L>,
) -> Result<(), Memory>
    requires source { source < length (told tables.old).sources }
    requires nothing { ForSome (slice_get (told tables.old).sources source) (λ s. s ≡ nothing_told (viewed view.now).source.cluster) }
    requires limit { (told tables.old).limit ≡ Small }
    requires own { IsViewOf (viewed view.now).source.cluster view.now }
    ensures { OnOk result (TellsSource source view.now (told tables.old) (told tables.new)) }
{
    let config = view.read_config(alloc)?;
    let records = view.read_records(alloc)?;
    tell_records(tables, source, records, steps)?;
    tables.reserve_readmit(source, &config)?;
    tables.readmit(source, config, steps);
    Ok(())
}

/// The tables of what the agent has sighted, and of which remotes they were told all of that.
///
/// Where the agent was handed nothing more of a remote, it is not told again.
#[derive(Drop)]
pub struct Sighting {
    pub tables: Tables,
    /// Whether the tables were told all that is sighted of the remote at the place.
    pub told: Vec<bool>,
}

fn none_told(alloc: Global, remotes: &[Remote]) -> Result<Vec<bool>, Memory>
    ensures { IfOk result (λ v. v.items ≡ map (λ (r : remote.Remote). false) remotes.now) }
{
    let mut told = Vec::new(alloc);
    for _remote in remotes {
        told.push(false)?;
    }
    Ok(told)
}

impl Sighting {
    /// Tables of these remotes that were told of none. The local cluster has this name and number.
    pub fn new(
        alloc: Global,
        local: &ClusterName,
        number: u32,
        remotes: &[Remote],
    ) -> Result<Sighting, Memory>
        requires few { length remotes.now ≤ 255 }
        requires own { AllByRecursion IsOwnView remotes.now }
        requires apart { IsDistinct same_bytes (local.now ∷ map (λ (r : remote.Remote). r.exporter.cluster) remotes.now) }
        ensures { IfOk result (HasTables number remotes.now) }
    {
        let names = names_of(alloc, remotes)?;
        Ok(Sighting {
            tables: Tables::new(alloc, local.clone()?, number, Limit::Small, names)?,
            told: none_told(alloc, remotes)?,
        })
    }

    /// What was told of a remote may not be all that is sighted of it any more.
    pub fn forget(&mut self, place: usize)
        requires { place < length self.old.told.items }
        ensures tables { self.new.tables ≡ self.old.tables }
        ensures told { self.new.told.items ≡ set self.old.told.items place false }
    {
        self.told[place] = false;
    }

    // Tells the tables all that is sighted of a remote, unless they were told it.
    fn tell_with<L: Ledger>(
        &mut self,
        alloc: Global,
        remotes: &[Remote],
        place: usize,
        steps: &mut Steps<L>,
    ) -> Result<(), Memory>
        requires few { length remotes.now ≤ 255 }
        requires place { place < length remotes.now }
        requires tables { (number : ℕ) × HasTables number remotes.now self.old }
        ensures tables { OnOk result ((number : ℕ) → HasTables number remotes.now self.old → HasTables number remotes.now self.new) }
        ensures marked { OnOk result (self.new.told.items ≡ set self.old.told.items place true) }
    {
        if self.told[place] {
            return Ok(());
        }
        self.tables.forget(alloc, place as u32);
        tell_source(
            alloc,
            &mut self.tables,
            place as u32,
            &remotes[place].agent.view,
            steps,
        )?;
        self.told[place] = true;
        Ok(())
    }

    /// Tells the tables all that is sighted of a remote; it counts no steps for anybody.
    pub fn tell<L: Ledger>(
        &mut self,
        alloc: Global,
        blank: Blank,
        remotes: &[Remote],
        place: usize,
    ) -> Result<(), Memory>
        requires name { blank.name ≡ L.name }
        requires parts { blank.parts ≡ L.parts }
        requires some { 0 < blank.parts }
        requires few { length remotes.now ≤ 255 }
        requires place { place < length remotes.now }
        requires tables { (number : ℕ) × HasTables number remotes.now self.old }
        ensures tables { OnOk result ((number : ℕ) → HasTables number remotes.now self.old → HasTables number remotes.now self.new) }
        ensures marked { OnOk result (self.new.told.items ≡ set self.old.told.items place true) }
    {
        let mut steps = Steps::<L>::new(blank);
        self.tell_with(alloc, remotes, place, &mut steps)
    }

    // Tells the tables all that is sighted of each remote.
    fn tell_all<L: Ledger>(
        &mut self,
        alloc: Global,
        remotes: &[Remote],
        steps: &mut Steps<L>,
    ) -> Result<(), Memory>
        requires few { length remotes.now ≤ 255 }
        requires tables { (number : ℕ) × HasTables number remotes.now self.old }
        ensures tables { OnOk result ((number : ℕ) → HasTables number remotes.now self.old → HasTables number remotes.now self.new) }
        ensures marked { OnOk result (AreMarked (length remotes.now) self.new.told.items) }
    {
        for place in 0..remotes.len() {
            self.tell_with(alloc, remotes, place, steps)?;
        }
        Ok(())
    }

    /// The rows of all that is sighted of the remotes; it counts no steps for anybody.
    pub fn report<L: Ledger>(
        &mut self,
        alloc: Global,
        blank: Blank,
        remotes: &[Remote],
    ) -> Result<Report, Memory>
        requires name { blank.name ≡ L.name }
        requires parts { blank.parts ≡ L.parts }
        requires some { 0 < blank.parts }
        requires few { length remotes.now ≤ 255 }
        requires tables { (number : ℕ) × HasTables number remotes.now self.old }
        ensures merge { IfOk result (λ report. (number : ℕ) (stores : List Contents) (ws : List world.Remote) → HasTables number remotes.now self.old → AreShown stores ws remotes.now → IsMerge Small number (of_each sighted_set stores ws) report) }
        ensures tables { OnOk result ((number : ℕ) → HasTables number remotes.now self.old → HasTables number remotes.now self.new) }
    {
        let mut steps = Steps::<L>::new(blank);
        self.tell_all(alloc, remotes, &mut steps)?;
        self.tables.report(alloc, &mut steps)
    }
}
