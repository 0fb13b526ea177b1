// What the tables are told.
ghost use Rattle.std.specs.Prelude.{◌≡◌, ◌+◌, ◌-◌, ◌≤◌, ◌<◌, ◌∷◌, ◌^◌, map, length, slice_get, slice_index, Some, None, OnOk, OnErr, IfOk};
ghost use Rattle.std.specs.List.{IsDistinct};
ghost use Rattle.std.specs.Option.{ForSome};
ghost use Rattle.mesh_base.specs.Order.{same_bytes};
ghost use Rattle.shared_tables.specs.Told.{IsChange, IsConfig, changed_at, nothing_told, rooms, rows_needed, told, with_change, with_config, with_nothing};

use crate::change::RecordChange;
use crate::source::Source;
use crate::steps::Steps;
use crate::tables::Tables;
use mesh_base::Memory;
use mesh_text::ClusterName;
use record_check::{Fault, Limit};
use record_values::ClusterConfig;
use std::alloc::Global;
use std::sync::ledger::Ledger;

/// How many rows the change puts.
fn rows_needed(change: &RecordChange) -> usize
    ensures { result ≡ rows_needed change.now }
{
    match &change.new {
        Some(_) => 1,
        None => 0,
    }
}

impl Tables {
    /// Tables of these sources, of which nothing was told yet. The local cluster has the name
    /// `local` and the number `number`.
    pub fn new(
        alloc: Global,
        local: ClusterName,
        number: u32,
        limit: Limit,
        sources: Vec<ClusterName>,
    ) -> Result<Tables, Memory>
        requires few { length sources.items < 2 ^ 32 }
        requires apart { IsDistinct same_bytes (local ∷ sources.items) }
        ensures told { IfOk result (λ t. told t ≡ record { local = local; number = number; limit = limit; sources = map nothing_told sources.items }) }
        ensures rooms { IfOk result (λ t. rooms t ≡ map (λ name. 0) sources.items) }
    {
        let mut told = Vec::new(alloc);
        for name in sources {
            told.push(Source::new(alloc, name))?;
        }
        Ok(Tables {
            local,
            number,
            limit,
            sources: told,
        })
    }

    /// Makes room for a change of one key's row; an `Err` changes nothing.
    pub fn reserve(&mut self, change: &RecordChange) -> Result<(), Memory>
        requires source { change.now.source < length (told self.old).sources }
        requires change { ForSome (slice_get (told self.old).sources change.now.source) (λ s. IsChange s change.now) }
        ensures told { told self.new ≡ told self.old }
        ensures ok { OnOk result (rooms self.new ≡ changed_at (λ room. room + rows_needed change.now) change.now.source (rooms self.old)) }
        ensures err { OnErr result (rooms self.new ≡ rooms self.old) }
    {
        let source = &mut self.sources[change.source as usize];
        source.reserve(rows_needed(change))?;
        Ok(())
    }

    /// Changes one key's row, where there is room. It takes no memory, and one step at most.
    pub fn apply<L: Ledger>(&mut self, change: RecordChange, steps: &mut Steps<L>)
        requires source { change.source < length (told self.old).sources }
        requires change { ForSome (slice_get (told self.old).sources change.source) (λ s. IsChange s change) }
        requires room { rows_needed change ≤ slice_index (rooms self.old) change.source }
        ensures told { told self.new ≡ with_change change (told self.old) }
        ensures rooms { rooms self.new ≡ changed_at (λ room. room - rows_needed change) change.source (rooms self.old) }
        ensures steps { steps.new ≤ steps.old + 1 }
    {
        let RecordChange { source, old, new } = change;
        let source = &mut self.sources[source as usize];
        steps.tick();
        source.replace(old, new);
    }

    /// Drops all that the tables were told of a source, and what room there is for it. The source
    /// keeps its name and its place. It takes no memory.
    pub fn forget(&mut self, alloc: Global, source: u32)
        requires source { source < length (told self.old).sources }
        ensures told { told self.new ≡ with_nothing source (told self.old) }
        ensures rooms { rooms self.new ≡ changed_at (λ room. 0) source (rooms self.old) }
    {
        let source = &mut self.sources[source as usize];
        source.forget(alloc);
    }

    /// Makes room for a change of a source's config, for which none is needed.
    pub fn reserve_readmit(
        &mut self,
        source: u32,
        config: &Option<Result<ClusterConfig, Fault>>,
    ) -> Result<(), Memory>
        requires source { source < length (told self.old).sources }
        requires config { IsConfig (told self.old).limit config.now }
        ensures told { told self.new ≡ told self.old }
        ensures rooms { rooms self.new ≡ rooms self.old }
    {
        Ok(())
    }

    /// Changes a source's config to this one, to a faulty one or to none. It takes no memory, and
    /// no step.
    pub fn readmit<L: Ledger>(
        &mut self,
        source: u32,
        config: Option<Result<ClusterConfig, Fault>>,
        steps: &mut Steps<L>,
    )
        requires source { source < length (told self.old).sources }
        requires config { IsConfig (told self.old).limit config }
        ensures told { told self.new ≡ with_config source config (told self.old) }
        ensures rooms { rooms self.new ≡ rooms self.old }
        ensures steps { steps.new ≡ steps.old }
    {
        let source = &mut self.sources[source as usize];
        source.config = config;
    }
}
