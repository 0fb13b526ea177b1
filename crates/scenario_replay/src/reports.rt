// A report of what the agent has sighted.
ghost use Rattle.std.specs.Prelude.{◌≡◌, ◌≤◌, ◌<◌, ℕ, List, IfOk, OnOk, length};
ghost use Rattle.store_api.specs.Contents.{Contents};
ghost use Rattle.store_api.specs.History.{History};
ghost use Rattle.store_api.specs.Meaning.{Meaning};
ghost use Rattle.mesh_world.specs.Actions.{changes, reported};
ghost use Rattle.scenario_replay.specs.Rows.{HasTables, IsTold};
ghost use Rattle.mesh_remote.specs.Shown.{IsShown};
ghost use Rattle.scenario_replay.specs.Shown.{AreShown, HasSomeWorld, MakesPlainly};
ghost use Rattle.mesh_world.specs.Sources.{IsReportOf, of_each, sighted_set, source_row};
ghost use Rattle.mesh_world.specs.World as world;

use crate::replay::Replay;
use crate::sighting::Sighting;
use key_paths::Hop;
use mesh_base::{Items, Memory};
use mesh_remote::Remote;
use report_text::{Head, order_is_not_printed, report_bytes};
use shared_tables::{Report, SourceRow};
use std::alloc::Global;
use std::marker::Brand;
use std::sync::ledger::{Blank, Ledger};

// How far a remote was followed.
fn source_row(remote: &Remote) -> Result<SourceRow, Memory>
    ensures { IfOk result (λ row. (history : History) (w : world.Remote) → IsShown history w remote.now → row ≡ source_row w.exporter.cluster history w.reader) }
{
    Ok(SourceRow {
        cluster: remote.exporter.cluster().clone()?,
        hop: Hop::State,
        held: !remote.agent.view.is_caught_up(),
        revision: remote.agent.view.cursor(),
    })
}

fn source_rows(alloc: Global, remotes: &[Remote]) -> Result<Items<SourceRow>, Memory>
    ensures { IfOk result (λ rows. (stores : List Contents) (ws : List world.Remote) → AreShown stores ws remotes.now → rows ≡ of_each source_row stores ws) }
{
    let mut rows = Items::new(alloc);
    for remote in remotes {
        rows.push(source_row(remote)?)?;
    }
    Ok(rows)
}

// The report of the remotes.
fn report_of<L: Ledger>(
    alloc: Global,
    blank: Blank,
    sighting: &mut Sighting,
    remotes: &[Remote],
) -> Result<Report, Memory>
    requires name { blank.name ≡ L.name }
    requires parts { blank.parts ≡ L.parts }
    requires some { 0 < blank.parts }
    requires few { length remotes.now ≤ 255 }
    requires tables { (number : ℕ) × HasTables number remotes.now sighting.old }
    ensures report { IfOk result (λ report. (number : ℕ) (stores : List Contents) (ws : List world.Remote) → HasTables number remotes.now sighting.old → AreShown stores ws remotes.now → IsReportOf number (of_each source_row stores ws) (of_each sighted_set stores ws) report) }
    ensures tables { OnOk result ((number : ℕ) → HasTables number remotes.now sighting.old → HasTables number remotes.now sighting.new) }
{
    let mut report = sighting.report::<L>(alloc, blank, remotes)?;
    report.sources = source_rows(alloc, remotes)?;
    Ok(report)
}

impl Replay {
    /// Puts a report of what the agent has sighted behind the text.
    pub fn report(&mut self, alloc: Global) -> Result<(), Memory>
        requires world { (stores : List Meaning) × HasSomeWorld self.old stores }
        requires told { IsTold self.old }
        ensures done { OnOk result (MakesPlainly (changes reported) self.old self.new) }
        ensures told { OnOk result (IsTold self.new) }
    {
        let Some(number) = self.reports.checked_add(1) else {
            return Err(Memory);
        };
        let report = report_of::<Brand>(
            alloc,
            Blank::new(1),
            &mut self.sighting,
            self.remotes.as_slice(),
        )?;
        order_is_not_printed();
        let text = report_bytes(alloc, Head::Report, number, &report)?;
        self.text.extend_from_slice(text.as_slice())?;
        self.reports = number;
        Ok(())
    }
}
