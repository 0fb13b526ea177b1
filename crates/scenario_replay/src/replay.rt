// What the program keeps while a scenario runs, and its beginning.
ghost use Rattle.std.specs.Prelude.{◌≡◌, ◌≤◌, List, All, IfOk, length};
ghost use Rattle.scenario_lang.specs.Valid.{IsValid};
ghost use Rattle.scenario_lang.specs.declared.kinds.Mode.TheVariants as mode;
ghost use Rattle.store_api.specs.Meaning.{Meaning};
ghost use Rattle.mesh_world.specs.Goes.{IsOpen};
ghost use Rattle.mesh_world.specs.Runs.{contents_of};
ghost use Rattle.scenario_replay.specs.Rows.{IsTold};
ghost use Rattle.scenario_replay.specs.Shown.{AreNew, HasWorld};
ghost use Rattle.mesh_world.specs.World.{first_world, seconds_of};

use crate::sighting::Sighting;
use mesh_base::{Bytes, Memory};
use mesh_remote::Remote;
use mesh_text::ClusterName;
use scenario_lang::Scenario;
use std::alloc::Global;

/// For how many seconds a lease of an exporter is, where the scenario does not say.
const LEASE_SECONDS: u64 = 900;

/// What is kept of the local cluster, of each remote and of the reports so far.
#[derive(Drop)]
pub struct Replay {
    pub local: ClusterName,
    /// The local cluster's number, from 1 to 255.
    pub number: u32,
    /// In the scenario's order; the store of the remote at a place is the one behind that place.
    pub remotes: Vec<Remote>,
    /// What the agent has sighted of the remotes, in their order.
    pub sighting: Sighting,
    /// How many reports there are.
    pub reports: u64,
    pub text: Bytes,
}

fn seconds_of(scenario: &Scenario) -> u64
    ensures { result ≡ seconds_of scenario.now }
{
    match scenario.lease {
        Some(seconds) => seconds,
        None => LEASE_SECONDS,
    }
}

fn copy_name(name: &ClusterName) -> Result<ClusterName, Memory>
    ensures { IfOk result (λ copy. copy ≡ name.now) }
{
    Ok(name.clone()?)
}

// The remotes of a scenario, new.
fn new_remotes(alloc: Global, scenario: &Scenario, seconds: u64) -> Result<Vec<Remote>, Memory>
    requires { 1 ≤ seconds }
    ensures { IfOk result (λ v. AreNew seconds scenario.now.remotes v.items) }
{
    let mut remotes = Vec::new(alloc);
    for remote in scenario.remotes.as_slice() {
        remotes.push(Remote::new(alloc, &remote.name, remote.number, seconds)?)?;
    }
    Ok(remotes)
}

impl Replay {
    /// The beginning of a scenario: nobody has written or read anything.
    pub fn new(alloc: Global, scenario: &Scenario) -> Result<Replay, Memory>
        requires { IsValid mode.Step scenario.now }
        ensures world { IfOk result (λ replay. (stores : List Meaning) → length stores ≡ 256 → All IsOpen stores → HasWorld (first_world scenario.now (contents_of stores)) replay stores) }
        ensures told { IfOk result IsTold }
    {
        let local = copy_name(&scenario.local.name)?;
        let number = scenario.local.number;
        let remotes = new_remotes(alloc, scenario, seconds_of(scenario))?;
        let sighting = Sighting::new(alloc, &local, number, remotes.as_slice())?;
        Ok(Replay {
            local,
            number,
            remotes,
            sighting,
            reports: 0,
            text: Bytes::new(alloc),
        })
    }
}
