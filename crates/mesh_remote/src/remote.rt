// What the program keeps of one remote cluster.
ghost use Rattle.std.specs.Prelude.{◌≡◌, ◌≤◌, ℕ, List, IfOk, OnOk, true, Ok, false};
ghost use Rattle.exporter.specs.State.{after_stop, turns};
ghost use Rattle.exporter.specs.Talks.{export_talk, keep_talk, start_talk};
ghost use Rattle.reflector.specs.Talks.{turn_talk};
ghost use Rattle.store_api.specs.History.{History};
ghost use Rattle.store_api.specs.Spans.{unread};
ghost use Rattle.scenario_lang.specs.declared.scenario.LinkName.TheVariants as link;
ghost use Rattle.relist_merge.specs.Sight.{viewed};
ghost use Rattle.mesh_world.specs.Actions.{came_to, when_of, with_failure, with_way};
ghost use Rattle.mesh_remote.specs.Shown.{IsOwnView};
ghost use Rattle.mesh_remote.specs.Shown.{Changes, IsShown, IsSome, Speaks};
ghost use Rattle.mesh_world.specs.World.{new_remote, with_exporter, with_link, with_reader};

use crate::agent::Agent;
use crate::exporters;
use exporter::Exporter;
use flaky_link::{LinkState, When};
use mesh_base::Memory;
use mesh_text::ClusterName;
use scenario_lang::{LinkName, Moment};
use std::alloc::Global;
use store_api::Store;

/// A remote cluster: its exporter, the links of that and of the agent to its store, and what the agent
/// keeps of it.
#[derive(Drop)]
pub struct Remote {
    pub exporter: Exporter,
    /// The cluster's number, from 1 to 255.
    pub number: u32,
    pub to_exporter: LinkState,
    pub to_agent: LinkState,
    pub agent: Agent,
}

impl Remote {
    /// A remote with a stopped exporter that declares nothing, with links that are up, and of which the
    /// agent has seen nothing. Its exporter's leases are granted for so many seconds.
    pub fn new(
        alloc: Global,
        name: &ClusterName,
        number: u32,
        seconds: u64,
    ) -> Result<Remote, Memory>
        requires { 1 ≤ seconds }
        ensures { IfOk result (λ r. (history : History) → IsShown history (new_remote name.now number seconds) r) }
    {
        let agent = Agent::new(alloc, name)?;
        let name = name.clone()?;
        Ok(Remote {
            exporter: Exporter::new(alloc, name, number, seconds),
            number,
            to_exporter: LinkState::new(alloc),
            to_agent: LinkState::new(alloc),
            agent,
        })
    }
}

// The calls on the remote's store.
impl Remote {
    /// Starts the exporter.
    pub fn start<S: Store>(&mut self, store: &mut S) -> Result<(), Memory>
        ensures speaks { OnOk result (Speaks link.Exporter (λ w. start_talk w.exporter) came_to self.old self.new (S.meaning store.old) (S.meaning store.new)) }
        ensures agent { self.new.agent ≡ self.old.agent }
        ensures named { S.name store.new ≡ S.name store.old }
        ensures loans { S.loans store.new ≡ S.loans store.old }
    {
        exporters::start(&mut self.exporter, &mut self.to_exporter, store)
    }

    /// Keeps the exporter's lease alive; without a lease no call is made.
    pub fn keep<S: Store>(&mut self, store: &mut S) -> Result<(), Memory>
        ensures speaks { OnOk result (Speaks link.Exporter (λ w. keep_talk w.exporter) came_to self.old self.new (S.meaning store.old) (S.meaning store.new)) }
        ensures agent { self.new.agent ≡ self.old.agent }
        ensures named { S.name store.new ≡ S.name store.old }
        ensures loans { S.loans store.new ≡ S.loans store.old }
    {
        exporters::keep(&mut self.exporter, &mut self.to_exporter, store)
    }

    /// Writes at most so many items of the exporter's queue.
    pub fn export<S: Store>(&mut self, store: &mut S, most: u64) -> Result<(), Memory>
        requires writable { (key : List ℕ) → (S.meaning store.old).writable key ≡ true }
        ensures speaks { OnOk result (Speaks link.Exporter (λ w. export_talk (turns most w.exporter) w.exporter) came_to self.old self.new (S.meaning store.old) (S.meaning store.new)) }
        ensures agent { self.new.agent ≡ self.old.agent }
        ensures named { S.name store.new ≡ S.name store.old }
        ensures loans { S.loans store.new ≡ S.loans store.old }
    {
        exporters::export(&mut self.exporter, &mut self.to_exporter, store, most)
    }

    /// One turn of the agent's reader, of at most so many revisions; the answer says whether pairs were
    /// read.
    pub fn turn<S: Store>(
        &mut self,
        alloc: Global,
        store: &mut S,
        most: u64,
    ) -> Result<bool, Memory>
        requires some { 1 ≤ most }
        requires shown { IsSome (S.meaning store.old).contents.history self.old }
        ensures speaks { OnOk result (Speaks link.Agent (λ w. turn_talk most w.reader) (λ read. with_reader (λ r. read)) self.old self.new (S.meaning store.old) (S.meaning store.new)) }
        ensures source { (viewed self.new.agent.view).source ≡ (viewed self.old.agent.view).source }
        ensures nothing { result ≡ Ok false → (viewed self.new.agent.view).shown.entries ≡ (viewed self.old.agent.view).shown.entries }
        ensures named { S.name store.new ≡ S.name store.old }
        ensures loans { S.loans store.new ≡ S.loans store.old }
    {
        self.agent.turn(alloc, &mut self.to_agent, store, most)
    }
}

fn when_of(moment: Moment) -> When
    ensures { result ≡ when_of moment }
{
    match moment {
        Moment::Before => When::Before,
        Moment::After => When::After,
    }
}

// What is done without a call.
impl Remote {
    /// Stops the exporter.
    pub fn stop(&mut self)
        ensures changes { Changes (with_exporter after_stop) self.old self.new }
        ensures agent { self.new.agent ≡ self.old.agent }
    {
        self.exporter.stop();
    }

    /// Sets a link up or down. A remote that is watched in its own store has those of its exporter and of
    /// the agent alone.
    pub fn set_link(&mut self, link: LinkName, up: bool)
        ensures changes { Changes (with_link link (with_way up)) self.old self.new }
        ensures agent { self.new.agent ≡ self.old.agent }
    {
        match link {
            LinkName::Exporter => set_way(&mut self.to_exporter, up),
            LinkName::Agent => set_way(&mut self.to_agent, up),
            LinkName::Remote | LinkName::Local => {}
        }
    }

    /// Plans a failure of a link, behind the others.
    pub fn fail(&mut self, link: LinkName, skip: u32, moment: Moment) -> Result<(), Memory>
        ensures changes { OnOk result (Changes (with_link link (with_failure skip (when_of moment))) self.old self.new) }
        ensures agent { self.new.agent ≡ self.old.agent }
    {
        match link {
            LinkName::Exporter => self.to_exporter.fail(skip, when_of(moment)),
            LinkName::Agent => self.to_agent.fail(skip, when_of(moment)),
            LinkName::Remote | LinkName::Local => Ok(()),
        }
    }

    /// The agent's reader and view begin new.
    pub fn restart_agent(&mut self, alloc: Global) -> Result<(), Memory>
        ensures changes { OnOk result (Changes (with_reader (λ r. unread)) self.old self.new) }
        ensures exporter { self.new.exporter ≡ self.old.exporter }
        ensures own { OnOk result (IsOwnView self.new) }
    {
        self.agent = Agent::new(alloc, self.exporter.cluster())?;
        Ok(())
    }
}

fn set_way(link: &mut LinkState, up: bool)
    ensures { link.new ≡ with_way up link.old }
{
    if up {
        link.set_up();
    } else {
        link.set_down();
    }
}
