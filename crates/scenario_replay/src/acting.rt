// The actions of a scenario, over stores whose calls may be lost.
ghost use Rattle.std.specs.Prelude.{◌≡◌, ◌≤◌, ◌<◌, ◌+◌, List, All, OnOk, length, map, true};
ghost use Rattle.std.specs.List.{AllByRecursion};
ghost use Rattle.scenario_lang.specs.Valid.{IsActionOf};
ghost use Rattle.mesh_world.specs.Actions.{act, act_all, changes, compact, export, is_change, keep, most, place_of, restarted, start, tick_from, turn, write_raw};
ghost use Rattle.mesh_remote.specs.Shown.{IsOwnView};
ghost use Rattle.scenario_replay.specs.Rows.{IsTold};
ghost use Rattle.scenario_replay.specs.Shown.{HasSomeWorld, Makes, MakesPlainly};

use crate::replay::Replay;
use mesh_base::Memory;
use scenario_lang::{Action, Count, RawWrite, StoreOf};
use std::alloc::Global;
use std::marker::Brand;
use std::sync::ledger::Blank;
use store_api::StoreAdmin;

// How many items or revisions at most.
fn most(count: Count) -> u64
    ensures { result ≡ most count }
{
    match count {
        Count::Of(n) => n,
        Count::All => u64::MAX,
    }
}

// The place of a store.
fn place_of(store: StoreOf) -> usize
    requires { place_of store ≤ 255 }
    ensures { result ≡ place_of store }
{
    match store {
        StoreOf::Local => 0,
        StoreOf::Remote(remote) => remote + 1,
    }
}

// What is called on the store of a remote.
impl Replay {
    fn start<S: StoreAdmin>(&mut self, remote: usize, stores: &mut [S]) -> Result<(), Memory>
        requires world { HasSomeWorld self.old (map S.meaning stores.old) }
        requires remote { remote < length self.old.remotes.items }
        requires told { IsTold self.old }
        ensures done { OnOk result (Makes (start remote) self.old self.new (map S.meaning stores.old) (map S.meaning stores.new)) }
        ensures told { IsTold self.new }
    {
        let store = &mut stores[remote + 1];
        self.remotes[remote].start(store)
    }

    fn keep<S: StoreAdmin>(&mut self, remote: usize, stores: &mut [S]) -> Result<(), Memory>
        requires world { HasSomeWorld self.old (map S.meaning stores.old) }
        requires remote { remote < length self.old.remotes.items }
        requires told { IsTold self.old }
        ensures done { OnOk result (Makes (keep remote) self.old self.new (map S.meaning stores.old) (map S.meaning stores.new)) }
        ensures told { IsTold self.new }
    {
        let store = &mut stores[remote + 1];
        self.remotes[remote].keep(store)
    }

    fn export<S: StoreAdmin>(
        &mut self,
        remote: usize,
        most: u64,
        stores: &mut [S],
    ) -> Result<(), Memory>
        requires world { HasSomeWorld self.old (map S.meaning stores.old) }
        requires remote { remote < length self.old.remotes.items }
        requires told { IsTold self.old }
        ensures done { OnOk result (Makes (export remote most) self.old self.new (map S.meaning stores.old) (map S.meaning stores.new)) }
        ensures told { IsTold self.new }
    {
        let store = &mut stores[remote + 1];
        self.remotes[remote].export(store, most)
    }

    // One turn of the agent's reader. What it lists is told to the tables at once, and what it pulls at
    // the next report. A turn that reads nothing leaves what they were told.
    fn turn<S: StoreAdmin>(
        &mut self,
        alloc: Global,
        remote: usize,
        most: u64,
        stores: &mut [S],
    ) -> Result<(), Memory>
        requires world { HasSomeWorld self.old (map S.meaning stores.old) }
        requires remote { remote < length self.old.remotes.items }
        requires some { 1 ≤ most }
        requires told { IsTold self.old }
        ensures done { OnOk result (Makes (turn remote most) self.old self.new (map S.meaning stores.old) (map S.meaning stores.new)) }
        ensures told { OnOk result (IsTold self.new) }
    {
        let lists = self.remotes[remote].agent.reader.is_waiting();
        let store = &mut stores[remote + 1];
        if !self.remotes[remote].turn(alloc, store, most)? {
            return Ok(());
        }
        self.sighting.forget(remote);
        if lists {
            self.sighting
                .tell::<Brand>(alloc, Blank::new(1), self.remotes.as_slice(), remote)?;
        }
        Ok(())
    }
}

// What is called straight on stores.
impl Replay {
    fn write_raw<S: StoreAdmin>(
        &mut self,
        alloc: Global,
        remote: usize,
        write: &RawWrite,
        stores: &mut [S],
    ) -> Result<(), Memory>
        requires world { HasSomeWorld self.old (map S.meaning stores.old) }
        requires remote { remote < length self.old.remotes.items }
        ensures done { OnOk result (Makes (write_raw remote write.now) self.old self.new (map S.meaning stores.old) (map S.meaning stores.new)) }
        ensures same { self.new ≡ self.old }
    {
        let _ = self.reports;
        mesh_remote::write_raw(alloc, &mut stores[remote + 1], write)
    }

    fn compact<S: StoreAdmin>(
        &mut self,
        alloc: Global,
        store: StoreOf,
        upto: u64,
        stores: &mut [S],
    ) -> Result<(), Memory>
        requires world { HasSomeWorld self.old (map S.meaning stores.old) }
        requires place { place_of store ≤ length self.old.remotes.items }
        ensures done { OnOk result (Makes (compact (place_of store) upto) self.old self.new (map S.meaning stores.old) (map S.meaning stores.new)) }
        ensures same { self.new ≡ self.old }
    {
        let _ = self.reports;
        mesh_remote::compact(alloc, &mut stores[place_of(store)], upto)
    }

    // The clocks of the local store and of each remote's.
    fn tick<S: StoreAdmin>(
        &mut self,
        alloc: Global,
        seconds: u64,
        stores: &mut [S],
    ) -> Result<(), Memory>
        requires world { HasSomeWorld self.old (map S.meaning stores.old) }
        ensures done { OnOk result (Makes (λ w. tick_from 0 (length w.remotes + 1) seconds w) self.old self.new (map S.meaning stores.old) (map S.meaning stores.new)) }
        ensures same { self.new ≡ self.old }
    {
        for place in 0..self.remotes.len() + 1 {
            mesh_remote::tick(alloc, &mut stores[place], seconds)?;
        }
        Ok(())
    }
}

impl Replay {
    // Every reader and view of the agent begins new.
    fn restart_agent(&mut self, alloc: Global) -> Result<(), Memory>
        requires own { AllByRecursion IsOwnView self.old.remotes.items }
        requires told { IsTold self.old }
        ensures done { OnOk result (MakesPlainly (changes restarted) self.old self.new) }
        ensures told { OnOk result (IsTold self.new) }
    {
        for place in 0..self.remotes.len() {
            self.sighting.forget(place);
            self.remotes[place].restart_agent(alloc)?;
        }
        Ok(())
    }

    // A record is declared or withdrawn, an exporter stops, or a link is changed; other actions are none
    // of these.
    fn change(&mut self, alloc: Global, action: &Action) -> Result<(), Memory>
        requires action { IsActionOf (length self.old.remotes.items) action.now }
        requires told { IsTold self.old }
        ensures done { OnOk result (is_change action.now ≡ true → MakesPlainly (act action.now) self.old self.new) }
        ensures told { IsTold self.new }
    {
        match action {
            Action::Node {
                remote,
                name,
                addresses,
            } => self.remotes[*remote].declare_node(alloc, name, addresses.as_slice()),
            Action::Identity {
                remote,
                identity,
                labels,
            } => self.remotes[*remote].declare_identity(alloc, *identity, labels),
            Action::Address {
                remote,
                ip,
                identity,
                host,
                pod,
            } => self.remotes[*remote].declare_address(alloc, *ip, *identity, *host, pod),
            Action::Withdraw { remote, record } => self.remotes[*remote].withdraw(record),
            Action::Stop { remote } => {
                self.remotes[*remote].stop();
                Ok(())
            }
            Action::Link { remote, link, up } => {
                self.remotes[*remote].set_link(*link, *up);
                Ok(())
            }
            Action::Fail {
                remote,
                link,
                skip,
                moment,
            } => self.remotes[*remote].fail(*link, *skip, *moment),
            _ => Ok(()),
        }
    }

    /// What one line of a scenario does. A lost call is no refusal; `Memory` leaves it half done.
    pub fn act<S: StoreAdmin>(
        &mut self,
        alloc: Global,
        action: &Action,
        stores: &mut [S],
    ) -> Result<(), Memory>
        requires world { HasSomeWorld self.old (map S.meaning stores.old) }
        requires action { IsActionOf (length self.old.remotes.items) action.now }
        requires told { IsTold self.old }
        ensures done { OnOk result (Makes (act action.now) self.old self.new (map S.meaning stores.old) (map S.meaning stores.new)) }
        ensures told { OnOk result (IsTold self.new) }
    {
        match action {
            Action::Start { remote } => self.start(*remote, stores),
            Action::Keep { remote } => self.keep(*remote, stores),
            Action::Export { remote, count } => self.export(*remote, most(*count), stores),
            Action::Turn { remote, count } => self.turn(alloc, *remote, most(*count), stores),
            Action::Raw { remote, write } => self.write_raw(alloc, *remote, write, stores),
            Action::Tick { seconds } => self.tick(alloc, *seconds, stores),
            Action::Compact { store, revision } => self.compact(alloc, *store, *revision, stores),
            Action::RestartAgent => self.restart_agent(alloc),
            Action::Report => self.report(alloc),
            _ => self.change(alloc, action),
        }
    }

    /// The actions of a scenario in order.
    pub fn act_all<S: StoreAdmin>(
        &mut self,
        alloc: Global,
        actions: &[Action],
        stores: &mut [S],
    ) -> Result<(), Memory>
        requires world { HasSomeWorld self.old (map S.meaning stores.old) }
        requires actions { All (IsActionOf (length self.old.remotes.items)) actions.now }
        requires told { IsTold self.old }
        ensures done { OnOk result (Makes (act_all actions.now) self.old self.new (map S.meaning stores.old) (map S.meaning stores.new)) }
    {
        for action in actions {
            self.act(alloc, action, stores)?;
        }
        Ok(())
    }
}
