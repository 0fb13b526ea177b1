// What the agent keeps of one remote: its reader of the remote's store, and the view of what that read.
ghost use Rattle.std.specs.Prelude.{◌≡◌, ◌≤◌, Ok, OnOk, IfOk, false};
ghost use Rattle.flaky_link.specs.Link.{loans_of};
ghost use Rattle.store_api.specs.History.{History, revision};
ghost use Rattle.store_api.specs.Spans.{unread};
ghost use Rattle.store_api.specs.declared.change.Delivery.TheVariants.{Lost};
ghost use Rattle.relist_merge.specs.Sight.{viewed};
ghost use Rattle.mesh_remote.specs.Reads.{IsRead, Turns};

use flaky_link::{FlakyLink, LinkState};
use key_paths::{Hop, ranges};
use mesh_base::Memory;
use mesh_text::ClusterName;
use record_check::Limit;
use reflector::{Reflector, delivery};
use relist_merge::View;
use std::alloc::Global;
use store_api::{Delivery, Store};

/// The agent's reader of a remote's store, and the view of what it has sighted there.
#[derive(Drop)]
pub struct Agent {
    pub reader: Reflector,
    pub view: View,
}

impl Agent {
    /// A reader of the cluster's state and a view of it that have seen nothing.
    pub fn new(alloc: Global, cluster: &ClusterName) -> Result<Agent, Memory>
        ensures { IfOk result (λ a. (history : History) → IsRead cluster.now history unread a) }
    {
        let ranges = ranges(alloc, cluster, Hop::State)?;
        Ok(Agent {
            reader: Reflector::new(ranges),
            view: View::new(alloc, cluster.clone()?, Hop::State, Limit::Small),
        })
    }
}

// Whether pairs were read, and no connection lost.
fn is_read(delivery: &Delivery) -> bool
    ensures { result ≡ false → delivery.now ≡ Lost }
{
    match delivery {
        Delivery::Listing(_) | Delivery::Batch(_) => true,
        Delivery::Lost => false,
    }
}

impl Agent {
    // One turn of the reader over the link, and what it handed on into the view; whether pairs were read.
    fn turn_over<S: Store>(
        &mut self,
        alloc: Global,
        link: &mut FlakyLink<S>,
        most: u64,
    ) -> Result<bool, Memory>
        requires some { 1 ≤ most }
        requires there { self.old.reader.is_waiting ≡ false → self.old.reader.cursor ≤ revision (S.meaning link.old.store.now).contents.history }
        ensures source { (viewed self.new.view).source ≡ (viewed self.old.view).source }
        ensures nothing { result ≡ Ok false → (viewed self.new.view).shown.entries ≡ (viewed self.old.view).shown.entries }
        ensures turns { OnOk result (Turns most self.old self.new (link.old.state.now, S.meaning link.old.store.now) (link.new.state.now, S.meaning link.new.store.now)) }
        ensures named { S.name link.new.store.now ≡ S.name link.old.store.now }
        ensures loans { loans_of link.new.state.ghost_name link.new.store.ghost_name (S.loans link.new.store.now) ≡ loans_of link.old.state.ghost_name link.old.store.ghost_name (S.loans link.old.store.now) }
    {
        let turn = self.reader.turn(alloc, link, most)?;
        match delivery(turn) {
            Some(delivery) => {
                let reads = is_read(&delivery);
                self.view.follow(alloc, delivery)?;
                Ok(reads)
            }
            None => Ok(false),
        }
    }

    /// One turn of at most so many revisions over the store, through the link.
    ///
    /// A reader that waits lists, and another pulls what is behind its cursor; what it is handed goes
    /// into the view. After a lost call and a compaction it waits. The answer says whether pairs were read:
    /// where not, the view has the entries that it had. `Memory` leaves the turn half made.
    pub fn turn<S: Store>(
        &mut self,
        alloc: Global,
        link: &mut LinkState,
        store: &mut S,
        most: u64,
    ) -> Result<bool, Memory>
        requires some { 1 ≤ most }
        requires there { self.old.reader.is_waiting ≡ false → self.old.reader.cursor ≤ revision (S.meaning store.old).contents.history }
        ensures source { (viewed self.new.view).source ≡ (viewed self.old.view).source }
        ensures nothing { result ≡ Ok false → (viewed self.new.view).shown.entries ≡ (viewed self.old.view).shown.entries }
        ensures turns { OnOk result (Turns most self.old self.new (link.old, S.meaning store.old) (link.new, S.meaning store.new)) }
        ensures named { S.name store.new ≡ S.name store.old }
        ensures loans { S.loans store.new ≡ S.loans store.old }
    {
        let mut link = FlakyLink::new(link, store);
        self.turn_over(alloc, &mut link, most)
    }
}
