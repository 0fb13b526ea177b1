// The calls that an exporter makes on its store through a link.
ghost use Rattle.std.specs.Prelude.{◌≡◌, ◌≢◌, ℕ, List, OnOk, true};
ghost use Rattle.exporter.specs.State.{turns};
ghost use Rattle.exporter.specs.Talks.{export_talk, keep_talk, start_talk};
ghost use Rattle.flaky_link.specs.Link.{loans_of};
ghost use Rattle.mesh_world.specs.Ways.{CameTo};

use exporter::{ExportFault, Exporter};
use flaky_link::{FlakyLink, LinkState};
use mesh_base::Memory;
use store_api::Store;

// A lost call and a dead lease are no refusal of the program.
fn go_on(fault: ExportFault) -> Result<(), Memory>
    ensures { OnOk result (fault ≢ ExportFault.Memory) }
{
    match fault {
        ExportFault::Lost | ExportFault::NoLease { lease: _ } => Ok(()),
        ExportFault::Memory => Err(Memory),
    }
}

fn start_over<S: Store>(exporter: &mut Exporter, link: &mut FlakyLink<S>) -> Result<(), Memory>
    ensures came { OnOk result (CameTo (start_talk exporter.old) exporter.new (link.old.state.now, S.meaning link.old.store.now) (link.new.state.now, S.meaning link.new.store.now)) }
    ensures named { S.name link.new.store.now ≡ S.name link.old.store.now }
    ensures loans { loans_of link.new.state.ghost_name link.new.store.ghost_name (S.loans link.new.store.now) ≡ loans_of link.old.state.ghost_name link.old.store.ghost_name (S.loans link.old.store.now) }
{
    match exporter.start(link) {
        Ok(()) => Ok(()),
        Err(fault) => go_on(fault),
    }
}

/// Starts the exporter through the link; where the grant is lost it is as before.
pub fn start<S: Store>(
    exporter: &mut Exporter,
    link: &mut LinkState,
    store: &mut S,
) -> Result<(), Memory>
    ensures came { OnOk result (CameTo (start_talk exporter.old) exporter.new (link.old, S.meaning store.old) (link.new, S.meaning store.new)) }
    ensures named { S.name store.new ≡ S.name store.old }
    ensures loans { S.loans store.new ≡ S.loans store.old }
{
    let mut link = FlakyLink::new(link, store);
    start_over(exporter, &mut link)
}

fn keep_over<S: Store>(exporter: &mut Exporter, link: &mut FlakyLink<S>) -> Result<(), Memory>
    ensures came { OnOk result (CameTo (keep_talk exporter.old) exporter.new (link.old.state.now, S.meaning link.old.store.now) (link.new.state.now, S.meaning link.new.store.now)) }
    ensures named { S.name link.new.store.now ≡ S.name link.old.store.now }
    ensures loans { loans_of link.new.state.ghost_name link.new.store.ghost_name (S.loans link.new.store.now) ≡ loans_of link.old.state.ghost_name link.old.store.ghost_name (S.loans link.old.store.now) }
{
    match exporter.keep(link) {
        Ok(()) => Ok(()),
        Err(fault) => go_on(fault),
    }
}

/// Keeps the exporter's lease alive through the link; one whose lease is dead is stopped, and one that is
/// stopped makes no call.
pub fn keep<S: Store>(
    exporter: &mut Exporter,
    link: &mut LinkState,
    store: &mut S,
) -> Result<(), Memory>
    ensures came { OnOk result (CameTo (keep_talk exporter.old) exporter.new (link.old, S.meaning store.old) (link.new, S.meaning store.new)) }
    ensures named { S.name store.new ≡ S.name store.old }
    ensures loans { S.loans store.new ≡ S.loans store.old }
{
    let mut link = FlakyLink::new(link, store);
    keep_over(exporter, &mut link)
}

fn export_over<S: Store>(
    exporter: &mut Exporter,
    link: &mut FlakyLink<S>,
    most: u64,
) -> Result<(), Memory>
    requires writable { (key : List ℕ) → (S.meaning link.old.store.now).writable key ≡ true }
    ensures came { OnOk result (CameTo (export_talk (turns most exporter.old) exporter.old) exporter.new (link.old.state.now, S.meaning link.old.store.now) (link.new.state.now, S.meaning link.new.store.now)) }
    ensures named { S.name link.new.store.now ≡ S.name link.old.store.now }
    ensures loans { loans_of link.new.state.ghost_name link.new.store.ghost_name (S.loans link.new.store.now) ≡ loans_of link.old.state.ghost_name link.old.store.ghost_name (S.loans link.old.store.now) }
{
    match exporter.export(link, most) {
        Ok(_) => Ok(()),
        Err(fault) => go_on(fault),
    }
}

/// Writes at most so many items of the exporter's queue through the link, until one is lost or refused.
pub fn export<S: Store>(
    exporter: &mut Exporter,
    link: &mut LinkState,
    store: &mut S,
    most: u64,
) -> Result<(), Memory>
    requires writable { (key : List ℕ) → (S.meaning store.old).writable key ≡ true }
    ensures came { OnOk result (CameTo (export_talk (turns most exporter.old) exporter.old) exporter.new (link.old, S.meaning store.old) (link.new, S.meaning store.new)) }
    ensures named { S.name store.new ≡ S.name store.old }
    ensures loans { S.loans store.new ≡ S.loans store.old }
{
    let mut link = FlakyLink::new(link, store);
    export_over(exporter, &mut link, most)
}
