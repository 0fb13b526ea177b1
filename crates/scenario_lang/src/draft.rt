ghost use Rattle.std.specs.Prelude.{◌≡◌, IfOk, false, slice_get};
ghost use Rattle.std.specs.List.{list_any};
ghost use Rattle.mesh_base.specs.Order.{same_bytes};
ghost use Rattle.scenario_lang.specs.Clusters.{names_of, is_local_name};
ghost use Rattle.scenario_lang.specs.Lines as lines;

use crate::entry::Entry;
use crate::kinds::Mode;
use crate::remotes::Remotes;
use crate::scenario::{Action, Cluster, LinkName, Remote};
use crate::verb::Place;
use key_paths::Hop;
use mesh_base::{Items, Memory};
use mesh_text::ClusterName;
use std::alloc::Global;

/// What the lines so far say.
#[derive(Debug, Drop)]
pub(crate) struct Draft {
    /// The part of the text in which the last line stands.
    pub last: Place,
    pub local: Option<Cluster>,
    /// The seconds of a lease.
    pub lease: Option<u64>,
    pub remotes: Remotes,
    pub actions: Items<Action>,
    /// The line of the last action, where that is no `settle`; there is no `settle` yet.
    pub unsettled: Option<u64>,
}

/// Before the first line.
pub(crate) fn no_lines(alloc: Global) -> Draft
    ensures { result ≡ lines.no_lines }
{
    Draft {
        last: Place::Start,
        local: None,
        lease: None,
        remotes: Remotes::new(alloc),
        actions: Items::new(alloc),
        unsettled: None,
    }
}

#[tactic(auto, using(crate::proofs::Names::same_is))]
pub(crate) fn is_local_name(name: &ClusterName, local: &Option<Cluster>) -> bool
    ensures { result ≡ is_local_name name.now local.now }
{
    match local {
        Some(cluster) => name.as_bytes() == cluster.name.as_bytes(),
        None => false,
    }
}

#[tactic(auto, using(crate::proofs::Names::placed))]
fn is_remote_name(name: &ClusterName, remotes: &Remotes) -> bool
    ensures { result ≡ list_any (same_bytes name.now) (names_of remotes.now) }
{
    remotes.place(name).is_some()
}

/// A remote has the name of the local cluster or of a remote before it.
pub(crate) fn repeats(draft: &Draft, entry: &Entry) -> bool
    ensures { result ≡ lines.repeats draft.now entry.now }
{
    match entry {
        Entry::Remote(remote) => {
            is_local_name(&remote.name, &draft.local)
                || is_remote_name(&remote.name, &draft.remotes)
        }
        _ => false,
    }
}

/// A remote that is read from its own store has neither link of KVStoreMesh's worker.
fn lacks_link(remotes: &[Remote], place: usize, link: LinkName) -> bool
    ensures { result ≡ lines.lacks_link (slice_get remotes.now place) link }
{
    match (remotes.get(place), link) {
        (Some(remote), LinkName::Remote | LinkName::Local) => matches!(remote.hop, Hop::State),
        _ => false,
    }
}

fn is_on_threads(mode: Mode) -> bool
    ensures { result ≡ lines.is_on_threads mode }
{
    matches!(mode, Mode::Run { .. })
}

/// The agent may restart behind these actions on threads.
fn may_restart(actions: &[Action]) -> bool
    ensures { result ≡ lines.may_restart_after (lines.last_action actions.now) }
{
    matches!(actions.last(), None | Some(Action::RestartAgent))
}

/// A link that the remote does not have; on threads, a `report` or a restart between other actions.
pub(crate) fn breaks_mode(mode: Mode, draft: &Draft, entry: &Entry) -> bool
    ensures { result ≡ lines.breaks_mode mode draft.now entry.now }
{
    match entry {
        Entry::Act(Action::Link { remote, link, .. }) => {
            lacks_link(draft.remotes.as_slice(), *remote, *link)
        }
        Entry::Act(Action::Fail { remote, link, .. }) => {
            lacks_link(draft.remotes.as_slice(), *remote, *link)
        }
        Entry::Act(Action::Report) => is_on_threads(mode),
        Entry::Act(Action::RestartAgent) => {
            is_on_threads(mode) && !may_restart(draft.actions.as_slice())
        }
        _ => false,
    }
}

fn most_remotes(mode: Mode) -> usize
    ensures { result ≡ lines.most_remotes mode }
{
    match mode {
        Mode::Step => 255,
        Mode::Run { .. } => 32,
    }
}

/// One remote more than there may be.
pub(crate) fn exceeds(mode: Mode, draft: &Draft, entry: &Entry) -> bool
    ensures { result ≡ lines.exceeds mode draft.now entry.now }
{
    match entry {
        Entry::Remote(_) => draft.remotes.as_slice().len() >= most_remotes(mode),
        _ => false,
    }
}

#[tactic(auto, using(crate::proofs::Names::unplaced))]
fn after_remote(draft: Draft, remote: Remote) -> Result<Draft, Memory>
    requires { lines.repeats draft (Entry.Remote remote) ≡ false }
    ensures { IfOk result (λ d. d ≡ lines.after 0 draft (Entry.Remote remote)) }
{
    let Draft {
        last: _,
        local,
        lease,
        remotes,
        actions,
        unsettled,
    } = draft;
    let remotes = remotes.with(remote)?;
    Ok(Draft {
        last: Place::Remotes,
        local,
        lease,
        remotes,
        actions,
        unsettled,
    })
}

fn after_action(mut draft: Draft, line: u64, action: Action) -> Result<Draft, Memory>
    ensures { IfOk result (λ d. d ≡ lines.after_action line draft action) }
{
    draft.actions.push(action)?;
    draft.last = Place::Actions;
    draft.unsettled = Some(line);
    Ok(draft)
}

/// The lines so far with one more, which has this number.
pub(crate) fn after(mut draft: Draft, line: u64, entry: Entry) -> Result<Draft, Memory>
    requires { lines.repeats draft entry ≡ false }
    ensures { IfOk result (λ d. d ≡ lines.after line draft entry) }
{
    match entry {
        Entry::Mesh => draft.last = Place::Mesh,
        Entry::Local(cluster) => {
            draft.last = Place::Local;
            draft.local = Some(cluster);
        }
        Entry::Lease(seconds) => {
            draft.last = Place::Lease;
            draft.lease = Some(seconds);
        }
        Entry::Remote(remote) => return after_remote(draft, remote),
        Entry::Act(action) => return after_action(draft, line, action),
    }
    Ok(draft)
}
