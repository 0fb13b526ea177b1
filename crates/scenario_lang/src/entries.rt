// The line of each first word. Each reader is called for words that fit.
ghost use Rattle.std.specs.Prelude.{◌≡◌, true};
ghost use Rattle.scenario_lang.specs.Answers.{Gives};
ghost use Rattle.scenario_lang.specs.Lines.{no_lines};
ghost use Rattle.scenario_lang.specs.Split.{words};
ghost use Rattle.scenario_lang.specs.Table as table;

use crate::actions::{
    address_line, compact, export, fail, identity_line, keep, link, lone_seconds, node, raw,
    restart, start, stop, tick, turn, withdraw,
};
use crate::draft::Draft;
use crate::entry::Entry;
use crate::kinds::LineKind;
use crate::scenario::{Action, Cluster, Remote};
use crate::stops::Stop;
use crate::verb::Verb;
use crate::words::{cluster_name, cluster_number, first_word, version};
use key_paths::Hop;
use std::alloc::Global;

fn mesh(rest: &[u8]) -> Result<Entry, Stop<LineKind>>
    ensures { Gives result (table.mesh_line.says no_lines (words rest.now)) }
{
    let (word, _) = first_word(rest)?;
    version(word)?;
    Ok(Entry::Mesh)
}

fn local(alloc: Global, rest: &[u8]) -> Result<Entry, Stop<LineKind>>
    ensures { Gives result (table.local_line.says no_lines (words rest.now)) }
{
    let (word, rest) = first_word(rest)?;
    let name = cluster_name(alloc, word)?;
    let (word, _) = first_word(rest)?;
    let number = cluster_number(word)?;
    Ok(Entry::Local(Cluster { name, number }))
}

fn remote(alloc: Global, rest: &[u8]) -> Result<Entry, Stop<LineKind>>
    ensures { Gives result (table.remote_line.says no_lines (words rest.now)) }
{
    let (word, rest) = first_word(rest)?;
    let name = cluster_name(alloc, word)?;
    let (word, rest) = first_word(rest)?;
    let number = cluster_number(word)?;
    let _ = first_word(rest)?;
    Ok(Entry::Remote(Remote {
        name,
        number,
        hop: Hop::State,
    }))
}

/// What the words behind a first word say, or the fault of the first faulty one.
#[tactic(auto, unfolding(crate::specs::Table::row))]
pub(crate) fn row_entry(
    alloc: Global,
    draft: &Draft,
    verb: Verb,
    rest: &[u8],
) -> Result<Entry, Stop<LineKind>>
    requires { (table.row verb).line.fits (words rest.now) ≡ true }
    ensures { Gives result ((table.row verb).line.says draft.now (words rest.now)) }
{
    match verb {
        Verb::Mesh => mesh(rest),
        Verb::Local => local(alloc, rest),
        Verb::Lease => Ok(Entry::Lease(lone_seconds(rest)?)),
        Verb::Remote => remote(alloc, rest),
        Verb::Node => Ok(Entry::Act(node(alloc, draft, rest)?)),
        Verb::Identity => Ok(Entry::Act(identity_line(alloc, draft, rest)?)),
        Verb::Address => Ok(Entry::Act(address_line(alloc, draft, rest)?)),
        Verb::Withdraw => Ok(Entry::Act(withdraw(alloc, draft, rest)?)),
        Verb::Start => Ok(Entry::Act(start(alloc, draft, rest)?)),
        Verb::Stop => Ok(Entry::Act(stop(alloc, draft, rest)?)),
        Verb::Keep => Ok(Entry::Act(keep(alloc, draft, rest)?)),
        Verb::Export => Ok(Entry::Act(export(alloc, draft, rest)?)),
        Verb::Raw => Ok(Entry::Act(raw(alloc, draft, rest)?)),
        Verb::Tick => Ok(Entry::Act(tick(rest)?)),
        Verb::Compact => Ok(Entry::Act(compact(alloc, draft, rest)?)),
        Verb::Link => Ok(Entry::Act(link(alloc, draft, rest)?)),
        Verb::Fail => Ok(Entry::Act(fail(alloc, draft, rest)?)),
        Verb::Turn => Ok(Entry::Act(turn(alloc, draft, rest)?)),
        Verb::Restart => Ok(Entry::Act(restart(rest)?)),
        Verb::Report => Ok(Entry::Act(Action::Report)),
    }
}
