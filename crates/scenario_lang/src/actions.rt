// The line of each first word whose line is an action. Each reader is called for words that fit.
ghost use Rattle.std.specs.Prelude.{◌≡◌, Some, true};
ghost use Rattle.scenario_lang.specs.Answers.{Gives};
ghost use Rattle.scenario_lang.specs.Forms as forms;
ghost use Rattle.scenario_lang.specs.Forms.{address_said};
ghost use Rattle.scenario_lang.specs.Lines.{no_lines};
ghost use Rattle.scenario_lang.specs.Shapes.{each_said, ◌▸◌, one, makes};
ghost use Rattle.scenario_lang.specs.Split.{words};
ghost use Rattle.scenario_lang.specs.Table as table;

use crate::draft::Draft;
use crate::fitting::{begins_with, has_words};
use crate::kinds::LineKind;
use crate::scenario::{Action, Pod, RawWrite, Withdrawn};
use crate::splitting::next_word;
use crate::stops::Stop;
use crate::words::{
    address, count, escaped, first_word, fixed, host, identity, labels, link_named, moment_named,
    part_name, remote_place, revision, seconds, skip, store_of, way_named,
};
use mesh_base::Items;
use mesh_text::Ip;
use std::alloc::Global;

/// Addresses up to the end of the line.
fn addresses(alloc: Global, rest: &[u8]) -> Result<Items<Ip>, Stop<LineKind>>
    ensures { Gives result (each_said address_said (words rest.now)) }
{
    let mut found = Vec::new(alloc);
    let mut left = rest;
    while let Some((word, more)) = next_word(left) {
        found.push(address(word)?)?;
        left = more;
    }
    Ok(Items::from_vec(found))
}

pub(crate) fn node(alloc: Global, draft: &Draft, rest: &[u8]) -> Result<Action, Stop<LineKind>>
    ensures { Gives result (table.node_line.says draft.now (words rest.now)) }
{
    let (word, rest) = first_word(rest)?;
    let remote = remote_place(alloc, &draft.remotes, word)?;
    let (word, rest) = first_word(rest)?;
    let name = part_name(alloc, word)?;
    let addresses = addresses(alloc, rest)?;
    Ok(Action::Node {
        remote,
        name,
        addresses,
    })
}

pub(crate) fn identity_line(
    alloc: Global,
    draft: &Draft,
    rest: &[u8],
) -> Result<Action, Stop<LineKind>>
    ensures { Gives result (table.identity_line.says draft.now (words rest.now)) }
{
    let (word, rest) = first_word(rest)?;
    let remote = remote_place(alloc, &draft.remotes, word)?;
    let (word, rest) = first_word(rest)?;
    let identity = identity(word)?;
    let (word, _) = first_word(rest)?;
    let labels = labels(alloc, word)?;
    Ok(Action::Identity {
        remote,
        identity,
        labels,
    })
}

/// The host of an address.
fn lone_host(rest: &[u8]) -> Result<Option<Ip>, Stop<LineKind>>
    ensures { Gives result ((one forms.host).says no_lines (words rest.now)) }
{
    let (word, _) = first_word(rest)?;
    host(word)
}

/// The host of an address, and its pod.
fn host_of_pod(alloc: Global, rest: &[u8]) -> Result<(Option<Ip>, Option<Pod>), Stop<LineKind>>
    ensures { Gives result ((makes (λ p. (p.0, Some (record { namespace = p.1.0; name = p.1.1 }))) (forms.host ▸ forms.part ▸ one forms.part)).says no_lines (words rest.now)) }
{
    let (word, rest) = first_word(rest)?;
    let host = host(word)?;
    let (word, rest) = first_word(rest)?;
    let namespace = part_name(alloc, word)?;
    let (word, _) = first_word(rest)?;
    let name = part_name(alloc, word)?;
    Ok((host, Some(Pod { namespace, name })))
}

/// The host of an address, and its pod if it has one.
fn host_and_pod(alloc: Global, rest: &[u8]) -> Result<(Option<Ip>, Option<Pod>), Stop<LineKind>>
    ensures { Gives result (table.host_and_pod.says no_lines (words rest.now)) }
{
    if has_words(rest, 1) {
        return Ok((lone_host(rest)?, None));
    }
    host_of_pod(alloc, rest)
}

pub(crate) fn address_line(
    alloc: Global,
    draft: &Draft,
    rest: &[u8],
) -> Result<Action, Stop<LineKind>>
    ensures { Gives result (table.address_line.says draft.now (words rest.now)) }
{
    let (word, rest) = first_word(rest)?;
    let remote = remote_place(alloc, &draft.remotes, word)?;
    let (word, rest) = first_word(rest)?;
    let ip = address(word)?;
    let (word, rest) = first_word(rest)?;
    let identity = identity(word)?;
    let (host, pod) = host_and_pod(alloc, rest)?;
    Ok(Action::Address {
        remote,
        ip,
        identity,
        host,
        pod,
    })
}

/// The record that is withdrawn.
fn withdrawn_record(alloc: Global, rest: &[u8]) -> Result<Withdrawn, Stop<LineKind>>
    ensures { Gives result (table.withdrawn_record.says no_lines (words rest.now)) }
{
    let is_node = begins_with(rest, "node", 1);
    let is_identity = begins_with(rest, "identity", 1);
    let (_, rest) = first_word(rest)?;
    let (word, _) = first_word(rest)?;
    if is_node {
        return Ok(Withdrawn::Node(part_name(alloc, word)?));
    }
    if is_identity {
        return Ok(Withdrawn::Identity(identity(word)?));
    }
    Ok(Withdrawn::Address(address(word)?))
}

pub(crate) fn withdraw(alloc: Global, draft: &Draft, rest: &[u8]) -> Result<Action, Stop<LineKind>>
    ensures { Gives result (table.withdraw_line.says draft.now (words rest.now)) }
{
    let (word, rest) = first_word(rest)?;
    let remote = remote_place(alloc, &draft.remotes, word)?;
    let record = withdrawn_record(alloc, rest)?;
    Ok(Action::Withdraw { remote, record })
}

/// The only word, which names a remote.
fn lone_remote(alloc: Global, draft: &Draft, rest: &[u8]) -> Result<usize, Stop<LineKind>>
    ensures { Gives result ((one forms.remote).says draft.now (words rest.now)) }
{
    let (word, _) = first_word(rest)?;
    remote_place(alloc, &draft.remotes, word)
}

pub(crate) fn start(alloc: Global, draft: &Draft, rest: &[u8]) -> Result<Action, Stop<LineKind>>
    ensures { Gives result (table.start_line.says draft.now (words rest.now)) }
{
    Ok(Action::Start {
        remote: lone_remote(alloc, draft, rest)?,
    })
}

pub(crate) fn stop(alloc: Global, draft: &Draft, rest: &[u8]) -> Result<Action, Stop<LineKind>>
    ensures { Gives result (table.stop_line.says draft.now (words rest.now)) }
{
    Ok(Action::Stop {
        remote: lone_remote(alloc, draft, rest)?,
    })
}

pub(crate) fn keep(alloc: Global, draft: &Draft, rest: &[u8]) -> Result<Action, Stop<LineKind>>
    ensures { Gives result (table.keep_line.says draft.now (words rest.now)) }
{
    Ok(Action::Keep {
        remote: lone_remote(alloc, draft, rest)?,
    })
}

pub(crate) fn export(alloc: Global, draft: &Draft, rest: &[u8]) -> Result<Action, Stop<LineKind>>
    ensures { Gives result (table.export_line.says draft.now (words rest.now)) }
{
    let (word, rest) = first_word(rest)?;
    let remote = remote_place(alloc, &draft.remotes, word)?;
    let (word, _) = first_word(rest)?;
    let count = count(word)?;
    Ok(Action::Export { remote, count })
}

fn put(alloc: Global, rest: &[u8]) -> Result<RawWrite, Stop<LineKind>>
    ensures { Gives result ((makes (λ p. RawWrite.Put p.0 p.1) (forms.key ▸ one forms.value)).says no_lines (words rest.now)) }
{
    let (word, rest) = first_word(rest)?;
    let key = escaped(alloc, word, 1024)?;
    let (word, _) = first_word(rest)?;
    let value = escaped(alloc, word, 32768)?;
    Ok(RawWrite::Put { key, value })
}

fn delete(alloc: Global, rest: &[u8]) -> Result<RawWrite, Stop<LineKind>>
    ensures { Gives result ((makes RawWrite.Delete (one forms.key)).says no_lines (words rest.now)) }
{
    let (word, _) = first_word(rest)?;
    let key = escaped(alloc, word, 1024)?;
    Ok(RawWrite::Delete { key })
}

/// What is written.
#[tactic(auto, using(crate::proofs::Fits::put_or_delete))]
fn raw_write(alloc: Global, rest: &[u8]) -> Result<RawWrite, Stop<LineKind>>
    requires { table.raw_write.fits (words rest.now) ≡ true }
    ensures { Gives result (table.raw_write.says no_lines (words rest.now)) }
{
    let (word, rest) = first_word(rest)?;
    if word == "put".as_bytes() {
        put(alloc, rest)
    } else {
        delete(alloc, rest)
    }
}

pub(crate) fn raw(alloc: Global, draft: &Draft, rest: &[u8]) -> Result<Action, Stop<LineKind>>
    requires { table.raw_line.fits (words rest.now) ≡ true }
    ensures { Gives result (table.raw_line.says draft.now (words rest.now)) }
{
    let (word, rest) = first_word(rest)?;
    let remote = remote_place(alloc, &draft.remotes, word)?;
    let write = raw_write(alloc, rest)?;
    Ok(Action::Raw { remote, write })
}

/// The only word, which is a number of seconds.
pub(crate) fn lone_seconds(rest: &[u8]) -> Result<u64, Stop<LineKind>>
    ensures { Gives result ((one forms.seconds).says no_lines (words rest.now)) }
{
    let (word, _) = first_word(rest)?;
    seconds(word)
}

pub(crate) fn tick(rest: &[u8]) -> Result<Action, Stop<LineKind>>
    ensures { Gives result (table.tick_line.says no_lines (words rest.now)) }
{
    Ok(Action::Tick {
        seconds: lone_seconds(rest)?,
    })
}

pub(crate) fn compact(alloc: Global, draft: &Draft, rest: &[u8]) -> Result<Action, Stop<LineKind>>
    ensures { Gives result (table.compact_line.says draft.now (words rest.now)) }
{
    let (word, rest) = first_word(rest)?;
    let store = store_of(alloc, draft, word)?;
    let (word, _) = first_word(rest)?;
    let revision = revision(word)?;
    Ok(Action::Compact { store, revision })
}

pub(crate) fn link(alloc: Global, draft: &Draft, rest: &[u8]) -> Result<Action, Stop<LineKind>>
    ensures { Gives result (table.link_line.says draft.now (words rest.now)) }
{
    let (word, rest) = first_word(rest)?;
    let remote = remote_place(alloc, &draft.remotes, word)?;
    let (word, rest) = first_word(rest)?;
    let link = fixed(link_named(word))?;
    let (word, _) = first_word(rest)?;
    let up = fixed(way_named(word))?;
    Ok(Action::Link { remote, link, up })
}

pub(crate) fn fail(alloc: Global, draft: &Draft, rest: &[u8]) -> Result<Action, Stop<LineKind>>
    ensures { Gives result (table.fail_line.says draft.now (words rest.now)) }
{
    let (word, rest) = first_word(rest)?;
    let remote = remote_place(alloc, &draft.remotes, word)?;
    let (word, rest) = first_word(rest)?;
    let link = fixed(link_named(word))?;
    let (word, rest) = first_word(rest)?;
    let skip = skip(word)?;
    let (word, _) = first_word(rest)?;
    let moment = fixed(moment_named(word))?;
    Ok(Action::Fail {
        remote,
        link,
        skip,
        moment,
    })
}

pub(crate) fn turn(alloc: Global, draft: &Draft, rest: &[u8]) -> Result<Action, Stop<LineKind>>
    ensures { Gives result (table.turn_line.says draft.now (words rest.now)) }
{
    let (_, rest) = first_word(rest)?;
    let (word, rest) = first_word(rest)?;
    let remote = remote_place(alloc, &draft.remotes, word)?;
    let (word, _) = first_word(rest)?;
    let count = count(word)?;
    Ok(Action::Turn { remote, count })
}

pub(crate) fn restart(rest: &[u8]) -> Result<Action, Stop<LineKind>>
    ensures { Gives result (table.restart_line.says no_lines (words rest.now)) }
{
    let _ = first_word(rest)?;
    Ok(Action::RestartAgent)
}
