// Whether a line has the words of its form at all.
ghost use Rattle.std.specs.Prelude.{◌≡◌, ◌&&◌, IfOk, bytes_eq, is_some, true};
ghost use Rattle.std.specs.List.{list_all};
ghost use Rattle.mesh_text.specs.Escapes.{unescaped};
ghost use Rattle.scenario_lang.specs.Answers.{has};
ghost use Rattle.scenario_lang.specs.Forms.{has_bytes, labels_of, link_named, way_named, moment_named};
ghost use Rattle.scenario_lang.specs.Shapes.{no_words, passes};
ghost use Rattle.scenario_lang.specs.Split.{words};
ghost use Rattle.scenario_lang.specs.Table as table;

use crate::splitting::next_word;
use crate::verb::Verb;
use crate::words::{labels_of, link_named, moment_named, way_named};
use mesh_base::Memory;
use mesh_text::unescape;
use std::alloc::Global;

/// There are so many words, and no more.
#[tactic(auto, using(crate::proofs::Fits::has_more, crate::proofs::Fits::has_none))]
pub(crate) fn has_words(rest: &[u8], count: usize) -> bool
    ensures { result ≡ has count (words rest.now) }
{
    let mut left = rest;
    for taken in 0..count {
        match next_word(left) {
            Some((_, more)) => left = more,
            None => return false,
        }
    }
    next_word(left).is_none()
}

/// There is this word first, and then so many.
pub(crate) fn begins_with(rest: &[u8], text: &str, count: usize) -> bool
    ensures { result ≡ passes (words rest.now) (λ w more. bytes_eq w text.now && has count more) }
{
    match next_word(rest) {
        Some((word, rest)) => word == text.as_bytes() && has_words(rest, count),
        None => false,
    }
}

fn is_key(alloc: Global, word: &[u8]) -> Result<bool, Memory>
    ensures { IfOk result (λ b. b ≡ has_bytes (unescaped word.now)) }
{
    match unescape(alloc, word)? {
        Some(bytes) => Ok(!bytes.is_empty()),
        None => Ok(false),
    }
}

fn is_value(alloc: Global, word: &[u8]) -> Result<bool, Memory>
    ensures { IfOk result (λ b. b ≡ is_some (unescaped word.now)) }
{
    Ok(unescape(alloc, word)?.is_some())
}

fn are_labels(alloc: Global, word: &[u8]) -> Result<bool, Memory>
    ensures { IfOk result (λ b. b ≡ is_some (labels_of word.now)) }
{
    Ok(labels_of(alloc, word)?.is_some())
}

fn fits_remote(rest: &[u8]) -> bool
    ensures { result ≡ table.remote_line.fits (words rest.now) }
{
    let Some((_, rest)) = next_word(rest) else {
        return false;
    };
    match next_word(rest) {
        Some((_, rest)) => begins_with(rest, "direct", 0),
        None => false,
    }
}

/// There is a word, whatever follows it.
#[tactic(auto, using(crate::proofs::Fits::all_pass))]
fn has_word(rest: &[u8]) -> bool
    ensures { result ≡ passes (words rest.now) (λ w more. list_all (λ _. true) more) }
{
    next_word(rest).is_some()
}

fn fits_node(rest: &[u8]) -> bool
    ensures { result ≡ table.node_line.fits (words rest.now) }
{
    match next_word(rest) {
        Some((_, rest)) => has_word(rest),
        None => false,
    }
}

fn ends_with_labels(alloc: Global, rest: &[u8]) -> Result<bool, Memory>
    ensures { IfOk result (λ b. b ≡ passes (words rest.now) (λ w more. is_some (labels_of w) && no_words more)) }
{
    match next_word(rest) {
        Some((word, rest)) => Ok(has_words(rest, 0) && are_labels(alloc, word)?),
        None => Ok(false),
    }
}

fn fits_identity(alloc: Global, rest: &[u8]) -> Result<bool, Memory>
    ensures { IfOk result (λ b. b ≡ table.identity_line.fits (words rest.now)) }
{
    let Some((_, rest)) = next_word(rest) else {
        return Ok(false);
    };
    match next_word(rest) {
        Some((_, rest)) => ends_with_labels(alloc, rest),
        None => Ok(false),
    }
}

/// There is a host, and then nothing or a pod.
fn fits_host(rest: &[u8]) -> bool
    ensures { result ≡ table.host_and_pod.fits (words rest.now) }
{
    has_words(rest, 1) || has_words(rest, 3)
}

fn fits_address(rest: &[u8]) -> bool
    ensures { result ≡ table.address_line.fits (words rest.now) }
{
    let Some((_, rest)) = next_word(rest) else {
        return false;
    };
    let Some((_, rest)) = next_word(rest) else {
        return false;
    };
    match next_word(rest) {
        Some((_, rest)) => fits_host(rest),
        None => false,
    }
}

fn fits_withdraw(rest: &[u8]) -> bool
    ensures { result ≡ table.withdraw_line.fits (words rest.now) }
{
    match next_word(rest) {
        Some((_, rest)) => {
            begins_with(rest, "node", 1)
                || begins_with(rest, "identity", 1)
                || begins_with(rest, "address", 1)
        }
        None => false,
    }
}

fn ends_with_value(alloc: Global, rest: &[u8]) -> Result<bool, Memory>
    ensures { IfOk result (λ b. b ≡ passes (words rest.now) (λ w more. is_some (unescaped w) && no_words more)) }
{
    match next_word(rest) {
        Some((word, rest)) => Ok(has_words(rest, 0) && is_value(alloc, word)?),
        None => Ok(false),
    }
}

fn ends_with_pair(alloc: Global, rest: &[u8]) -> Result<bool, Memory>
    ensures { IfOk result (λ b. b ≡ passes (words rest.now) (λ w more. has_bytes (unescaped w) && passes more (λ v last. is_some (unescaped v) && no_words last))) }
{
    match next_word(rest) {
        Some((word, rest)) => Ok(is_key(alloc, word)? && ends_with_value(alloc, rest)?),
        None => Ok(false),
    }
}

fn ends_with_key(alloc: Global, rest: &[u8]) -> Result<bool, Memory>
    ensures { IfOk result (λ b. b ≡ passes (words rest.now) (λ w more. has_bytes (unescaped w) && no_words more)) }
{
    match next_word(rest) {
        Some((word, rest)) => Ok(has_words(rest, 0) && is_key(alloc, word)?),
        None => Ok(false),
    }
}

/// There is a write behind the remote.
#[tactic(auto, using(crate::proofs::Fits::put_or_delete))]
fn is_write(alloc: Global, rest: &[u8]) -> Result<bool, Memory>
    ensures { IfOk result (λ b. b ≡ table.raw_write.fits (words rest.now)) }
{
    let Some((word, rest)) = next_word(rest) else {
        return Ok(false);
    };
    if word == "put".as_bytes() {
        return ends_with_pair(alloc, rest);
    }
    Ok(word == "delete".as_bytes() && ends_with_key(alloc, rest)?)
}

fn fits_raw(alloc: Global, rest: &[u8]) -> Result<bool, Memory>
    ensures { IfOk result (λ b. b ≡ table.raw_line.fits (words rest.now)) }
{
    match next_word(rest) {
        Some((_, rest)) => is_write(alloc, rest),
        None => Ok(false),
    }
}

fn ends_with_way(rest: &[u8]) -> bool
    ensures { result ≡ passes (words rest.now) (λ w more. is_some (way_named w) && no_words more) }
{
    match next_word(rest) {
        Some((word, rest)) => way_named(word).is_some() && has_words(rest, 0),
        None => false,
    }
}

fn fits_link(rest: &[u8]) -> bool
    ensures { result ≡ table.link_line.fits (words rest.now) }
{
    let Some((_, rest)) = next_word(rest) else {
        return false;
    };
    match next_word(rest) {
        Some((word, rest)) => link_named(word).is_some() && ends_with_way(rest),
        None => false,
    }
}

fn ends_with_moment(rest: &[u8]) -> bool
    ensures { result ≡ passes (words rest.now) (λ w more. is_some (moment_named w) && no_words more) }
{
    match next_word(rest) {
        Some((word, rest)) => moment_named(word).is_some() && has_words(rest, 0),
        None => false,
    }
}

/// There is a number of calls, and then the moment.
fn ends_with_plan(rest: &[u8]) -> bool
    ensures { result ≡ passes (words rest.now) (λ w more. passes more (λ v last. is_some (moment_named v) && no_words last)) }
{
    match next_word(rest) {
        Some((_, rest)) => ends_with_moment(rest),
        None => false,
    }
}

fn fits_fail(rest: &[u8]) -> bool
    ensures { result ≡ table.fail_line.fits (words rest.now) }
{
    let Some((_, rest)) = next_word(rest) else {
        return false;
    };
    match next_word(rest) {
        Some((word, rest)) => link_named(word).is_some() && ends_with_plan(rest),
        None => false,
    }
}

/// Whether the words behind a first word are those of its form: as many as there must be, with the
/// fixed words in their places, and without a bad escape, an empty key or labels that are none.
#[tactic(auto, unfolding(crate::specs::Table::row))]
pub(crate) fn fits_row(alloc: Global, verb: Verb, rest: &[u8]) -> Result<bool, Memory>
    ensures { IfOk result (λ b. b ≡ (table.row verb).line.fits (words rest.now)) }
{
    match verb {
        Verb::Mesh | Verb::Lease | Verb::Start | Verb::Stop | Verb::Keep | Verb::Tick => {
            Ok(has_words(rest, 1))
        }
        Verb::Local | Verb::Export | Verb::Compact => Ok(has_words(rest, 2)),
        Verb::Remote => Ok(fits_remote(rest)),
        Verb::Node => Ok(fits_node(rest)),
        Verb::Identity => fits_identity(alloc, rest),
        Verb::Address => Ok(fits_address(rest)),
        Verb::Withdraw => Ok(fits_withdraw(rest)),
        Verb::Raw => fits_raw(alloc, rest),
        Verb::Link => Ok(fits_link(rest)),
        Verb::Fail => Ok(fits_fail(rest)),
        Verb::Turn => Ok(begins_with(rest, "agent", 2)),
        Verb::Restart => Ok(begins_with(rest, "agent", 0)),
        Verb::Report => Ok(has_words(rest, 0)),
    }
}
