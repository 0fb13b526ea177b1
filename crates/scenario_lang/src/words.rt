// A word of each form.
ghost use Rattle.std.specs.Prelude.{◌≡◌, ◌∷◌, ◌-◌, ◌^◌, [], IfOk, OnErr, Ok, Err, Some, None};
ghost use Rattle.scenario_lang.specs.Answers.{Gives};
ghost use Rattle.scenario_lang.specs.Clusters.{names_of};
ghost use Rattle.record_reading.specs.Identity.{identity_of};
ghost use Rattle.scenario_lang.specs.Forms as forms;
ghost use Rattle.scenario_lang.specs.Judgement.{or_fault};
ghost use Rattle.scenario_lang.specs.Split.{words};

use crate::draft::{Draft, is_local_name};
use crate::kinds::LineKind;
use crate::remotes::Remotes;
use crate::scenario::{Count, LinkName, Moment, StoreOf};
use crate::splitting::next_word;
use crate::stops::Stop;
use mesh_base::{Bytes, Memory};
use mesh_text::{ClusterName, Ip, Kind, NameFault, PartName, read_ip, read_number, unescape};
use record_reading::read_record;
use record_values::{IdentityRecord, ReadFault, Record};
use std::alloc::Global;

/// The first word, and what follows it.
pub(crate) fn first_word(rest: &[u8]) -> Result<(&[u8], &[u8]), Stop<LineKind>>
    ensures found { IfOk result (λ p. words rest.now ≡ p.0.now ∷ words p.1.now) }
    ensures none { OnErr result (words rest.now ≡ []) }
    ensures fault { OnErr result (result ≡ Err (Stop.Fault LineKind.Words)) }
{
    match next_word(rest) {
        Some((word, rest)) => Ok((word, rest)),
        None => Err(Stop::Fault(LineKind::Words)),
    }
}

/// The version of the language.
pub(crate) fn version(word: &[u8]) -> Result<(), Stop<LineKind>>
    ensures { Gives result (forms.version_said word.now) }
{
    if word == "1".as_bytes() {
        Ok(())
    } else {
        Err(Stop::Fault(LineKind::Header))
    }
}

/// The name of a cluster, which need not be known.
#[tactic(auto, using(crate::proofs::NameTexts::cluster_named, crate::proofs::NameTexts::cluster_unnamed))]
pub(crate) fn cluster_name(alloc: Global, word: &[u8]) -> Result<ClusterName, Stop<LineKind>>
    ensures { Gives result (forms.cluster_name_said word.now) }
{
    match ClusterName::read(alloc, word) {
        Ok(name) => Ok(name),
        Err(NameFault::Memory) => Err(Stop::Memory),
        Err(_) => Err(Stop::Fault(LineKind::Name)),
    }
}

/// The name of a node, a namespace or a pod.
#[tactic(auto, using(crate::proofs::NameTexts::part_named, crate::proofs::NameTexts::part_unnamed))]
pub(crate) fn part_name(alloc: Global, word: &[u8]) -> Result<PartName, Stop<LineKind>>
    ensures { Gives result (forms.part_name_said word.now) }
{
    match PartName::read(alloc, word) {
        Ok(name) => Ok(name),
        Err(NameFault::Memory) => Err(Stop::Memory),
        Err(_) => Err(Stop::Fault(LineKind::Name)),
    }
}

/// The place of a remote, by its name.
pub(crate) fn remote_place(
    alloc: Global,
    remotes: &Remotes,
    word: &[u8],
) -> Result<usize, Stop<LineKind>>
    ensures { Gives result (forms.remote_said (names_of remotes.now) word.now) }
{
    let name = cluster_name(alloc, word)?;
    match remotes.place(&name) {
        Some(place) => Ok(place),
        None => Err(Stop::Fault(LineKind::UnknownCluster)),
    }
}

/// The store of the local cluster or of a remote, by the cluster's name.
pub(crate) fn store_of(alloc: Global, draft: &Draft, word: &[u8]) -> Result<StoreOf, Stop<LineKind>>
    ensures { Gives result (forms.store.says draft.now word.now) }
{
    let cluster = cluster_name(alloc, word)?;
    if is_local_name(&cluster, &draft.local) {
        return Ok(StoreOf::Local);
    }
    match draft.remotes.place(&cluster) {
        Some(place) => Ok(StoreOf::Remote(place)),
        None => Err(Stop::Fault(LineKind::UnknownCluster)),
    }
}

/// A canonical decimal within these bounds.
pub(crate) fn whole(word: &[u8], low: u64, high: u64) -> Result<u64, Stop<LineKind>>
    ensures { Gives result (forms.whole_said low high word.now) }
{
    match read_number(word) {
        Some(n) if low <= n && n <= high => Ok(n),
        _ => Err(Stop::Fault(LineKind::Number)),
    }
}

/// The number of a cluster, from 1 to 255.
pub(crate) fn cluster_number(word: &[u8]) -> Result<u32, Stop<LineKind>>
    ensures { Gives result (forms.whole_said 1 255 word.now) }
{
    match read_number(word) {
        Some(n) if 1 <= n && n <= 255 => Ok(n as u32),
        _ => Err(Stop::Fault(LineKind::Number)),
    }
}

/// The number of an identity, below 2^32.
pub(crate) fn identity(word: &[u8]) -> Result<u32, Stop<LineKind>>
    ensures { Gives result (forms.whole_said 0 (2 ^ 32 - 1) word.now) }
{
    match read_number(word) {
        Some(n) if n <= 4_294_967_295 => Ok(n as u32),
        _ => Err(Stop::Fault(LineKind::Number)),
    }
}

/// Seconds, from 1 to 1,000,000,000.
pub(crate) fn seconds(word: &[u8]) -> Result<u64, Stop<LineKind>>
    ensures { Gives result (forms.whole_said 1 1000000000 word.now) }
{
    whole(word, 1, 1_000_000_000)
}

/// A revision, from 1 to 1,000,000,000.
pub(crate) fn revision(word: &[u8]) -> Result<u64, Stop<LineKind>>
    ensures { Gives result (forms.whole_said 1 1000000000 word.now) }
{
    whole(word, 1, 1_000_000_000)
}

/// How many calls go through before one fails, up to 1,000,000.
pub(crate) fn skip(word: &[u8]) -> Result<u32, Stop<LineKind>>
    ensures { Gives result (forms.whole_said 0 1000000 word.now) }
{
    match read_number(word) {
        Some(n) if n <= 1_000_000 => Ok(n as u32),
        _ => Err(Stop::Fault(LineKind::Number)),
    }
}

/// A number from 1 to 1,000,000,000, or `all`.
pub(crate) fn count(word: &[u8]) -> Result<Count, Stop<LineKind>>
    ensures { Gives result (forms.count_said word.now) }
{
    if word == "all".as_bytes() {
        return Ok(Count::All);
    }
    Ok(Count::Of(whole(word, 1, 1_000_000_000)?))
}

/// An address.
pub(crate) fn address(word: &[u8]) -> Result<Ip, Stop<LineKind>>
    ensures { Gives result (forms.address_said word.now) }
{
    match read_ip(word) {
        Some(ip) => Ok(ip),
        None => Err(Stop::Fault(LineKind::Address)),
    }
}

/// An address, or `-` for none.
pub(crate) fn host(word: &[u8]) -> Result<Option<Ip>, Stop<LineKind>>
    ensures { Gives result (forms.host_said word.now) }
{
    if word == "-".as_bytes() {
        return Ok(None);
    }
    Ok(Some(address(word)?))
}

/// Escaped bytes, no more than these.
pub(crate) fn escaped(alloc: Global, word: &[u8], most: usize) -> Result<Bytes, Stop<LineKind>>
    ensures { Gives result (forms.escaped_said most word.now) }
{
    let Some(bytes) = unescape(alloc, word)? else {
        return Err(Stop::Fault(LineKind::Words));
    };
    if bytes.len() > most {
        return Err(Stop::Fault(LineKind::TooLong));
    }
    Ok(Bytes::from_vec(bytes))
}

/// The labels that bytes write.
fn labels_in(alloc: Global, bytes: &[u8]) -> Result<Option<IdentityRecord>, Memory>
    ensures { IfOk result (λ o. o ≡ forms.read_in (identity_of bytes.now)) }
{
    match read_record(alloc, Kind::Identities, bytes) {
        Ok(Record::Identity(labels)) => Ok(Some(labels)),
        Ok(_) => Ok(None),
        Err(ReadFault::Memory) => Err(Memory),
        Err(_) => Ok(None),
    }
}

/// The labels that an escaped word writes.
pub(crate) fn labels_of(alloc: Global, word: &[u8]) -> Result<Option<IdentityRecord>, Memory>
    ensures { IfOk result (λ o. o ≡ forms.labels_of word.now) }
{
    match unescape(alloc, word)? {
        Some(bytes) => labels_in(alloc, bytes.as_slice()),
        None => Ok(None),
    }
}

/// The escaped labels of an identity.
pub(crate) fn labels(alloc: Global, word: &[u8]) -> Result<IdentityRecord, Stop<LineKind>>
    ensures { Gives result (or_fault (forms.labels_of word.now) LineKind.Words) }
{
    match labels_of(alloc, word)? {
        Some(labels) => Ok(labels),
        None => Err(Stop::Fault(LineKind::Words)),
    }
}

/// A link of a remote, by its name.
pub(crate) fn link_named(word: &[u8]) -> Option<LinkName>
    ensures { result ≡ forms.link_named word.now }
{
    if word == "exporter".as_bytes() {
        return Some(LinkName::Exporter);
    }
    if word == "remote".as_bytes() {
        return Some(LinkName::Remote);
    }
    if word == "local".as_bytes() {
        return Some(LinkName::Local);
    }
    if word == "agent".as_bytes() {
        return Some(LinkName::Agent);
    }
    None
}

/// Whether a link is up.
pub(crate) fn way_named(word: &[u8]) -> Option<bool>
    ensures { result ≡ forms.way_named word.now }
{
    if word == "up".as_bytes() {
        return Some(true);
    }
    if word == "down".as_bytes() {
        return Some(false);
    }
    None
}

/// When a call fails.
pub(crate) fn moment_named(word: &[u8]) -> Option<Moment>
    ensures { result ≡ forms.moment_named word.now }
{
    if word == "before".as_bytes() {
        return Some(Moment::Before);
    }
    if word == "after".as_bytes() {
        return Some(Moment::After);
    }
    None
}

/// What a word of a few fixed ones says.
pub(crate) fn fixed<T>(read: Option<T>) -> Result<T, Stop<LineKind>>
    ensures { Gives result (or_fault read LineKind.Words) }
{
    match read {
        Some(said) => Ok(said),
        None => Err(Stop::Fault(LineKind::Words)),
    }
}
