// The words of a line.
ghost use Rattle.std.specs.Prelude.{◌≡◌, ◌++◌, IfOk, OnOk, codes, flat_map};
ghost use Rattle.record_values.specs.Labels.{label_text};
ghost use Rattle.mesh_text.specs.Escapes.{escaped_byte};
ghost use Rattle.report_text.specs.Words as words;

use crate::escapes::{push_escaped, push_escaped_bytes, push_escaped_word};
use crate::head::Head;
use crate::lines::push_word;
use itoa::Buffer;
use key_paths::{Hop, KeyFault};
use mesh_base::{Bytes, Memory};
use mesh_text::{Ip, Text, escape, write_ip};
use record_check::Fault;
use record_values::{Backend, Label, ReadFault};
use shared_tables::Why;
use std::alloc::Global;

pub(crate) fn head_word(head: Head) -> &'static str
    ensures { result.now ≡ words.head_word head }
{
    match head {
        Head::Report => "report",
        Head::Probe => "probe",
    }
}

pub(crate) fn hop_word(hop: Hop) -> &'static str
    ensures { result.now ≡ words.hop_word hop }
{
    match hop {
        Hop::State => "direct",
        Hop::Cache => "cached",
    }
}

pub(crate) fn typed_address(alloc: Global, address: &(Text, Ip)) -> Result<Bytes, Memory>
    ensures { IfOk result (λ word. word ≡ words.typed_address address.now) }
{
    let mut word = Bytes::from_vec(escape(alloc, address.0.as_bytes())?);
    word.extend_from_slice("=".as_bytes())?;
    word.extend_from_slice(write_ip(alloc, address.1)?.as_slice())?;
    Ok(word)
}

/// Puts the label's text behind the line as a word has it.
#[tactic(auto, using(crate::proofs::LabelWords::label_parts))]
fn push_escaped_label(alloc: Global, line: &mut Bytes, label: &Label) -> Result<(), Memory>
    ensures { OnOk result (line.new ≡ line.old ++ flat_map escaped_byte (label_text label.now)) }
{
    push_escaped_bytes(alloc, line, label.source.as_slice())?;
    line.push(b':')?;
    push_escaped_bytes(alloc, line, label.key.as_slice())?;
    line.push(b'=')?;
    push_escaped_bytes(alloc, line, label.value.as_slice())?;
    line.push(b';')?;
    Ok(())
}

/// Puts a space and the word for the labels behind the line.
#[tactic(auto, using(crate::proofs::LabelWords::labels_none))]
pub(crate) fn push_labels(alloc: Global, line: &mut Bytes, labels: &[Label]) -> Result<(), Memory>
    ensures { OnOk result (line.new ≡ line.old ++ (codes " " ++ words.labels_word labels.now)) }
{
    if labels.is_empty() {
        return push_word(line, "-".as_bytes());
    }
    line.push(b' ')?;
    for label in labels {
        push_escaped_label(alloc, line, label)?;
    }
    Ok(())
}

pub(crate) fn address_or_none(alloc: Global, ip: Option<Ip>) -> Result<Vec<u8>, Memory>
    ensures { IfOk result (λ word. word.items ≡ words.address_or_none ip) }
{
    match ip {
        Some(ip) => write_ip(alloc, ip),
        None => Ok(Vec::from_slice(alloc, "-".as_bytes())?),
    }
}

/// Puts a space and the word for the text, or for none, behind the line.
pub(crate) fn push_text_or_none(
    alloc: Global,
    line: &mut Bytes,
    text: &Option<Text>,
) -> Result<(), Memory>
    ensures { OnOk result (line.new ≡ line.old ++ (codes " " ++ words.text_or_none text.now)) }
{
    match text {
        Some(text) => push_escaped_word(alloc, line, text.as_bytes()),
        None => push_word(line, "-".as_bytes()),
    }
}

pub(crate) fn backend_word(alloc: Global, backend: &Backend) -> Result<Bytes, Memory>
    ensures { IfOk result (λ word. word ≡ words.backend_word backend.now) }
{
    let mut word = Bytes::from_vec(write_ip(alloc, backend.ip)?);
    word.extend_from_slice(",".as_bytes())?;
    word.extend_from_slice(Buffer::new().format(backend.port).as_bytes())?;
    word.extend_from_slice(",".as_bytes())?;
    word.extend_from_slice(backend.protocol.as_bytes())?;
    word.extend_from_slice(",".as_bytes())?;
    push_escaped(alloc, &mut word, backend.port_name.as_bytes())?;
    Ok(word)
}

fn key_fault_word(fault: &KeyFault) -> &'static str
    ensures { result.now ≡ words.key_fault_word fault.now }
{
    match fault {
        KeyFault::UnknownPrefix => "unknown_prefix",
        KeyFault::Parts { .. } => "parts",
        KeyFault::Name { .. } => "key_name",
        KeyFault::Number { .. } => "key_number",
        KeyFault::Address { .. } => "key_address",
        KeyFault::Memory => "memory",
    }
}

fn read_fault_word(fault: &ReadFault) -> &'static str
    ensures { result.now ≡ words.read_fault_word fault.now }
{
    match fault {
        ReadFault::Json => "json",
        ReadFault::Shape => "shape",
        ReadFault::Missing { .. } => "missing",
        ReadFault::WrongType { .. } => "type",
        ReadFault::Range { .. } => "range",
        ReadFault::AddressText { .. } => "address_text",
        ReadFault::Mask => "mask",
        ReadFault::Label { .. } => "label",
        ReadFault::Memory => "memory",
    }
}

fn fault_word(fault: &Fault) -> &'static str
    ensures { result.now ≡ words.fault_word fault.now }
{
    match fault {
        Fault::Key(fault) => key_fault_word(fault),
        Fault::TooLarge { .. } => "too_large",
        Fault::Read(fault) => read_fault_word(fault),
        Fault::Cluster => "cluster",
        Fault::ClusterId => "cluster_id",
        Fault::Namespace => "namespace",
        Fault::Name => "name",
        Fault::AddressKey => "address_key",
        Fault::Limit { .. } => "limit",
    }
}

pub(crate) fn why_word(why: &Why) -> &'static str
    ensures { result.now ≡ words.why_word why.now }
{
    match why {
        Why::Fault(fault) => fault_word(fault),
        Why::IdLocal => "id_local",
        Why::IdTaken => "id_taken",
    }
}
