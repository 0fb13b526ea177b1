// The line of a row.
ghost use Rattle.std.specs.Prelude.{◌≡◌, ◌++◌, IfOk, OnOk, map};
ghost use Rattle.report_text.specs.Lines.{rest_of_line};
ghost use Rattle.report_text.specs.Text as text;
ghost use Rattle.report_text.specs.Words.{revision_words, typed_address};

use crate::escapes::push_escaped_word;
use crate::lines::{line_of, push_number, push_word};
use crate::words::{
    address_or_none, backend_word, hop_word, push_labels, push_text_or_none, typed_address,
    why_word,
};
use mesh_base::{Bytes, Memory};
use mesh_text::{Ip, Text, write_ip};
use shared_tables::{AddressRow, BackendRow, IdentityRow, NodeRow, RejectRow, SourceRow};
use std::alloc::Global;

fn push_revision(line: &mut Bytes, held: bool, revision: u64) -> Result<(), Memory>
    ensures { OnOk result (line.new ≡ line.old ++ rest_of_line (revision_words held revision)) }
{
    if held {
        push_word(line, "held".as_bytes())?;
    }
    push_number(line, revision)?;
    line.extend_from_slice("\n".as_bytes())?;
    Ok(())
}

pub(crate) fn source_line(alloc: Global, row: &SourceRow) -> Result<Bytes, Memory>
    ensures { IfOk result (λ line. line ≡ text.source_line row.now) }
{
    let mut line = line_of(alloc, "source")?;
    push_word(&mut line, row.cluster.as_bytes())?;
    push_word(&mut line, hop_word(row.hop).as_bytes())?;
    push_revision(&mut line, row.held, row.revision)?;
    Ok(line)
}

fn push_addresses(alloc: Global, line: &mut Bytes, addresses: &[(Text, Ip)]) -> Result<(), Memory>
    ensures { OnOk result (line.new ≡ line.old ++ rest_of_line (map typed_address addresses.now)) }
{
    for address in addresses {
        push_word(line, typed_address(alloc, address)?.as_slice())?;
    }
    line.extend_from_slice("\n".as_bytes())?;
    Ok(())
}

pub(crate) fn node_line(alloc: Global, row: &NodeRow) -> Result<Bytes, Memory>
    ensures { IfOk result (λ line. line ≡ text.node_line row.now) }
{
    let mut line = line_of(alloc, "node")?;
    push_word(&mut line, row.cluster.as_bytes())?;
    push_word(&mut line, row.name.as_bytes())?;
    push_addresses(alloc, &mut line, row.addresses.as_slice())?;
    Ok(line)
}

pub(crate) fn identity_line(alloc: Global, row: &IdentityRow) -> Result<Bytes, Memory>
    ensures { IfOk result (λ line. line ≡ text.identity_line row.now) }
{
    let mut line = line_of(alloc, "identity")?;
    push_word(&mut line, row.cluster.as_bytes())?;
    push_number(&mut line, u64::from(row.number))?;
    push_labels(alloc, &mut line, row.labels.as_slice())?;
    line.extend_from_slice("\n".as_bytes())?;
    Ok(line)
}

pub(crate) fn address_line(alloc: Global, row: &AddressRow) -> Result<Bytes, Memory>
    ensures { IfOk result (λ line. line ≡ text.address_line row.now) }
{
    let mut line = line_of(alloc, "address")?;
    push_word(&mut line, write_ip(alloc, row.ip)?.as_slice())?;
    push_word(&mut line, row.cluster.as_bytes())?;
    push_number(&mut line, u64::from(row.identity))?;
    push_word(&mut line, address_or_none(alloc, row.host)?.as_slice())?;
    push_text_or_none(alloc, &mut line, &row.namespace)?;
    push_text_or_none(alloc, &mut line, &row.pod)?;
    line.extend_from_slice("\n".as_bytes())?;
    Ok(line)
}

fn offer_line(alloc: Global, kind: &str, row: &BackendRow) -> Result<Bytes, Memory>
    ensures { IfOk result (λ line. line ≡ text.offer_line kind.now row.now) }
{
    let mut line = line_of(alloc, kind)?;
    push_word(&mut line, row.namespace.as_bytes())?;
    push_word(&mut line, row.name.as_bytes())?;
    push_word(&mut line, row.cluster.as_bytes())?;
    push_word(&mut line, backend_word(alloc, &row.backend)?.as_slice())?;
    line.extend_from_slice("\n".as_bytes())?;
    Ok(line)
}

pub(crate) fn backend_line(alloc: Global, row: &BackendRow) -> Result<Bytes, Memory>
    ensures { IfOk result (λ line. line ≡ text.backend_line row.now) }
{
    offer_line(alloc, "backend", row)
}

pub(crate) fn chosen_line(alloc: Global, row: &BackendRow) -> Result<Bytes, Memory>
    ensures { IfOk result (λ line. line ≡ text.chosen_line row.now) }
{
    offer_line(alloc, "chosen", row)
}

pub(crate) fn reject_line(alloc: Global, row: &RejectRow) -> Result<Bytes, Memory>
    ensures { IfOk result (λ line. line ≡ text.reject_line row.now) }
{
    let mut line = line_of(alloc, "reject")?;
    push_word(&mut line, row.cluster.as_bytes())?;
    push_escaped_word(alloc, &mut line, row.key.as_slice())?;
    push_word(&mut line, why_word(&row.why).as_bytes())?;
    line.extend_from_slice("\n".as_bytes())?;
    Ok(line)
}
