ghost use Rattle.std.specs.Prelude.{◌≡◌, IfOk, option_map};
ghost use Rattle.record_values.specs.Labels.{IsWithout, has_byte, label_of, split_once};
ghost use Rattle.record_reading.specs.Judgement.{Gives};
ghost use Rattle.record_reading.specs.Identity.{identity_of};

use mesh_base::{Bytes, Items, Memory};
use record_values::{IdentityRecord, Label, ReadFault};
use std::alloc::Global;

/// What stands before the first such byte, and what behind it.
fn cut_once(bytes: &[u8], byte: u8) -> Option<(&[u8], &[u8])>
    ensures { option_map (λ p. (p.0.now, p.1.now)) result ≡ split_once byte bytes.now }
{
    for (i, b) in bytes.iter().enumerate() {
        if *b == byte {
            return Some((&bytes[..i], &bytes[i + 1..]));
        }
    }
    None
}

fn holds_byte(bytes: &[u8], byte: u8) -> bool
    ensures { result ≡ has_byte byte bytes.now }
{
    for b in bytes {
        if *b == byte {
            return true;
        }
    }
    false
}

/// The label whose text, without its `;`, this is.
#[tactic(auto, unfolding(record_values::specs::Labels::label_of))]
fn read_label(alloc: Global, text: &[u8]) -> Result<Option<Label>, Memory>
    requires { IsWithout 59 text.now }
    ensures { IfOk result (λ o. o ≡ label_of text.now) }
{
    let Some((source, rest)) = cut_once(text, b':') else {
        return Ok(None);
    };
    let Some((key, value)) = cut_once(rest, b'=') else {
        return Ok(None);
    };
    if source.is_empty() || key.is_empty() {
        return Ok(None);
    }
    if holds_byte(source, b'=') {
        return Ok(None);
    }
    Ok(Some(Label {
        source: Bytes::from_slice(alloc, source)?,
        key: Bytes::from_slice(alloc, key)?,
        value: Bytes::from_slice(alloc, value)?,
    }))
}

/// Reads the labels of an identity, with the place where the first of them begins that is none.
#[tactic(auto, unfolding(crate::specs::Identity::identity_of))]
pub(crate) fn read_identity(alloc: Global, bytes: &[u8]) -> Result<IdentityRecord, ReadFault>
    ensures { Gives result (identity_of bytes.now) }
{
    let mut labels = Vec::new(alloc);
    let mut at = 0;
    while at < bytes.len() {
        let Some((text, _)) = cut_once(&bytes[at..], b';') else {
            return Err(ReadFault::Label { at: at as u64 });
        };
        let Some(label) = read_label(alloc, text)? else {
            return Err(ReadFault::Label { at: at as u64 });
        };
        labels.push(label)?;
        at += text.len() + 1;
    }
    Ok(IdentityRecord {
        labels: Items::from_vec(labels),
    })
}
