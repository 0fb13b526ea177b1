// A pair by its bytes alone.
ghost use Rattle.std.specs.Prelude.{◌≡◌, IfOk, IfErr, Ok, Err, Some};
ghost use Rattle.key_paths.specs.Keys.{kind_of};
ghost use Rattle.record_values.specs.declared.fault.ReadFault.TheVariants as read_fault;
ghost use Rattle.record_reading.specs.Record.{record_of};
ghost use Rattle.key_paths.specs.declared.fault.KeyFault.TheVariants as key_fault;
ghost use Rattle.record_check.specs.Faults.{IsNamed, size_row};
ghost use Rattle.record_check.specs.Reading.{record_key_of, reading_of, kind_of_record, IsOfKind};

use crate::fault::Fault;
use crate::limit::LONGEST_VALUE;
use key_paths::{Key, KeyFault, Kind, read_key};
use mesh_base::Memory;
use record_reading::read_record;
use record_values::{ReadFault, Record};
use std::alloc::Global;

/// The kind of record that a key is of, if it is one of a record.
fn kind_of(key: &Key) -> Option<Kind>
    ensures { result ≡ kind_of key.now }
{
    match key {
        Key::Node { .. } => Some(Kind::Nodes),
        Key::Service { .. } => Some(Kind::Services),
        Key::Identity { .. } => Some(Kind::Identities),
        Key::Address { .. } => Some(Kind::Addresses),
        Key::Config { .. } | Key::Synced { .. } | Key::Cut { .. } => None,
    }
}

/// The key of a record, with the record's kind.
#[tactic(auto, unfolding(crate::specs::Reading::record_key_of))]
fn read_record_key(alloc: Global, bytes: &[u8]) -> Result<Result<(Key, Kind), KeyFault>, Memory>
    ensures said { IfOk result (λ answer. answer ≡ record_key_of bytes.now) }
    ensures kind { IfOk result (λ answer. IfOk answer (λ pair. kind_of pair.0 ≡ Some pair.1)) }
    ensures named { IfOk result (λ answer. IfErr answer (λ why. why ≡ key_fault.Memory → ⊥)) }
{
    match read_key(alloc, bytes) {
        Err(KeyFault::Memory) => Err(Memory),
        Err(fault) => Ok(Err(fault)),
        Ok(key) => match kind_of(&key) {
            Some(kind) => Ok(Ok((key, kind))),
            None => Ok(Err(KeyFault::UnknownPrefix)),
        },
    }
}

/// The fault of a value that is longer than a value may be.
pub(crate) fn size_fault(value: &[u8]) -> Option<Fault>
    ensures { result ≡ size_row value.now }
{
    if value.len() > LONGEST_VALUE {
        return Some(Fault::TooLarge {
            len: value.len() as u64,
        });
    }
    None
}

/// The record of the kind that a value says.
#[tactic(auto, using(crate::proofs::RecordKinds::kind_of_read))]
fn read_value(alloc: Global, kind: Kind, value: &[u8]) -> Result<Result<Record, ReadFault>, Memory>
    ensures said { IfOk result (λ answer. answer ≡ record_of kind value.now) }
    ensures kind { IfOk result (λ answer. IfOk answer (λ found. kind_of_record found ≡ kind)) }
    ensures named { IfOk result (λ answer. IfErr answer (λ why. why ≡ read_fault.Memory → ⊥)) }
{
    match read_record(alloc, kind, value) {
        Err(ReadFault::Memory) => Err(Memory),
        Err(fault) => Ok(Err(fault)),
        Ok(record) => Ok(Ok(record)),
    }
}

/// Reads a pair by its bytes alone: the key and the record that it says, or the first of its
/// faults among `Key`, `TooLarge` and `Read`.
///
/// A key that is of no record (a config's, a mark's or a cut's) has none of the beginnings of a
/// record's key and is an unknown prefix here. `Memory` comes where memory was wanted.
#[tactic(auto, unfolding(crate::specs::Reading::reading_of))]
pub fn read_pair(
    alloc: Global,
    key: &[u8],
    value: &[u8],
) -> Result<Result<(Key, Record), Fault>, Memory>
    ensures said { IfOk result (λ reading. reading ≡ reading_of key.now value.now) }
    ensures kinds { IfOk result (λ reading. IfOk reading (λ pair. IsOfKind pair.0 pair.1)) }
    ensures named { IfOk result (λ reading. IfErr reading IsNamed) }
{
    let (key, kind) = match read_record_key(alloc, key)? {
        Ok(pair) => pair,
        Err(fault) => return Ok(Err(Fault::Key(fault))),
    };
    if let Some(fault) = size_fault(value) {
        return Ok(Err(fault));
    }
    match read_value(alloc, kind, value)? {
        Ok(record) => Ok(Ok((key, record))),
        Err(fault) => Ok(Err(Fault::Read(fault))),
    }
}
