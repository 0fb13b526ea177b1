ghost use Rattle.record_reading.specs.Judgement.{Gives};
ghost use Rattle.record_reading.specs.Record.{record_of};

use crate::address::read_address_record;
use crate::identity::read_identity;
use crate::node::read_node;
use crate::service::read_service;
use mesh_text::Kind;
use record_values::{ReadFault, Record};
use std::alloc::Global;

/// Reads a record of the kind, with the first fault of its value where it has one.
pub fn read_record(alloc: Global, kind: Kind, bytes: &[u8]) -> Result<Record, ReadFault>
    ensures { Gives result (record_of kind bytes.now) }
{
    match kind {
        Kind::Nodes => Ok(Record::Node(read_node(alloc, bytes)?)),
        Kind::Services => Ok(Record::Service(read_service(alloc, bytes)?)),
        Kind::Identities => Ok(Record::Identity(read_identity(alloc, bytes)?)),
        Kind::Addresses => Ok(Record::Address(read_address_record(alloc, bytes)?)),
    }
}
