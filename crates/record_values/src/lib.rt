//! What the values under the keys of a cluster mesh say, as plain types.
//!
//! `records` has what a value says, `protocol` what the name of a protocol is, and `fault` why a
//! value is refused.
//! It knows nothing of keys or stores, nor how a value is read or written.
//! Its tests are the module `values` of the crate `record_tests`.
#![tactic(auto)]

mod fault;
mod protocol;
mod records;

pub use fault::ReadFault;
pub use protocol::is_protocol;
pub use records::{
    AddressRecord, Backend, ClusterConfig, IdentityRecord, Label, Node, Record, ServiceRecord,
};
