//! The values under the keys of a cluster mesh, written so that they are read back.
//!
//! `trees` and `service_trees` build the JSON that is written, and `write` has its bytes. What a
//! value says and how it is read are named here too.
//! It knows nothing of keys, stores or which cluster a value belongs to.
//! Its tests are the module `values` of the crate `record_tests`.
#![tactic(auto)]

mod service_trees;
mod trees;
mod write;

pub use record_reading::{
    finds_first_unreadable_label, read_config, read_record, reads_label_texts,
};
pub use record_values::{
    AddressRecord, Backend, ClusterConfig, IdentityRecord, Label, Node, ReadFault, Record,
    ServiceRecord,
};
pub use write::{write_config, write_record};
