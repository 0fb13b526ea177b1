//! The values under the keys of a cluster mesh, read by a profile of fields.
//!
//! `tree` is the step from bytes to JSON, `faults` has the faults that name a field, and `forms`
//! what a single member must be. `config`, `node`, `address` and `service` have the fields of one
//! kind of value each, `identity` the labels of an identity, `laws` what these are apart from how
//! they are read, and `read` picks the kind.
//! It knows nothing of keys, stores or which cluster a value belongs to.
//! Its tests are the module `values` of the crate `record_tests`.
#![tactic(auto)]

mod address;
mod config;
mod faults;
mod forms;
mod identity;
mod laws;
mod node;
mod read;
mod service;
mod tree;

pub use config::read_config;
pub use laws::{finds_first_unreadable_label, reads_label_texts};
pub use read::read_record;
