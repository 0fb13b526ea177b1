//! The first fault of a pair of a cluster's records, or the record that it says.
//!
//! `limit` has the numbers that a mesh is limited to, `fault` what can be wrong with a pair. `read`
//! takes a pair apart by its bytes alone, `judge` holds what was read against the cluster that it
//! came from, `check` does both, and `config` does the same for a cluster's config. `laws` says
//! what these have to do with each other.
//! It knows nothing of stores, readers or tables.
//! Its tests are the module `checks` of the crate `record_tests`.
#![tactic(auto)]

mod checking;
mod configs;
mod fault;
mod judging;
mod laws;
mod limit;
mod reading;

pub use checking::check;
pub use configs::check_config;
pub use fault::Fault;
pub use judging::judge;
pub use laws::{
    checks_by_judging, checks_configs_first_fault, checks_first_fault, reads_first_fault,
    reads_keys_in_ranges, reserved_fit_every_cluster,
};
pub use limit::Limit;
pub use reading::read_pair;
