//! A clock in seconds, and the leases that live by it.
//!
//! `leases` has the table of the live leases with its calls, `tournament` how their least deadline
//! is kept at hand, and `laws` what holds of the order in which leases lapse.
//! It knows nothing of keys, stores or threads.
//! Its tests are the module `leases` of the crate `store_tests`.
#![tactic(auto)]

mod laws;
mod leases;
mod tournament;

pub use laws::due_leases_in_order;
pub use leases::Leases;
