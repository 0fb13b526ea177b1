//! A link to a store that fails the calls that are planned to fail.
//!
//! `state` has what a link keeps: its plan, whether it is down, and how many calls it failed;
//! `link` the link before a store.
//! It knows nothing of keys and values, nor of which store is behind it.
//! Its tests are the module `links` of the crate `store_tests`.
#![tactic(auto)]

mod link;
mod state;

pub use link::FlakyLink;
pub use state::{LinkState, When};
