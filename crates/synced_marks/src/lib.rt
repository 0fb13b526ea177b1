//! Whether a source is synced, and the keys that say so.
//!
//! `synced` has the test, `keys` the keys of the marks and the cut, and the value of a cut.
//! It knows nothing of stores or views.
//! Its tests are the module `marks` of the crate `record_tests`.
#![tactic(auto)]

mod keys;
mod synced;

pub use keys::{cut_key, cut_value, mark_key, read_cut};
pub use synced::is_synced;
