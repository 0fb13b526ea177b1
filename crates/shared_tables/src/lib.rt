//! The rows that the sources of a cluster mesh give together: admission, and the merge of their records.
//!
//! `change` is what the tables are told, `rows` what a report of them has, `steps` a count that
//! contracts alone see. `source` and `sources` keep what was told of one source, `tables`,
//! `telling` and `reporting` what was told of all. `standing` and `admission` say how a source
//! stands among all, `walks` goes over the pairs of all sources, and `merging` makes the rows of a
//! valid record, which `merged` holds. `least` finds the row of an address that several sources
//! have, and `laws` says that order means nothing.
//! It knows nothing of stores, readers or texts.
//! Its tests are the module `tables` of the crate `table_tests`.
#![tactic(auto)]

mod admission;
mod change;
mod laws;
mod least;
mod merged;
mod merging;
mod reporting;
mod rows;
mod source;
mod sources;
mod standing;
mod steps;
mod tables;
mod telling;
mod walks;

pub use change::{Reading, RecordChange, Row};
pub use laws::order_says_nothing;
pub use rows::{AddressRow, BackendRow, IdentityRow, NodeRow, RejectRow, Report, SourceRow, Why};
pub use steps::Steps;
pub use tables::Tables;
