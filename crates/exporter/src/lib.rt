//! A cluster's records in its store, under a lease.
//!
//! The exporter has a queue of what waits to be written. A key waits once and keeps its place. What
//! an item stands for is looked up when its turn comes, so the last declared value counts. An item
//! leaves the queue when its commit was made, and stays in front where it was refused. The mark of a
//! kind is written behind all records that were declared at the start.
//!
//! What is in the store after an exporter restarted in the middle? With the records a, b and c:
//!
//! ```text
//! start, export 3       config, a and b under lease 1; c and the marks wait
//! stop, withdraw b      the store is as before
//! start, export 2       config and a under lease 2, b still under lease 1; c and the marks wait
//! export 5              config, a, c and the marks under lease 2, b still under lease 1
//! lease 1 lapses        b is deleted, and all that is under lease 2 lives on
//! ```
//!
//! So a record that was withdrawn while the exporter was stopped, or whose deletion still waited at
//! a start, lives on until the old lease lapses. Nothing but that lapse deletes it.
//!
//! `exporter` has the calls, `queue` what waits, `item` what an item is, `fault` why a call was
//! refused, and `laws` what holds of every run.
//! It knows nothing of links, readers or caches.
//! Its tests are the module `exports` of the crate `store_tests`.
#![tactic(auto)]

mod declared;
mod exporter;
mod fault;
mod item;
mod laws;
mod queue;
mod texts;

pub use exporter::{Exported, Exporter};
pub use fault::ExportFault;
pub use laws::{exports_exactly, marks_come_last};
