//! A key-value store in memory, with etcd's guarantees and without faults.
//!
//! `live` has the pairs that are live, `attached` their leases, `listing` the pairs of some ranges,
//! `watch` what a watch delivers of the history, `lapses` what leases delete as they lapse, `entry`
//! what its log says of each call, `journal` the revisions of a journal, `store` the store with its
//! history and its log, which contracts alone see, and `laws` what holds of every history.
//! It knows nothing of clusters, key paths or threads.
//! Its tests are the module `stores` of the crate `store_tests`.
#![tactic(auto)]

mod attached;
mod entry;
mod journal;
mod lapses;
mod laws;
mod listing;
mod live;
mod store;
mod watch;

pub use entry::StoreEntry;
pub use laws::{commits_keep_form, lapses_keep_form};
pub use store::MemoryStore;
