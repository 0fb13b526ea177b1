//! One remote cluster as an agent has it: its exporter, the links to its store, the agent's reader of that
//! store and the view of what was read, and one job for each thing that a scenario does to it.
//!
//! `remote` has what is kept and its jobs, `declaring` what its exporter declares, `exporters` and `agent`
//! the talks that are held with its store over links, and `stores` the calls that are made straight on a
//! store. Each job is the same over any store.
//! It knows nothing of scenarios, reports or other remotes.
//! Its tests are those of `scenario_replay`.
#![tactic(auto)]

mod agent;
mod declaring;
mod exporters;
mod remote;
mod stores;

pub use agent::Agent;
pub use remote::Remote;
pub use stores::{compact, tick, write_raw};
