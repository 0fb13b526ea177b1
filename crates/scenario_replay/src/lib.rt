//! Replays scenarios of a mesh of clusters over stores, and writes reports of what the agent has sighted.
//!
//! `status` says how a replay ends. `streams`, `input` and `telling` read a scenario and tell why a
//! text is none. `replay` has what is kept of all remotes, `acting` what each line does, `sighting` and
//! `reports` a report. `fresh` has the stores that a replay may begin with, and `top` is the whole replay.
//! It knows nothing of files, processes or standard input.
//! Its tests are the module `replays` of the crate `replay_tests`, and the scenarios of the program
//! `scenario_cases`.
#![tactic(auto)]

mod acting;
mod fresh;
mod input;
mod replay;
mod reports;
mod sighting;
mod status;
mod streams;
mod telling;
mod top;

pub use fresh::fresh_stores;
pub use status::Status;
pub use top::mesh_steps;
