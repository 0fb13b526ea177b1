//! Tests of the crate `scenario_replay`, but for the scenarios, which the program `scenario_cases` runs.
//!
//! `replays` has replays by other words, of texts of the greatest lengths, over streams that fail or give
//! and take little, and over stores that hold records already.
#![tactic(auto)]

#[cfg(test)]
mod replays;
