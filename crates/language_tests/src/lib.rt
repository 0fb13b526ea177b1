//! The tests of the language of scenarios, as texts of cases.
//!
//! `language` tests the crate `scenario_lang`: what lines say, and which fault a text has.
#![tactic(auto)]

#[cfg(test)]
mod language;
