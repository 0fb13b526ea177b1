//! The tests of what is sighted, merged and reported.
//!
//! `views` tests what a reader has sighted of a store, `tables` what all sources give together, and
//! `reports` the text of a report. `words` reads the words of their cases.
#![tactic(auto)]

#[cfg(test)]
mod reports;
#[cfg(test)]
mod tables;
#[cfg(test)]
mod views;
#[cfg(test)]
mod words;
