//! The tests of the stores and of what stands before them, as lines of text that are asked and answered.
//!
//! `script` makes the calls of a store that lines ask for. `streams` tests streams over byte lists,
//! `leases` the clock with its leases, `stores` the store in memory, `links` a link to a store,
//! `readers` a reader of a store, `exports` the exporter of a cluster's records, and `turns` a value
//! that threads share by turns.
#![tactic(auto)]

#[cfg(test)]
mod exports;
#[cfg(test)]
mod leases;
#[cfg(test)]
mod links;
#[cfg(test)]
mod readers;
#[cfg(test)]
mod script;
#[cfg(test)]
mod stores;
#[cfg(test)]
mod streams;
#[cfg(test)]
mod turns;
