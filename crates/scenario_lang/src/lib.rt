//! The language of scenarios: its grammar, and its reader.
//!
//! `scenario` is what a text says, `kinds` why a text is no scenario. `verb` has the first words of
//! lines and the order of lines, `splitting` the lines of a text and the words of a line, `words`
//! reads a word of each form, `fitting` says whether a line has the words of its form at all,
//! `entries` and `actions` read the line of each first word, `draft` keeps what was read so far,
//! and `lines` reads a text.
//! It knows nothing of stores, of what an action does or of reports.
//! Its tests are the module `language` of the crate `language_tests`.
#![tactic(auto)]

mod actions;
mod draft;
mod entries;
mod entry;
mod fitting;
mod kinds;
mod line;
mod lines;
mod remotes;
mod scenario;
mod splitting;
mod stops;
mod verb;
mod words;

pub use kinds::{LineFault, LineKind, Mode};
pub use lines::read_scenario;
pub use scenario::{
    Action, Cluster, Count, LinkName, Moment, Pod, RawWrite, Remote, Scenario, StoreOf, Withdrawn,
};
