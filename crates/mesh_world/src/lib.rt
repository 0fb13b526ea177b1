//! The world that a scenario goes through, and what becomes of it by the outcomes of calls on stores.
//!
//! It has definitions and laws alone, and no code that runs. In `specs/`, in the order in which they
//! build on each other: `World` is what there is, the stores' contents and what exporters, links and
//! readers keep; `Asking` one call on a store by its outcome, and a talk of several; `Records` the keys
//! and values that lines declare; `Sources` a report; `Actions` what each line does; `Goes` that stores
//! and calls went a world's way; `Runs` whole scenarios; and `Ways` talks over a link and what is behind.
//! `laws` says what holds of every turn.
//! It knows nothing of the program's own state, nor of how stores and links are kept.
#![tactic(auto)]

mod laws;

pub use laws::turns_end_whole;
