//! A reader of a store: it lists its ranges, and then watches what changes in them.
//!
//! `turns` has what one turn answers and hands on, `reader` the reader with its cursor.
//! It knows nothing of what keys and values mean, nor of what became of what it handed on.
//! Its tests are the module `readers` of the crate `store_tests`.
#![tactic(auto)]

mod reader;
mod turns;

pub use reader::Reflector;
pub use turns::{Turn, delivery};
