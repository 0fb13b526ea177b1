//! What every crate of the control plane names: lists that contracts see as lists, want of memory, and a count without bytes.
//!
//! `bytes` and `items` are the two list types of the public surface, `memory` is the answer for
//! want of memory, and `count` is a number that contracts alone see.
//! It knows nothing of keys, stores or clusters.
//! Its tests are the module `lists` of the crate `text_tests`.
#![tactic(auto)]

mod bytes;
mod count;
mod items;
mod memory;

pub use bytes::Bytes;
pub use count::Count;
pub use items::Items;
pub use memory::Memory;
