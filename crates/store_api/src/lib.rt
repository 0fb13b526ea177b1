//! What the control plane may expect of the outside: key-value stores with etcd's guarantees, and streams of bytes.
//!
//! `change` has the plain data of a store, `store` the traits with the meaning of each call, `laws`
//! what holds of every history, `streams` what is read and written, `in_memory` streams over byte
//! lists, and `adapters` streams over readers and writers.
//! It knows nothing of clusters, key paths or threads.
//! Its tests are the module `streams` of the crate `store_tests`.
#![tactic(auto)]

mod adapters;
mod change;
mod in_memory;
mod laws;
mod store;
mod streams;

pub use adapters::{ReaderSource, WriterSink};
pub use change::{Batch, Change, Delivery, Listing, Op, Pair, Range, Ranges, Revision, StoreFault};
pub use in_memory::{BytesSink, BytesSource};
pub use laws::{attached_are_live, given_later, readings_agree};
pub use mesh_base::{Bytes, Items, Memory};
pub use store::{MAX_OPS, Store, StoreAdmin};
pub use streams::{Failed, Sink, Source};
