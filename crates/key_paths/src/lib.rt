//! The keys of a cluster mesh: their grammar, the ranges that a reader follows, and the mapping between the two hops.
//!
//! `hop` and `key` are what a key says, `fault` why bytes are none, `front` the fixed beginnings and
//! `words` the words of a kind's path. `parts` splits a key and reads single parts, `read` and
//! `write` are a key from bytes and back, `paths` has the ranges of a cluster, and `mapping` its
//! keys at the other hop. `laws` says what these have to do with each other.
//! It knows nothing of values, and a store is for it a list of ranges.
//! Its tests are the module `keys` of the crate `text_tests`.
#![tactic(auto)]

mod fault;
mod front;
mod hop;
mod key;
mod laws;
mod mapping;
mod parts;
mod paths;
mod read;
mod words;
mod write;

pub use fault::KeyFault;
pub use hop::Hop;
pub use key::Key;
pub use laws::{
    exchanges_fronts, has_kind_of_range, maps_record_ranges, moves_back, no_beginning_of_another,
    owned_by_one_cluster, reads_images_alike, reads_keys_alone, reads_written_keys, spells_keys,
};
pub use mapping::{to_cache, to_state};
pub use mesh_text::Kind;
pub use paths::{is_record_key, ranges};
pub use read::read_key;
pub use write::write_key;
