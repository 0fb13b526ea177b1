//! The smallest texts of the mesh, read and written: addresses, numbers, names and escaped words.
//!
//! `kind` names the four kinds of record, `ip` is an address as a number, `text` is a string that
//! contracts see as its bytes. `numbers`, `names`, `escapes` and `addresses` read and write one
//! grammar each, and `laws` says what reading and writing have to do with each other.
//! It knows nothing of keys, records or stores.
//! Its tests are the module `texts` of the crate `text_tests`.
#![tactic(auto)]

mod addresses;
mod escapes;
mod ip;
mod kind;
mod laws;
mod names;
mod numbers;
mod text;

pub use addresses::{read_ip, write_ip};
pub use escapes::{escape, unescape};
pub use ip::Ip;
pub use kind::Kind;
pub use laws::{
    canonical_text_stays, escapes_visibly, faultless_are_cluster_names, faultless_are_part_names,
    finds_first_longest_run, no_text_of_both_families, orders_ipv4_first, orders_kinds_by_place,
    orders_names_by_bytes, reads_address_in_range, reads_decimal_alone, reads_written_address,
    unescapes_escaped,
};
pub use names::{ClusterName, NameFault, PartName};
pub use numbers::read_number;
pub use text::Text;
