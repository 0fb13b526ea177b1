//! What a reader has sighted of a cluster's store: a list and then a watch, over lost connections and
//! restarted exporters.
//!
//! Being unlisted counts only in a span that was synced at some revision.
//!
//! `delivery` is what a reader is handed, with what each pair says, `reading` what a pair says, and
//! `reads` reads a delivery. `phase` is how a view stands to its store. `view` is the view: its
//! calls, and what it tells of its entries. `rows` keeps the entries, the fresh ones first,
//! `sync_keys` the keys by which pairs count as synced, and `counting` says how many rows a delivery
//! needs. `telling` makes of pairs what is reported of records, and `laws` says what holds of every
//! view that takes the deliveries of a history. It knows nothing of stores or of other sources.
//! Its tests are the module `views` of the crate `table_tests`.
#![tactic(auto)]

mod counting;
mod delivery;
mod laws;
mod phase;
mod reading;
mod reads;
mod rows;
mod sync_keys;
mod telling;
mod view;

pub use delivery::{ReadBatch, ReadChange, ReadDelivery, ReadListing, ReadPair, ReadRevision};
pub use laws::{
    caught_up_is_live, caught_up_where_synced, follows_deliveries, follows_longer, fresh_is_live,
};
pub use phase::Phase;
pub use reading::Reading;
pub use reads::read_delivery;
pub use telling::ReadRecord;
pub use view::View;
