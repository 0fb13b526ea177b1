ghost use Rattle.std.specs.Prelude.{◌≡◌};
ghost use Rattle.reflector.specs.Turns.{delivery_of};

use store_api::{Batch, Delivery, Listing};

/// What one turn of a reader answers.
#[derive(Debug, Drop)]
pub enum Turn {
    /// The reader waited, and these are all pairs of its ranges.
    Listed(Listing),
    /// What the next revisions changed in its ranges.
    Pulled(Batch),
    /// The revision behind its cursor is compacted, so changes would be missed; history is there
    /// above this revision. The reader waits to list again.
    Compacted { compacted: u64 },
    /// The connection failed. The reader waits to list again.
    Lost,
    /// Its cursor is the store's revision.
    NothingNew,
}

/// What the turn hands on: its listing or its batch, `Delivery::Lost` where what follows is no
/// longer without a gap, and `None` exactly where there was nothing new.
pub fn delivery(turn: Turn) -> Option<Delivery>
    ensures { result ≡ delivery_of turn }
{
    match turn {
        Turn::Listed(listing) => Some(Delivery::Listing(listing)),
        Turn::Pulled(batch) => Some(Delivery::Batch(batch)),
        Turn::Compacted { compacted: _ } | Turn::Lost => Some(Delivery::Lost),
        Turn::NothingNew => None,
    }
}
