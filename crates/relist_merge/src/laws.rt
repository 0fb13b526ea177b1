// What holds of every view that takes the deliveries of a history.
ghost use Rattle.relist_merge.specs.Laws.{CaughtUpIsLive, CaughtUpWhereSynced, FollowsDeliveries, FollowsLonger, ListingIsFresh, RevisionIsFresh};

/// A new view that takes deliveries of a history, one after the other, follows it along their spans:
/// its entries are what was sighted, and its cursor and phase are those of the spans.
pub fn follows_deliveries()
    ensures { FollowsDeliveries }
{}

/// What a view followed it follows in every longer history, along the same spans.
pub fn follows_longer()
    ensures { FollowsLonger }
{}

/// A view is caught up exactly where its last span is open and was synced at some revision of it.
pub fn caught_up_where_synced()
    ensures { CaughtUpWhereSynced }
{}

/// A view that is caught up has exactly what is live at its cursor, and no entry is left from before
/// its last list.
pub fn caught_up_is_live()
    ensures { CaughtUpIsLive }
{}

/// Between a listing or a revision and the `finish_sync` behind it, what was listed or put since the
/// last list began is exactly what is live there. Of the other entries nothing is said in between.
pub fn fresh_is_live()
    ensures listing { ListingIsFresh }
    ensures revision { RevisionIsFresh }
{}
