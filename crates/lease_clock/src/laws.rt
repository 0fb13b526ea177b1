ghost use Rattle.lease_clock.specs.Lapses.{DueInOrder};

/// In every lease table the due leases stand in strict order of deadline and then number, and are
/// those whose deadline is not after the clock.
pub fn due_leases_in_order()
    ensures { DueInOrder }
{}
