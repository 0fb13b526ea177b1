ghost use Rattle.std.specs.Prelude.{◌≡◌, ◌≤◌, ◌<◌, ◌+◌, ◌↔◌, length, is_some, IsTrue, OnErr, IfOk, IfSome, IfNone, OnSome, OnOk, Some};
ghost use Rattle.store_api.specs.Leases.{is_live_lease, advanced, deadline_of, due_leases, expired, granted, no_leases, renewed, revoked};
ghost use Rattle.lease_clock.specs.Kept.{at_time};
ghost use Rattle.lease_clock.specs.Lapses.{IsNumbered};

use crate::tournament::{
    KeptLease, add_due, comes_by, end_due, least_at, place_of, set_deadline, settle_all, settle_up,
};
use mesh_base::Memory;
use std::alloc::Global;
use std::collections::BTreeSet;
use std::marker::Model;

/// A clock in seconds, and the live leases.
///
/// Contracts see the lease table of a store: the clock, the live leases in order of their numbers,
/// and the number granted last. A clock or deadline that would pass 2 ^ 64 - 1 stays there.
#[derive(Debug, Drop)]
pub struct Leases {
    clock: u64,
    /// In order of their numbers, ended ones too until they are half of all.
    kept: Vec<KeptLease>,
    /// How many of the kept ones have ended.
    ended: usize,
    last: u64,
}

impl Model for Leases {
    ghost use Rattle.store_api.specs.Leases.{LeaseTable};

    ghost Value = { LeaseTable };

    ghost use Rattle.lease_clock.specs.Kept.{entries_of, leases_of};
    ghost use Rattle.lease_clock.specs.Least.{IsKept};

    ghost view = { λ a. record { now = a.clock; live = leases_of (entries_of a.kept.items); last = a.last } };

    ghost invariant = { λ a. IsKept a.kept.items a.last };
}

impl Leases {
    /// The clock at 0, and no lease.
    pub fn new(alloc: Global) -> Leases
        ensures { result ≡ no_leases }
    {
        Leases {
            clock: 0,
            kept: Vec::new(alloc),
            ended: 0,
            last: 0,
        }
    }

    /// The clock, in seconds.
    pub fn now(&self) -> u64
        ensures { result ≡ self.now.now }
    {
        self.clock
    }

    /// The live leases stand in order of their numbers, each from 1 to the last one granted.
    pub fn is_numbered(&self)
        ensures { IsNumbered 0 self.now.live self.now.last }
    {
        let _ = &self.kept;
    }

    /// Whether the lease is live. Logarithmic in the live leases.
    pub fn is_live(&self, lease: u64) -> bool
        ensures { result ≡ is_live_lease self.now.live lease }
    {
        place_of(&self.kept, lease).is_some()
    }

    /// The deadline of the lease, or `None` where it is not live. Logarithmic in the live leases;
    /// takes no memory.
    pub fn deadline(&self, lease: u64) -> Option<u64>
        ensures { result ≡ deadline_of lease self.now }
    {
        let place = place_of(&self.kept, lease)?;
        self.kept[place].deadline
    }

    /// Grants a lease of so many seconds, and answers its number (etcd: LeaseGrant).
    ///
    /// Numbers are granted from 1 upwards, and none twice. Once 2 ^ 64 - 1 is granted there is no
    /// further one, and the answer is `Memory`. Logarithmic in the live leases, but for the growth of
    /// a vector.
    pub fn grant(&mut self, seconds: u64) -> Result<u64, Memory>
        requires { 1 ≤ seconds }
        ensures granted { OnOk result (self.new ≡ granted seconds self.old) }
        ensures number { IfOk result (λ number. number ≡ self.old.last + 1) }
        ensures refused { OnErr result (self.new ≡ self.old) }
    {
        let Some(number) = self.last.checked_add(1) else {
            return Err(Memory);
        };
        let place = self.kept.len();
        self.kept.push(KeptLease {
            number,
            seconds,
            deadline: Some(self.clock.saturating_add(seconds)),
            least: None,
        })?;
        settle_up(&mut self.kept, place);
        self.last = number;
        Ok(number)
    }

    /// Moves the deadline to now plus the granted seconds, and answers it (etcd: LeaseKeepAlive).
    ///
    /// `None` where the lease is not live. Logarithmic in the live leases; takes no memory.
    pub fn renew(&mut self, lease: u64) -> Option<u64>
        ensures live { is_some result ≡ is_live_lease self.old.live lease }
        ensures deadline { IfSome result (λ deadline. deadline_of lease self.new ≡ Some deadline) }
        ensures renewed { OnSome result (self.new ≡ renewed lease self.old) }
        ensures refused { IfNone result (self.new ≡ self.old) }
    {
        let place = place_of(&self.kept, lease)?;
        let deadline = self.clock.saturating_add(self.kept[place].seconds);
        set_deadline(&mut self.kept, place, Some(deadline));
        Some(deadline)
    }

    /// Moves the clock. Constant; takes no memory.
    pub fn advance(&mut self, seconds: u64)
        ensures { self.new ≡ advanced seconds self.old }
    {
        self.clock = self.clock.saturating_add(seconds);
    }

    /// Whether a lease is due. Constant; takes no memory.
    pub fn has_due(&self) -> bool
        ensures { IsTrue result ↔ (0 < length (due_leases self.now)) }
    {
        self.has_due_at(self.clock)
    }

    /// Whether a lease will be due so many seconds from now. Constant; takes no memory.
    pub fn has_due_after(&self, seconds: u64) -> bool
        ensures { IsTrue result ↔ (0 < length (due_leases (advanced seconds self.now))) }
    {
        self.has_due_at(self.clock.saturating_add(seconds))
    }

    /// The live leases whose deadline is not after the time, by deadline and then number.
    ///
    /// Costs the due leases, each logarithmic in the live ones.
    pub fn due(&self, alloc: Global) -> Result<Vec<u64>, Memory>
        ensures { IfOk result (λ due. due.items ≡ due_leases self.now) }
    {
        self.due_at(alloc, self.clock)
    }

    /// The leases that will be due so many seconds from now, by deadline and then number.
    pub fn due_after(&self, alloc: Global, seconds: u64) -> Result<Vec<u64>, Memory>
        ensures { IfOk result (λ due. due.items ≡ due_leases (advanced seconds self.now)) }
    {
        self.due_at(alloc, self.clock.saturating_add(seconds))
    }

    /// Ends every lease that is due. Takes no memory. Taken over all calls it costs the leases that
    /// end, each logarithmic in the live ones: ended ones are dropped in one pass once they are more
    /// than half of all.
    pub fn expire(&mut self)
        ensures { self.new ≡ expired self.old }
    {
        let ended = end_due(&mut self.kept, self.clock);
        self.ended = self.ended.saturating_add(ended);
        self.drop_ended();
    }

    /// Ends the lease, and answers whether it was live (etcd: LeaseRevoke).
    ///
    /// Takes no memory, and costs as one lease that lapses, taken over all calls.
    pub fn revoke(&mut self, lease: u64) -> bool
        ensures live { result ≡ is_live_lease self.old.live lease }
        ensures revoked { self.new ≡ revoked lease self.old }
    {
        let Some(place) = place_of(&self.kept, lease) else {
            return false;
        };
        set_deadline(&mut self.kept, place, None);
        self.ended = self.ended.saturating_add(1);
        self.drop_ended();
        true
    }

    // Whether a lease is due at this time.
    fn has_due_at(&self, time: u64) -> bool
        ensures { IsTrue result ↔ (0 < length (due_leases (at_time time self.now))) }
    {
        comes_by(least_at(&self.kept, 0), time)
    }

    // The leases that are due at this time, by deadline and then number.
    fn due_at(&self, alloc: Global, time: u64) -> Result<Vec<u64>, Memory>
        ensures { IfOk result (λ due. due.items ≡ due_leases (at_time time self.now)) }
    {
        let mut ranks = BTreeSet::new(alloc);
        add_due(&self.kept, 0, time, &mut ranks)?;
        Ok(ranks.iter().map(|rank| rank.1).collect(alloc)?)
    }

    // Drops the ended leases once they are more than half of all.
    fn drop_ended(&mut self)
        ensures { self.new ≡ self.old }
    {
        if self.ended > self.kept.len() / 2 {
            self.kept.retain(|lease| lease.deadline.is_some());
            settle_all(&mut self.kept);
            self.ended = 0;
        }
    }
}
