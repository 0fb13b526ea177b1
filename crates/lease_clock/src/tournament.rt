//! The kept leases as a tournament of their deadlines: the first place tells the least of all.
ghost use Rattle.std.specs.Prelude.{◌≡◌, ◌≢◌, ◌<◌, ℕ, length, map, min, nat_le, OnOk};
ghost use Rattle.lease_clock.specs.Kept.{IsPlace, entries_of, entry_of, lease_of, when};
ghost use Rattle.lease_clock.specs.Lapses.{IsNumbered};
ghost use Rattle.lease_clock.specs.Least.{AddsDue, AddsRank, Ends, IsDuePlace, IsSettled, IsTournament, Moves, Settles, least_at};

use std::alloc::AllocError;
use std::collections::BTreeSet;

/// A lease that was granted.
#[derive(Clone, Copy, Debug)]
pub(crate) struct KeptLease {
    pub(crate) number: u64,
    /// The time to live that was granted.
    pub(crate) seconds: u64,
    /// `None` once the lease has ended.
    pub(crate) deadline: Option<u64>,
    /// The least deadline of this lease and of those under it, where those under the place `i` stand
    /// at `2 * i + 1` and `2 * i + 2` and under these; `None` where all of these have ended.
    pub(crate) least: Option<u64>,
}

/// The least deadline kept at the place.
pub(crate) fn least_at(kept: &[KeptLease], place: usize) -> Option<u64>
    ensures { when result ≡ least_at kept.now place }
{
    match kept.get(place) {
        Some(at) => at.least,
        None => None,
    }
}

/// Whether the deadline is not after the time.
pub(crate) fn comes_by(deadline: Option<u64>, time: u64) -> bool
    ensures { result ≡ nat_le (when deadline) time }
{
    match deadline {
        Some(deadline) => deadline <= time,
        None => false,
    }
}

// The earlier of two deadlines.
fn earlier(one: Option<u64>, other: Option<u64>) -> Option<u64>
    ensures { when result ≡ min (when one) (when other) }
{
    match (one, other) {
        (Some(one), Some(other)) => Some(one.min(other)),
        (Some(one), None) => Some(one),
        (None, other) => other,
    }
}

// Keeps at the place the least of its own deadline and of what the two places under it keep.
fn settle(kept: &mut [KeptLease], place: usize)
    requires { place < length kept.old }
    ensures { Settles kept.old place kept.new }
{
    let left = least_at(kept, 2 * place + 1);
    let right = least_at(kept, 2 * place + 2);
    let at = &mut kept[place];
    at.least = earlier(earlier(at.deadline, left), right);
}

/// Settles the place, and those that it stands under up to the first one.
pub(crate) fn settle_up(kept: &mut [KeptLease], from: usize)
    requires place { from < length kept.old }
    requires others { (place : ℕ) → place ≢ from → IsSettled kept.old place }
    ensures entries { entries_of kept.new ≡ entries_of kept.old }
    ensures settled { IsTournament kept.new }
{
    let mut place = from;
    settle(kept, place);
    while place > 0 {
        place = (place - 1) / 2;
        settle(kept, place);
    }
}

/// Settles each place, those under it first.
pub(crate) fn settle_all(kept: &mut [KeptLease])
    ensures entries { entries_of kept.new ≡ entries_of kept.old }
    ensures settled { IsTournament kept.new }
{
    for place in (0..kept.len()).rev() {
        settle(kept, place);
    }
}

/// Gives the lease at the place another deadline.
pub(crate) fn set_deadline(kept: &mut [KeptLease], place: usize, deadline: Option<u64>)
    requires place { place < length kept.old }
    requires settled { IsTournament kept.old }
    ensures { Moves kept.old place deadline kept.new }
{
    kept[place].deadline = deadline;
    settle_up(kept, place);
}

/// Ends the leases that are due at the time, and answers how many.
pub(crate) fn end_due(kept: &mut [KeptLease], time: u64) -> usize
    requires { IsTournament kept.old }
    ensures { Ends kept.old time kept.new }
{
    let mut ended = 0_usize;
    while let Some(place) = due_place(kept, time) {
        set_deadline(kept, place, None);
        ended = ended.saturating_add(1);
    }
    ended
}

// A place whose lease is due at the time: down from the first one, to where the least deadline is kept.
fn due_place(kept: &[KeptLease], time: u64) -> Option<usize>
    requires { IsTournament kept.now }
    ensures { IsDuePlace kept.now time result }
{
    if !comes_by(least_at(kept, 0), time) {
        return None;
    }
    let mut place = 0;
    while !comes_by(kept[place].deadline, time) {
        place = 2 * place + 1;
        if !comes_by(least_at(kept, place), time) {
            place += 1;
        }
    }
    Some(place)
}

// Adds the rank of the lease where it is due at the time.
fn add_rank(at: KeptLease, time: u64, ranks: &mut BTreeSet<(u64, u64)>) -> Result<(), AllocError>
    ensures { OnOk result (AddsRank (entry_of at) time ranks.old ranks.new) }
{
    let Some(deadline) = at.deadline else {
        return Ok(());
    };
    if deadline <= time {
        ranks.insert((deadline, at.number))?;
    }
    Ok(())
}

/// Adds the ranks of the leases at the place and under it that are due at the time.
pub(crate) fn add_due(
    kept: &[KeptLease],
    place: usize,
    time: u64,
    ranks: &mut BTreeSet<(u64, u64)>,
) -> Result<(), AllocError>
    requires { IsTournament kept.now }
    ensures { OnOk result (AddsDue kept.now place time ranks.old ranks.new) }
{
    if !comes_by(least_at(kept, place), time) {
        return Ok(());
    }
    add_rank(kept[place], time, ranks)?;
    add_due(kept, 2 * place + 1, time, ranks)?;
    add_due(kept, 2 * place + 2, time, ranks)
}

/// The place of the lease with the number, where it is live.
pub(crate) fn place_of(kept: &[KeptLease], number: u64) -> Option<usize>
    ensures { (last : ℕ) → IsNumbered 0 (map lease_of (entries_of kept.now)) last → IsPlace (entries_of kept.now) number result }
{
    let place = kept
        .binary_search_by_key(&number, |lease| lease.number)
        .ok()?;
    kept[place].deadline?;
    Some(place)
}
