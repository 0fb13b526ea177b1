//! The steps of a turn, of a split and of a join, by the seat of a pass.
ghost use Rattle.std.specs.Prelude.{◌≡◌, ◌+◌, ◌<◌, ◌^◌, ℕ, true, false, [], ◌∷◌, length, None, Some};
ghost use Rattle.atomic_table.specs.Table.{rest};
ghost use Rattle.turn_cell.specs.Logs.{Begins};
ghost use Rattle.turn_cell.specs.Steps.{Out, Home, view_numbered, view_after_split, view_split_off, view_joined, view_heard, ViewAccounted};
ghost use Rattle.turn_cell.specs.Seats.{IsIdle, HasOut, IsSameSeat, IsWaiting, CameIn, MayLeave, Left};

use crate::kept::Kept;
use crate::steps::{Draw, Hear, Look, Number, Serve, SplitOff, TakeIn};
use crate::view::{Turns, View};
use atomic_table::{Seat, Shared};
use std::snapshot::Snapshot;
use std::sync::Wait;

/// The next ticket to be drawn.
const TICKET: usize = 0;
/// The ticket that is served.
const SERVED: usize = 1;
/// The next number of a pass.
const NUMBER: usize = 2;
/// A thread sleeps while the low 32 bits of a word stay: 2^32.
const LOW_BITS: u64 = 4_294_967_296;
/// The slot of the value.
const VALUE: usize = 0;

/// Moves the value out of the slot that the seat holds.
fn take_out<T: Kept>(
    shared: &Shared<Option<T>, View<T::Entry, T::Fixed>, Snapshot<T>, Turns<T>>,
    seat: &mut Seat<Option<T>, View<T::Entry, T::Fixed>>,
) -> T
    requires own { seat.old.table_id ≡ shared.now.table_id }
    requires full { (x : T) × (seat.old.me.1 ≡ (0, Some x) ∷ rest seat.old.me.1) }
    ensures own { IsSameSeat seat.old seat.new }
    ensures out { Out seat.old.me result seat.new.me }
{
    shared.exchange(seat, VALUE, None).unwrap()
}

/// Moves the value into the slot that the seat holds.
fn put_home<T: Kept>(
    shared: &Shared<Option<T>, View<T::Entry, T::Fixed>, Snapshot<T>, Turns<T>>,
    seat: &mut Seat<Option<T>, View<T::Entry, T::Fixed>>,
    value: T,
)
    requires own { seat.old.table_id ≡ shared.now.table_id }
    requires empty { seat.old.me.1 ≡ (0, None) ∷ rest seat.old.me.1 }
    ensures own { IsSameSeat seat.old seat.new }
    ensures home { Home seat.old.me value seat.new.me }
{
    match shared.exchange(seat, VALUE, Some(value)) {
        None => {}
        Some(_) => unreachable!(),
    }
}

/// Waits for its turn, and takes the value out. It sleeps until another ticket is served.
pub(crate) fn enter<T: Kept, R: Wait>(
    rt: &R,
    shared: &Shared<Option<T>, View<T::Entry, T::Fixed>, Snapshot<T>, Turns<T>>,
    seat: &mut Seat<Option<T>, View<T::Entry, T::Fixed>>,
) -> T
    requires own { (seat.old.table_id ≡ shared.now.table_id) × (shared.now.table_id.words ≡ 3) }
    requires idle { IsIdle seat.old.me }
    requires numbered { 0 < length seat.old.me.0.accounts }
    ensures own { IsSameSeat seat.old seat.new }
    ensures came_in { CameIn T.log T.fixed seat.old.me seat.new.me result }
{
    let ticket = shared.fetch_add::<Draw<T>>(seat, TICKET, 1);
    for _ in rt.forever() {
        let served = shared.load::<Look<T>>(seat, SERVED);
        if served == ticket {
            return take_out(shared, seat);
        }
        shared.park(rt, SERVED, (served % LOW_BITS) as u32);
    }
    unreachable!()
}

/// Puts the value back, serves the next ticket, and wakes those that wait.
pub(crate) fn leave<T: Kept>(
    shared: &Shared<Option<T>, View<T::Entry, T::Fixed>, Snapshot<T>, Turns<T>>,
    seat: &mut Seat<Option<T>, View<T::Entry, T::Fixed>>,
    value: T,
)
    requires own { (seat.old.table_id ≡ shared.now.table_id) × (shared.now.table_id.words ≡ 3) }
    requires inside { HasOut seat.old.me }
    requires turn { MayLeave T.log T.fixed seat.old.me value }
    ensures own { IsSameSeat seat.old seat.new }
    ensures left { Left T.log T.fixed seat.old.me seat.new.me value }
{
    put_home(shared, seat, value);
    shared.fetch_add::<Serve<T>>(seat, SERVED, 1);
    shared.wake_all(SERVED);
}

/// Draws a number, and splits off a seat that has it.
pub(crate) fn split<T: Kept>(
    shared: &Shared<Option<T>, View<T::Entry, T::Fixed>, Snapshot<T>, Turns<T>>,
    seat: &mut Seat<Option<T>, View<T::Entry, T::Fixed>>,
) -> (u32, Seat<Option<T>, View<T::Entry, T::Fixed>>)
    requires own { (seat.old.table_id ≡ shared.now.table_id) × (shared.now.table_id.words ≡ 3) }
    requires idle { IsIdle seat.old.me }
    requires first { seat.old.me.0.first ≡ true }
    requires room { seat.old.me.0.drawn < 4294967294 }
    ensures own { IsSameSeat seat.old seat.new × (result.1.table_id ≡ seat.old.table_id) }
    ensures number { result.0 ≡ seat.old.me.0.drawn + 2 }
    ensures stays { seat.new.me ≡ (view_after_split (view_numbered seat.old.me.0), []) }
    ensures split_off { result.1.me ≡ (view_split_off (view_numbered seat.old.me.0), []) }
    ensures accounted { ViewAccounted (view_numbered seat.old.me.0) }
{
    let number = shared.fetch_add::<Number<T>>(seat, NUMBER, 1);
    let split_off = shared.split_seat::<SplitOff>(seat);
    (number as u32, split_off)
}

/// Takes in the other seat, and hears that the longer log begins with both.
pub(crate) fn join<T: Kept>(
    shared: &Shared<Option<T>, View<T::Entry, T::Fixed>, Snapshot<T>, Turns<T>>,
    seat: &mut Seat<Option<T>, View<T::Entry, T::Fixed>>,
    other: Seat<Option<T>, View<T::Entry, T::Fixed>>,
)
    requires own { (seat.old.table_id ≡ shared.now.table_id) × (other.table_id ≡ shared.now.table_id) × (shared.now.table_id.words ≡ 3) }
    requires idle { IsIdle seat.old.me × IsIdle other.me }
    requires later { other.me.0.first ≡ false }
    ensures own { IsSameSeat seat.old seat.new }
    ensures joined { seat.new.me ≡ (view_heard (view_joined seat.old.me.0 other.me.0), []) }
    ensures begins { Begins seat.old.me.0.seen seat.new.me.0.seen × Begins other.me.0.seen seat.new.me.0.seen }
    ensures accounted { ViewAccounted seat.new.me.0 }
{
    shared.join_seat::<TakeIn>(seat, other);
    shared.load::<Hear<T>>(seat, TICKET);
}
