ghost use Rattle.std.specs.Prelude.{◌≡◌, ◌≢◌, ◌<◌, ◌++◌, true, false, [], ◌∷◌, length, IfOk, IfErr, Some};
ghost use Rattle.turn_cell.specs.Logs.{Begins, AddsOwn};
ghost use Rattle.turn_cell.specs.Knowledge.{IsPassOf, IsAccounted, IsTraced, first_pass, after_split, split_off, after_join, after_enter, after_turn, found_lengths, HasAll};

use crate::kept::Kept;
use crate::seat_steps;
use crate::view::{Turns, View};
use atomic_table::{Refused, Seat, Table};
use std::alloc::{AllocFailed, Global};
use std::marker::Model;
use std::snapshot::Snapshot;
use std::sync::Wait;

/// One value that threads share by turns.
///
/// A pass enters, has the value for itself, and leaves it with entries of its own behind the log
/// that it found. Turns go in the order of their tickets, as in a ticket lock (Mellor-Crummey and
/// Scott, "Algorithms for scalable synchronization on shared-memory multiprocessors", 1991).
/// Nothing is promised of when a turn comes.
#[derive(Drop)]
pub struct TurnCell<T: Kept> {
    table: Table<Option<T>, View<T::Entry, T::Fixed>, Snapshot<T>, Turns<T>, Global>,
}

impl<T: Kept> Model for TurnCell<T> {
    ghost use Rattle.std.specs.Prelude.{◌≡◌, Some};
    ghost use Rattle.turn_cell.specs.Knowledge.{Cell};

    ghost Value = { Cell T.Entry T.Fixed };

    ghost view = { λ c. record { table = c.table.shared.table_id; opening = T.log c.table.shared.key.value; fixed = Some (T.fixed c.table.shared.key.value) } };

    ghost invariant = { λ c. (c.table.shared.table_id.words ≡ 3) × (c.table.shared.table_id.slots ≡ 1) };
}

/// The right to take turns at one cell, and what is known by it.
///
/// It may cross threads, and has no bytes but its number.
#[derive(Drop)]
pub struct Pass<T: Kept> {
    number: u32,
    seat: Seat<Option<T>, View<T::Entry, T::Fixed>>,
}

impl<T: Kept> Model for Pass<T> {
    ghost use Rattle.turn_cell.specs.Knowledge.{Knowledge};

    ghost Value = { Knowledge T.Entry T.Fixed };

    ghost use Rattle.turn_cell.specs.Seats.{knowledge, IsPass};

    ghost view = { λ p. knowledge p.number p.seat };

    ghost invariant = { λ p. IsPass p.number p.seat };
}

impl<T: Kept> Pass<T> {
    /// The number of this pass, by which its entries are owned. The pass that a cell comes with
    /// has the number 1.
    pub fn number(&self) -> u32
        ensures number { result ≡ self.now.number }
        ensures accounted { IsAccounted self.now }
        ensures traced { IsTraced self.now }
    {
        self.number
    }
}

fn as_slots<T>(alloc: Global, value: T) -> Result<Vec<Option<T>>, T>
    ensures ok { IfOk result (λ v. v.items ≡ Some value ∷ []) }
    ensures err { IfErr result (λ x. x ≡ value) }
{
    let mut slots = Vec::new(alloc);
    match slots.push(Some(value)) {
        Ok(()) => Ok(slots),
        Err(failed) => {
            slots.destroy_empty();
            let AllocFailed { value } = failed;
            match value {
                Some(x) => Err(x),
                None => unreachable!(),
            }
        }
    }
}

fn from_slots<T>(mut slots: Vec<Option<T>>) -> T
    requires { (x : T) × (slots.items ≡ Some x ∷ []) }
    ensures { slots.items ≡ Some result ∷ [] }
{
    match slots.pop() {
        Some(Some(x)) => {
            slots.destroy_empty();
            x
        }
        Some(None) => unreachable!(),
        None => unreachable!(),
    }
}

impl<T: Kept> TurnCell<T> {
    /// A cell of this value, and its first pass, which has seen the value's log whole.
    ///
    /// # Errors
    ///
    /// For want of memory the value comes back.
    pub fn new(alloc: Global, value: T) -> Result<(TurnCell<T>, Pass<T>), T>
        ensures cell { IfOk result (λ made. (made.0.opening ≡ T.log value) × (made.0.fixed ≡ Some (T.fixed value))) }
        ensures pass { IfOk result (λ made. made.1 ≡ first_pass made.0) }
        ensures accounted { IfOk result (λ made. IsAccounted made.1) }
        ensures traced { IfOk result (λ made. IsTraced made.1) }
        ensures err { IfErr result (λ back. back ≡ value) }
    {
        let key = Snapshot::of(&value);
        let slots = as_slots(alloc, value)?;
        match Table::new(alloc, &[0, 0, 2], slots, &key) {
            Ok((table, seat)) => {
                let cell = TurnCell { table };
                Ok((cell, Pass { number: 1, seat }))
            }
            Err(refused) => {
                let Refused { slots } = refused;
                Err(from_slots(slots))
            }
        }
    }

    /// A new pass with the next number. It has seen what this one has, and has no entries.
    ///
    /// Only the first pass of a cell splits, at most 2^32 - 2 times.
    pub fn split(&self, pass: &mut Pass<T>) -> Pass<T>
        requires own { IsPassOf self.now pass.old }
        requires outside { pass.old.inside ≡ false }
        requires first { pass.old.number ≡ 1 }
        requires room { pass.old.drawn < 4294967294 }
        ensures stays { pass.new ≡ after_split pass.old }
        ensures split_off { result ≡ split_off pass.old }
        ensures accounted { IsAccounted pass.new × IsAccounted result }
        ensures traced { IsTraced pass.new × IsTraced result }
    {
        let (number, seat) = seat_steps::split(&self.table.shared, &mut pass.seat);
        Pass { number, seat }
    }

    /// Takes in a pass that was split off, with its entries and all that it had taken in.
    pub fn join(&self, pass: &mut Pass<T>, other: Pass<T>)
        requires own { IsPassOf self.now pass.old × IsPassOf self.now other }
        requires outside { (pass.old.inside ≡ false) × (other.inside ≡ false) }
        requires later { other.number ≢ 1 }
        ensures joined { pass.new ≡ after_join pass.old other }
        ensures begins { Begins pass.old.seen pass.new.seen × Begins other.seen pass.new.seen }
        ensures accounted { IsAccounted pass.new }
        ensures traced { IsTraced pass.new }
    {
        let Pass { number: _, seat } = other;
        seat_steps::join(&self.table.shared, &mut pass.seat, seat);
    }

    /// Waits for a turn, and takes the value out.
    pub fn enter<R: Wait>(&self, rt: &R, pass: &mut Pass<T>) -> T
        requires own { IsPassOf self.now pass.old }
        requires outside { pass.old.inside ≡ false }
        ensures entered { pass.new ≡ after_enter pass.old (T.log result) }
        ensures begins { Begins pass.old.seen (T.log result) }
        ensures fixed { self.now.fixed ≡ Some (T.fixed result) }
        ensures accounted { IsAccounted pass.new }
        ensures traced { IsTraced pass.new }
    {
        seat_steps::enter(rt, &self.table.shared, &mut pass.seat)
    }

    /// Puts the value back, and ends the turn.
    pub fn leave(&self, pass: &mut Pass<T>, value: T)
        requires own { IsPassOf self.now pass.old }
        requires inside { pass.old.inside ≡ true }
        requires adds { AddsOwn pass.old.number pass.old.seen (T.log value) }
        requires fixed { self.now.fixed ≡ Some (T.fixed value) }
        ensures left { pass.new ≡ after_turn pass.old (T.log value) }
        ensures trace { found_lengths pass.new.trace ≡ found_lengths pass.old.trace ++ length pass.old.seen ∷ [] }
        ensures accounted { IsAccounted pass.new }
        ensures traced { IsTraced pass.new }
    {
        seat_steps::leave(&self.table.shared, &mut pass.seat, value);
    }

    /// The value, once every pass that was split off was taken in again.
    pub fn close(self, pass: Pass<T>) -> T
        requires own { IsPassOf self pass }
        requires outside { pass.inside ≡ false }
        requires first { pass.number ≡ 1 }
        requires all { length pass.gathered ≡ pass.drawn }
        ensures log { T.log result ≡ pass.seen }
        ensures fixed { self.fixed ≡ Some (T.fixed result) }
        ensures accounted { IsAccounted pass }
        ensures traced { IsTraced pass }
        ensures all { HasAll pass (T.log result) }
    {
        let TurnCell { table } = self;
        let Pass { number: _, seat } = pass;
        let mut closed = table.close_with(seat);
        let value = closed.take(0);
        closed.free();
        value.unwrap()
    }
}
