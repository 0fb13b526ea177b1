ghost use Rattle.std.specs.Prelude.{◌≡◌, ◌≢◌, ◌≤◌, ◌<◌, ◌^◌, ◌-◌, ℕ, List, true, false, IfOk, OnOk, OnErr, Ok, Err};
ghost use Rattle.store_api.specs.Advance.{closed, turned};
ghost use Rattle.store_api.specs.Contents.{unchanged};
ghost use Rattle.store_api.specs.Given.{IsGivenIf};
ghost use Rattle.store_api.specs.History.{revision};
ghost use Rattle.store_api.specs.Meaning.{Keeps, Makes, MayMake};
ghost use Rattle.store_api.specs.Spans.{AreSpans, Record, unread};
ghost use Rattle.store_api.specs.Calls.{Crosses, Talked, on_store};
ghost use Rattle.reflector.specs.Crossing.{asked, end_of};
ghost use Rattle.reflector.specs.Reader.{Stands};
ghost use Rattle.reflector.specs.Talks.{turn_talk};
ghost use Rattle.reflector.specs.Turns.{IsAnswer, after_turn, delivery_of, followed};

use crate::turns::Turn;
use mesh_base::Memory;
use std::alloc::Global;
use std::marker::Model;
use store_api::{Ranges, Store, StoreFault};

/// A reader of some ranges of a store.
///
/// It waits at first, and a waiting reader lists its ranges. From there on it pulls what changes
/// behind its cursor, so that no change is missed. After a lost connection or a compaction in front
/// of it it waits again, and keeps its last cursor.
#[derive(Debug, Drop)]
pub struct Reflector {
    ranges: Ranges,
    cursor: u64,
    waiting: bool,
}

impl Model for Reflector {
    ghost use Rattle.reflector.specs.Reader.{Reader};
    ghost use Rattle.std.specs.Prelude.{◌<◌, ◌^◌, ◌-◌};

    ghost Value = { Reader };

    ghost view = { λ r. record { ranges = r.ranges.items; cursor = r.cursor; is_waiting = r.waiting } };

    ghost invariant = { λ r. r.cursor < 2 ^ 64 - 1 };
}

impl Reflector {
    /// A reader of these ranges that has seen nothing.
    pub fn new(ranges: Ranges) -> Reflector
        ensures reader { result ≡ record { ranges = ranges.items; cursor = 0; is_waiting = true } }
        ensures stands { Stands result unread }
    {
        Reflector {
            ranges,
            cursor: 0,
            waiting: true,
        }
    }

    /// Whether the next turn lists.
    pub fn is_waiting(&self) -> bool
        ensures { result ≡ self.now.is_waiting }
    {
        self.waiting
    }

    /// The last revision that the ranges were followed to, or 0 for a reader that has never listed.
    pub fn cursor(&self) -> u64
        ensures { result ≡ self.now.cursor }
    {
        self.cursor
    }

    /// The connection was lost: the next turn lists. Takes no memory.
    pub fn lose(&mut self)
        ensures reader { self.new ≡ record self.old { is_waiting = true } }
        ensures stands { (r : Record) → Stands self.old r → Stands self.new (closed r) }
    {
        self.waiting = true;
    }

    /// One call of the store: a list where the reader waits, and else a pull of at most `most`
    /// revisions from the one behind its cursor.
    ///
    /// `Memory` leaves the reader as it was; that is the answer too at a store that has reached
    /// revision 2 ^ 64 - 1, behind which no revision can be named. Constant beside the store's call.
    pub fn turn<S: Store>(
        &mut self,
        alloc: Global,
        store: &mut S,
        most: u64,
    ) -> Result<Turn, Memory>
        requires some { 1 ≤ most }
        requires there { self.old.is_waiting ≡ false → self.old.cursor ≤ revision (S.meaning store.old).contents.history }

        ensures answer { IfOk result (IsAnswer most (S.meaning store.new).contents self.old) }
        ensures reader { IfOk result (λ turn. self.new ≡ after_turn turn self.old) }
        ensures memory { OnErr result (self.new ≡ self.old) }

        // A reader that does not wait is never ahead of the store, and after a turn without a limit
        // it is not behind what the turn found either.
        ensures within { self.new.is_waiting ≡ false → self.new.cursor ≤ revision (S.meaning store.new).contents.history }
        ensures all { most ≡ 2 ^ 64 - 1 → OnOk result (self.new.is_waiting ≡ false → self.new.cursor ≡ revision (S.meaning store.new).contents.history) }

        // The record of what the reader followed goes on by what was handed on, and that is what the
        // history has for a reader with that record.
        ensures stands { (r : Record) → Stands self.old r → IfOk result (λ turn. Stands self.new (followed turn r)) }
        ensures reads { (r : Record) → Stands self.old r → IfOk result (λ turn. IsGivenIf self.old.ranges (S.meaning store.new).contents.history r (delivery_of turn)) }

        // Its spans go on in order. And where nobody took what was handed on, a reader that then loses
        // its connection stands for the record that it had, closed.
        ensures in_order { (r : Record) → Stands self.old r → AreSpans (revision (S.meaning store.old).contents.history) r.spans → IfOk result (λ turn. AreSpans (revision (S.meaning store.new).contents.history) (followed turn r).spans) }
        ensures untaken { (r : Record) → Stands self.old r → AreSpans (revision (S.meaning store.old).contents.history) r.spans → OnOk result (Stands (record self.new { is_waiting = true }) (closed r)) }

        // One call, without an effect: a list where the reader waited, else a pull from behind its
        // cursor.
        ensures call { IfOk result (λ turn. Crosses S.meaning S.crossed (asked self.old) (end_of turn) store.old store.new) }
        ensures refused { OnErr result (Makes (S.meaning store.old) (S.meaning store.new) unchanged) }

        // So the turn is the talk of the record, which goes on by what was heard of that call: by the
        // rules on numbers alone, or it is closed where the call was lost.
        ensures talk { (r : Record) → Stands self.old r → IfOk result (λ turn. Talked (on_store S.meaning S.crossed) (turn_talk most r) store.old store.new (followed turn r)) }

        ensures keeps { Keeps (S.meaning store.old) (S.meaning store.new) }
        ensures named { S.name store.new ≡ S.name store.old }
        ensures loans { S.loans store.new ≡ S.loans store.old }
    {
        let turn = self.ask(alloc, store, most)?;
        self.advance(&turn);
        Ok(turn)
    }

    // The one call that the state asks for.
    fn ask<S: Store>(&self, alloc: Global, store: &mut S, most: u64) -> Result<Turn, Memory>
        requires some { 1 ≤ most }
        requires there { self.now.is_waiting ≡ false → self.now.cursor ≤ revision (S.meaning store.old).contents.history }
        ensures answer { IfOk result (IsAnswer most (S.meaning store.new).contents self.now) }
        ensures below { IfOk result (λ turn. (after_turn turn self.now).cursor < 2 ^ 64 - 1) }
        ensures refused { OnErr result (Makes (S.meaning store.old) (S.meaning store.new) unchanged) }
        ensures call { IfOk result (λ turn. Crosses S.meaning S.crossed (asked self.now) (end_of turn) store.old store.new) }
        ensures keeps { Keeps (S.meaning store.old) (S.meaning store.new) }
        ensures named { S.name store.new ≡ S.name store.old }
        ensures loans { S.loans store.new ≡ S.loans store.old }
    {
        if self.waiting {
            self.list(alloc, store)
        } else {
            self.pull(alloc, store, most)
        }
    }

    // All pairs of the ranges.
    fn list<S: Store>(&self, alloc: Global, store: &mut S) -> Result<Turn, Memory>
        requires { self.now.is_waiting ≡ true }
        ensures answer { (most : ℕ) → IfOk result (IsAnswer most (S.meaning store.new).contents self.now) }
        ensures below { IfOk result (λ turn. (after_turn turn self.now).cursor < 2 ^ 64 - 1) }
        ensures refused { OnErr result (Makes (S.meaning store.old) (S.meaning store.new) unchanged) }
        ensures call { IfOk result (λ turn. Crosses S.meaning S.crossed (asked self.now) (end_of turn) store.old store.new) }
        ensures keeps { Keeps (S.meaning store.old) (S.meaning store.new) }
        ensures named { S.name store.new ≡ S.name store.old }
        ensures loans { S.loans store.new ≡ S.loans store.old }
    {
        match store.list(alloc, &self.ranges) {
            Ok(listing) if listing.at < u64::MAX => Ok(Turn::Listed(listing)),
            Ok(_) => Err(Memory),
            Err(StoreFault::Lost) => Ok(Turn::Lost),
            Err(_) => Err(Memory),
        }
    }

    // What changed behind the cursor.
    fn pull<S: Store>(&self, alloc: Global, store: &mut S, most: u64) -> Result<Turn, Memory>
        requires open { self.now.is_waiting ≡ false }
        requires some { 1 ≤ most }
        requires there { self.now.cursor ≤ revision (S.meaning store.old).contents.history }
        ensures answer { IfOk result (IsAnswer most (S.meaning store.new).contents self.now) }
        ensures below { IfOk result (λ turn. (after_turn turn self.now).cursor < 2 ^ 64 - 1) }
        ensures refused { OnErr result (Makes (S.meaning store.old) (S.meaning store.new) unchanged) }
        ensures call { IfOk result (λ turn. Crosses S.meaning S.crossed (asked self.now) (end_of turn) store.old store.new) }
        ensures keeps { Keeps (S.meaning store.old) (S.meaning store.new) }
        ensures named { S.name store.new ≡ S.name store.old }
        ensures loans { S.loans store.new ≡ S.loans store.old }
    {
        match store.pull(alloc, &self.ranges, self.cursor + 1, most) {
            Ok(batch) if batch.upto == self.cursor => Ok(Turn::NothingNew),
            Ok(batch) if batch.upto < u64::MAX => Ok(Turn::Pulled(batch)),
            Ok(_) => Err(Memory),
            Err(StoreFault::Lost) => Ok(Turn::Lost),
            Err(StoreFault::Compacted { compacted }) => Ok(Turn::Compacted { compacted }),
            Err(_) => Err(Memory),
        }
    }

    // Goes on as the turn says.
    fn advance(&mut self, turn: &Turn)
        requires { (after_turn turn.now self.old).cursor < 2 ^ 64 - 1 }
        ensures { self.new ≡ after_turn turn.now self.old }
    {
        match turn {
            Turn::Listed(listing) => {
                self.cursor = listing.at;
                self.waiting = false;
            }
            Turn::Pulled(batch) => self.cursor = batch.upto,
            Turn::Compacted { compacted: _ } | Turn::Lost => self.waiting = true,
            Turn::NothingNew => {}
        }
    }
}
