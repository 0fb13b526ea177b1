// The smallest value that a cell keeps, and a turn with it.
ghost use Rattle.std.specs.Prelude.{◌≡◌, ◌++◌, false, [], ◌∷◌, OnOk, OnErr};
ghost use Rattle.turn_cell.specs.Knowledge.{IsPassOf};

use std::alloc::{AllocError, Global};
use std::snapshot::Snapshot;
use std::sync::Wait;
use turn_cell::{Kept, Log, Pass, TurnCell};

/// Numbers, each with its owner, and the log of their additions, which contracts alone see.
#[derive(Drop)]
pub struct Tally {
    pub numbers: Vec<(u32, u64)>,
    pub log: Log<u64>,
}

impl Kept for Tally {
    type Entry = u64;

    type Fixed = ();

    ghost log = { λ t. t.log };

    ghost fixed = { λ _. tt };
}

impl Tally {
    /// An empty tally.
    pub fn new(alloc: Global) -> Tally
        ensures { result.log ≡ [] }
    {
        Tally {
            numbers: Vec::new(alloc),
            log: Log::new(),
        }
    }

    /// Puts a number of this owner behind the others; an `Err` changes nothing.
    pub fn add(&mut self, owner: u32, number: u64) -> Result<(), AllocError>
        ensures ok { OnOk result (self.new.log ≡ self.old.log ++ (owner, number) ∷ []) }
        ensures err { OnErr result (self.new.log ≡ self.old.log) }
    {
        self.numbers.push((owner, number))?;
        self.log.note(owner, Snapshot::of(&number));
        Ok(())
    }
}

/// One turn, which adds one entry, or none for want of memory.
pub fn add_in_turn<R: Wait>(rt: &R, cell: &TurnCell<Tally>, pass: &mut Pass<Tally>, number: u64)
    requires own { IsPassOf cell.now pass.old }
    requires outside { pass.old.inside ≡ false }
    ensures outside { pass.new.inside ≡ false }
    ensures stays { (pass.new.cell ≡ pass.old.cell) × (pass.new.number ≡ pass.old.number) × (pass.new.gathered ≡ pass.old.gathered) × (pass.new.drawn ≡ pass.old.drawn) }
{
    let mut tally = cell.enter(rt, pass);
    let _ = tally.add(pass.number(), number);
    cell.leave(pass, tally);
}
