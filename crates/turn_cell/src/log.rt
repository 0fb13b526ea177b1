ghost use Rattle.std.specs.Prelude.{◌≡◌, ◌++◌, ◌∷◌, []};

use std::marker::Model;
use std::mem;
use std::snapshot::Snapshot;

// The log with its entries, the newest outside.
#[derive(Drop)]
enum Past<E> {
    Start,
    Noted(Snapshot<Past<E>>, u32, Snapshot<E>),
}

/// The log of a value that a `TurnCell` keeps: entries, the oldest first, each with the number of
/// its owner.
///
/// Contracts see it as its entries, and it has no bytes at run time. `note` is the only call that
/// changes it.
#[derive(Drop)]
pub struct Log<E> {
    last: Snapshot<Past<E>>,
}

impl<E> Model for Log<E> {
    ghost use Rattle.std.specs.Prelude.{List, ℕ};
    ghost use Rattle.turn_cell.specs.Noted.{noted};

    ghost Value = { List (ℕ × E) };

    ghost view = { λ l. noted l.last.value };
}

impl<E> Log<E> {
    /// A log with no entries.
    pub fn new() -> Log<E>
        ensures { result ≡ [] }
    {
        Log {
            last: Snapshot::of(&Past::Start),
        }
    }

    /// Puts an entry of this owner behind the others.
    pub fn note(&mut self, owner: u32, entry: Snapshot<E>)
        ensures { self.new ≡ self.old ++ (owner, entry.value) ∷ [] }
    {
        let last = mem::replace(&mut self.last, Snapshot::of(&Past::Start));
        self.last = Snapshot::of(&Past::Noted(last, owner, entry));
    }
}

const _: () = prove!(mem::size_of::<Log<u64>>() == 0);
