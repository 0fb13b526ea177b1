use crate::kept::Kept;
use atomic_table::TableRule;
use std::collections::LinkedList;
use std::marker::PhantomData;
use std::snapshot::Snapshot;

/// Where a pass is, and its ticket.
pub(crate) enum Stage {
    Outside,
    Waiting(u64),
    Inside(u64),
}

/// What the seat of a pass knows. It is data for contracts alone: no value of it is made, so its
/// numbers have no upper bound.
pub(crate) struct View<E, F> {
    pub stage: Stage,
    /// The log that it has seen.
    pub seen: LinkedList<(u32, E)>,
    /// Its own number with its entries, and then those of the passes that it took in.
    pub accounts: LinkedList<(u32, LinkedList<(u32, E)>)>,
    /// A number that was drawn and is kept for a split, with no entries.
    pub spare: LinkedList<(u32, LinkedList<(u32, E)>)>,
    /// The logs that a join put together, until the load behind it.
    pub joining: LinkedList<LinkedList<(u32, E)>>,
    pub turns: u64,
    /// The log found and the log left, for each turn.
    pub trace: LinkedList<(LinkedList<(u32, E)>, LinkedList<(u32, E)>)>,
    /// How many numbers it has drawn for new passes.
    pub drawn: u64,
    /// Whether it is the pass that the cell came with.
    pub first: bool,
    /// The log of the value that the cell was made with.
    pub opening: LinkedList<(u32, E)>,
    /// The fixed part of that value; none where the pass was taken in by another.
    pub fixed: Option<F>,
}

/// The rule of the table of a cell.
pub(crate) struct Turns<T> {
    kept: PhantomData<T>,
}

impl<T: Kept> TableRule<Option<T>, View<T::Entry, T::Fixed>, Snapshot<T>> for Turns<T> {
    ghost use Rattle.turn_cell.specs.Rule.{TurnRule, first_view};

    ghost holds = { λ key. TurnRule T.log T.fixed key.value };

    ghost first = { λ key. first_view T.log T.fixed key.value };
}
