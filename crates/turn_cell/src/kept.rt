ghost use Rattle.std.specs.Prelude.{ℕ, List};

/// A value that a `TurnCell` can keep.
///
/// Both types are plain data, and both members are for contracts alone: nothing of them is made
/// when the program runs.
pub trait Kept {
    /// What one entry of the log says.
    type Entry;

    /// What of the value never changes.
    type Fixed;

    /// The log of all changes, the oldest first, each entry with the number of its owner.
    ghost log: { Self → List (ℕ × Self.Entry) };

    /// The part that stays.
    ghost fixed: { Self → Self.Fixed };
}
