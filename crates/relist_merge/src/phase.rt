/// How a view stands to its store.
#[derive(Clone, Copy, Debug, PartialEq, Eq)]
pub enum Phase {
    /// No list was taken since the connection was lost, or none ever.
    Waiting,
    /// Listed and watched without a gap, and not yet synced.
    Held,
    /// Synced at some revision since the list.
    CaughtUp,
}
