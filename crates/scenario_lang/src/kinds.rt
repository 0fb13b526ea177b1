/// How a scenario is run.
#[derive(Clone, Copy, Debug, PartialEq, Eq)]
pub enum Mode {
    /// Line by line.
    Step,
    /// Phase by phase on threads, with this many probes in each phase.
    Run { probes: u32 },
}

/// What is wrong with a text.
///
/// Of a line the first of these counts, in this order: `TooLong` for a line of more than 65,536
/// bytes, `Words`, `Header`, then the first faulty word from the left, by `Name`,
/// `UnknownCluster`, `Number`, `Address` or `TooLong`, then `Repeated`, `Mode` and
/// `TooManyRemotes`. Before all lines comes `TooLong` of the whole text, and behind all of them
/// `TooHeavy`.
#[derive(Clone, Copy, Debug, PartialEq, Eq)]
pub enum LineKind {
    /// A line of the header is out of its place, or not there, or names another version than 1.
    Header,
    /// The line has not the words of any form.
    Words,
    /// A word is no name of a cluster, or none of a node, a namespace or a pod.
    Name,
    /// A word is no canonical decimal within the bounds of its place.
    Number,
    /// A word is no address.
    Address,
    /// A word names a cluster that is no remote.
    UnknownCluster,
    /// A remote has the name of the local cluster or of an earlier remote.
    Repeated,
    /// The line is not of this way to run a scenario, or names a link that its remote does not have.
    Mode,
    /// The text has more than 16,777,216 bytes, the line more than 65,536, the key more than 1,024
    /// or the value more than 32,768.
    TooLong,
    /// The text is too long for the number of its heavy lines.
    TooHeavy,
    /// There are more remotes than this way to run a scenario takes.
    TooManyRemotes,
}

/// The first fault of a text.
#[derive(Clone, Copy, Debug, PartialEq, Eq)]
pub struct LineFault {
    /// The number of its line, from 1 upwards, or 0 where it is the text's as a whole.
    pub line: u64,
    pub kind: LineKind,
}
