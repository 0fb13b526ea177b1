/// What a block is: its first word.
#[derive(Clone, Copy, Debug, PartialEq, Eq)]
pub enum Head {
    /// What an agent has sighted when it was asked: `report`.
    Report,
    /// What a probe has sighted beside the workers: `probe`.
    Probe,
}
