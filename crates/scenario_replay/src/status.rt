use scenario_lang::LineKind;

/// How the program ends.
#[derive(Clone, Copy, Debug, PartialEq, Eq)]
pub enum Status {
    /// All reports are written.
    Done,
    /// The words are none that the program serves; the usage line is written.
    Usage,
    /// The input is no scenario, by its first fault; the line that says so is written.
    Scenario { line: u64, kind: LineKind },
    /// Reading failed; nothing is written.
    ReadFault,
    /// Writing failed; a front of what was to be written is written.
    WriteFault,
    /// Memory was wanted, and there was none; nothing is written.
    Memory,
}
