ghost use Rattle.exporter.specs.Runs.{ExportsExactly, MarksComeLast};

/// In every run from a start on, when a mark is in front, each record that was declared at the start
/// was put or deleted before it.
pub fn marks_come_last()
    ensures { MarksComeLast }
{}

/// In every run from a start on, where nothing waits, the live pairs that are attached to the lease
/// are exactly what is exported: the config, the declared records and the four marks.
///
/// That is where nothing was attached to the lease at the start, where it did not lapse, and where
/// nobody else touched a key that is exported now or named the lease.
pub fn exports_exactly()
    ensures { ExportsExactly }
{}
