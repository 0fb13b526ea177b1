// What a report's text has to do with its rows.
ghost use Rattle.report_text.specs.Laws.{OrderIsNotPrinted, SortsLines};

/// Two reports with the same rows of each kind, each as often, have the same text, in whatever order
/// their rows stand.
pub fn order_is_not_printed()
    ensures { OrderIsNotPrinted }
{}

/// The lines of a kind are put in byte order: they are the same lines, each as often, and none is
/// below the one before it.
pub fn sorts_lines()
    ensures { SortsLines }
{}
