ghost use Rattle.memory_store.specs.Formed.{CommitsKeepForm, LapsesKeepForm};

/// A transaction of distinct keys adds a revision that changes something, no key twice, and deletes
/// live keys alone, or none.
pub fn commits_keep_form()
    ensures { CommitsKeepForm }
{}

/// A lapse of leases adds revisions that each change something, no key twice, and delete live keys
/// alone.
pub fn lapses_keep_form()
    ensures { LapsesKeepForm }
{}
