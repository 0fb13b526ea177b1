// A journal's revisions as a store keeps them.
ghost use Rattle.std.specs.Prelude.{◌≡◌, ◌++◌, map, IfOk};
ghost use Rattle.store_api.specs.declared.change.Revision.{Revision};
ghost use Rattle.memory_store.specs.Journal.{commits_of_journal, compaction, history_of_journal};
ghost use Rattle.memory_store.specs.Kept.{history_in, writers_in};

use crate::entry::{StoreEntry, committed, note};
use crate::live::Made;
use mesh_base::Memory;
use std::alloc::Global;
use store_api::Revision;
use turn_cell::Log;

/// A journal's revisions, and the log that has them.
#[derive(Drop)]
pub struct Replayed {
    pub history: Vec<Made>,
    pub log: Log<StoreEntry>,
}

/// The revisions of the journal. One walk over them.
pub fn replay(alloc: Global, journal: Vec<Revision>) -> Result<Replayed, Memory>
    ensures history { IfOk result (λ replayed. history_in replayed.history.items ≡ history_of_journal journal.items) }
    ensures writers { IfOk result (λ replayed. writers_in replayed.history.items ≡ map (λ (r : Revision). r.writer) journal.items) }
    ensures log { IfOk result (λ replayed. replayed.log ≡ commits_of_journal journal.items) }
{
    let mut history = Vec::with_capacity(alloc, journal.len())?;
    let mut log = Log::new();
    for revision in journal {
        let writer = revision.writer;
        let (changes, noted) = committed(revision.changes.into_vec());
        history.push(Made { writer, changes })?;
        log.note(writer, noted);
    }
    Ok(Replayed { history, log })
}

/// The log, and in it a compaction up to this revision where it is above 0.
pub fn note_compaction(log: Log<StoreEntry>, upto: u64) -> Log<StoreEntry>
    ensures { result ≡ log ++ compaction upto }
{
    let mut log = log;
    if upto > 0 {
        note(&mut log, 0, StoreEntry::Compacted(upto));
    }
    log
}
