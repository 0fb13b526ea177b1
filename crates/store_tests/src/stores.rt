ghost use Rattle.std.specs.Prelude.{◌≡◌, ◌∷◌, [], IfOk, None};
ghost use Rattle.store_api.specs.declared.change.Change.TheVariants.{Put};
ghost use Rattle.memory_store.specs.Journal.{IsJournal};

use crate::script::{administer, cut, number, told, told_nothing, transaction};
use memory_store::MemoryStore;
use mesh_base::{Bytes, Items, Memory};
use std::alloc::Global;
use store_api::{Change, Revision};
use test_cases::{Answers, Wrong, each_line_holds};

// Besides the calls of `script`, `commit_as WRITER OPERATION..` and `tick_as WRITER SECONDS` are made
// by a writer, `new` is for an empty store, and `journal UPTO` for that of `JOURNAL`, compacted up to
// there.
#[derive(Drop)]
struct Stored {
    store: MemoryStore,
}

// Each word puts a key, in a revision of its own, by the writer before the colon.
const JOURNAL: &str = "7:cilium/cluster-config/east={\"id\":1} \
    8:cilium/state/nodes/v1/east/n7={\"Name\":\"n7\",\"Cluster\":\"east\",\"ClusterID\":1}";

// A revision of this number, by this writer, that puts the key.
fn putting(
    alloc: Global,
    number: u64,
    writer: u32,
    key: &str,
    value: &str,
) -> Result<Revision, Memory>
    ensures number { IfOk result (λ r. r.number ≡ number) }
    ensures changes { IfOk result (λ r. r.changes ≡ Put key.now value.now None ∷ []) }
{
    let mut changes = Items::new(alloc);
    changes.push(Change::Put {
        key: Bytes::from_slice(alloc, key.as_bytes())?,
        value: Bytes::from_slice(alloc, value.as_bytes())?,
        lease: None,
    })?;
    Ok(Revision {
        number,
        writer,
        changes,
    })
}

fn journal(alloc: Global, words: &str) -> Result<Vec<Revision>, Memory>
    ensures { IfOk result (λ journal. IsJournal journal.items 0) }
{
    let mut journal = Vec::new(alloc);
    for word in words.split(" ") {
        let (writer, word) = word.split_once(":").unwrap_or(("", word));
        let (key, value) = word.split_once("=").unwrap_or((word, ""));
        let number = journal.len() as u64 + 2;
        let writer = writer.parse().unwrap_or(0);
        journal.push(putting(alloc, number, writer, key, value)?)?;
    }
    Ok(journal)
}

impl Stored {
    fn replay(&mut self, alloc: Global, upto: u64) -> Result<String, Memory> {
        let journal = journal(alloc, JOURNAL)?;
        if upto > journal.len() as u64 + 1 {
            return told_nothing(alloc);
        }
        self.store = MemoryStore::from_journal(alloc, journal, upto)?;
        Ok("done".to_string(alloc)?)
    }

    fn commit_as(&mut self, alloc: Global, words: &str) -> Result<String, Memory> {
        let (writer, words) = cut(words);
        match transaction(alloc, words)? {
            Some(ops) => told(
                alloc,
                self.store
                    .commit_as(alloc, writer.parse().unwrap_or(0), ops.as_slice()),
            ),
            None => told_nothing(alloc),
        }
    }

    fn tick_as(&mut self, alloc: Global, words: &str) -> Result<String, Memory> {
        let (writer, seconds) = cut(words);
        told(
            alloc,
            self.store
                .tick_as(alloc, writer.parse().unwrap_or(0), number(seconds)),
        )
    }
}

impl Answers for Stored {
    fn answer(&mut self, alloc: Global, asked: &str) -> Result<String, Memory> {
        let (verb, rest) = cut(asked);
        match verb {
            "commit_as" => self.commit_as(alloc, rest),
            "tick_as" => self.tick_as(alloc, rest),
            "journal" => self.replay(alloc, number(rest)),
            "new" => {
                self.store = MemoryStore::new(alloc);
                Ok("done".to_string(alloc)?)
            }
            _ => administer(&mut self.store, alloc, asked),
        }
    }
}

fn each_line_of_a_store_holds(alloc: Global, lines: &str) -> Result<(), Wrong> {
    let mut stored = Stored {
        store: MemoryStore::new(alloc),
    };
    each_line_holds(&mut stored, alloc, lines)
}

const DELETED: &str = "\
commit -a => 1
commit a=1 => 2
commit -a => 3
commit -a => 3
";

#[test]
fn deleting_an_absent_key_adds_no_revision(rt: HostRuntime) -> Result<(), Wrong> {
    each_line_of_a_store_holds(rt.alloc(), DELETED)
}

const PUT_AGAIN: &str = "\
commit a=1 => 2
commit a=1 => 3
";

#[test]
fn a_put_of_an_equal_value_raises_the_revision(rt: HostRuntime) -> Result<(), Wrong> {
    each_line_of_a_store_holds(rt.alloc(), PUT_AGAIN)
}

const IN_ONE_TRANSACTION: &str = "\
commit a=1 => 2
commit_as 7 b=2 -a => 3
list => at 3 b
";

#[test]
fn the_changes_of_a_transaction_are_one_revision(rt: HostRuntime) -> Result<(), Wrong> {
    each_line_of_a_store_holds(rt.alloc(), IN_ONE_TRANSACTION)
}

const CLUSTERS: &str = "\
commit cilium/state/nodes/v1/east2/n1={} => 2
commit cilium/state/nodes/v1/east/n2={} => 3
commit cilium/state/nodes/v1/east/n1={} => 4
commit cilium/cluster-config/east={} => 5
list cilium/state/nodes/v1/east/n2 cilium/state/nodes/v1/east/ => at 5 cilium/state/nodes/v1/east/n1 cilium/state/nodes/v1/east/n2
";

#[test]
fn a_prefix_leaves_out_the_cluster_whose_name_it_begins(rt: HostRuntime) -> Result<(), Wrong> {
    each_line_of_a_store_holds(rt.alloc(), CLUSTERS)
}

const NOT_LIVE: &str = "\
commit a=1@7 => NoLease { lease: 7 }
list => at 1
";

#[test]
fn a_put_under_a_lease_that_is_not_live_changes_nothing(rt: HostRuntime) -> Result<(), Wrong> {
    each_line_of_a_store_holds(rt.alloc(), NOT_LIVE)
}

const ATTACHED: &str = "\
grant 10 => 1
grant 20 => 2
commit a=1@1 => 2
commit b=1@1 => 3
commit c=1@1 => 4
commit b=1@2 => 5
commit c=1 => 6
tick 10 => 7
list => at 7 b c
tick 10 => 8
list => at 8 c
tick 1000000 => 8
";

#[test]
fn an_attachment_is_moved_and_ended_by_a_put_and_lapses_with_its_lease(
    rt: HostRuntime,
) -> Result<(), Wrong> {
    each_line_of_a_store_holds(rt.alloc(), ATTACHED)
}

const LAPSED_AT_ONCE: &str = "\
grant 900 => 1
commit cilium/cluster-config/east=1@1 => 2
commit cilium/state/nodes/v1/east/n1=1@1 => 3
commit cilium/synced/east/3=1@1 => 4
commit cilium/synced/east/2=1@1 => 5
commit cilium/synced/east/1=1@1 => 6
commit cilium/synced/east/0=1@1 => 7
tick 899 => 7
tick 1 => 8
list => at 8
pull 8 9 cilium/synced/ => 8-cilium/synced/east/0-cilium/synced/east/1-cilium/synced/east/2-cilium/synced/east/3 8
commit a=1 => 9
";

#[test]
fn a_lease_deletes_its_keys_in_one_revision(rt: HostRuntime) -> Result<(), Wrong> {
    each_line_of_a_store_holds(rt.alloc(), LAPSED_AT_ONCE)
}

const DUE_TOGETHER: &str = "\
grant 30 => 1
grant 20 => 2
grant 20 => 3
grant 10 => 4
commit z=1@2 => 2
commit y=1@3 => 3
commit x=1@1 => 4
commit w=1@2 => 5
tick_as 7 30 => 8
pull 6 9 => 6:7-w-z 7:7-y 8:7-x 8
";

#[test]
fn leases_due_together_lapse_by_deadline_and_then_number(rt: HostRuntime) -> Result<(), Wrong> {
    each_line_of_a_store_holds(rt.alloc(), DUE_TOGETHER)
}

const LAPSED: &str = "\
grant 1 => 1
keep 1 => done
tick 1 => 1
keep 1 => NoLease { lease: 1 }
commit a=1@1 => NoLease { lease: 1 }
grant 1 => 2
commit a=1@2 => 2
tick 1 => 3
";

#[test]
fn a_lapsed_lease_is_refused_and_its_number_is_not_granted_again(
    rt: HostRuntime,
) -> Result<(), Wrong> {
    each_line_of_a_store_holds(rt.alloc(), LAPSED)
}

const NAMED_FIRST: &str = "\
grant 5 => 1
commit a=1@1 b=1@8 c=1@7 => NoLease { lease: 8 }
list => at 1
";

#[test]
fn the_first_dead_lease_that_is_named_is_answered(rt: HostRuntime) -> Result<(), Wrong> {
    each_line_of_a_store_holds(rt.alloc(), NAMED_FIRST)
}

const LIVE: &str = "\
grant 1 => 1
commit a=1@1 => 2
tick 0 => 2
tick 1 => 3
new => done
grant 1000000000 => 1
commit a=1@1 => 2
tick 999999999 => 2
tick 1 => 3
";

#[test]
fn a_lease_is_live_until_its_deadline(rt: HostRuntime) -> Result<(), Wrong> {
    each_line_of_a_store_holds(rt.alloc(), LIVE)
}

const KEPT_ALIVE: &str = "\
grant 10 => 1
commit a=1@1 => 2
tick 4 => 2
keep 1 => done
tick 9 => 2
tick 1 => 3
";

#[test]
fn a_lease_kept_alive_has_its_whole_time_from_then_on(rt: HostRuntime) -> Result<(), Wrong> {
    each_line_of_a_store_holds(rt.alloc(), KEPT_ALIVE)
}

const LAST_VALUE: &str = "\
tick 18446744073709551615 => 1
grant 1 => 1
commit a=1@1 => 2
tick 0 => 3
";

#[test]
fn the_clock_and_deadlines_stay_at_the_last_value(rt: HostRuntime) -> Result<(), Wrong> {
    each_line_of_a_store_holds(rt.alloc(), LAST_VALUE)
}

const PULLED: &str = "\
commit e/a=1 => 2
commit w/a=1 => 3
commit e/c=1 -e/a => 4
commit w/b=1 => 5
pull 1 9 e/ => 2+e/a 4+e/c-e/a 5
pull 2 2 e/ => 2+e/a 3
pull 3 2 e/ => 4+e/c-e/a 4
pull 3 1 w/ => 3+w/a 3
pull 4 1 => 4+e/c-e/a 4
pull 4 18446744073709551615 w/a => 5
pull 6 3 => 5
pull 9 3 => 8
pull 2 0 => 1
";

#[test]
fn a_pull_has_the_changes_of_its_ranges_in_whole_revisions(rt: HostRuntime) -> Result<(), Wrong> {
    each_line_of_a_store_holds(rt.alloc(), PULLED)
}

const COMPACTED: &str = "\
commit a=1 => 2
commit -a => 3
compact 2 => 2
pull 3 1 => 3-a 3
compact 9 => 3
compact 1 => 3
pull 3 1 => Compacted { compacted: 3 }
pull 4 1 => 3
list => at 3
";

#[test]
fn a_pull_from_the_compacted_revision_is_refused(rt: HostRuntime) -> Result<(), Wrong> {
    each_line_of_a_store_holds(rt.alloc(), COMPACTED)
}

const WRITTEN: &str = "\
commit_as 7 a=1 => 2
commit b=1 => 3
grant 5 => 1
commit_as 8 c=1@1 => 4
tick_as 9 5 => 5
pull 2 9 => 2:7+a 3+b 4:8+c 5:9-c 5
grant 1 => 2
tick_as 9 1 => 5
commit_as 7 -a => 6
pull 6 9 => 6:7-a 6
";

#[test]
fn a_pull_names_who_wrote_each_revision(rt: HostRuntime) -> Result<(), Wrong> {
    each_line_of_a_store_holds(rt.alloc(), WRITTEN)
}

const WITHOUT_EFFECT: &str = "\
grant 10 => 1
commit a=1@1 => 2
keep 1 => done
tick 4 => 2
keep 1 => done
keep 1 => done
compact 1 => 1
compact 1 => 1
compact 0 => 1
tick 9 => 2
list => at 2 a
pull 2 9 => 2+a 2
tick 1 => 3
list => at 3
pull 2 9 => 2+a 3-a 3
";

#[test]
fn a_call_without_effect_is_answered_and_changes_nothing(rt: HostRuntime) -> Result<(), Wrong> {
    each_line_of_a_store_holds(rt.alloc(), WITHOUT_EFFECT)
}

const JOURNAL_LISTED: &str = "\
journal 0 => done
list => at 3 cilium/cluster-config/east cilium/state/nodes/v1/east/n7
";

#[test]
fn a_store_lists_what_its_journal_left(rt: HostRuntime) -> Result<(), Wrong> {
    each_line_of_a_store_holds(rt.alloc(), JOURNAL_LISTED)
}

const JOURNAL_PULLED: &str = "\
journal 0 => done
pull 1 9 => 2:7+cilium/cluster-config/east 3:8+cilium/state/nodes/v1/east/n7 3
";

#[test]
fn a_journal_is_pulled_as_the_history_with_its_writers(rt: HostRuntime) -> Result<(), Wrong> {
    each_line_of_a_store_holds(rt.alloc(), JOURNAL_PULLED)
}

const AFTER_A_JOURNAL: &str = "\
journal 0 => done
commit a=1 => 4
pull 3 9 a => 4+a 4
";

#[test]
fn a_commit_after_a_journal_has_the_next_number(rt: HostRuntime) -> Result<(), Wrong> {
    each_line_of_a_store_holds(rt.alloc(), AFTER_A_JOURNAL)
}

const JOURNAL_COMPACTED: &str = "\
journal 2 => done
pull 2 9 => Compacted { compacted: 2 }
pull 3 9 => 3:8+cilium/state/nodes/v1/east/n7 3
";

#[test]
fn a_compacted_journal_is_refused_to_a_pull(rt: HostRuntime) -> Result<(), Wrong> {
    each_line_of_a_store_holds(rt.alloc(), JOURNAL_COMPACTED)
}

const JOURNAL_WITHOUT_LEASES: &str = "\
journal 3 => done
keep 1 => NoLease { lease: 1 }
grant 900 => 1
commit a=1@1 => 4
";

#[test]
fn a_store_of_a_journal_has_no_lease(rt: HostRuntime) -> Result<(), Wrong> {
    each_line_of_a_store_holds(rt.alloc(), JOURNAL_WITHOUT_LEASES)
}
