use crate::script::{administer, cut, number, ranges};
use exporter::{ExportFault, Exporter};
use flaky_link::{FlakyLink, LinkState, When};
use key_paths::Key;
use memory_store::MemoryStore;
use mesh_base::Memory;
use mesh_text::{ClusterName, Ip, NameFault};
use record_values::{AddressRecord, Record};
use std::alloc::Global;
use std::test::Fail;
use store_api::{Change, Revision, Store};
use test_cases::{Answers, each_line_holds};

// An exporter of the cluster `east`, with its store behind a link. `declare N IDENTITY` and
// `withdraw N` are for the address 10.0.0.N; `start`, `stop`, `keep`, `export MOST` and `export all`
// are its other calls. `before SKIP` and `after SKIP` plan a failure of the link, and `revision NUMBER`
// tells what that revision changed. All else is asked of the store.
#[derive(Drop)]
struct Exporting {
    exporter: Exporter,
    state: LinkState,
    store: MemoryStore,
}

fn address(n: &str) -> Ip {
    Ip::V4(0x0a00_0000 + u32::from(n.parse::<u8>().unwrap_or(0)))
}

fn refused(alloc: Global, fault: ExportFault) -> Result<String, Memory> {
    Ok(format!(in alloc; "{fault:?}")?)
}

fn done(alloc: Global) -> Result<String, Memory> {
    Ok("done".to_string(alloc)?)
}

fn told(alloc: Global, answer: Result<(), ExportFault>) -> Result<String, Memory> {
    match answer {
        Ok(()) => done(alloc),
        Err(fault) => refused(alloc, fault),
    }
}

impl Exporting {
    fn of_east(alloc: Global) -> Result<Exporting, NameFault> {
        let cluster = ClusterName::read(alloc, b"east")?;
        Ok(Exporting {
            exporter: Exporter::new(alloc, cluster, 1, 900),
            state: LinkState::new(alloc),
            store: MemoryStore::new(alloc),
        })
    }

    fn declare(&mut self, words: &str) -> Result<(), Memory> {
        let (n, id) = cut(words);
        let ip = address(n);
        let key = Key::Address { cached: None, ip };
        let id = id.parse::<u32>().unwrap_or(0);
        let value = Record::Address(AddressRecord::new(ip, None, id, None, None));
        self.exporter.declare(&key, &value)
    }

    fn withdraw(&mut self, n: &str) -> Result<(), Memory> {
        let ip = address(n);
        self.exporter.withdraw(&Key::Address { cached: None, ip })
    }

    fn start(&mut self, alloc: Global) -> Result<String, Memory> {
        let mut link = FlakyLink::new(&mut self.state, &mut self.store);
        told(alloc, self.exporter.start(&mut link))
    }

    fn export(&mut self, alloc: Global, most: &str) -> Result<String, Memory> {
        let mut link = FlakyLink::new(&mut self.state, &mut self.store);
        match self
            .exporter
            .export(&mut link, most.parse::<u64>().unwrap_or(u64::MAX))
        {
            Ok(exported) => Ok(format!(in alloc;
                "{} done, {} left",
                exported.done, exported.left
            )?),
            Err(fault) => refused(alloc, fault),
        }
    }

    fn keep(&mut self, alloc: Global) -> Result<String, Memory> {
        let mut link = FlakyLink::new(&mut self.state, &mut self.store);
        told(alloc, self.exporter.keep(&mut link))
    }

    fn plan(&mut self, skip: &str, when: When) -> Result<(), Memory> {
        self.state.fail(skip.parse::<u32>().unwrap_or(0), when)
    }
}

fn push_change(told: &mut Vec<u8>, change: &Change) -> Result<(), Memory> {
    match change {
        Change::Put { key, value, .. } => {
            told.push(b'+')?;
            told.extend_from_slice(key.as_slice())?;
            told.push(b'=')?;
            told.extend_from_slice(value.as_slice())?;
        }
        Change::Delete { key } => {
            told.push(b'-')?;
            told.extend_from_slice(key.as_slice())?;
        }
    }
    Ok(())
}

fn told_revision(alloc: Global, revision: &Revision) -> Result<String, Memory> {
    let mut told = Vec::new(alloc);
    for change in revision.changes.as_slice() {
        push_change(&mut told, change)?;
    }
    Ok(String::from_utf8_lossy(alloc, told.as_slice())?)
}

// What the revision of this number changed.
fn revision(store: &mut MemoryStore, alloc: Global, number: u64) -> Result<String, Memory> {
    let batch = match store.pull(alloc, &ranges(alloc, "")?, number.max(1), 1) {
        Ok(batch) => batch,
        Err(fault) => return Ok(format!(in alloc; "{fault:?}")?),
    };
    match batch.revisions.as_slice() {
        [revision, ..] => told_revision(alloc, revision),
        [] => Ok("none".to_string(alloc)?),
    }
}

impl Answers for Exporting {
    fn answer(&mut self, alloc: Global, asked: &str) -> Result<String, Memory> {
        let (verb, rest) = cut(asked);
        match verb {
            "declare" => self.declare(rest)?,
            "withdraw" => self.withdraw(rest)?,
            "start" => return self.start(alloc),
            "export" => return self.export(alloc, rest),
            "keep" => return self.keep(alloc),
            "stop" => self.exporter.stop(),
            "before" => self.plan(rest, When::Before)?,
            "after" => self.plan(rest, When::After)?,
            "revision" => return revision(&mut self.store, alloc, number(rest)),
            _ => return administer(&mut self.store, alloc, asked),
        }
        done(alloc)
    }
}

fn each_line_of_an_exporter_holds(alloc: Global, lines: &str) -> Result<(), Fail> {
    let mut exporting = Exporting::of_east(alloc)?;
    each_line_holds(&mut exporting, alloc, lines)?;
    Ok(())
}

const WAITING: &str = r#"declare 0 256 => done
declare 1 256 => done
start => done
declare 1 512 => done
declare 0 256 => done
export all => 7 done, 0 left
revision 2 => +cilium/cluster-config/east={"capabilities":{"cached":false,"maxConnectedClusters":255,"syncedCanaries":true},"id":1}
revision 3 => +cilium/state/ip/v1/default/10.0.0.0={"ID":256,"IP":"10.0.0.0"}
revision 4 => +cilium/state/ip/v1/default/10.0.0.1={"ID":512,"IP":"10.0.0.1"}
revision 5 => +cilium/synced/east/cilium/state/nodes/v1=1
revision 6 => +cilium/synced/east/cilium/state/services/v1=1
revision 7 => +cilium/synced/east/cilium/state/identities/v1=1
revision 8 => +cilium/synced/east/cilium/state/ip/v1=1
revision 9 => none
"#;

#[test]
fn a_key_waits_once_and_takes_the_last_value(rt: HostRuntime) -> Result<(), Fail> {
    each_line_of_an_exporter_holds(rt.alloc(), WAITING)
}

const WITHDRAWN: &str = r#"declare 0 256 => done
start => done
withdraw 0 => done
withdraw 9 => done
export all => 6 done, 0 left
revision 2 => +cilium/cluster-config/east={"capabilities":{"cached":false,"maxConnectedClusters":255,"syncedCanaries":true},"id":1}
revision 3 => +cilium/synced/east/cilium/state/nodes/v1=1
revision 4 => +cilium/synced/east/cilium/state/services/v1=1
revision 5 => +cilium/synced/east/cilium/state/identities/v1=1
revision 6 => +cilium/synced/east/cilium/state/ip/v1=1
revision 7 => none
"#;

#[test]
fn a_record_withdrawn_while_it_waits_is_deleted_in_its_turn(rt: HostRuntime) -> Result<(), Fail> {
    each_line_of_an_exporter_holds(rt.alloc(), WITHDRAWN)
}

const DECLARED_LATE: &str = r#"declare 0 256 => done
start => done
export 2 => 2 done, 4 left
declare 1 512 => done
export all => 5 done, 0 left
export 5 => 0 done, 0 left
revision 2 => +cilium/cluster-config/east={"capabilities":{"cached":false,"maxConnectedClusters":255,"syncedCanaries":true},"id":1}
revision 3 => +cilium/state/ip/v1/default/10.0.0.0={"ID":256,"IP":"10.0.0.0"}
revision 4 => +cilium/synced/east/cilium/state/nodes/v1=1
revision 5 => +cilium/synced/east/cilium/state/services/v1=1
revision 6 => +cilium/synced/east/cilium/state/identities/v1=1
revision 7 => +cilium/synced/east/cilium/state/ip/v1=1
revision 8 => +cilium/state/ip/v1/default/10.0.0.1={"ID":512,"IP":"10.0.0.1"}
revision 9 => none
"#;

#[test]
fn a_record_declared_during_an_export_comes_behind_the_marks(rt: HostRuntime) -> Result<(), Fail> {
    each_line_of_an_exporter_holds(rt.alloc(), DECLARED_LATE)
}

const LAPSED: &str = r#"declare 0 256 => done
start => done
export 1 => 1 done, 5 left
keep => done
tick 900 => 3
export 2 => NoLease { lease: 1 }
export 2 => 0 done, 0 left
keep => done
start => done
tick 900 => 3
keep => NoLease { lease: 2 }
revision 2 => +cilium/cluster-config/east={"capabilities":{"cached":false,"maxConnectedClusters":255,"syncedCanaries":true},"id":1}
revision 3 => -cilium/cluster-config/east
revision 4 => none
"#;

#[test]
fn a_lease_that_lapsed_stops_the_exporter(rt: HostRuntime) -> Result<(), Fail> {
    each_line_of_an_exporter_holds(rt.alloc(), LAPSED)
}

const LOST_BEFORE: &str = r#"declare 0 256 => done
start => done
before 1 => done
export all => Lost
export all => 5 done, 0 left
revision 2 => +cilium/cluster-config/east={"capabilities":{"cached":false,"maxConnectedClusters":255,"syncedCanaries":true},"id":1}
revision 3 => +cilium/state/ip/v1/default/10.0.0.0={"ID":256,"IP":"10.0.0.0"}
revision 4 => +cilium/synced/east/cilium/state/nodes/v1=1
revision 5 => +cilium/synced/east/cilium/state/services/v1=1
revision 6 => +cilium/synced/east/cilium/state/identities/v1=1
revision 7 => +cilium/synced/east/cilium/state/ip/v1=1
revision 8 => none
"#;

const LOST_AFTER: &str = r#"declare 0 256 => done
start => done
after 1 => done
export all => Lost
export all => 5 done, 0 left
revision 2 => +cilium/cluster-config/east={"capabilities":{"cached":false,"maxConnectedClusters":255,"syncedCanaries":true},"id":1}
revision 3 => +cilium/state/ip/v1/default/10.0.0.0={"ID":256,"IP":"10.0.0.0"}
revision 4 => +cilium/state/ip/v1/default/10.0.0.0={"ID":256,"IP":"10.0.0.0"}
revision 5 => +cilium/synced/east/cilium/state/nodes/v1=1
revision 6 => +cilium/synced/east/cilium/state/services/v1=1
revision 7 => +cilium/synced/east/cilium/state/identities/v1=1
revision 8 => +cilium/synced/east/cilium/state/ip/v1=1
revision 9 => none
"#;

#[test]
fn a_lost_commit_leaves_its_item_in_front(rt: HostRuntime) -> Result<(), Fail> {
    each_line_of_an_exporter_holds(rt.alloc(), LOST_BEFORE)?;
    each_line_of_an_exporter_holds(rt.alloc(), LOST_AFTER)
}

const STARTED_AGAIN: &str = r#"declare 0 256 => done
start => done
export 2 => 2 done, 4 left
withdraw 0 => done
tick 1 => 3
start => done
export all => 5 done, 0 left
tick 899 => 9
stop => done
revision 2 => +cilium/cluster-config/east={"capabilities":{"cached":false,"maxConnectedClusters":255,"syncedCanaries":true},"id":1}
revision 3 => +cilium/state/ip/v1/default/10.0.0.0={"ID":256,"IP":"10.0.0.0"}
revision 4 => +cilium/cluster-config/east={"capabilities":{"cached":false,"maxConnectedClusters":255,"syncedCanaries":true},"id":1}
revision 5 => +cilium/synced/east/cilium/state/nodes/v1=1
revision 6 => +cilium/synced/east/cilium/state/services/v1=1
revision 7 => +cilium/synced/east/cilium/state/identities/v1=1
revision 8 => +cilium/synced/east/cilium/state/ip/v1=1
revision 9 => -cilium/state/ip/v1/default/10.0.0.0
revision 10 => none
"#;

#[test]
fn a_start_over_a_running_exporter_forgets_what_was_withdrawn(rt: HostRuntime) -> Result<(), Fail> {
    each_line_of_an_exporter_holds(rt.alloc(), STARTED_AGAIN)
}
