use crate::script::{administer, call, cut, number, ranges, told_nothing};
use memory_store::MemoryStore;
use mesh_base::{Items, Memory};
use reflector::{Reflector, Turn, delivery};
use std::alloc::Global;
use store_api::{Batch, Change, Delivery, Ranges, Revision, Store};
use test_cases::{Answers, Wrong, each_line_holds};

// Besides the calls of `script`, `puts KEY..` puts each key by a commit of its own, `turn MOST` makes
// a turn of the reader, `lose` has it lose its connection, and `cursor` and `is_waiting` tell of it;
// `new` is for a new reader of a new store.
#[derive(Drop)]
struct Watched {
    reader: Reflector,
    store: MemoryStore,
}

// The number of the revision, and a sign for each change.
fn push_revision(alloc: Global, told: &mut String, revision: &Revision) -> Result<(), Memory> {
    told.push_str(format!(in alloc; " {}", revision.number)?.as_str())?;
    for change in revision.changes.as_slice() {
        told.push_str(match change {
            Change::Put { .. } => "+",
            Change::Delete { .. } => "-",
        })?;
    }
    Ok(())
}

fn gathered(alloc: Global, batch: &Batch) -> Result<String, Memory> {
    let mut told = "watch".to_string(alloc)?;
    for revision in batch.revisions.as_slice() {
        push_revision(alloc, &mut told, revision)?;
    }
    told.push_str(format!(in alloc; " to {}", batch.upto)?.as_str())?;
    Ok(told)
}

// What the turn handed on.
fn handed(alloc: Global, turn: Turn) -> Result<String, Memory> {
    match delivery(turn) {
        Some(Delivery::Listing(listing)) => {
            Ok(format!(in alloc; "list {} {}", listing.at, listing.pairs.len())?)
        }
        Some(Delivery::Batch(batch)) => gathered(alloc, &batch),
        Some(Delivery::Lost) => Ok("lost".to_string(alloc)?),
        None => Ok("nothing".to_string(alloc)?),
    }
}

impl Watched {
    // A reader of each key that begins with `a` or `b`.
    fn new(alloc: Global) -> Result<Watched, Memory> {
        Ok(Watched {
            reader: Reflector::new(ranges(alloc, "a b")?),
            store: MemoryStore::new(alloc),
        })
    }

    // Puts each key in a revision of its own, and tells the last one's number.
    fn put_each(&mut self, alloc: Global, keys: &str) -> Result<String, Memory> {
        let mut told = String::new(alloc);
        for key in keys.split(" ") {
            let asked = format!(in alloc; "commit {key}=1")?;
            told = call(&mut self.store, alloc, asked.as_str())?;
        }
        Ok(told)
    }

    // The reader must not be ahead of the store.
    fn turn(&mut self, alloc: Global, most: u64) -> Result<String, Memory> {
        let nothing = Ranges {
            items: Items::new(alloc),
        };
        let Ok(listing) = self.store.list(alloc, &nothing) else {
            return Err(Memory);
        };
        if most == 0 || listing.at < self.reader.cursor() {
            return told_nothing(alloc);
        }
        handed(alloc, self.reader.turn(alloc, &mut self.store, most)?)
    }
}

impl Answers for Watched {
    fn answer(&mut self, alloc: Global, asked: &str) -> Result<String, Memory> {
        let (verb, rest) = cut(asked);
        match verb {
            "puts" => return self.put_each(alloc, rest),
            "turn" => return self.turn(alloc, number(rest)),
            "cursor" => return Ok(self.reader.cursor().to_string(alloc)?),
            "is_waiting" => return Ok(self.reader.is_waiting().to_string(alloc)?),
            "lose" => self.reader.lose(),
            "new" => *self = Watched::new(alloc)?,
            _ => return administer(&mut self.store, alloc, asked),
        }
        Ok("done".to_string(alloc)?)
    }
}

fn each_line_of_a_reader_holds(alloc: Global, lines: &str) -> Result<(), Wrong> {
    each_line_holds(&mut Watched::new(alloc)?, alloc, lines)
}

const WATCHED: &str = "\
puts a1 b1 c1 c2 c3 c4 => 7
turn 1 => list 7 2
puts b1 c1 a2 => 10
compact 9 => 9
turn 1 => lost
turn 1 => list 10 3
new => done
puts a1 b1 c1 c2 c3 c4 => 7
turn 18446744073709551615 => list 7 2
puts b1 c1 a2 => 10
compact 8 => 8
turn 18446744073709551615 => lost
turn 18446744073709551615 => list 10 3
new => done
puts a1 b1 c1 c2 c3 c4 => 7
turn 1 => list 7 2
puts b1 c1 a2 => 10
compact 7 => 7
turn 1 => watch 8+ to 8
turn 1 => watch to 9
new => done
puts a1 b1 c1 c2 c3 c4 => 7
turn 2 => list 7 2
puts b1 c1 a2 => 10
compact 7 => 7
turn 2 => watch 8+ to 9
turn 2 => watch 10+ to 10
new => done
puts a1 b1 c1 c2 c3 c4 => 7
turn 18446744073709551615 => list 7 2
puts b1 c1 a2 => 10
compact 0 => 0
turn 18446744073709551615 => watch 8+ 10+ to 10
turn 18446744073709551615 => nothing
";

#[test]
fn a_reader_lists_and_then_watches_from_its_cursor(rt: HostRuntime) -> Result<(), Wrong> {
    each_line_of_a_reader_holds(rt.alloc(), WATCHED)
}

const DELETION_COMPACTED: &str = "\
commit a1=1 => 2
turn 9 => list 2 1
commit -a1 => 3
compact 3 => 3
turn 9 => lost
turn 9 => list 3 0
";

#[test]
fn a_deletion_at_the_compacted_revision_is_not_missed(rt: HostRuntime) -> Result<(), Wrong> {
    each_line_of_a_reader_holds(rt.alloc(), DELETION_COMPACTED)
}

const CONNECTION_LOST: &str = "\
cursor => 0
turn 1 => list 1 0
is_waiting => false
lose => done
is_waiting => true
cursor => 1
";

#[test]
fn a_reader_that_lost_its_connection_keeps_its_cursor(rt: HostRuntime) -> Result<(), Wrong> {
    each_line_of_a_reader_holds(rt.alloc(), CONNECTION_LOST)
}
