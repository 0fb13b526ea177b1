use crate::script::{call, cut, number};
use flaky_link::{FlakyLink, LinkState, When};
use memory_store::MemoryStore;
use mesh_base::Memory;
use std::alloc::Global;
use test_cases::{Answers, Wrong, each_line_holds};

// Besides the calls of a store through the link, `before SKIP` and `after SKIP` plan a failure, and
// `down`, `up` and `clear` change the link; `new` is for a new link to a new store.
#[derive(Drop)]
struct Linked {
    state: LinkState,
    store: MemoryStore,
}

impl Linked {
    fn new(alloc: Global) -> Linked {
        Linked {
            state: LinkState::new(alloc),
            store: MemoryStore::new(alloc),
        }
    }
}

impl Answers for Linked {
    fn answer(&mut self, alloc: Global, asked: &str) -> Result<String, Memory> {
        let (verb, rest) = cut(asked);
        match verb {
            "new" => *self = Linked::new(alloc),
            "before" => self.state.fail(skipped(rest), When::Before)?,
            "after" => self.state.fail(skipped(rest), When::After)?,
            "down" => self.state.set_down(),
            "up" => self.state.set_up(),
            "clear" => self.state.clear(),
            _ => {
                let mut link = FlakyLink::new(&mut self.state, &mut self.store);
                return call(&mut link, alloc, asked);
            }
        }
        Ok("done".to_string(alloc)?)
    }
}

fn skipped(word: &str) -> u32 {
    word.parse().unwrap_or(0)
}

fn each_line_of_a_link_holds(alloc: Global, lines: &str) -> Result<(), Wrong> {
    each_line_holds(&mut Linked::new(alloc), alloc, lines)
}

const PLANNED: &str = "\
commit a=1 => 2
commit b=1 => 3
commit c=1 => 4
commit d=1 => 5
up => done
clear => done
list => at 5 a b c d
new => done
before 2 => done
commit a=1 => 2
commit b=1 => 3
commit c=1 => Lost
commit d=1 => 4
up => done
clear => done
list => at 4 a b d
new => done
after 1 => done
commit a=1 => 2
commit b=1 => Lost
commit c=1 => 4
commit d=1 => 5
up => done
clear => done
list => at 5 a b c d
new => done
before 0 => done
after 0 => done
before 1 => done
commit a=1 => Lost
commit b=1 => Lost
commit c=1 => 3
commit d=1 => Lost
up => done
clear => done
list => at 3 b c
new => done
before 0 => done
after 0 => done
before 1 => done
down => done
commit a=1 => Lost
commit b=1 => Lost
commit c=1 => Lost
commit d=1 => Lost
up => done
clear => done
list => at 1
";

#[test]
fn exactly_the_planned_calls_fail(rt: HostRuntime) -> Result<(), Wrong> {
    each_line_of_a_link_holds(rt.alloc(), PLANNED)
}

const DOWN: &str = "\
before 0 => done
down => done
grant 900 => Lost
up => done
grant 900 => Lost
after 0 => done
clear => done
grant 900 => 1
";

#[test]
fn a_link_that_is_down_keeps_its_plan(rt: HostRuntime) -> Result<(), Wrong> {
    each_line_of_a_link_holds(rt.alloc(), DOWN)
}

const REFUSED: &str = "\
after 1 => done
keep 5 => NoLease { lease: 5 }
commit a=1@5 => Lost
commit a=1@5 => NoLease { lease: 5 }
";

#[test]
fn a_call_that_the_store_refused_is_lost_as_planned(rt: HostRuntime) -> Result<(), Wrong> {
    each_line_of_a_link_holds(rt.alloc(), REFUSED)
}

const PASSING: &str = "\
grant 900 => 1
keep 1 => done
list => at 1
pull 2 9 => 1
";

#[test]
fn a_link_that_lets_a_call_pass_answers_as_its_store(rt: HostRuntime) -> Result<(), Wrong> {
    each_line_of_a_link_holds(rt.alloc(), PASSING)
}
