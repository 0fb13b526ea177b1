// A line asks a call of the lease table by its name, and `new` for a table without leases.
use lease_clock::Leases;
use mesh_base::Memory;
use std::alloc::Global;
use test_cases::{Answers, Wrong, each_line_holds};

#[derive(Drop)]
struct Table {
    leases: Leases,
}

impl Table {
    // What the table says of itself, and does not change by.
    fn shown(&self, alloc: Global, call: &str, number: u64) -> Result<String, Memory> {
        let leases = &self.leases;
        match call {
            "now" => Ok(leases.now().to_string(alloc)?),
            "deadline" => Ok(format!(in alloc; "{:?}", leases.deadline(number))?),
            "is_live" => Ok(leases.is_live(number).to_string(alloc)?),
            "has_due" => Ok(leases.has_due().to_string(alloc)?),
            "has_due_after" => Ok(leases.has_due_after(number).to_string(alloc)?),
            "due" => Ok(format!(in alloc; "{:?}", leases.due(alloc)?)?),
            "due_after" => Ok(format!(in alloc; "{:?}", leases.due_after(alloc, number)?)?),
            _ => Ok("no such call".to_string(alloc)?),
        }
    }

    fn call(&mut self, alloc: Global, call: &str, number: u64) -> Result<String, Memory> {
        match call {
            "new" => self.leases = Leases::new(alloc),
            "advance" => self.leases.advance(number),
            "expire" => self.leases.expire(),
            "grant" if number > 0 => return Ok(self.leases.grant(number)?.to_string(alloc)?),
            "renew" => return Ok(format!(in alloc; "{:?}", self.leases.renew(number))?),
            "revoke" => return Ok(self.leases.revoke(number).to_string(alloc)?),
            _ => return self.shown(alloc, call, number),
        }
        Ok("done".to_string(alloc)?)
    }
}

impl Answers for Table {
    fn answer(&mut self, alloc: Global, asked: &str) -> Result<String, Memory> {
        let (call, number) = asked.split_once(" ").unwrap_or((asked, ""));
        self.call(alloc, call, number.parse().unwrap_or(0))
    }
}

fn each_line_of_a_table_holds(alloc: Global, lines: &str) -> Result<(), Wrong> {
    let mut table = Table {
        leases: Leases::new(alloc),
    };
    each_line_holds(&mut table, alloc, lines)
}

const DUE_AT_THE_DEADLINE: &str = "\
new => done
grant 1 => 1
advance 0 => done
due => []
new => done
grant 1 => 1
advance 1 => done
due => [1]
new => done
grant 1000000000 => 1
advance 999999999 => done
due => []
new => done
grant 1000000000 => 1
advance 1000000000 => done
due => [1]
";

#[test]
fn a_lease_is_due_at_its_deadline_and_not_before(rt: HostRuntime) -> Result<(), Wrong> {
    each_line_of_a_table_holds(rt.alloc(), DUE_AT_THE_DEADLINE)
}

const DUE_TOGETHER: &str = "\
grant 30 => 1
grant 20 => 2
grant 20 => 3
advance 30 => done
has_due => true
due => [2, 3, 1]
";

#[test]
fn leases_due_together_come_by_deadline_and_then_number(rt: HostRuntime) -> Result<(), Wrong> {
    each_line_of_a_table_holds(rt.alloc(), DUE_TOGETHER)
}

const TOLD_BEFOREHAND: &str = "\
grant 30 => 1
grant 20 => 2
has_due_after 19 => false
has_due_after 20 => true
due_after 30 => [2, 1]
has_due => false
advance 20 => done
expire => done
is_live 1 => true
is_live 2 => false
";

#[test]
fn due_leases_are_told_beforehand_and_end_at_an_expiry(rt: HostRuntime) -> Result<(), Wrong> {
    each_line_of_a_table_holds(rt.alloc(), TOLD_BEFOREHAND)
}

const RENEWED: &str = "\
grant 10 => 1
advance 4 => done
deadline 1 => Some(10)
deadline 2 => None
renew 1 => Some(14)
deadline 1 => Some(14)
advance 9 => done
has_due => false
advance 1 => done
has_due => true
";

#[test]
fn a_renewal_counts_from_now_and_not_from_the_old_deadline(rt: HostRuntime) -> Result<(), Wrong> {
    each_line_of_a_table_holds(rt.alloc(), RENEWED)
}

const LAST_VALUE: &str = "\
advance 18446744073709551615 => done
advance 1 => done
now => 18446744073709551615
grant 1 => 1
renew 1 => Some(18446744073709551615)
due => [1]
";

#[test]
fn the_clock_and_deadlines_stay_at_the_last_value(rt: HostRuntime) -> Result<(), Wrong> {
    each_line_of_a_table_holds(rt.alloc(), LAST_VALUE)
}

const REVOKED: &str = "\
grant 5 => 1
is_live 1 => true
revoke 1 => true
is_live 1 => false
revoke 1 => false
renew 1 => None
grant 5 => 2
";

#[test]
fn a_revoked_lease_is_live_no_more_and_its_number_is_not_granted_again(
    rt: HostRuntime,
) -> Result<(), Wrong> {
    each_line_of_a_table_holds(rt.alloc(), REVOKED)
}

const LAPSED: &str = "\
grant 10 => 1
grant 30 => 2
grant 10 => 3
grant 30 => 4
grant 10 => 5
grant 30 => 6
grant 10 => 7
grant 30 => 8
revoke 2 => true
advance 10 => done
due => [1, 3, 5, 7]
expire => done
has_due => false
is_live 1 => false
renew 1 => None
is_live 2 => false
renew 2 => None
is_live 3 => false
renew 3 => None
is_live 5 => false
renew 5 => None
is_live 7 => false
renew 7 => None
renew 4 => Some(40)
grant 1 => 9
advance 20 => done
due => [9, 6, 8]
expire => done
is_live 4 => true
has_due_after 9 => false
has_due_after 10 => true
";

#[test]
fn lapses_drop_the_ended_leases_and_keep_the_others(rt: HostRuntime) -> Result<(), Wrong> {
    each_line_of_a_table_holds(rt.alloc(), LAPSED)
}
