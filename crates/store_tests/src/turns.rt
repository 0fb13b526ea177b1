// A tally that passes add to, on threads of their own.
ghost use Rattle.std.specs.Prelude.{◌≡◌, false};
ghost use Rattle.turn_cell.specs.Knowledge.{IsPassOf};

use std::alloc::Global;
use std::snapshot::Snapshot;
use std::sync::Wait;
use std::test::Fail;
use std::thread::{Threads, join};
use tally::{Tally, add_in_turn};
use turn_cell::{Pass, TurnCell};

mod tally;

/// As many turns, with the entries 0, 1 and so on.
fn turns<R: Wait>(rt: &R, cell: &TurnCell<Tally>, mut pass: Pass<Tally>, count: u64) -> Pass<Tally>
    requires own { IsPassOf cell.now pass }
    requires outside { pass.inside ≡ false }
    ensures outside { result.inside ≡ false }
    ensures stays { (result.cell ≡ pass.cell) × (result.number ≡ pass.number) × (result.gathered ≡ pass.gathered) × (result.drawn ≡ pass.drawn) }
{
    for number in 0..count {
        add_in_turn(rt, cell, &mut pass, number);
    }
    pass
}

/// Two passes make as many turns each, on threads of their own.
fn two_threads<R: Threads + Wait + Sync>(rt: &R, alloc: Global, count: u64) -> Option<Tally> {
    let tally = Tally::new(alloc);
    let Ok((cell, mut pass)) = TurnCell::new(alloc, tally) else {
        return None;
    };
    let one = cell.split(&mut pass);
    let two = cell.split(&mut pass);
    let (one, two) = join(
        rt,
        || -> Pass<Tally>
            requires own { IsPassOf cell one }
            requires outside { one.inside ≡ false }
            ensures outside { result.inside ≡ false }
            ensures stays { (result.cell ≡ one.cell) × (result.number ≡ one.number) × (result.gathered ≡ one.gathered) }
        { turns(rt, &cell, one, count) },
        || -> Pass<Tally>
            requires own { IsPassOf cell two }
            requires outside { two.inside ≡ false }
            ensures outside { result.inside ≡ false }
            ensures stays { (result.cell ≡ two.cell) × (result.number ≡ two.number) × (result.gathered ≡ two.gathered) }
        { turns(rt, &cell, two, count) },
    );
    cell.join(&mut pass, one);
    cell.join(&mut pass, two);
    Some(cell.close(pass))
}

#[test]
fn first_entries_stay_in_front(rt: HostRuntime) -> Result<(), Fail> {
    let alloc = rt.alloc();
    let mut tally = Tally::new(alloc);
    tally.add(7, 70)?;
    let (cell, mut pass) = TurnCell::new(alloc, tally).map_err(|_| "memory")?;
    assert_eq!(rt; pass.number(), 1);
    add_in_turn(&rt, &cell, &mut pass, 10);
    let tally = cell.close(pass);
    assert_eq!(rt; tally.numbers.as_slice(), [(7, 70), (1, 10)].as_slice());
    Ok(())
}

#[test]
fn cell_and_pass_may_be_let_go(rt: HostRuntime) -> Result<(), Fail> {
    let alloc = rt.alloc();
    let tally = Tally::new(alloc);
    let (cell, mut pass) = TurnCell::new(alloc, tally).map_err(|_| "memory")?;
    let other = cell.split(&mut pass);
    assert_eq!(rt; other.number(), 2);
    Ok(())
}

#[test]
fn each_of_two_threads_has_its_turns_in_order(rt: HostRuntime) -> Result<(), Fail> {
    let tally = two_threads(&rt, rt.alloc(), 500).ok_or("memory")?;
    assert_eq!(rt; tally.numbers.len(), 1000);
    for owner in 2..4u32 {
        let mut next = 0u64;
        for entry in &tally.numbers {
            if entry.0 == owner {
                assert_eq!(rt; entry.1, next);
                next = next.wrapping_add(1);
            }
        }
        assert_eq!(rt; next, 500);
    }
    Ok(())
}

#[test]
fn an_entry_is_noted_in_a_turn(rt: HostRuntime) -> Result<(), Fail> {
    let alloc = rt.alloc();
    let tally = Tally::new(alloc);
    let (cell, mut pass) = TurnCell::new(alloc, tally).map_err(|_| "memory")?;
    let mut tally = cell.enter(&rt, &mut pass);
    tally.log.note(pass.number(), Snapshot::of(&10));
    cell.leave(&mut pass, tally);
    let tally = cell.close(pass);
    assert_eq!(rt; tally.numbers.len(), 0);
    Ok(())
}
