//! Worked rows: that memory is found and calls succeed is what no clause can say.
use super::*;
use session_desk::{Desk, Out, Played};
use std::test::*;

#[test]
fn moves_add_up_and_a_move_of_zero_is_refused(rt: HostRuntime) -> Result<(), Fail> {
    let alloc = rt.alloc();
    let (desk, mut keeper) = Desk::new(alloc, Tally::new(alloc))?;
    let mut zero = desk.admit(&mut keeper);
    let mut one = desk.admit(&mut keeper);
    assert_eq!(rt; zero.number(), 0);
    assert_eq!(rt; one.number(), 1);
    assert_eq!(rt; desk.step(&rt, alloc, &mut zero, &3), Ok(0));
    assert_eq!(rt; desk.step(&rt, alloc, &mut one, &4), Ok(3));
    assert_eq!(rt; desk.step(&rt, alloc, &mut zero, &0), Err(Refusal::Zero));
    assert_eq!(rt; desk.glance(&mut zero), 2);
    assert_eq!(rt; zero.seen(), 2);
    assert_eq!(rt; desk.look(&rt, &mut zero), 7);
    Ok(())
}

#[test]
fn the_desk_closes_once_each_pass_is_back(rt: HostRuntime) -> Result<(), Fail> {
    let alloc = rt.alloc();
    let (desk, mut keeper) = Desk::new(alloc, Tally::new(alloc))?;
    let mut zero = desk.admit(&mut keeper);
    let mut one = desk.admit(&mut keeper);
    assert_eq!(rt; desk.step(&rt, alloc, &mut zero, &3), Ok(0));
    assert_eq!(rt; desk.step(&rt, alloc, &mut one, &4), Ok(3));
    desk.leave(&mut keeper, zero);
    let Err(Out { mut keeper, out }) = desk.close(keeper) else {
        return Err("a pass is out".into());
    };
    assert_eq!(rt; out, 1);
    desk.leave(&mut keeper, one);
    let Ok(tally) = desk.close(keeper) else {
        return Err("each pass is back".into());
    };
    assert_eq!(rt; tally.sum(), 7);
    Ok(())
}

#[test]
fn two_threads_lose_no_move(rt: HostRuntime) -> Result<(), Fail> {
    let ones = [1u32; 500];
    let totals = tally_both(&rt, rt.alloc(), &ones, &ones)?;
    assert_eq!(rt; totals.first.played, 500);
    assert_eq!(rt; totals.second.played, 500);
    assert_eq!(rt; totals.tally.sum(), 1000);
    Ok(())
}

#[test]
fn a_mark_stops_every_pass(rt: HostRuntime) -> Result<(), Fail> {
    let alloc = rt.alloc();
    let (desk, mut keeper) = Desk::new(alloc, Tally::new(alloc))?;
    let mut zero = desk.admit(&mut keeper);
    let mut one = desk.admit(&mut keeper);
    assert_eq!(rt; desk.step(&rt, alloc, &mut zero, &3), Ok(0));
    assert_eq!(rt; desk.step(&rt, alloc, &mut one, &1001), Err(Refusal::Stuck));
    assert_eq!(rt; desk.step(&rt, alloc, &mut zero, &1), Err(Refusal::Stuck));
    assert_eq!(rt; desk.glance(&mut zero), 1);
    desk.leave(&mut keeper, zero);
    desk.leave(&mut keeper, one);
    let Ok(tally) = desk.close(keeper) else {
        return Err("each pass is back".into());
    };
    assert_eq!(rt; tally.mark(), Some(1));
    Ok(())
}

#[test]
fn the_keeper_watches(rt: HostRuntime) -> Result<(), Fail> {
    let alloc = rt.alloc();
    let (desk, mut keeper) = Desk::new(alloc, Tally::new(alloc))?;
    assert_eq!(rt; desk.watch(&rt, &mut keeper), 0);
    let mut zero = desk.admit(&mut keeper);
    assert_eq!(rt; desk.step(&rt, alloc, &mut zero, &5), Ok(0));
    assert_eq!(rt; desk.watch(&rt, &mut keeper), 5);
    assert_eq!(rt; desk.admit(&mut keeper).seen(), 1);
    Ok(())
}

#[test]
fn a_million_moves_fill_a_tally(rt: HostRuntime) -> Result<(), Fail> {
    let alloc = rt.alloc();
    let mut tally = Tally::new(alloc);
    for _ in 0..1_000_000 {
        assert!(rt; tally.play(alloc, 0, &1).is_ok());
    }
    assert_eq!(rt; tally.play(alloc, 0, &1), Err(Refusal::Zero));
    assert_eq!(rt; tally.play(alloc, 0, &1001), Err(Refusal::Zero));
    assert_eq!(rt; tally.count(), 1_000_000);
    Ok(())
}
