//! Gates that let lines run, and hold them back.

use line_gates::{Awaited, Gate, HeldGate, LineOf, OpenGate};
use std::test::Fail;
use std::thread;

#[test]
fn an_open_gate_lets_each_line_run(rt: HostRuntime) -> Result<(), Fail> {
    let mut gate = OpenGate;
    gate.hold(&rt, 0, 0);
    gate.passed(0, 0);
    Ok(())
}

#[test]
fn a_line_is_held_back_for_its_turns_and_then_runs(rt: HostRuntime) -> Result<(), Fail> {
    let held = LineOf { who: 0, line: 1 };
    let mut gate = HeldGate::new(rt.alloc(), held, Awaited::AnyOf(1), 2)?;
    gate.hold(&rt, 0, 0);
    assert!(rt; !gate.was_overdue());
    gate.passed(0, 0);
    gate.hold(&rt, 0, 1);
    assert!(rt; gate.was_overdue());
    Ok(())
}

#[test]
fn a_line_runs_once_the_other_client_was_answered(rt: HostRuntime) -> Result<(), Fail> {
    let awaited = LineOf { who: 1, line: 0 };
    let held = LineOf { who: 0, line: 0 };
    let gate = HeldGate::new(rt.alloc(), held, Awaited::Line(awaited), 60_000)?;
    let mut first = gate.clone()?;
    let mut second = gate.clone()?;
    thread::join(&rt, || first.hold(&rt, 0, 0), || second.passed(1, 0));
    assert!(rt; !gate.was_overdue());
    Ok(())
}
