//! Two threads at one desk.
ghost use Rattle.std.specs.Prelude.{◌≡◌, ◌≤◌, ◌<◌, [], length, All, IfOk, IfSome, IfNone};
ghost use Rattle.session_desk.specs.Histories.{entries_by};
ghost use Rattle.session_desk.specs.Tokens.{IsOf, IsSamePass};
ghost use Rattle.desk_trials.specs.Tally.{who_of, TallyHasPlayed, IsTallyRefused, WasRefused};

use crate::tally::{Refusal, Tally};
use session_desk::{Desk, Pass};
use std::alloc::{AllocError, Global};
use std::sync::Wait;
use std::thread::{Threads, join};

/// How far a thread came: how many of its moves were played, and what refused the next one.
#[derive(Drop)]
pub struct Run {
    pub played: usize,
    pub stop: Option<Refusal>,
}

/// What two threads made of a tally.
#[derive(Drop)]
pub struct Totals {
    pub tally: Tally,
    pub first: Run,
    pub second: Run,
}

// Plays the moves in order until one is refused.
fn play_all<R: Wait>(
    rt: &R,
    alloc: Global,
    desk: &Desk<Tally>,
    pass: &mut Pass<Tally>,
    moves: &[u32],
) -> Run
    requires own { IsOf pass.old.place desk.now }
    requires fresh { entries_by who_of pass.old.number pass.old.seen ≡ [] }
    ensures same { IsSamePass pass.old pass.new }
    ensures played { TallyHasPlayed pass.new.seen pass.old.number moves.now result.played }
    ensures within { result.played ≤ length moves.now }
    ensures all { IfNone result.stop (result.played ≡ length moves.now) }
    ensures stop { IfSome result.stop (λ refusal. IsTallyRefused pass.new.seen pass.new.mark pass.old.number moves.now result.played refusal) }
{
    for (played, mv) in moves.iter().enumerate() {
        match desk.step(rt, alloc, pass, mv) {
            Ok(_) => {}
            Err(refusal) => {
                return Run {
                    played,
                    stop: Some(refusal),
                };
            }
        }
    }
    Run {
        played: moves.len(),
        stop: None,
    }
}

fn play_as<R: Wait>(
    rt: &R,
    alloc: Global,
    desk: &Desk<Tally>,
    mut pass: Pass<Tally>,
    moves: &[u32],
) -> (Pass<Tally>, Run)
    requires own { IsOf pass.place desk.now }
    requires fresh { entries_by who_of pass.number pass.seen ≡ [] }
    ensures same { IsSamePass pass result.0 }
    ensures played { TallyHasPlayed result.0.seen pass.number moves.now result.1.played }
    ensures within { result.1.played ≤ length moves.now }
    ensures all { IfNone result.1.stop (result.1.played ≡ length moves.now) }
    ensures stop { IfSome result.1.stop (λ refusal. IsTallyRefused result.0.seen result.0.mark pass.number moves.now result.1.played refusal) }
{
    let run = play_all(rt, alloc, desk, &mut pass, moves);
    (pass, run)
}

/// Two threads add to one tally at the same time, the first as number 0 and the second as number 1. Each goes on until one of its moves
/// is refused. At Err there was no memory for the desk.
pub fn tally_both<R: Threads + Wait + Sync>(
    rt: &R,
    alloc: Global,
    first: &[u32],
    second: &[u32],
) -> Result<Totals, AllocError>
    ensures first { IfOk result (λ t. TallyHasPlayed t.tally.additions 0 first.now t.first.played) }
    ensures second { IfOk result (λ t. TallyHasPlayed t.tally.additions 1 second.now t.second.played) }
    ensures numbers { IfOk result (λ t. All (λ a. a.who < 2) t.tally.additions) }
    ensures within { IfOk result (λ t. (t.first.played ≤ length first.now) × (t.second.played ≤ length second.now)) }
    ensures all_of_first { IfOk result (λ t. IfNone t.first.stop (t.first.played ≡ length first.now)) }
    ensures all_of_second { IfOk result (λ t. IfNone t.second.stop (t.second.played ≡ length second.now)) }
    ensures stop_of_first { IfOk result (λ t. IfSome t.first.stop (WasRefused t.tally.additions t.tally.mark 0 first.now t.first.played)) }
    ensures stop_of_second { IfOk result (λ t. IfSome t.second.stop (WasRefused t.tally.additions t.tally.mark 1 second.now t.second.played)) }
{
    let (desk, mut keeper) = Desk::new(alloc, Tally::new(alloc))?;
    let one = desk.admit(&mut keeper);
    let two = desk.admit(&mut keeper);
    let ((one, first), (two, second)) = join(
        rt,
        || play_as(rt, alloc, &desk, one, first),
        || play_as(rt, alloc, &desk, two, second),
    );
    desk.leave(&mut keeper, one);
    desk.leave(&mut keeper, two);
    let Ok(tally) = desk.close(keeper) else {
        unreachable!()
    };
    Ok(Totals {
        tally,
        first,
        second,
    })
}
