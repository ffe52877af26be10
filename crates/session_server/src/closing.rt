//! The passes of a session, given back to the keeper of its desk once they aren't used any more.

ghost use Rattle.std.specs.Prelude.{◌≡◌, ◌∷◌, ◌++◌, [], map, All, IfOk, IsOkAnd, IfSome};
ghost use Rattle.session_turns.specs.Growth.{Begins};
ghost use Rattle.session_desk.specs.Tokens.{IsOf};
ghost use Rattle.session_server.specs.Hosting.{noted, serving_end, passes_back, KeepsMark};

use engine_desk::SharedEngine;
use kak_engine::Outside;
use link_lines::Ended;
use regex_ports::RegexPattern;
use session_desk::{Desk, Keeper, Pass};
use std::alloc::{AllocError, Global};

// Ends of links, with one more behind them, unless memory is wanting, or was before.
fn with_end<S: Drop>(
    ends: Result<Vec<(Ended, S)>, AllocError>,
    end: (Ended, S),
) -> Result<Vec<(Ended, S)>, AllocError>
    ensures { IfOk result (λ all. IsOkAnd ends (λ before. all.items ≡ before.items ++ end ∷ [])) }
{
    let mut ends = ends?;
    ends.push(end)?;
    Ok(ends)
}

/// Gives the passes of links that were served back to the keeper, each of them, also where memory is wanting for what is left: the
/// ends of the links, in the same order.
pub(crate) fn take_back<O: Outside<P = RegexPattern> + Drop, S: Drop>(
    alloc: Global,
    desk: &Desk<SharedEngine<O>>,
    keeper: &mut Keeper<SharedEngine<O>>,
    results: Vec<(Ended, Pass<SharedEngine<O>>, S)>,
) -> Result<Vec<(Ended, S)>, AllocError>
    requires own { IsOf keeper.old.place desk.now }
    requires places { All (λ result. result.1.place ≡ keeper.old.place) results.items }
    ensures place { keeper.new.place ≡ keeper.old.place }
    ensures made { keeper.new.made ≡ keeper.old.made }
    ensures begins { Begins keeper.new.seen keeper.old.seen }
    ensures mark { KeepsMark keeper.old.mark keeper.new.mark }
    ensures given { keeper.new.given ≡ keeper.old.given ++ map noted results.items }
    ensures ends { IfOk result (λ ends. ends.items ≡ map serving_end results.items) }
{
    let mut ends = Ok(Vec::new(alloc));
    for (ended, pass, closed) in results {
        desk.leave(keeper, pass);
        ends = with_end(ends, (ended, closed));
    }
    ends
}

/// Gives the pass of a link that isn't served back to the keeper, if there is one.
pub(crate) fn take_rest<O: Outside<P = RegexPattern> + Drop>(
    desk: &Desk<SharedEngine<O>>,
    keeper: &mut Keeper<SharedEngine<O>>,
    back: Option<Pass<SharedEngine<O>>>,
)
    requires own { IsOf keeper.old.place desk.now }
    requires back { IfSome back (λ pass. pass.place ≡ keeper.old.place) }
    ensures place { keeper.new.place ≡ keeper.old.place }
    ensures made { keeper.new.made ≡ keeper.old.made }
    ensures begins { Begins keeper.new.seen keeper.old.seen }
    ensures mark { KeepsMark keeper.old.mark keeper.new.mark }
    ensures given { keeper.new.given ≡ keeper.old.given ++ passes_back back }
{
    if let Some(pass) = back {
        desk.leave(keeper, pass);
    }
}
