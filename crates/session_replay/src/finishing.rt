//! The end of a replay, at which the reports are written.

ghost use Rattle.std.specs.Prelude.{◌≡◌, true, false, OnOk, OnErr};
ghost use Rattle.std.specs.List.{flat_map};
ghost use Rattle.session_replay.specs.Phases.{IsLossOf, IsNoLoss};
ghost use Rattle.session_replay.specs.Replays.{unwritten, Reports};

use crate::ends::ReplayEnd;
use crate::players::ReplayClient;
use crate::reports::write_reports;
use kak_ports::Sink;
use session_lines::Stop;

/// Whether memory was wanting, or the session broken.
pub fn is_lost(ended: Result<ReplayEnd, Stop>) -> bool
    ensures lost { result ≡ true → IsLossOf ended }
    ensures none { result ≡ false → IsNoLoss ended }
{
    matches!(ended, Err(Stop::NoMemory) | Err(Stop::Broken(_)))
}

// How a replay ended: a write that failed is told where nothing else was met.
fn ended_with(ended: Result<ReplayEnd, Stop>, written: Result<(), Stop>) -> Result<ReplayEnd, Stop>
    ensures ok { OnOk written (result ≡ ended) }
    ensures err { OnErr written (result ≡ unwritten ended) }
{
    if written.is_ok() {
        return ended;
    }
    match ended {
        Ok(ReplayEnd::Over) | Ok(ReplayEnd::Ended) => Err(Stop::WriteFault),
        ended => ended,
    }
}

/// Writes the reports of clients one after another, unless something was lost. Tells how the replay ended.
pub fn finish<K: Sink>(
    clients: &[ReplayClient],
    sink: &mut K,
    ended: Result<ReplayEnd, Stop>,
) -> Result<ReplayEnd, Stop>
    ensures { Reports ended result (K.outlet sink.old) (K.outlet sink.new) (flat_map (λ client. client.report.items) clients.now) }
{
    if is_lost(ended) {
        return ended;
    }
    let written = write_reports(sink, clients);
    ended_with(ended, written)
}
