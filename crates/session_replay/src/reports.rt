//! The reports of boxes, written one after another.

ghost use Rattle.std.specs.Prelude.{◌≡◌, [], IsOk};
ghost use Rattle.std.specs.List.{flat_map};
ghost use Rattle.session_lines.specs.Sending.{Sends, Counts};

use crate::players::ReplayClient;
use kak_ports::{Put, Sink};
use session_lines::Stop;

// Writes one report, where it isn't empty.
fn write_report<K: Sink>(sink: &mut K, report: &[u8]) -> Result<(), Stop>
    ensures sends { Sends result (K.outlet sink.old) (K.outlet sink.new) report.now }
    ensures counts { Counts result (K.outlet sink.old) (K.outlet sink.new) }
    ensures nothing { report.now ≡ [] → K.outlet sink.new ≡ K.outlet sink.old }
    ensures no_fault { report.now ≡ [] → IsOk result }
{
    if report.is_empty() {
        return Ok(());
    }
    match sink.put(report) {
        Put::Done => Ok(()),
        Put::Failed => Err(Stop::WriteFault),
    }
}

/// Writes the reports of clients one after another. Nothing is put for one that is empty.
pub fn write_reports<K: Sink>(sink: &mut K, clients: &[ReplayClient]) -> Result<(), Stop>
    ensures sends { Sends result (K.outlet sink.old) (K.outlet sink.new) (flat_map (λ client. client.report.items) clients.now) }
    ensures counts { Counts result (K.outlet sink.old) (K.outlet sink.new) }
    ensures nothing { flat_map (λ client. client.report.items) clients.now ≡ [] → K.outlet sink.new ≡ K.outlet sink.old }
    ensures no_fault { flat_map (λ client. client.report.items) clients.now ≡ [] → IsOk result }
{
    for client in clients {
        write_report(sink, client.report.as_slice())?;
    }
    Ok(())
}
