//! `kakd -s <session> [file]`: many clients over a Unix socket, which stands in the current folder as `<session>.kak`.
#![tactic(auto)]

mod files;
mod outside;
mod ringing;

ghost use Rattle.std.specs.Prelude.{◌≡◌, []};

use crate::outside::ServerOutside;
use crate::ringing::RingingGate;
use host_words::{NoWords, words_given};
use jobs::{Spawner, ThreadSpawner, begin};
use session_server::{LinkJob, ServerStatus, run_server};
use std::process::ExitCode;
use std::sync::Wait;
use unix_links::{Bell, UnixAcceptor, UnixLink};

// The job of a client.
type ClientJob = LinkJob<UnixLink, ServerOutside, RingingGate>;

// Serves the session that the words name, whatever makes the threads of its clients. It stands apart from `main` so that the prover
// meets the job of a client and the spawner of threads one at a time: both at once are more than it compares.
fn serve_session<R: Wait, P: Spawner<ClientJob>>(
    rt: &R,
    host: HostRuntime,
    words: &[String],
    bell: Bell,
    rung: Bell,
    spawner: &mut P,
) -> ServerStatus
    requires idle { P.started spawner.old ≡ [] }
    requires fit { P.fit spawner.old }
{
    let alloc = host.alloc();
    let mut acceptor = UnixAcceptor::new(host, alloc, bell);
    let (status, _session) = run_server(
        rt,
        alloc,
        words,
        &mut acceptor,
        spawner,
        RingingGate::new(rung),
        ServerOutside::new(host, alloc),
    );
    status
}

fn main(rt: HostRuntime) -> ExitCode {
    let words = match words_given(&rt) {
        Ok(words) => words,
        Err(NoWords::NotUtf8) => return ExitCode::from(ServerStatus::Usage.code()),
        Err(NoWords::NoMemory) => return ExitCode::from(ServerStatus::NoMemory.code()),
    };
    let alloc = rt.alloc();
    let Ok(bell) = Bell::new(&rt, alloc) else {
        return ExitCode::from(ServerStatus::BindFault.code());
    };
    let Ok(rung) = bell.clone() else {
        return ExitCode::from(ServerStatus::NoMemory.code());
    };
    let mut spawner = ThreadSpawner::new(rt, alloc, move |job: ClientJob| begin(rt, alloc, job));
    let status = serve_session(&rt, rt, words.as_slice(), bell, rung, &mut spawner);
    ExitCode::from(status.code())
}
