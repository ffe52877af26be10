//! The links of a session, received one after another.

ghost use Rattle.std.specs.Arc.{arc_value};
ghost use Rattle.std.specs.Prelude.{◌≡◌, ◌+◌, ◌≤◌, ◌++◌, [], ◌∷◌, length, map, IsSome, OnOk, IfErr, IfSome, option_map, string_bytes, Some, None};
ghost use Rattle.session_server.specs.Rows.{IsLinkReady};
ghost use Rattle.session_server.specs.Hosting.{Admitted, job_view, passes_back, IsUnused, IsHandedBack, StopsHostingFor};
ghost use Rattle.session_server.specs.Sessions.{CameInOrder, NoneWaits, HaveCome, AcceptsFor, SpawnsFor};

use crate::host::Host;
use crate::job::LinkJob;
use crate::status::ServerStatus;
use client_links::{Acceptor, Link, Next};
use engine_desk::SharedEngine;
use jobs::{Spawner, Started};
use kak_engine::Outside;
use line_gates::Gate;
use regex_ports::RegexPattern;
use session_desk::Pass;
use std::sync::Wait;

/// Why no further link is received, and the pass of a link that had come and isn't served.
#[derive(Drop)]
pub(crate) struct Stopped<O: Outside<P = RegexPattern> + Drop> {
    pub why: ServerStatus,
    pub back: Option<Pass<SharedEngine<O>>>,
}

// No further link is received, and all that were let in are served.
fn stopped_by<O: Outside<P = RegexPattern> + Drop>(why: ServerStatus) -> Stopped<O>
    ensures why { result.why ≡ why }
    ensures back { result.back ≡ None }
{
    Stopped { why, back: None }
}

// Starts the serving of a link. An `Err` has the pass of one that isn't served.
fn start<L: Link, O: Outside<P = RegexPattern> + Drop, G: Gate, P: Spawner<LinkJob<L, O, G>>>(
    spawner: &mut P,
    job: LinkJob<L, O, G>,
) -> Result<(), Stopped<O>>
    requires ready { IsLinkReady (arc_value job.desk) job.pass (L.wire job.link) }
    requires fit { P.fit spawner.old }
    ensures fit { P.fit spawner.new }
    ensures ok { OnOk result ((P.started spawner.new ≡ P.started spawner.old ++ job ∷ []) × (P.faults spawner.new ≡ P.faults spawner.old)) }
    ensures err { IfErr result (λ stopped. (P.started spawner.new ≡ P.started spawner.old) × (stopped.back ≡ Some job.pass) × IsHandedBack stopped.why) }
    ensures faults { IfErr result (λ stopped. SpawnsFor stopped.why (P.faults spawner.old) (P.faults spawner.new)) }
{
    match spawner.start(job) {
        Started::Runs => Ok(()),
        Started::Back(job) => Err(Stopped {
            why: ServerStatus::SpawnFault,
            back: Some(job.pass),
        }),
        Started::NoMemory(job) => Err(Stopped {
            why: ServerStatus::NoMemory,
            back: Some(job.pass),
        }),
    }
}

/// Receives links and starts the serving of each, until there is a reason to stop. Where none comes, it looks whether the
/// session is over.
pub(crate) fn accept_all<
    R: Wait,
    A: Acceptor,
    O: Outside<P = RegexPattern> + Drop,
    G: Gate + Clone,
    P: Spawner<LinkJob<A::Link, O, G>>,
>(rt: &R, host: &mut Host<O, G>, acceptor: &mut A, spawner: &mut P) -> Stopped<O>
    requires none { host.old.keeper.made ≡ 0 }
    requires idle { P.started spawner.old ≡ [] }
    requires fit { P.fit spawner.old }
    ensures fit { P.fit spawner.new }
    ensures home { host.new.home ≡ host.old.home }
    ensures place { host.new.keeper.place ≡ host.old.keeper.place }
    ensures given { host.new.keeper.given ≡ host.old.keeper.given }
    ensures jobs { Admitted (λ job. job_view (arc_value job.desk) job.pass (option_map (λ name. string_bytes name) job.file)) host.old.home host.old.keeper.place 0 host.old.file (P.started spawner.new) }
    ensures made { host.new.keeper.made ≡ length (P.started spawner.new) + length (passes_back result.back) }
    ensures back { IfSome result.back (IsUnused host.old.keeper.place (length (P.started spawner.new))) }
    ensures most { length (P.started spawner.new) ≤ 1000000 }
    ensures why { StopsHostingFor result.why host.new.keeper.seen host.new.keeper.mark (length (P.started spawner.new)) }
    ensures listens { (A.door acceptor.new).listens ≡ (A.door acceptor.old).listens }
    ensures came { HaveCome result.why (length (P.started spawner.new)) (A.door acceptor.old).came (A.door acceptor.new).came }
    ensures in_order { CameInOrder result.why (map (λ job. A.Link.wire job.link) (P.started spawner.new)) (A.door acceptor.old).to_come (A.door acceptor.new).to_come }
    ensures waits { IsSome (A.door acceptor.old).listens → NoneWaits result.why (A.door acceptor.new) }
    ensures accept_faults { AcceptsFor result.why (A.door acceptor.old).faults (A.door acceptor.new).faults }
    ensures spawn_faults { SpawnsFor result.why (P.faults spawner.old) (P.faults spawner.new) }
{
    for _ in rt.forever() {
        match acceptor.next(rt) {
            Next::Came(link) => match host.admit(link) {
                Ok(job) => {
                    if let Err(stopped) = start(spawner, job) {
                        return stopped;
                    }
                }
                Err(why) => return stopped_by(why),
            },
            Next::Idle => {
                if let Err(why) = host.look_in(rt) {
                    return stopped_by(why);
                }
            }
            Next::Failed => return stopped_by(ServerStatus::AcceptFault),
        }
    }
    unreachable!()
}
