//! A run of clients in threads.
ghost use Rattle.std.specs.Prelude.{◌≡◌, ◌≤◌, ◌↔◌, [], List, length, map, vec_capacity, IfOk, IfErr, OnOk};
ghost use Rattle.xa_switch.specs.Plans.{IsSound, Setup, planned};
ghost use Rattle.xa_crew.specs.Run.{HasRunAll, IsRun, PutsBack};
ghost use Rattle.xa_crew.specs.Stores.{HasManagers};

use crate::client::Client;
use crate::client_job::{Attended, Worked};
use crate::fault::CrewFault;
use crate::opened::{OpenedFault, open_clients};
use crate::settling::settle_pieces;
use std::alloc::Global;
use std::sync::Wait;
use std::thread::Threads;
use xa_desk::EndedDesk;
use xa_desk::laws::{desks_go_on, desks_go_out};
use xa_switch::{Plan, Settled};
use xa_worker::{DoneWorker, Pace};

/// What a run came to.
#[derive(Drop)]
pub struct Run<C> {
    /// The clients that have worked, by rising thread.
    pub clients: Vec<Attended<C>>,
    /// What was sent, carried out and collected, which agree.
    pub settled: Settled,
}

/// What all threads of a run have come to, before it is settled.
#[derive(Drop)]
pub struct Ran<C> {
    /// The clients that have worked, by rising thread.
    pub clients: Vec<Attended<C>>,
    /// Their desks.
    pub desks: Vec<EndedDesk>,
    /// The workers, by rising manager.
    pub workers: Vec<DoneWorker>,
}

/// Runs a client for each thread of control of the plan, each in a thread of its own with its own desk, and
/// a worker for each of its managers, each in a thread of its own.
///
/// The client at place t has thread t + 1; the worker of manager m has the pace at place m - 1. All threads
/// are started before any of them does something, and where one can't be started none does. After a
/// client's work its thread collects what is outstanding and ends the desk, so that each worker ends too.
/// It returns once all threads have ended and the opening is settled; where a client never returns it
/// doesn't. The faults are those of `CrewFault`: `BadPlan` exactly where the plan isn't sound, and `Unsettled` with
/// what all threads have come to.
pub fn run_clients<
    R: Threads + Wait + Copy + Send + 'static,
    C: Client + Send + 'static,
    P: Pace + Drop + Send + 'static,
>(
    rt: &R,
    alloc: Global,
    plan: &Plan,
    clients: Vec<C>,
    paces: Vec<P>,
) -> Result<Run<C>, CrewFault<C>>
    requires clients { length clients.items ≡ plan.now.threads }
    requires paces { length plan.now.managers.items ≤ length paces.items }
    ensures ran { IfOk result (λ r. IsRun C.works (planned plan.now) clients.items r.clients.items r.settled) }
    ensures sound { OnOk result (IsSound plan.now) }
    ensures bad { IfErr result (λ f. f ≡ CrewFault.BadPlan ↔ ¬ IsSound plan.now) }
    ensures unsettled { IfErr result (PutsBack (HasRunAll C.works (planned plan.now) clients.items)) }
{
    let opened = open_clients(rt, alloc, plan, clients)?;
    match opened.run(rt, alloc, paces) {
        Ok(run) => Ok(run),
        Err(OpenedFault::Unstarted(_)) => Err(CrewFault::NoMemory),
        Err(OpenedFault::Unsettled(ran)) => Err(CrewFault::Unsettled(ran)),
    }
}

/// Settles what all threads of a run have come to. It fails only for want of memory, and then all of that comes back.
#[tactic(auto, using(crate::proofs::Pieces::run_pieces))]
pub fn settle_run<R: Wait, C: Client>(rt: &R, alloc: Global, ran: Ran<C>) -> Result<Run<C>, Ran<C>>
    requires { (p : Setup) × (cs : List C) × HasRunAll C.works p cs ran }
    ensures run { IfOk result (λ r. (p : Setup) → (cs : List C) → HasRunAll C.works p cs ran
        → IsRun C.works p cs r.clients.items r.settled) }
    ensures back { IfErr result (λ r. (p : Setup) → (cs : List C) → HasRunAll C.works p cs ran
        → HasRunAll C.works p cs r) }
    ensures managers { IfOk result (λ r. HasManagers r.settled ran.workers.items) }
    ensures clients { IfErr result (λ r. r.clients ≡ ran.clients) }
    ensures workers { IfErr result (λ r. r.workers.items ≡ ran.workers.items) }
{
    desks_go_on();
    desks_go_out();
    let Ran {
        clients,
        desks,
        workers,
    } = ran;
    match settle_pieces(rt, alloc, desks, workers) {
        Ok(settled) => Ok(Run { clients, settled }),
        Err((desks, workers)) => Err(Ran {
            clients,
            desks,
            workers,
        }),
    }
}

/// The clients that have worked, and their desks, where there is room for them.
pub(crate) fn apart<C: Drop>(
    threads: Vec<Worked<C>>,
    mut clients: Vec<Attended<C>>,
    mut desks: Vec<EndedDesk>,
) -> (Vec<Attended<C>>, Vec<EndedDesk>)
    requires no_clients { clients.items ≡ [] }
    requires no_desks { desks.items ≡ [] }
    requires room { length threads.items ≤ vec_capacity clients }
    requires desk_room { length threads.items ≤ vec_capacity desks }
    ensures clients { result.0.items ≡ map (λ w. w.attended) threads.items }
    ensures desks { result.1.items ≡ map (λ w. w.desk) threads.items }
{
    for worked in threads {
        let Worked { attended, desk } = worked;
        clients.push_reserved(attended);
        desks.push_reserved(desk);
    }
    (clients, desks)
}
