//! A run of clients in one thread.
ghost use Rattle.std.specs.Prelude.{◌≡◌, ◌↔◌, length, IfOk, IfErr, OnOk};
ghost use Rattle.xa_switch.specs.Plans.{IsSound, planned};
ghost use Rattle.xa_crew.specs.Run.{HasRunAll, IsRun, PutsBack};

use crate::client::Client;
use crate::fault::CrewFault;
use crate::opened::open_clients;
use crate::run::Run;
use std::alloc::Global;
use std::sync::Wait;
use xa_switch::Plan;

/// Runs a client for each thread of control of the plan with its own desk, all in this thread: one after the other,
/// by rising thread. While a client waits, the worker of the manager that it waits for takes turns.
///
/// The client at place t has thread t + 1. After a client's work what is outstanding is collected and its desk ends,
/// before the next client begins; once all desks have ended, each worker runs to the last end mark. A client that
/// waits for what a later one is to do waits for ever. The faults are those of `CrewFault`, as of `run_clients`:
/// `BadPlan` exactly where the plan isn't sound, and `Unsettled` with what all clients have come to.
pub fn run_clients_in_turns<R: Wait, C: Client>(
    rt: &R,
    alloc: Global,
    plan: &Plan,
    clients: Vec<C>,
) -> Result<Run<C>, CrewFault<C>>
    requires { length clients.items ≡ plan.now.threads }
    ensures ran { IfOk result (λ r. IsRun C.works (planned plan.now) clients.items r.clients.items r.settled) }
    ensures sound { OnOk result (IsSound plan.now) }
    ensures bad { IfErr result (λ f. f ≡ CrewFault.BadPlan ↔ ¬ IsSound plan.now) }
    ensures unsettled { IfErr result (PutsBack (HasRunAll C.works (planned plan.now) clients.items)) }
{
    let opened = open_clients(rt, alloc, plan, clients)?;
    match opened.run_in_turns(rt, alloc) {
        Ok(run) => Ok(run),
        Err(ran) => Err(CrewFault::Unsettled(ran)),
    }
}
