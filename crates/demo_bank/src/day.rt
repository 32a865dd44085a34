//! A day of the bank: its tellers at work, and what is settled in the end.
ghost use Rattle.std.specs.Prelude.{◌≡◌, length, All, IfErr, IfOk};
ghost use Rattle.xa_switch.specs.Plans.{IsSound, planned};
ghost use Rattle.xa_switch.specs.Worth.{plan_worth, settled_worth};
ghost use Rattle.xa_crew.specs.Run.{HasRunAll, IsRun, PutsBack};
ghost use Rattle.demo_bank.specs.Tellers.{EndsWhole, TellerWorks};

use crate::teller::Teller;
use laws_commit::{managers_open_with_their_accounts, transfers_conserve_the_worth};
use laws_tables::a_thread_adds_as_it_works;
use std::alloc::Global;
use std::sync::Wait;
use std::thread::Threads;
use xa_crew::{CrewFault, Run, run_clients};
use xa_log::DecisionLog;
use xa_switch::Plan;
use xa_worker::Free;

/// What a day came to: each teller with what became of its transfers, and the settled opening.
pub type Day<L> = Run<Teller<L>>;

/// Runs a teller for each thread of the plan, each in a thread of its own, and a thread for each store, and settles
/// what they have come to. The teller at place t has thread t + 1.
///
/// No money is lost or made: where no teller wanted memory and no branch of a transfer is in doubt, all
/// accounts are together worth what the plan declares. That is so also where tellers died, but for one that was telling
/// the stores its decision, and where a log has lost a record. What such a teller left is resolved by its log in the
/// next opening.
///
/// The faults are those of the crew: `BadPlan` where the plan can't be opened, `NoMemory`, and `Unsettled` with what
/// the tellers and the stores have come to.
pub fn run_day<R: Threads + Wait + Copy + Send + 'static, L: DecisionLog + Drop + Send + 'static>(
    rt: &R,
    alloc: Global,
    plan: &Plan,
    tellers: Vec<Teller<L>>,
) -> Result<Day<L>, CrewFault<Teller<L>>>
    requires { length tellers.items ≡ plan.now.threads }
    ensures ran { IfOk result (λ day. IsRun (TellerWorks L.state L.knows L.loses) (planned plan.now) tellers.items
        day.clients.items day.settled) }
    ensures conserved { IfOk result (λ day. All EndsWhole day.clients.items
        → settled_worth plan.now day.settled ≡ plan_worth plan.now) }
    ensures bad { IfErr result (λ f. f ≡ CrewFault.BadPlan → ¬ IsSound plan.now) }
    ensures unsettled { IfErr result (PutsBack (HasRunAll (TellerWorks L.state L.knows L.loses) (planned plan.now)
        tellers.items)) }
{
    transfers_conserve_the_worth();
    managers_open_with_their_accounts();
    a_thread_adds_as_it_works();
    let paces = vec![in alloc; Free; plan.managers.len()]?;
    run_clients(rt, alloc, plan, tellers, paces)
}
