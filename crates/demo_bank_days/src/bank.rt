//! The bank between its days, and how it is opened.
ghost use Rattle.std.specs.Prelude.{◌≡◌, ◌+◌, ◌^◌, ◌<◌, ◌≤◌, length, IfErr, IfOk, IfSome};
ghost use Rattle.std.specs.List.{All};
ghost use Rattle.xa_switch.specs.Plans.{IsSound};
ghost use Rattle.demo_bank_days.specs.Banks.{IsGoodDay, IsOpenedBank, next_numbers};

use crate::errands::{Errands, most};
use demo_bank::Teller;
use std::alloc::Global;
use std::sync::Wait;
use xa_crew::laws::idles_go_on;
use xa_crew::{Client, CrewFault, run_clients_in_turns};
use xa_desk::laws::desks_go_on;
use xa_desk::{Desk, Idle};
use xa_log::DecisionLog;
use xa_switch::{Again, OpenFault, Plan, Settled};

/// A bank between its days: its tellers, each of which is a thread of control, and its stores.
#[derive(Drop)]
pub struct Bank<L> {
    pub tellers: Vec<Teller<L>>,
    /// The stores as the last opening left them.
    pub settled: Settled,
    // The numbers of that opening.
    pub(crate) again: Again,
    // The number of the next transfers: all that were made have lower ones.
    pub(crate) next: u32,
}

// A thread that does nothing, in the opening that a bank begins with.
#[derive(Clone, Copy, Drop)]
struct Idler;

impl Client for Idler {
    ghost use Rattle.std.specs.Prelude.{◌≡◌};

    ghost works = { λ idler desk idler' desk'. desk' ≡ desk };

    fn work<R: Wait, I: Idle>(&mut self, _rt: &R, _desk: &mut Desk, _idle: &mut I) {
        desks_go_on();
        idles_go_on::<I>();
    }
}

/// The numbers of the next opening, with so many threads.
pub(crate) fn next_numbers(again: &Again, threads: u32) -> Again
    ensures numbers { result ≡ next_numbers again.now threads }
    ensures threads { result.threads ≡ threads }
{
    Again {
        opening: again.opening.wrapping_add(1),
        threads,
        ..*again
    }
}

impl<L: DecisionLog + Drop> Bank<L> {
    /// Opens the stores of a plan for these tellers, who have nothing to do yet: each account has what the plan
    /// declares. With a fault the tellers come back.
    #[tactic(auto, using(crate::proofs::Nightly::all_stores, crate::proofs::Nightly::tables))]
    pub fn open<R: Wait>(
        rt: &R,
        alloc: Global,
        plan: &Plan,
        tellers: Vec<Teller<L>>,
    ) -> Result<Bank<L>, (OpenFault, Vec<Teller<L>>)>
        ensures opened { IfOk result (IsOpenedBank plan.now tellers.items) }
        ensures back { IfErr result (λ e. e.1 ≡ tellers) }
        ensures bad { IfErr result (λ e. e.0 ≡ OpenFault.BadPlan → ¬ IsSound plan.now) }
    {
        let Ok(idlers) = vec![in alloc; Idler; plan.threads as usize] else {
            return Err((OpenFault::NoMemory, tellers));
        };
        match run_clients_in_turns(rt, alloc, plan, idlers) {
            Ok(run) => {
                run.settled.is_settled();
                let again = Again {
                    opening: plan.opening,
                    threads: plan.threads,
                    handles: plan.handles,
                    queue: plan.queue,
                    requests: plan.requests,
                };
                Ok(Bank {
                    tellers,
                    settled: run.settled,
                    again,
                    next: 0,
                })
            }
            Err(CrewFault::BadPlan) => Err((OpenFault::BadPlan, tellers)),
            Err(_) => Err((OpenFault::NoMemory, tellers)),
        }
    }

    /// The number of the transfers after a day of these errands, and how many threads work on them. None where they
    /// aren't one for each teller, or there are no numbers for them.
    pub(crate) fn after(&self, errands: &[Errands]) -> Option<(u32, u32)>
        ensures none { result ≡ None → IsGoodDay self.now errands.now → ⊥ }
        ensures as_many { IfSome result (λ r. length errands.now ≡ length self.now.tellers.items) }
        ensures threads { IfSome result (λ r. r.1 ≡ length errands.now) }
        ensures few { IfSome result (λ r. length errands.now < 2 ^ 32) }
        ensures later { IfSome result (λ r. self.now.next ≤ r.0) }
        ensures next { IfSome result (λ r. All (λ e. self.now.next + length e.transfers.items ≤ r.0) errands.now) }
    {
        if errands.len() != self.tellers.len() {
            return None;
        }
        let next = u32::try_from((self.next as usize).saturating_add(most(errands))).ok()?;
        Some((next, u32::try_from(errands.len()).ok()?))
    }
}
