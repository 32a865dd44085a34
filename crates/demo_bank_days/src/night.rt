//! A night of the bank: what a day left in doubt is resolved by the logs of all tellers.
ghost use Rattle.std.specs.Prelude.{◌≡◌, IfErr, IfOk, map};
ghost use Rattle.std.specs.List.{All};
ghost use Rattle.xa_desk.specs.GoingOn.{GoesOn};
ghost use Rattle.xa_desk.specs.Kept.{AllKept};
ghost use Rattle.xa_driver.specs.Resolving.{IsTraceOfResolve, MayResolve};
ghost use Rattle.xa_switch.specs.Reopening.{MayReopen};
ghost use Rattle.demo_bank_days.specs.Days.{records_of_logs};
ghost use Rattle.demo_bank_days.specs.Nights.{Excuses, HasRoomToResolve, IsNight, IsUnsettledNight};
ghost use Rattle.demo_bank_days.specs.Nights.{IsUntouched};

use demo_bank::Teller;
use std::alloc::Global;
use std::sync::Wait;
use xa_crew::Ran;
use xa_crew::laws::idles_go_on;
use xa_crew_again::{AgainFault, ClientAgain, WithScan, run_clients_again_in_turns};
use xa_desk::laws::desks_go_on;
use xa_desk::{Desk, Idle};
use xa_driver::{ResolveFault, Resolved, may_resolve, resolve};
use xa_log::{DecisionLog, DecisionRecords};
use xa_scan::Scan;
use xa_switch::laws::reopened_openings_go_on_from_what_was_left;
use xa_switch::{Again, OpenFault, Settled};

/// Why nothing was resolved of what a day left.
#[derive(Clone, Copy, Debug, PartialEq, Eq)]
pub enum Unresolved {
    /// A teller was refused memory on the day, and so there was no night.
    TellerWantsMemory,
    /// The records of a log aren't known.
    UnknownLog,
    /// The numbers of the night have fewer requests than it takes at a store: one to open it, and two for each branch
    /// that was left there.
    NoRoom,
    /// The stores may not be opened again with these numbers.
    BadNumbers,
    /// Memory was refused in the night.
    NoMemory,
}

/// The client of a night: tellers that are off work. What its scan has is resolved by their logs.
#[derive(Drop)]
pub struct Resolver<L> {
    alloc: Global,
    tellers: Vec<Teller<L>>,
    // Before it worked, want of memory: nothing else keeps it from that.
    resolved: Result<Resolved, Unresolved>,
}

impl<L: DecisionLog + Drop> Resolver<L> {
    // Resolves what the scan has, by the tellers' logs; or tells why nothing was sent.
    fn resolve_left<R: Wait, I: Idle>(
        &self,
        rt: &R,
        desk: &mut Desk,
        scan: &Scan,
        idle: &mut I,
    ) -> Result<Resolved, Unresolved>
        ensures goes_on { GoesOn desk.old desk.new }
        ensures kept { AllKept desk.old → AllKept desk.new }
        ensures idled { I.leads idle.old idle.new }
        ensures came { IfOk result (λ z. All (λ t. L.knows t.log) self.now.tellers.items
            × IsTraceOfResolve scan.now
            (records_of_logs L.state (map (λ t. t.log) self.now.tellers.items)) desk.old.ledgers
            desk.new.ledgers z.outcomes.items) }
        ensures left { IfErr result (λ why. (desk.new ≡ desk.old)
            × Excuses ⊥ (All (λ t. L.knows t.log) self.now.tellers.items) (MayResolve desk.old scan.now) (Unit {0})
            why) }
    {
        desks_go_on();
        idles_go_on::<I>();
        let logs = self.tellers.as_slice();
        if !logs.is_known() {
            return Err(Unresolved::UnknownLog);
        }
        if !may_resolve(desk, scan, &logs) {
            return Err(Unresolved::NoRoom);
        }
        match resolve(rt, self.alloc, desk, scan, &logs, idle) {
            Ok(resolved) => Ok(resolved),
            Err(ResolveFault::NoMemory) => Err(Unresolved::NoMemory),
        }
    }
}

impl<L: DecisionLog + Drop> ClientAgain for Resolver<L> {
    ghost use Rattle.demo_bank_days.specs.Nights.{ResolvesBy};

    ghost works_again = { ResolvesBy L.state L.knows };

    fn work_again<R: Wait, I: Idle>(
        &mut self,
        rt: &R,
        desk: &mut Desk,
        scan: &mut Scan,
        idle: &mut I,
    ) {
        self.resolved = self.resolve_left(rt, desk, scan, idle);
    }
}

/// What a night came to.
#[derive(Drop)]
pub struct Night<L> {
    /// What the branches came to that were left, or why nothing was sent.
    pub resolved: Result<Resolved, Unresolved>,
    pub tellers: Vec<Teller<L>>,
    /// The stores: as the night left them, or as they were where they weren't opened again.
    pub settled: Settled,
}

/// Opens the stores again for a night, with one thread, and resolves what was left by the tellers' logs. It goes in the
/// one thread that calls it, and nobody sends a Shut.
///
/// It fails where memory is refused for the settling, with all that the night came to.
pub fn run_night<R: Wait, L: DecisionLog + Drop>(
    rt: &R,
    alloc: Global,
    settled: Settled,
    again: &Again,
    tellers: Vec<Teller<L>>,
) -> Result<Night<L>, Ran<WithScan<Resolver<L>>>>
    requires { again.now.threads ≡ 1 }
    ensures night { IfOk result (λ n. IfOk n.resolved (λ z. IsNight L.state L.knows tellers.items settled again.now
        z.outcomes.items n.settled)) }
    ensures unresolved { IfOk result (λ n. IfErr n.resolved (Excuses ⊥ (All (λ t. L.knows t.log) tellers.items)
        (HasRoomToResolve settled again.now) (MayReopen settled again.now))) }
    ensures untouched { IfOk result (λ n. IfErr n.resolved (λ why. IsUntouched settled again.now n.settled)) }
    ensures tellers { IfOk result (λ n. n.tellers ≡ tellers) }
    ensures unsettled { IfErr result (IsUnsettledNight L.state L.knows tellers settled again.now) }
{
    settled.is_settled();
    reopened_openings_go_on_from_what_was_left();
    let Ok(mut resolvers) = Vec::with_capacity(alloc, 1) else {
        return Ok(Night {
            resolved: Err(Unresolved::NoMemory),
            tellers,
            settled,
        });
    };
    resolvers.push_reserved(Resolver {
        alloc,
        tellers,
        resolved: Err(Unresolved::NoMemory),
    });
    match run_clients_again_in_turns(rt, alloc, settled, again, resolvers) {
        Ok(run) => {
            let mut clients = run.clients;
            let Some(attended) = clients.pop() else {
                unreachable!()
            };
            let resolver = attended.client.client;
            Ok(Night {
                resolved: resolver.resolved,
                tellers: resolver.tellers,
                settled: run.settled,
            })
        }
        Err(AgainFault::Unopened(mut unopened)) => {
            let Some(resolver) = unopened.clients.pop() else {
                unreachable!()
            };
            let why = match unopened.why {
                OpenFault::BadPlan => Unresolved::BadNumbers,
                OpenFault::NoMemory => Unresolved::NoMemory,
            };
            Ok(Night {
                resolved: Err(why),
                tellers: resolver.tellers,
                settled: unopened.settled,
            })
        }
        Err(AgainFault::Unstarted(_)) => unreachable!(),
        Err(AgainFault::Unsettled(ran)) => Err(ran),
    }
}
