//! A day of the bank and its night.
ghost use Rattle.std.specs.Prelude.{◌≡◌, ◌↔◌, ◌^◌, ◌<◌, ◌≤◌, [], length, map, vec_capacity, IfErr, IfOk, IsTrue};
ghost use Rattle.std.specs.List.{list_any};
ghost use Rattle.xa_switch.specs.Reopening.{MayReopen, managers_in};
ghost use Rattle.demo_bank.specs.Tellers.{ReadsBack};
ghost use Rattle.demo_bank_days.specs.Days.{ForEach};
ghost use Rattle.demo_bank_days.specs.Banks.{HasRoomForTellers, TellersHaveWorked, IsClosedByNight, IsOver};
ghost use Rattle.demo_bank_days.specs.Banks.{IsUnresolved, IsWorkedDay, LeavesBank, LeavesDay, next_numbers};
ghost use Rattle.demo_bank_days.specs.Nights.{HasPassed, IsUnsettledNight};

use crate::bank::{Bank, next_numbers};
use crate::errands::{Errands, turn_all};
use crate::night::{Night, Resolver, Unresolved, run_night};
use demo_bank::Teller;
use std::alloc::{AllocError, Global};
use std::mem;
use std::sync::Wait;
use std::thread::Threads;
use xa_crew::{Attended, Ran, Run};
use xa_crew_again::{AgainFault, WithScan, run_clients_again};
use xa_driver::Resolved;
use xa_log::{DecisionLog, ReopenLog};
use xa_switch::laws::reopened_openings_go_on_from_what_was_left;
use xa_switch::{Again, Settled};
use xa_words::Code;
use xa_work::WorkOutcome;
use xa_worker::Free;

/// What a day came to, and its night.
#[derive(Drop)]
pub struct Closed {
    /// Of each teller, by rising thread, what became of the transfers that it made.
    pub outcomes: Vec<Vec<WorkOutcome>>,
    /// Of each teller, whether its log was found to have the record of a transfer, of which nobody knew whether it was
    /// made before the log was opened again. Such a transfer is to be applied where it was found. Where a teller has
    /// none, or its log still isn't known, it is false.
    pub found: Vec<bool>,
    /// What was left, and what became of it in the night, or why nothing was resolved.
    pub resolved: Result<Resolved, Unresolved>,
}

impl Closed {
    /// Whether all is over: what was left is resolved, and each branch of it ended as it was to.
    pub fn is_over(&self) -> bool
        ensures { IsTrue result ↔ IsOver self.now }
    {
        match &self.resolved {
            Ok(resolved) => resolved
                .outcomes
                .iter()
                .all(|outcome| matches!(outcome.code, Code::Done)),
            Err(_) => false,
        }
    }
}

/// Why a day wasn't begun, or can't go on. Nothing is lost: the stores and the tellers are in what comes back.
#[derive(Drop)]
pub enum Stop<L> {
    /// The errands aren't one for each teller, or there are no numbers for all transfers. Nothing was done.
    BadDay(Bank<L>),
    /// Memory was refused before anything was done.
    NoMemory(Bank<L>),
    /// The fault of the day's crew.
    Day(AgainFault<Teller<L>>),
    /// Memory was refused for the settling of a night: the day, and what the night came to.
    Night(Closed, Ran<WithScan<Resolver<L>>>),
}

// What tellers come to on a day, in the evening: they are off work.
#[derive(Drop)]
struct Evening<L> {
    tellers: Vec<Teller<L>>,
    // What became of their transfers.
    outcomes: Vec<Vec<WorkOutcome>>,
    // Whether their logs were found to have a record of which they didn't know.
    found: Vec<bool>,
}

// Room for a day: for so many tellers that are turned, for the paces of so many stores, and for the evening.
fn reserve<L: Drop>(
    alloc: Global,
    tellers: usize,
    stores: usize,
) -> Result<(Vec<Teller<L>>, Vec<Free>, Evening<L>), AllocError>
    ensures none { IfOk result (λ r. r.0.items ≡ []) }
    ensures turned { IfOk result (λ r. tellers ≤ vec_capacity r.0) }
    ensures paces { IfOk result (λ r. stores ≤ length r.1.items) }
    ensures room { IfOk result (λ r. HasRoomForTellers tellers r.2) }
{
    let evening = Evening {
        tellers: Vec::with_capacity(alloc, tellers)?,
        outcomes: Vec::with_capacity(alloc, tellers)?,
        found: Vec::with_capacity(alloc, tellers)?,
    };
    let paces = vec![in alloc; Free; stores]?;
    Ok((Vec::with_capacity(alloc, tellers)?, paces, evening))
}

// Whether one of the tellers was refused memory.
fn want_memory<L>(clients: &[Attended<WithScan<Teller<L>>>]) -> bool
    ensures { result ≡ list_any (λ a. a.client.client.wants_memory) clients.now }
{
    clients.iter().any(|it| it.client.client.wants_memory)
}

// The tellers, off work, with their logs read back, what these were found to have, and their outcomes.
fn all_off_work<L: ReopenLog + Drop>(
    alloc: Global,
    clients: Vec<Attended<WithScan<Teller<L>>>>,
    mut evening: Evening<L>,
) -> Evening<L>
    requires few { length clients.items < 2 ^ 32 }
    requires room { HasRoomForTellers (length clients.items) evening }
    ensures logs { ForEach (ReadsBack L.state L.knows L.loses L.reopens) 1 (map (λ a. a.client.client) clients.items)
        (map (λ t. t.log) result.tellers.items) result.found.items }
    ensures outcomes { result.outcomes.items ≡ map (λ a. a.client.client.outcomes) clients.items }
{
    let mut thread = 0;
    for attended in clients {
        thread += 1;
        let (mut teller, has) = attended.client.client.read_back(thread);
        let outcomes = mem::replace(&mut teller.outcomes, Vec::new(alloc));
        evening.outcomes.push_reserved(outcomes);
        evening.found.push_reserved(has);
        evening.tellers.push_reserved(teller);
    }
    evening
}

// What a day came to before its night.
#[derive(Drop)]
struct Worked<L> {
    evening: Evening<L>,
    settled: Settled,
    // Whether a teller was refused memory.
    wanting: bool,
}

// Opens the stores again, and runs the tellers and the stores.
fn work_day<R: Threads + Wait + Copy + Send + 'static, L: ReopenLog + Drop + Send + 'static>(
    rt: &R,
    alloc: Global,
    settled: Settled,
    again: &Again,
    tellers: Vec<Teller<L>>,
    paces: Vec<Free>,
    evening: Evening<L>,
) -> Result<Worked<L>, AgainFault<Teller<L>>>
    requires tellers { length tellers.items ≡ again.now.threads }
    requires few { length tellers.items < 2 ^ 32 }
    requires paces { managers_in settled ≤ length paces.items }
    requires room { HasRoomForTellers (length tellers.items) evening }
    ensures worked { IfOk result (TellersHaveWorked L.state L.knows L.loses L.reopens settled tellers.items) }
    ensures night { IfOk result (λ w. MayReopen w.settled (next_numbers again.now 1)) }
    ensures stopped { IfErr result (LeavesDay L.state L.knows L.loses settled again.now tellers.items) }
{
    settled.is_settled();
    reopened_openings_go_on_from_what_was_left();
    let Run { clients, settled } = run_clients_again(rt, alloc, settled, again, tellers, paces)?;
    settled.is_settled();
    let wanting = want_memory(&clients);
    let evening = all_off_work(alloc, clients, evening);
    Ok(Worked {
        evening,
        settled,
        wanting,
    })
}

// Passes the night after a day with these numbers, or none where a teller wants memory. It comes to the numbers that
// the stores have then, too.
fn pass_night<R: Wait, L: DecisionLog + Drop>(
    rt: &R,
    alloc: Global,
    settled: Settled,
    day: &Again,
    tellers: Vec<Teller<L>>,
    wanting: bool,
) -> Result<(Again, Night<L>), Ran<WithScan<Resolver<L>>>>
    requires { MayReopen settled (next_numbers day.now 1) }
    ensures passed { IfOk result (λ r. HasPassed L.state L.knows settled day.now (next_numbers day.now 1) tellers
        wanting r.0 r.1) }
    ensures unsettled { IfErr result (IsUnsettledNight L.state L.knows tellers settled (next_numbers day.now 1)) }
{
    if wanting {
        let night = Night {
            resolved: Err(Unresolved::TellerWantsMemory),
            tellers,
            settled,
        };
        return Ok((*day, night));
    }
    settled.is_settled();
    reopened_openings_go_on_from_what_was_left();
    let again = next_numbers(day, 1);
    let night = run_night(rt, alloc, settled, &again, tellers)?;
    night.settled.is_settled();
    Ok((again, night))
}

impl<L: ReopenLog + Drop + Send + 'static> Bank<L> {
    /// A day and its night. Each teller is turned to its errands and works, in a thread of its own, over stores that
    /// are opened again, each in a thread too. In the evening a log is opened again where nobody knows whether it has
    /// the record of its teller's last transfer; then a night resolves what the day left.
    pub fn close_day<R: Threads + Wait + Copy + Send + 'static>(
        self,
        rt: &R,
        alloc: Global,
        errands: Vec<Errands>,
    ) -> Result<(Closed, Bank<L>), Stop<L>>
        ensures worked { IfOk result (λ r. IsWorkedDay L.state L.knows L.loses L.reopens self errands.items r.0 r.1) }
        ensures closed { IfOk result
            (λ r. IfOk r.0.resolved (λ z. IsClosedByNight L.state L.knows L.loses L.reopens self
            errands.items r.0 z.outcomes.items r.1)) }
        ensures unresolved { IfOk result (λ r. IfErr r.0.resolved (λ why. IsUnresolved L.state L.knows L.loses L.reopens
            self errands.items r.0 why r.1)) }
        ensures stopped { IfErr result (LeavesBank L.state L.knows L.loses L.reopens self errands.items) }
    {
        let Some((next, threads)) = self.after(&errands) else {
            return Err(Stop::BadDay(self));
        };
        let stores = self.settled.managers();
        let Ok((turned, paces, evening)) = reserve(alloc, threads as usize, stores) else {
            return Err(Stop::NoMemory(self));
        };
        let tellers = turn_all(self.tellers, self.next, errands, turned);
        let again = next_numbers(&self.again, threads);
        let day = match work_day(rt, alloc, self.settled, &again, tellers, paces, evening) {
            Ok(day) => day,
            Err(fault) => return Err(Stop::Day(fault)),
        };
        let Evening {
            tellers,
            outcomes,
            found,
        } = day.evening;
        match pass_night(rt, alloc, day.settled, &again, tellers, day.wanting) {
            Ok((again, night)) => {
                let closed = Closed {
                    outcomes,
                    found,
                    resolved: night.resolved,
                };
                let bank = Bank {
                    tellers: night.tellers,
                    settled: night.settled,
                    again,
                    next,
                };
                Ok((closed, bank))
            }
            Err(ran) => {
                let closed = Closed {
                    outcomes,
                    found,
                    resolved: Err(Unresolved::NoMemory),
                };
                Err(Stop::Night(closed, ran))
            }
        }
    }
}
