//! Days of the bank, one after the other.
ghost use Rattle.std.specs.Prelude.{IfErr, IfOk};
ghost use Rattle.demo_bank_days.specs.Banks.{AreOver, HasEnded, HasStopped, IsMovedBy, IsReadyForDay, told_over};

use crate::bank::Bank;
use crate::day::{Closed, Stop};
use crate::errands::Errands;
use crate::law::a_day_applies_its_transfers;
use std::alloc::Global;
use std::sync::Wait;
use std::thread::Threads;
use xa_log::ReopenLog;

/// Days that are over, in their order, and the bank after them, or why it doesn't go on.
#[derive(Drop)]
pub struct Days<L> {
    pub closed: Vec<Closed>,
    pub end: Result<Bank<L>, Stop<L>>,
}

// Closes days, up to one that stops or isn't over.
fn close_days<R: Threads + Wait + Copy + Send + 'static, L: ReopenLog + Drop + Send + 'static>(
    rt: &R,
    alloc: Global,
    mut bank: Bank<L>,
    days: Vec<Vec<Errands>>,
) -> Days<L>
    ensures ended { IfOk result.end (HasEnded L.state L.knows L.loses L.reopens bank days.items result.closed.items) }
    ensures stopped { IfErr result.end (HasStopped L.state L.knows L.loses L.reopens bank days.items
        result.closed.items) }
{
    let Ok(mut closed) = Vec::with_capacity(alloc, days.len()) else {
        let (closed, end) = (Vec::new(alloc), Err(Stop::NoMemory(bank)));
        return Days { closed, end };
    };
    for errands in days {
        match bank.close_day(rt, alloc, errands) {
            Ok((day, after)) => {
                let over = day.is_over();
                closed.push_reserved(day);
                if !over {
                    let end = Ok(after);
                    return Days { closed, end };
                }
                bank = after;
            }
            Err(stop) => {
                let end = Err(stop);
                return Days { closed, end };
            }
        }
    }
    let end = Ok(bank);
    Days { closed, end }
}

/// Day after day: each teller has its errands of each. It ends early where a day stops, or isn't over, which is the
/// last of those that are closed.
///
/// No transfer is applied in part: where all days are over, each account of each store has the balance after all that
/// were applied, as their tellers were told, or as their logs were found to have it where a teller couldn't be told.
/// That asks that the logs had no record of the bank's when it was opened.
pub fn run_days<R: Threads + Wait + Copy + Send + 'static, L: ReopenLog + Drop + Send + 'static>(
    rt: &R,
    alloc: Global,
    bank: Bank<L>,
    days: Vec<Vec<Errands>>,
) -> Days<L>
    ensures ended { IfOk result.end (HasEnded L.state L.knows L.loses L.reopens bank days.items result.closed.items) }
    ensures stopped { IfErr result.end (HasStopped L.state L.knows L.loses L.reopens bank days.items
        result.closed.items) }
    ensures moved { IfOk result.end (λ after. AreOver days.items result.closed.items → IsReadyForDay L.state bank
        → IsMovedBy L.state (told_over days.items result.closed.items) bank after) }
{
    a_day_applies_its_transfers::<L>();
    close_days(rt, alloc, bank, days)
}
