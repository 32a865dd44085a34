//! The end of a desk.
ghost use Rattle.std.specs.Prelude.{◌+◌, ◌<◌, ◌≤◌, ◌≡◌, length, vec_capacity};
ghost use Rattle.xa_desk.specs.Ended.{Ends};
ghost use Rattle.xa_desk.specs.GoingOn.{GoesOn};
ghost use Rattle.xa_desk.specs.Kept.{AllKept, HoldsNone};
ghost use Rattle.xa_crew.specs.Ending.{EndsNumber, EndsNumbers, EndsDesk};

use std::sync::Wait;
use xa_base::MOST_HANDLES;
use xa_calls::laws::outstanding_operations_stay_kept;
use xa_desk::laws::desks_go_on;
use xa_desk::{Desk, EndedDesk, Idle};
use xa_words::Code;

// Collects what the desk keeps under the number, and tells it.
fn end_number<R: Wait, I: Idle>(
    rt: &R,
    desk: &mut Desk,
    number: u32,
    idle: &mut I,
    told: &mut Vec<(u32, Code)>,
)
    requires { length told.old.items < vec_capacity told.old }
    ensures ends { EndsNumber number (desk.old, told.old.items) (desk.new, told.new.items) }
    ensures goes_on { GoesOn desk.old desk.new }
    ensures idled { I.leads idle.old idle.new }
    ensures few { length told.new.items ≤ length told.old.items + 1 }
    ensures room { vec_capacity told.new ≡ vec_capacity told.old }
{
    desks_go_on();
    let Some(ticket) = desk.redeem(number) else {
        return;
    };
    let code = desk.complete(rt, ticket, idle);
    told.push_reserved((number, code));
}

// The same for the number of each handle, in rising order.
#[tactic(auto, using(xa_base::proofs::range_with_len, xa_base::proofs::cases_lt))]
fn end_numbers<R: Wait, I: Idle>(rt: &R, desk: &mut Desk, idle: &mut I, told: &mut Vec<(u32, Code)>)
    requires { length told.old.items + MOST_HANDLES ≤ vec_capacity told.old }
    ensures ends { EndsNumbers (desk.old, told.old.items) (desk.new, told.new.items) }
    ensures none { HoldsNone desk.new }
    ensures goes_on { GoesOn desk.old desk.new }
    ensures idled { I.leads idle.old idle.new }
    ensures few { length told.new.items ≤ length told.old.items + MOST_HANDLES }
    ensures room { vec_capacity told.new ≡ vec_capacity told.old }
{
    desks_go_on();
    for before in 0..desk.handles() {
        end_number(rt, desk, before + 1, idle, told);
    }
}

/// Collects what is outstanding at the desk, by rising handle, and ends the desk. It tells the number of
/// each handle, from 1 to 32, with the code of its operation.
///
/// It waits for each completion, and where a manager's lane is full for its end mark, by `idle`. The caller
/// has the memory for what is told.
pub fn end_desk<R: Wait, I: Idle>(
    rt: &R,
    mut desk: Desk,
    idle: &mut I,
    told: &mut Vec<(u32, Code)>,
) -> EndedDesk
    requires kept { AllKept desk }
    requires room { length told.old.items + MOST_HANDLES ≤ vec_capacity told.old }
    ensures ends { EndsDesk desk told.old.items result told.new.items }
    ensures idled { I.leads idle.old idle.new }
    ensures few { length told.new.items ≤ length told.old.items + MOST_HANDLES }
    ensures room { vec_capacity told.new ≡ vec_capacity told.old }
{
    outstanding_operations_stay_kept();
    end_numbers(rt, &mut desk, idle, told);
    finish(rt, desk, idle)
}

// Ends a desk that keeps nothing, at which so nothing is outstanding.
#[tactic(auto, using(xa_base::proofs::arith))]
fn finish<R: Wait, I: Idle>(rt: &R, desk: Desk, idle: &mut I) -> EndedDesk
    requires kept { AllKept desk }
    requires none { HoldsNone desk }
    ensures ended { Ends desk result }
    ensures idled { I.leads idle.old idle.new }
{
    outstanding_operations_stay_kept();
    match desk.finish(rt, idle) {
        Ok(ended) => ended,
        Err(_) => unreachable!(),
    }
}
