//! The pieces of an opening: the desks where there are just one or two, how one ends, and how the
//! workers do.
ghost use Rattle.std.specs.Prelude.{◌≡◌, ◌∷◌, [], IfSome, map};
ghost use Rattle.xa_switch.specs.Belonging.{seat_of_desk, seat_of_ended, seat_of_worker, worker_seats};

use std::alloc::Global;
use std::sync::Wait;
use xa_crew::Turns;
use xa_desk::{Desk, EndedDesk, Idle};
use xa_worker::DoneWorker;

/// The only element. None where there is none, or more.
pub fn one<T: Drop>(mut all: Vec<T>) -> Option<T>
    ensures { IfSome result (λ x. x ∷ [] ≡ all.items) }
{
    let only = all.pop()?;
    if all.is_empty() { Some(only) } else { None }
}

/// The first and the second of two. None where there are fewer, or more.
pub fn two<T: Drop>(mut all: Vec<T>) -> Option<(T, T)>
    ensures { IfSome result (λ r. r.0 ∷ r.1 ∷ [] ≡ all.items) }
{
    let second = all.pop()?;
    let first = one(all)?;
    Some((first, second))
}

/// Ends a desk. None where something is outstanding.
pub fn end<R: Wait, I: Idle>(rt: &R, desk: Desk, idle: &mut I) -> Option<EndedDesk>
    ensures thread { IfSome result (λ e. e.thread ≡ desk.thread) }
    ensures seat { IfSome result (λ e. seat_of_ended e ≡ seat_of_desk desk) }
    ensures lists { IfSome result (λ e. e.ledgers ≡ desk.ledgers) }
    ensures idled { I.leads idle.old idle.new }
{
    match desk.finish(rt, idle) {
        Ok(ended) => Some(ended),
        Err(_) => None,
    }
}

/// Runs all workers to their ends. None for want of memory.
pub fn run_all<R: Wait>(rt: &R, alloc: Global, workers: Turns) -> Option<Vec<DoneWorker>>
    ensures { IfSome result (λ v. worker_seats v.items ≡ map seat_of_worker workers) }
{
    let done = Vec::with_capacity(alloc, workers.managers()).ok()?;
    Some(workers.run(rt, done))
}
