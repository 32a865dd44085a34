//! What is checked before any lane is closed.
ghost use Rattle.std.specs.Prelude.{◌≡◌, ◌↔◌, ◌≤◌, IsTrue, length};
ghost use Rattle.std.specs.List.{All};
ghost use Rattle.xa_switch.specs.Belonging.{first_opening, has_desk, has_worker, HasDesks, HasWorkers};
ghost use Rattle.xa_switch.specs.Belonging.{AreOfOne, AreAll};

use xa_base::MOST_SENDERS;
use xa_desk::EndedDesk;
use xa_worker::DoneWorker;

/// The opening of the first piece.
pub(crate) fn first_opening(desks: &[EndedDesk], workers: &[DoneWorker]) -> u64
    ensures { result ≡ first_opening desks.now workers.now }
{
    match desks {
        [desk, ..] => desk.opening(),
        [] => match workers {
            [worker, ..] => worker.opening(),
            [] => 0,
        },
    }
}

/// Whether no piece is of another opening than the first.
pub(crate) fn are_of_one(desks: &[EndedDesk], workers: &[DoneWorker]) -> bool
    ensures { IsTrue result ↔ AreOfOne desks.now workers.now }
{
    let opening = first_opening(desks, workers);
    desks.iter().all(|desk| desk.opening() == opening)
        && workers.iter().all(|worker| worker.opening() == opening)
}

#[tactic(auto, using(xa_base::proofs::ne_eqb, xa_base::proofs::list_any_none))]
fn has_desk(thread: u32, desks: &[EndedDesk]) -> bool
    ensures there { result ≡ has_desk thread desks.now }
    ensures few { IsTrue result → thread ≤ MOST_SENDERS }
{
    for desk in desks {
        if desk.number() == thread {
            return true;
        }
    }
    false
}

fn has_worker(manager: u32, workers: &[DoneWorker]) -> bool
    ensures { result ≡ has_worker manager workers.now }
{
    workers.iter().any(|worker| worker.number() == manager)
}

// Whether the desks of threads 1 to `count` are there.
fn has_desks(count: u32, desks: &[EndedDesk]) -> bool
    ensures there { IsTrue result ↔ HasDesks count desks.now }
    ensures few { IsTrue result → count ≤ MOST_SENDERS }
{
    for before in 0..count {
        if !has_desk(before + 1, desks) {
            return false;
        }
    }
    true
}

// Whether the workers of managers 1 to `count` are there.
fn has_workers(count: u32, workers: &[DoneWorker]) -> bool
    ensures { IsTrue result ↔ HasWorkers count workers.now }
{
    for before in 0..count {
        if !has_worker(before + 1, workers) {
            return false;
        }
    }
    true
}

fn each_has_workers(desks: &[EndedDesk], workers: &[DoneWorker]) -> bool
    ensures there { IsTrue result ↔ All (λ d. HasWorkers (length d.ledgers) workers.now) desks.now }
    ensures few { IsTrue result → All (λ d. length d.ledgers ≤ MOST_SENDERS) desks.now }
{
    for desk in desks {
        if !has_workers(desk.peers(), workers) {
            return false;
        }
    }
    true
}

fn each_has_desks(desks: &[EndedDesk], workers: &[DoneWorker]) -> bool
    ensures there { IsTrue result ↔ All (λ w. HasDesks w.manager.threads desks.now) workers.now }
    ensures few { IsTrue result → All (λ w. w.manager.threads ≤ MOST_SENDERS) workers.now }
{
    for worker in workers {
        if !has_desks(worker.peers(), desks) {
            return false;
        }
    }
    true
}

/// Whether every desk and every worker of the opening is there.
pub(crate) fn are_all(desks: &[EndedDesk], workers: &[DoneWorker]) -> bool
    ensures all { IsTrue result ↔ AreAll desks.now workers.now }
    ensures few_managers { IsTrue result → All (λ d. length d.ledgers ≤ MOST_SENDERS) desks.now }
    ensures few_threads { IsTrue result → All (λ w. w.manager.threads ≤ MOST_SENDERS) workers.now }
{
    !desks.is_empty()
        && !workers.is_empty()
        && each_has_workers(desks, workers)
        && each_has_desks(desks, workers)
}
