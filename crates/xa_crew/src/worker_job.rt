//! A worker's thread.
ghost use Rattle.std.specs.Prelude.{◌≡◌, ◌≤◌, [], length, map, vec_capacity, IfOk};
ghost use Rattle.xa_crew.specs.Stores.{HasServedStored};

use std::alloc::{AllocError, Global};
use std::sync::Wait;
use xa_jobs::{Go, Job};
use xa_store::{NoStore, Store};
use xa_worker::{DoneWorker, Pace, Worker};

/// A worker with the store of its manager, and what happens before each of its requests.
#[derive(Drop)]
pub(crate) struct WorkerJob<P, S> {
    worker: Worker,
    pace: P,
    store: S,
}

/// A worker that has run, and the store of its manager.
#[derive(Drop)]
pub(crate) struct StoredWorker<S> {
    done: DoneWorker,
    store: S,
}

impl<P: Pace + Drop, S: Store + Drop> Job<StoredWorker<S>> for WorkerJob<P, S> {
    ghost use Rattle.xa_crew.specs.Stores.{HasServedStored};

    ghost can_run = { λ j. Unit {0} };

    ghost comes_to = { λ j d. HasServedStored S.knows S.may_leave j d };

    fn run<R: Wait>(self, rt: &R, _go: &Go<'_>) -> StoredWorker<S> {
        let WorkerJob {
            worker,
            mut pace,
            mut store,
        } = self;
        let done = worker.run(rt, &mut pace, &mut store);
        StoredWorker { done, store }
    }
}

/// Each worker with the pace and the store at its place.
pub(crate) fn worker_jobs_of<P: Drop, S: Drop>(
    workers: Vec<Worker>,
    paces: Vec<P>,
    stores: Vec<S>,
    mut worker_jobs: Vec<WorkerJob<P, S>>,
) -> Vec<WorkerJob<P, S>>
    requires paces { length workers.items ≤ length paces.items }
    requires stores { length stores.items ≡ length workers.items }
    requires none { worker_jobs.items ≡ [] }
    requires room { length workers.items ≤ vec_capacity worker_jobs }
    ensures workers { map (λ j. j.worker) result.items ≡ workers.items }
    ensures stores { map (λ j. j.store) result.items ≡ stores.items }
{
    let mut paces = paces.into_iter();
    let mut stores = stores.into_iter();
    for worker in workers {
        let Some(pace) = paces.next() else {
            unreachable!()
        };
        let Some(store) = stores.next() else {
            unreachable!()
        };
        worker_jobs.push_reserved(WorkerJob {
            worker,
            pace,
            store,
        });
    }
    worker_jobs
}

/// Their workers and the stores, where their jobs weren't done.
pub(crate) fn workers_of<P: Drop, S: Drop>(
    worker_jobs: Vec<WorkerJob<P, S>>,
    mut workers: Vec<Worker>,
    mut stores: Vec<S>,
) -> (Vec<Worker>, Vec<S>)
    requires no_workers { workers.items ≡ [] }
    requires no_stores { stores.items ≡ [] }
    requires room { length worker_jobs.items ≤ vec_capacity workers }
    requires store_room { length worker_jobs.items ≤ vec_capacity stores }
    ensures workers { result.0.items ≡ map (λ j. j.worker) worker_jobs.items }
    ensures stores { result.1.items ≡ map (λ j. j.store) worker_jobs.items }
{
    for worker_job in worker_jobs {
        let WorkerJob {
            worker,
            pace: _,
            store,
        } = worker_job;
        workers.push_reserved(worker);
        stores.push_reserved(store);
    }
    (workers, stores)
}

/// The workers that have run, and the stores, where there is room for them.
pub(crate) fn stores_apart<S: Drop>(
    stored: Vec<StoredWorker<S>>,
    mut workers: Vec<DoneWorker>,
    mut stores: Vec<S>,
) -> (Vec<DoneWorker>, Vec<S>)
    requires no_workers { workers.items ≡ [] }
    requires no_stores { stores.items ≡ [] }
    requires room { length stored.items ≤ vec_capacity workers }
    requires store_room { length stored.items ≤ vec_capacity stores }
    ensures workers { result.0.items ≡ map (λ d. d.done) stored.items }
    ensures stores { result.1.items ≡ map (λ d. d.store) stored.items }
{
    for one in stored {
        let StoredWorker { done, store } = one;
        workers.push_reserved(done);
        stores.push_reserved(store);
    }
    (workers, stores)
}

/// A store that keeps nothing, for each of so many managers.
pub(crate) fn no_stores(alloc: Global, managers: usize) -> Result<Vec<NoStore>, AllocError>
    ensures { IfOk result (λ stores. length stores.items ≡ managers) }
{
    vec![in alloc; NoStore; managers]
}
