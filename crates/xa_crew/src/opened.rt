//! Clients of one opening with its desks and its workers, before anything is done.
ghost use Rattle.std.specs.Prelude.{◌≡◌, ◌≤◌, ◌↔◌, [], List, length, map, vec_capacity, All, IfOk, IfErr, OnOk};
ghost use Rattle.xa_switch.specs.OpenedPieces.{AreOfOneOpening};
ghost use Rattle.xa_switch.specs.Plans.{IsSound, IsWithinLimits, Setup, planned};
ghost use Rattle.xa_crew.specs.Opened.{HasMemoryFor, HasRoomForClients, IfNotSettled, IfNotStarted, IsOpened};
ghost use Rattle.xa_crew.specs.Opened.{clients_of};
ghost use Rattle.xa_crew.specs.Run.{CanTell, HasRunAll, IsRun};
ghost use Rattle.xa_crew.specs.Stores.{StoresKeep, HasManagers, HaveAllRun, KeepLast, tables_served};

use crate::client::Client;
use crate::client_job::{Attended, ClientJob, Worked, attend_all, client_jobs_of};
use crate::run::{Ran, Run, apart, settle_run};
use crate::turns::Turns;
use crate::worker_job::{
    StoredWorker, WorkerJob, no_stores, stores_apart, worker_jobs_of, workers_of,
};
use std::alloc::{AllocError, Global};
use std::fmt;
use std::sync::Wait;
use std::thread::Threads;
use xa_base::{MOST_HANDLES, MOST_MANAGERS};
use xa_desk::{Desk, EndedDesk};
use xa_jobs::do_all;
use xa_store::Store;
use xa_switch::laws::opened_desks_keep_what_is_outstanding;
use xa_switch::{OpenFault, Plan, open_switch};
use xa_words::Code;
use xa_worker::{DoneWorker, Pace, Worker};

// Room for what clients, desks and workers come to as they are run in turns.
#[derive(Drop)]
struct Room<C> {
    attended: Vec<Attended<C>>,
    ended: Vec<EndedDesk>,
    worked: Vec<Worked<C>>,
    done: Vec<DoneWorker>,
}

/// All memory that clients and their desks take before they are settled, when no thread is started for them. Whoever
/// opens again reserves it first, so that what was settled comes back as it was where there is none.
#[derive(Drop)]
pub struct CrewMemory<C> {
    jobs: Vec<ClientJob<C>>,
    outstanding: Vec<Vec<(u32, Code)>>,
    room: Room<C>,
}

/// Clients with the desks of one opening, and its workers. Nothing is done yet.
#[derive(Drop)]
pub struct Opened<C> {
    jobs: Vec<ClientJob<C>>,
    workers: Vec<Worker>,
    room: Room<C>,
}

/// Why no settled opening comes of one whose clients were to be run.
#[derive(Drop)]
pub enum OpenedFault<C> {
    /// Memory was refused, or a thread, before all threads were started. Nothing was run and nothing sent: it is as it
    /// was opened.
    Unstarted(Opened<C>),
    /// All was run, and memory was refused for the settling. What the run has come to is here, and `settle_run` settles
    /// it once there is memory.
    Unsettled(Ran<C>),
}

// What comes back isn't shown: clients needn't be `Debug`.
impl<C> fmt::Debug for OpenedFault<C> {
    fn fmt<W: fmt::Write>(&self, f: &mut fmt::Formatter<W>) -> fmt::Result {
        match self {
            OpenedFault::Unstarted(_) => write!(f, "Unstarted(..)"),
            OpenedFault::Unsettled(_) => write!(f, "Unsettled(..)"),
        }
    }
}

impl<C: Client> Room<C> {
    // Room for so many clients. It fails only for want of memory.
    fn reserve(alloc: Global, clients: usize) -> Result<Room<C>, AllocError>
        ensures { IfOk result (HasRoomForClients clients) }
    {
        Ok(Room {
            attended: Vec::with_capacity(alloc, clients)?,
            ended: Vec::with_capacity(alloc, clients)?,
            worked: Vec::with_capacity(alloc, clients)?,
            done: Vec::with_capacity(alloc, MOST_MANAGERS)?,
        })
    }
}

// Reserves what is needed to tell what is outstanding at so many desks.
fn reserve_outstanding(alloc: Global, desks: usize) -> Result<Vec<Vec<(u32, Code)>>, AllocError>
    ensures many { IfOk result (λ v. length v.items ≡ desks) }
    ensures tell { IfOk result (λ v. All CanTell v.items) }
{
    let mut outstanding = Vec::with_capacity(alloc, desks)?;
    for _ in 0..desks {
        outstanding.push(Vec::with_capacity(alloc, MOST_HANDLES)?)?;
    }
    Ok(outstanding)
}

impl<C: Client> CrewMemory<C> {
    /// Reserves that of so many clients. It fails only for want of memory.
    pub fn reserve(alloc: Global, clients: usize) -> Result<CrewMemory<C>, AllocError>
        ensures { IfOk result (HasMemoryFor clients) }
    {
        Ok(CrewMemory {
            jobs: Vec::with_capacity(alloc, clients)?,
            outstanding: reserve_outstanding(alloc, clients)?,
            room: Room::reserve(alloc, clients)?,
        })
    }

    /// Holds clients with the desks of one opening, each with the one at its place, and its workers. Nothing is done
    /// yet.
    pub fn hold(self, clients: Vec<C>, desks: Vec<Desk>, workers: Vec<Worker>) -> Opened<C>
        requires memory { HasMemoryFor (length clients.items) self }
        requires as_many { length desks.items ≡ length clients.items }
        requires opened { (p : Setup) × IsWithinLimits p.numbers p.managers
            × AreOfOneOpening p desks.items workers.items }
        ensures opened { (p : Setup) → IsWithinLimits p.numbers p.managers
            → AreOfOneOpening p desks.items workers.items → IsOpened p result }
        ensures clients { clients_of result ≡ clients.items }
    {
        opened_desks_keep_what_is_outstanding();
        let CrewMemory {
            jobs,
            outstanding,
            room,
        } = self;
        Opened {
            jobs: client_jobs_of(clients, desks, outstanding, jobs),
            workers,
            room,
        }
    }
}

/// Opens a plan, with a client for each of its threads of control: the client at place t has thread t + 1. Nothing is
/// run yet. The faults are those of `open_switch`.
pub fn open_clients<R: Wait, C: Client>(
    rt: &R,
    alloc: Global,
    plan: &Plan,
    clients: Vec<C>,
) -> Result<Opened<C>, OpenFault>
    requires { length clients.items ≡ plan.now.threads }
    ensures opened { IfOk result (IsOpened (planned plan.now)) }
    ensures clients { IfOk result (λ o. clients_of o ≡ clients.items) }
    ensures bad { IfErr result (λ f. f ≡ OpenFault.BadPlan ↔ ¬ IsSound plan.now) }
    ensures sound { OnOk result (IsSound plan.now) }
{
    let (desks, workers) = open_switch(rt, alloc, plan)?;
    let memory = CrewMemory::reserve(alloc, clients.len())?;
    Ok(memory.hold(clients, desks, workers))
}

// Room for the workers' jobs, and for the workers and the stores once their jobs are done or come back.
fn reserve_workers<P: Drop, S: Drop>(
    alloc: Global,
    workers: usize,
) -> Result<(Vec<WorkerJob<P, S>>, Vec<Worker>, Vec<S>), AllocError>
    ensures jobs { IfOk result (λ r. (r.0.items ≡ []) × (workers ≤ vec_capacity r.0)) }
    ensures workers { IfOk result (λ r. (r.1.items ≡ []) × (workers ≤ vec_capacity r.1)) }
    ensures stores { IfOk result (λ r. (r.2.items ≡ []) × (workers ≤ vec_capacity r.2)) }
{
    Ok((
        Vec::with_capacity(alloc, workers)?,
        Vec::with_capacity(alloc, workers)?,
        Vec::with_capacity(alloc, workers)?,
    ))
}

impl<C: Client + Send + 'static> Opened<C> {
    /// How many managers there are.
    pub fn managers(&self) -> usize
        ensures { result ≡ length self.now.workers.items }
    {
        self.workers.len()
    }

    /// Runs each client in a thread of its own, and each worker, and settles what they come to: as `run_clients` does.
    /// Where memory is refused, or a thread, before all threads are started, it comes back as it was.
    pub fn run<R: Threads + Wait + Copy + Send + 'static, P: Pace + Drop + Send + 'static>(
        self,
        rt: &R,
        alloc: Global,
        paces: Vec<P>,
    ) -> Result<Run<C>, OpenedFault<C>>
        requires opened { (p : Setup) × IsOpened p self }
        requires paces { length self.workers.items ≤ length paces.items }
        ensures ran { IfOk result (λ r. (p : Setup) → IsOpened p self
            → IsRun C.works p (clients_of self) r.clients.items r.settled) }
        ensures unstarted { IfErr result (IfNotStarted (λ o. (clients_of o ≡ clients_of self)
            × ((p : Setup) → IsOpened p self → IsOpened p o))) }
        ensures unsettled { IfErr result (IfNotSettled (λ ran. (p : Setup) → IsOpened p self
            → HasRunAll C.works p (clients_of self) ran)) }
    {
        let Ok(stores) = no_stores(alloc, self.managers()) else {
            return Err(OpenedFault::Unstarted(self));
        };
        let (ran, _) = self.run_stored(rt, alloc, paces, stores);
        ran
    }

    /// Runs all as `run` does, each manager with its store: the manager m has the store at place m - 1, which keeps the
    /// tables that the manager begins with.
    ///
    /// No completion is sent that a crash would take back. The stores come back, at a fault too: as they were where
    /// nothing was run, and else each keeps the tables that its manager has at the end. Where a store fails it never
    /// returns.
    pub fn run_stored<
        R: Threads + Wait + Copy + Send + 'static,
        P: Pace + Drop + Send + 'static,
        S: Store + Drop + Send + 'static,
    >(
        self,
        rt: &R,
        alloc: Global,
        paces: Vec<P>,
        stores: Vec<S>,
    ) -> (Result<Run<C>, OpenedFault<C>>, Vec<S>)
        requires opened { (p : Setup) × IsOpened p self × StoresKeep S.knows S.may_leave p.first stores.items }
        requires paces { length self.workers.items ≤ length paces.items }
        ensures ran { IfOk result.0 (λ r. (p : Setup) → IsOpened p self
            → IsRun C.works p (clients_of self) r.clients.items r.settled) }
        ensures kept { IfOk result.0 (λ r. KeepLast S.knows S.may_leave r.settled result.1.items) }
        ensures unstarted { IfErr result.0 (IfNotStarted (λ o. (clients_of o ≡ clients_of self)
            × ((p : Setup) → IsOpened p self → IsOpened p o))) }
        ensures back { IfErr result.0 (IfNotStarted (λ o. result.1.items ≡ stores.items)) }
        ensures unsettled { IfErr result.0 (IfNotSettled (λ ran. (p : Setup) → IsOpened p self
            → HasRunAll C.works p (clients_of self) ran)) }
        ensures kept_so { IfErr result.0 (IfNotSettled (λ ran.
            StoresKeep S.knows S.may_leave (tables_served ran.workers.items) result.1.items)) }
    {
        let Opened {
            jobs,
            workers,
            room,
        } = self;
        let Ok((worker_jobs, spare, kept)) = reserve_workers(alloc, workers.len()) else {
            let opened = Opened {
                jobs,
                workers,
                room,
            };
            return (Err(OpenedFault::Unstarted(opened)), stores);
        };
        let worker_jobs = worker_jobs_of(workers, paces, stores, worker_jobs);
        match do_all(rt, alloc, jobs, worker_jobs) {
            Ok((worked, stored)) => {
                let (ran, stores) = settle_stored(rt, alloc, worked, stored, room, kept);
                match ran {
                    Ok(run) => (Ok(run), stores),
                    Err(ran) => (Err(OpenedFault::Unsettled(ran)), stores),
                }
            }
            Err((jobs, worker_jobs)) => {
                let (workers, stores) = workers_of(worker_jobs, spare, kept);
                let opened = Opened {
                    jobs,
                    workers,
                    room,
                };
                (Err(OpenedFault::Unstarted(opened)), stores)
            }
        }
    }
}

// Settles what clients and workers have come to, where there is room for them, and gives the stores.
fn settle_stored<R: Wait, C: Client, S: Store + Drop>(
    rt: &R,
    alloc: Global,
    worked: Vec<Worked<C>>,
    stored: Vec<StoredWorker<S>>,
    room: Room<C>,
    kept: Vec<S>,
) -> (Result<Run<C>, Ran<C>>, Vec<S>)
    requires ran { (p : Setup) × (cs : List C) × HaveAllRun C.works p cs worked.items stored.items }
    requires room { HasRoomForClients (length worked.items) room }
    requires workers { length stored.items ≤ MOST_MANAGERS }
    requires none { kept.items ≡ [] }
    requires stores { length stored.items ≤ vec_capacity kept }
    ensures ran { IfOk result.0 (λ r. (p : Setup) → (cs : List C)
        → HaveAllRun C.works p cs worked.items stored.items → IsRun C.works p cs r.clients.items r.settled) }
    ensures managers { IfOk result.0 (λ r. HasManagers r.settled (map (λ d. d.done) stored.items)) }
    ensures unsettled { IfErr result.0 (λ r. (p : Setup) → (cs : List C)
        → HaveAllRun C.works p cs worked.items stored.items → HasRunAll C.works p cs r) }
    ensures workers { IfErr result.0 (λ r. r.workers.items ≡ map (λ d. d.done) stored.items) }
    ensures stores { result.1.items ≡ map (λ d. d.store) stored.items }
{
    let Room {
        attended,
        ended,
        worked: _,
        done,
    } = room;
    let (clients, desks) = apart(worked, attended, ended);
    let (workers, stores) = stores_apart(stored, done, kept);
    let ran = Ran {
        clients,
        desks,
        workers,
    };
    (settle_run(rt, alloc, ran), stores)
}

impl<C: Client> Opened<C> {
    /// Runs all in the thread that calls it, one client after the other, and settles what they come to: as
    /// `run_clients_in_turns` does. It takes no memory but for the settling: where that is refused, what the run has
    /// come to comes back.
    pub fn run_in_turns<R: Wait>(self, rt: &R, alloc: Global) -> Result<Run<C>, Ran<C>>
        requires { (p : Setup) × IsOpened p self }
        ensures ran { IfOk result (λ r. (p : Setup) → IsOpened p self
            → IsRun C.works p (clients_of self) r.clients.items r.settled) }
        ensures unsettled { IfErr result (λ ran. (p : Setup) → IsOpened p self
            → HasRunAll C.works p (clients_of self) ran) }
    {
        let Opened {
            jobs,
            workers,
            room,
        } = self;
        let Room {
            attended,
            ended,
            worked,
            done,
        } = room;
        let mut turns = Turns::new(workers);
        let worked = attend_all(rt, jobs, &mut turns, worked);
        let (clients, desks) = apart(worked, attended, ended);
        let workers = turns.run(rt, done);
        settle_run(
            rt,
            alloc,
            Ran {
                clients,
                desks,
                workers,
            },
        )
    }
}
