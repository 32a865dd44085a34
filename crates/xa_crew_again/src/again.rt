//! A run of clients over an opening that is opened again.
ghost use Rattle.std.specs.Prelude.{◌≡◌, ◌≤◌, ◌↔◌, [], length, map, vec_capacity, IfOk, IfErr, OnOk};
ghost use Rattle.xa_desk.specs.DeskViews.{DeskView};
ghost use Rattle.xa_desk.specs.GoingOn.{GoesOn};
ghost use Rattle.xa_desk.specs.Kept.{AllKept};
ghost use Rattle.xa_switch.specs.Reopening.{MayReopen, managers_in, reopening};
ghost use Rattle.xa_scan.specs.Left.{ScanView};
ghost use Rattle.xa_crew_again.specs.Again.{AreGiven, HasRunAgain, IfUnopened, IfUnstarted, IfUnsettled, IsBad};
ghost use Rattle.xa_crew_again.specs.Again.{IsRunAgain};
ghost use Rattle.xa_crew.specs.Opened.{HasMemoryFor, IsOpened, clients_of};

use std::alloc::{AllocError, Global};
use std::fmt;
use std::sync::Wait;
use std::thread::Threads;
use xa_crew::{Client, CrewMemory, Opened, OpenedFault, Ran, Run};
use xa_desk::{Desk, Idle};
use xa_scan::Scan;
use xa_switch::{Again, OpenFault, Settled, may_reopen, reopen};
use xa_worker::Pace;

/// What a thread of control does with its desk in an opening that was opened again, where it is lent its scan as well.
///
/// The scan has what the openings before left at each manager; `xa_recover` and `resolve` go by it. A client that works
/// as in a first opening, whatever was left, calls its `work` here.
pub trait ClientAgain: Drop {
    /// What the client, its desk and its scan may come to, from what they are at first.
    ghost works_again: { Self → DeskView → ScanView → Self → DeskView → ScanView → Type 0 };

    /// Does all that the thread does. What is outstanding may be left so, under the numbers of its handles:
    /// it is collected afterwards.
    fn work_again<R: Wait, I: Idle>(
        &mut self,
        rt: &R,
        desk: &mut Desk,
        scan: &mut Scan,
        idle: &mut I,
    )
        requires { AllKept desk.old }
        ensures works { works_again self.old desk.old scan.old self.new desk.new scan.new }
        ensures goes_on { GoesOn desk.old desk.new }
        ensures kept { AllKept desk.new }
        ensures idled { I.leads idle.old idle.new };
}

/// A client with the scan of its thread.
#[derive(Drop)]
pub struct WithScan<C> {
    pub client: C,
    /// What the reopening found left at each manager, and where the thread's scans of it stand.
    pub scan: Scan,
}

impl<C: ClientAgain> Client for WithScan<C> {
    ghost use Rattle.xa_crew_again.specs.Again.{WorksWithScan};

    ghost works = { WorksWithScan C.works_again };

    fn work<R: Wait, I: Idle>(&mut self, rt: &R, desk: &mut Desk, idle: &mut I) {
        self.client.work_again(rt, desk, &mut self.scan, idle)
    }
}

/// A settled opening that wasn't opened again, and why. It comes back as it was, and so do the clients.
#[derive(Drop)]
pub struct UnopenedClients<C> {
    pub why: OpenFault,
    pub settled: Settled,
    pub clients: Vec<C>,
}

/// Why no settled opening comes of a run over an opening that is opened again. The managers are never lost: they come
/// back in the settled opening, in the one that was opened again, or in what the run has come to.
#[derive(Drop)]
pub enum AgainFault<C> {
    /// It wasn't opened again.
    Unopened(UnopenedClients<C>),
    /// It was opened again, and memory was refused, or a thread, before all threads were started. Nothing was run and
    /// nothing sent: it is as it was opened, and may be run by `Opened::run` or `Opened::run_in_turns`.
    Unstarted(Opened<WithScan<C>>),
    /// All was run, and memory was refused for the settling. What the run has come to is here, and `settle_run` settles
    /// it once there is memory.
    Unsettled(Ran<WithScan<C>>),
}

// What comes back isn't shown: clients needn't be `Debug`.
impl<C> fmt::Debug for AgainFault<C> {
    fn fmt<W: fmt::Write>(&self, f: &mut fmt::Formatter<W>) -> fmt::Result {
        match self {
            AgainFault::Unopened(unopened) => write!(f, "Unopened({:?}, ..)", unopened.why),
            AgainFault::Unstarted(_) => write!(f, "Unstarted(..)"),
            AgainFault::Unsettled(_) => write!(f, "Unsettled(..)"),
        }
    }
}

// Each client with the scan at its place, where there is room for them.
fn with_scans<C: Drop>(
    clients: Vec<C>,
    scans: Vec<Scan>,
    mut given: Vec<WithScan<C>>,
) -> Vec<WithScan<C>>
    requires as_many { length scans.items ≡ length clients.items }
    requires none { given.items ≡ [] }
    requires room { length clients.items ≤ vec_capacity given }
    ensures clients { map (λ w. w.client) result.items ≡ clients.items }
    ensures scans { map (λ w. w.scan) result.items ≡ scans.items }
{
    let mut scans = scans.into_iter();
    for client in clients {
        let Some(scan) = scans.next() else {
            unreachable!()
        };
        given.push_reserved(WithScan { client, scan });
    }
    given
}

// The memory of a run of so many clients that have scans.
fn reserve<C: ClientAgain>(
    alloc: Global,
    clients: usize,
) -> Result<(CrewMemory<WithScan<C>>, Vec<WithScan<C>>), AllocError>
    ensures memory { IfOk result (λ r. HasMemoryFor clients r.0) }
    ensures none { IfOk result (λ r. r.1.items ≡ []) }
    ensures room { IfOk result (λ r. clients ≤ vec_capacity r.1) }
{
    Ok((
        CrewMemory::reserve(alloc, clients)?,
        Vec::with_capacity(alloc, clients)?,
    ))
}

/// Opens a settled opening again, as `reopen` does, with a client for each thread of control, which gets its desk and
/// its scan: the client at place t has thread t + 1. Nothing is run yet.
///
/// The faults are those of `reopen`, in their order: `BadPlan` exactly where it may not be opened again with these
/// numbers, else `NoMemory`. With either the settled opening and the clients come back as they were.
#[tactic(auto, using(xa_base::proofs::arith))]
pub fn open_clients_again<R: Wait, C: ClientAgain>(
    rt: &R,
    alloc: Global,
    settled: Settled,
    again: &Again,
    clients: Vec<C>,
) -> Result<Opened<WithScan<C>>, UnopenedClients<C>>
    requires clients { length clients.items ≡ again.now.threads }
    ensures opened { IfOk result (IsOpened (reopening settled again.now)) }
    ensures given { IfOk result (λ o. AreGiven settled again.now clients.items (clients_of o)) }
    ensures bad { IfErr result (λ u. u.why ≡ OpenFault.BadPlan ↔ ¬ MayReopen settled again.now) }
    ensures sound { OnOk result (MayReopen settled again.now) }
    ensures settled { IfErr result (λ u. u.settled ≡ settled) }
    ensures clients { IfErr result (λ u. u.clients ≡ clients) }
{
    if !may_reopen(&settled, again) {
        let why = OpenFault::BadPlan;
        return Err(UnopenedClients {
            why,
            settled,
            clients,
        });
    }
    let Ok((memory, given)) = reserve(alloc, clients.len()) else {
        let why = OpenFault::NoMemory;
        return Err(UnopenedClients {
            why,
            settled,
            clients,
        });
    };
    match reopen(rt, alloc, settled, again) {
        Ok((desks, workers, scans)) => {
            Ok(memory.hold(with_scans(clients, scans, given), desks, workers))
        }
        Err(unopened) => Err(UnopenedClients {
            why: unopened.why,
            settled: unopened.settled,
            clients,
        }),
    }
}

/// Opens a settled opening again and runs a client for each of its threads of control, each in a thread of its own with
/// its own desk and its own scan of what was left, and a worker for each manager: otherwise as `run_clients`.
///
/// Each client comes back with its scan. The worker of manager m has the pace at place m - 1. The faults are those of
/// `AgainFault`; neither the managers nor the clients are lost with any of them, but the paces are.
#[tactic(auto, using(xa_base::proofs::arith))]
pub fn run_clients_again<
    R: Threads + Wait + Copy + Send + 'static,
    C: ClientAgain + Send + 'static,
    P: Pace + Drop + Send + 'static,
>(
    rt: &R,
    alloc: Global,
    settled: Settled,
    again: &Again,
    clients: Vec<C>,
    paces: Vec<P>,
) -> Result<Run<WithScan<C>>, AgainFault<C>>
    requires clients { length clients.items ≡ again.now.threads }
    requires paces { managers_in settled ≤ length paces.items }
    ensures ran { IfOk result (λ r. IsRunAgain C.works_again settled again.now clients.items r.clients.items
        r.settled) }
    ensures bad { IfErr result (λ f. IsBad f ↔ ¬ MayReopen settled again.now) }
    ensures sound { OnOk result (MayReopen settled again.now) }
    ensures unopened { IfErr result (IfUnopened (λ u. (u.settled ≡ settled) × (u.clients ≡ clients))) }
    ensures unstarted { IfErr result (IfUnstarted (λ o. IsOpened (reopening settled again.now) o
        × AreGiven settled again.now clients.items (clients_of o))) }
    ensures unsettled { IfErr result (IfUnsettled (HasRunAgain C.works_again settled again.now clients.items)) }
{
    match open_clients_again(rt, alloc, settled, again, clients) {
        Ok(opened) => match opened.run(rt, alloc, paces) {
            Ok(run) => Ok(run),
            Err(OpenedFault::Unstarted(opened)) => Err(AgainFault::Unstarted(opened)),
            Err(OpenedFault::Unsettled(ran)) => Err(AgainFault::Unsettled(ran)),
        },
        Err(unopened) => Err(AgainFault::Unopened(unopened)),
    }
}

/// The same in the one thread that calls it, as `run_clients_in_turns` does: one client after the other, by rising
/// thread, each with its scan. No thread is started, so it isn't left unstarted.
#[tactic(auto, using(xa_base::proofs::arith))]
pub fn run_clients_again_in_turns<R: Wait, C: ClientAgain>(
    rt: &R,
    alloc: Global,
    settled: Settled,
    again: &Again,
    clients: Vec<C>,
) -> Result<Run<WithScan<C>>, AgainFault<C>>
    requires { length clients.items ≡ again.now.threads }
    ensures ran { IfOk result (λ r. IsRunAgain C.works_again settled again.now clients.items r.clients.items
        r.settled) }
    ensures bad { IfErr result (λ f. IsBad f ↔ ¬ MayReopen settled again.now) }
    ensures sound { OnOk result (MayReopen settled again.now) }
    ensures unopened { IfErr result (IfUnopened (λ u. (u.settled ≡ settled) × (u.clients ≡ clients))) }
    ensures started { IfErr result (IfUnstarted (λ o. ⊥)) }
    ensures unsettled { IfErr result (IfUnsettled (HasRunAgain C.works_again settled again.now clients.items)) }
{
    match open_clients_again(rt, alloc, settled, again, clients) {
        Ok(opened) => match opened.run_in_turns(rt, alloc) {
            Ok(run) => Ok(run),
            Err(ran) => Err(AgainFault::Unsettled(ran)),
        },
        Err(unopened) => Err(AgainFault::Unopened(unopened)),
    }
}
