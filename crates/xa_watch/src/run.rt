//! A run in a thread of its own.
ghost use Rattle.std.specs.Prelude.{IfErr, IfOk};
ghost use Rattle.xa_watch.specs.Runs.{RunComes, IsAtRun, IsBack};

use crate::watch::{News, Watch};
use std::marker::PhantomData;
use std::snapshot::Snapshot;
use std::sync::Wait;
use std::thread;
use std::thread::{Promise, PromisedHandle, SpawnError, Threads};

/// What is done once in a thread of its own, with the runtime `R`, and comes to a `D`.
pub trait WatchedRun<R, D>: Drop {
    /// Where it can be done.
    ghost can_run: { Self → Type 0 };

    /// What it may come to.
    ghost comes_to: { Self → D → Type 0 };

    /// Does the run.
    fn run(self, rt: &R) -> D
        requires { can_run self }
        ensures { comes_to self result };
}

/// Why a run has come to nothing.
#[derive(Drop, Debug)]
pub enum Stopped<W> {
    /// The store of the manager with this number has failed. The run was left as it was: its threads end with the
    /// process.
    Failed(u32),
    /// No thread could be started, and nothing was done.
    NotBegun(W),
}

// What the run comes to, or the run as it was.
#[derive(Drop)]
struct DoneOf<R, W: Drop>(Snapshot<W>, PhantomData<R>);

impl<R, W: WatchedRun<R, D>, D: Drop> Promise<Result<D, W>> for DoneOf<R, W> {
    ghost use Rattle.xa_watch.specs.Runs.{RunComes};

    ghost kept_by = { λ p r. RunComes W.comes_to p.0.value r };
}

// Does the run and tells that it has ended, or gives it back where something was told before.
fn serve<R: Copy, W: WatchedRun<R, D>, D: Drop>(rt: R, watch: Watch, run: W) -> Result<D, W>
    requires { W.can_run run }
    ensures { RunComes W.comes_to run result }
{
    if watch.is_told() {
        return Err(run);
    }
    let done = run.run(&rt);
    watch.tell_end();
    Ok(done)
}

// Starts a thread that does the run. Where none can be started, the watch is told that the run has ended, and the run
// is done with.
fn start<
    R: Threads + Wait + Copy + Send + 'static,
    W: WatchedRun<R, D> + Send + 'static,
    D: Drop + Send + 'static,
>(rt: &R, watch: &Watch, run: W) -> Result<PromisedHandle<Result<D, W>, DoneOf<R, W>>, Result<D, W>>
    requires { W.can_run run }
    ensures started { IfOk result (IsAtRun run) }
    ensures refused { IfErr result (RunComes W.comes_to run) }
{
    let copy = *rt;
    let Some(shared) = watch.share() else {
        return Err(Err(run));
    };
    let promise = DoneOf(Snapshot::of(&run), PhantomData);
    let work = move ||
        requires { W.can_run run }
        ensures { RunComes W.comes_to run result }
    { serve(copy, shared, run) };
    match thread::spawn_with(rt, promise, work) {
        Ok(hand) => Ok(hand),
        Err(refused) => {
            watch.tell_end();
            let SpawnError { value: served_here } = refused;
            Err(served_here())
        }
    }
}

/// Does the run in a thread of its own, and waits until it has ended or a store that has the watch has failed. The
/// watch is one that was told nothing.
///
/// After a failure nothing more is answered by that store's manager. End the process.
pub fn run_watched<
    R: Threads + Wait + Copy + Send + 'static,
    W: WatchedRun<R, D> + Send + 'static,
    D: Drop + Send + 'static,
>(rt: &R, watch: &Watch, run: W) -> Result<D, Stopped<W>>
    requires { W.can_run run }
    ensures done { IfOk result (W.comes_to run) }
    ensures back { IfErr result (IsBack run) }
{
    let hand = match start(rt, watch, run) {
        Ok(hand) => hand,
        Err(came) => return came.map_err(Stopped::NotBegun),
    };
    if let News::Failed(store) = watch.wait(rt) {
        return Err(Stopped::Failed(store));
    }
    hand.join(rt).map_err(Stopped::NotBegun)
}
