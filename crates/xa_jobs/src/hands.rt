//! A thread for each job, and all jobs are done or none is: the threads wait for one word.
ghost use Rattle.std.specs.Prelude.{◌≡◌, ◌≤◌, ◌+◌, [], List, All, length, IfOk, IfErr, IsTrue, vec_capacity};
ghost use Rattle.xa_jobs.specs.Hands.{AreAtFirst, Comes, HasRoomForJobs, HasRoomForAll, IsAt};
ghost use Rattle.xa_base.specs.Lists.{Pairwise};

use crate::job::Job;
use crate::word::{Go, Word};
use std::alloc::{AllocError, Global};
use std::snapshot::Snapshot;
use std::sync::Wait;
use std::thread;
use std::thread::{Promise, PromisedHandle, SpawnError, Threads};

// What the job comes to, or the job as it was, where the word is stop.
#[derive(Drop)]
struct DoneOf<J: Drop>(Snapshot<J>);

impl<J: Job<D>, D: Drop> Promise<Result<D, J>> for DoneOf<J> {
    ghost use Rattle.xa_jobs.specs.Hands.{Comes};

    ghost kept_by = { λ p r. Comes J.comes_to p.0.value r };
}

// Threads at the first of the jobs, in their order; what became of the others, which got none; and room for what
// becomes of all.
#[derive(Drop)]
struct Hands<J: Job<D>, D: Drop> {
    hands: Vec<PromisedHandle<Result<D, J>, DoneOf<J>>>,
    others: Vec<Result<D, J>>,
    came: Vec<Result<D, J>>,
    done: Vec<D>,
    back: Vec<J>,
}

// What became of each job, once all threads have ended, and room for either kind.
#[derive(Drop)]
struct Came<J, D> {
    came: Vec<Result<D, J>>,
    done: Vec<D>,
    back: Vec<J>,
}

// Does the job where the word is go, and else gives it back.
fn serve<R: Wait + Copy, J: Job<D>, D: Drop>(rt: R, word: Word, job: J) -> Result<D, J>
    requires { J.can_run job }
    ensures { Comes J.comes_to job result }
{
    match word.wait(&rt) {
        Some(go) => Ok(job.run(&rt, &go)),
        None => Err(job),
    }
}

// Starts a thread for the job, in which it waits for the word. Where none can be started the word is stop from then on,
// and the job is done with.
fn start_one<
    R: Threads + Wait + Copy + Send + 'static,
    J: Job<D> + Send + 'static,
    D: Drop + Send + 'static,
>(rt: &R, word: &Word, job: J) -> Result<PromisedHandle<Result<D, J>, DoneOf<J>>, Result<D, J>>
    requires { J.can_run job }
    ensures started { IfOk result (IsAt job) }
    ensures refused { IfErr result (Comes J.comes_to job) }
{
    let copy = *rt;
    let Some(shared) = word.share() else {
        word.give(rt, false);
        return Err(Err(job));
    };
    let promise = DoneOf(Snapshot::of(&job));
    match thread::spawn_with(rt, promise, move || serve(copy, shared, job)) {
        Ok(hand) => Ok(hand),
        Err(refused) => {
            word.give(rt, false);
            let SpawnError { value: served_here } = refused;
            Err(served_here())
        }
    }
}

impl<J: Job<D> + Send + 'static, D: Drop + Send + 'static> Hands<J, D> {
    // Room for so many threads, and none of them.
    fn reserve(alloc: Global, jobs: usize) -> Result<Self, AllocError>
        ensures { IfOk result (HasRoomForJobs jobs) }
    {
        Ok(Hands {
            hands: Vec::with_capacity(alloc, jobs)?,
            others: Vec::with_capacity(alloc, jobs)?,
            came: Vec::with_capacity(alloc, jobs)?,
            done: Vec::with_capacity(alloc, jobs)?,
            back: Vec::with_capacity(alloc, jobs)?,
        })
    }

    // Starts a thread for each job, in which it waits for the word, until one can't be started; and says whether all
    // were.
    fn start<R: Threads + Wait + Copy + Send + 'static>(
        &mut self,
        rt: &R,
        word: &Word,
        jobs: Vec<J>,
    ) -> bool
        requires ready { All J.can_run jobs.items }
        requires room { HasRoomForJobs (length jobs.items) self.old }
        ensures started { AreAtFirst J.comes_to jobs.items self.new.hands.items self.new.others.items }
        ensures all { IsTrue result → self.new.others.items ≡ [] }
        ensures came { self.new.came ≡ self.old.came }
        ensures done { self.new.done ≡ self.old.done }
        ensures back { self.new.back ≡ self.old.back }
    {
        let mut all = true;
        for job in jobs {
            if !all {
                self.others.push_reserved(Err(job));
            } else {
                match start_one(rt, word, job) {
                    Ok(hand) => self.hands.push_reserved(hand),
                    Err(other) => {
                        all = false;
                        self.others.push_reserved(other);
                    }
                }
            }
        }
        all
    }

    // What became of each job, in their order, once all threads have ended.
    fn join<R: Threads>(self, rt: &R) -> Came<J, D>
        requires none { self.came.items ≡ [] }
        requires room { length self.hands.items + length self.others.items ≤ vec_capacity self.came }
        ensures came { (jobs : List J) → AreAtFirst J.comes_to jobs self.hands.items self.others.items
            → Pairwise (Comes J.comes_to) jobs result.came.items }
        ensures done { result.done ≡ self.done }
        ensures back { result.back ≡ self.back }
    {
        let Hands {
            hands,
            others,
            mut came,
            done,
            back,
        } = self;
        for hand in hands {
            came.push_reserved(hand.join(rt));
        }
        for other in others {
            came.push_reserved(other);
        }
        Came { came, done, back }
    }
}

impl<J: Job<D>, D: Drop> Came<J, D> {
    // What the jobs have come to, where the word is go. One that came back is done here; there is none, which the types
    // don't show.
    fn done<R: Wait>(self, rt: &R, go: &Go<'_>) -> Vec<D>
        requires room { HasRoomForAll self }
        requires ready { (jobs : List J) × All J.can_run jobs × Pairwise (Comes J.comes_to) jobs self.came.items }
        ensures { (jobs : List J) → Pairwise (Comes J.comes_to) jobs self.came.items
            → Pairwise J.comes_to jobs result.items }
    {
        let Came {
            came,
            mut done,
            back: _,
        } = self;
        for one in came {
            match one {
                Ok(one) => done.push_reserved(one),
                Err(job) => done.push_reserved(job.run(rt, go)),
            }
        }
        done
    }

    // The jobs, where the word is stop. None was done, since a word is given once, which the types don't show: one that
    // was would have it wait.
    fn back<R: Wait>(self, rt: &R) -> Vec<J>
        requires room { HasRoomForAll self }
        ensures { (jobs : List J) → Pairwise (Comes J.comes_to) jobs self.came.items → result.items ≡ jobs }
    {
        let Came {
            came,
            done: _,
            mut back,
        } = self;
        for one in came {
            match one {
                Ok(_) => {
                    for _ in rt.forever() {}
                    unreachable!()
                }
                Err(job) => back.push_reserved(job),
            }
        }
        back
    }
}

// A word, and room for so many threads of either kind.
fn reserve_all<
    J: Job<D> + Send + 'static,
    D: Drop + Send + 'static,
    K: Job<E> + Send + 'static,
    E: Drop + Send + 'static,
>(alloc: Global, jobs: usize, others: usize) -> Result<(Word, Hands<J, D>, Hands<K, E>), AllocError>
    ensures jobs { IfOk result (λ r. HasRoomForJobs jobs r.1) }
    ensures others { IfOk result (λ r. HasRoomForJobs others r.2) }
{
    Ok((
        Word::new(alloc)?,
        Hands::reserve(alloc, jobs)?,
        Hands::reserve(alloc, others)?,
    ))
}

/// Does all jobs of two kinds, each in a thread of its own, or none of them: all threads are started before
/// any job begins. Where memory is refused, or a thread, no job is done, all threads have ended, and the jobs come back
/// as they were.
pub fn do_all<
    R: Threads + Wait + Copy + Send + 'static,
    J: Job<D> + Send + 'static,
    D: Drop + Send + 'static,
    K: Job<E> + Send + 'static,
    E: Drop + Send + 'static,
>(rt: &R, alloc: Global, jobs: Vec<J>, others: Vec<K>) -> Result<(Vec<D>, Vec<E>), (Vec<J>, Vec<K>)>
    requires jobs { All J.can_run jobs.items }
    requires others { All K.can_run others.items }
    ensures jobs { IfOk result (λ r. Pairwise J.comes_to jobs.items r.0.items) }
    ensures others { IfOk result (λ r. Pairwise K.comes_to others.items r.1.items) }
    ensures back { IfErr result (λ r. (r.0.items ≡ jobs.items) × (r.1.items ≡ others.items)) }
{
    let Ok((word, mut hands, mut other_hands)) = reserve_all(alloc, jobs.len(), others.len()) else {
        return Err((jobs, others));
    };
    let all = hands.start(rt, &word, jobs);
    let all_others = other_hands.start(rt, &word, others);
    word.give(rt, all && all_others);
    let came = hands.join(rt);
    let others_came = other_hands.join(rt);
    match word.wait(rt) {
        Some(go) => Ok((came.done(rt, &go), others_came.done(rt, &go))),
        None => Err((came.back(rt), others_came.back(rt))),
    }
}
