//! Workers that take turns in one thread.
ghost use Rattle.std.specs.Prelude.{◌≡◌, ◌≤◌, [], length, map, vec_capacity};
ghost use Rattle.xa_base.specs.Lists.{IsUpTo, Pairwise};
ghost use Rattle.xa_switch.specs.Belonging.{seat_of_worker, worker_seats};
ghost use Rattle.xa_crew.specs.Pieces.{HasServed};

use std::marker::Model;
use std::sync::Wait;
use xa_desk::Idle;
use xa_store::NoStore;
use xa_worker::{DoneWorker, Free, Worker, WorkerStep};

/// All workers of an opening by rising manager, which take turns in the one thread that runs it.
///
/// Lend it as the idle to each call: the call gives the manager that it waits for a turn.
#[derive(Drop)]
pub struct Turns {
    workers: Vec<Worker>,
}

// Contracts see the workers.
impl Model for Turns {
    ghost use Rattle.std.specs.Coded.{codes};
    ghost use Rattle.std.specs.Prelude.{List};
    ghost use Rattle.xa_tables.specs.Managers.{tables_code, managed_code};
    ghost use Rattle.xa_worker.specs.Workers.{WorkerView};

    ghost Value = { List WorkerView };

    ghost coded = { Prim.hlevel (codes, tables_code, managed_code) };

    ghost view = { λ t. t.workers.items };
}

impl Turns {
    ghost use Rattle.xa_crew.specs.Turns.{AllGoOn, TakesTurn, HadSomeTurn};

    /// These are all workers of an opening, by rising manager.
    pub fn new(workers: Vec<Worker>) -> Turns
        ensures { result ≡ workers.items }
    {
        Turns { workers }
    }

    /// How many managers there are.
    pub fn managers(&self) -> usize
        ensures { result ≡ length self.now }
    {
        self.workers.len()
    }

    /// The worker of this manager does one thing, if it has one to do.
    pub fn turn<R: Wait>(&mut self, rt: &R, manager: u32) -> WorkerStep
        requires { IsUpTo (length self.old) manager }
        ensures turn { TakesTurn manager result self.old self.new }
        ensures on { AllGoOn self.old self.new }
    {
        self.workers[manager as usize - 1].step(rt, &mut Free, &mut NoStore)
    }

    // Each worker does one thing, in rising order.
    #[tactic(auto, using(crate::proofs::WorkersOn::none_turned, crate::proofs::WorkersOn::all_turned))]
    fn turn_all<R: Wait>(&mut self, rt: &R)
        ensures turns { Pairwise HadSomeTurn self.old self.new }
        ensures on { AllGoOn self.old self.new }
    {
        for place in 0..self.workers.len() {
            self.workers[place].step(rt, &mut Free, &mut NoStore);
        }
    }

    /// Runs each worker to the last end mark, by rising manager, where there is room for them. All desks of the opening
    /// have to have ended: where one of them hasn't, it never returns.
    pub fn run<R: Wait>(self, rt: &R, mut done: Vec<DoneWorker>) -> Vec<DoneWorker>
        requires none { done.items ≡ [] }
        requires room { length self ≤ vec_capacity done }
        ensures served { Pairwise HasServed self result.items }
        ensures seats { worker_seats result.items ≡ map seat_of_worker self }
    {
        let Turns { workers } = self;
        for worker in workers {
            done.push_reserved(worker.run(rt, &mut Free, &mut NoStore));
        }
        done
    }
}

// A wait for a manager gives its worker one turn, and a wait for any gives one to each.
impl Idle for Turns {
    ghost use Rattle.xa_crew.specs.Turns.{AllGoOn, GivesTurns};
    ghost use Rattle.xa_crew.specs.Turning.{all_stay, all_go_on};

    ghost leads_by = { GivesTurns };

    ghost leads = { AllGoOn };

    ghost leads_each = { λ manager x y given. given.on };

    ghost leads_start = { all_stay };

    ghost leads_chain = { all_go_on };

    #[tactic(auto, using(xa_base::proofs::arith))]
    fn idle<R: Wait>(&mut self, rt: &R, manager: u32) {
        if manager == 0 {
            self.turn_all(rt);
        } else if manager as usize <= self.workers.len() {
            self.turn(rt, manager);
        }
    }
}
