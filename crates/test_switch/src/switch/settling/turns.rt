//! Runs in one thread: the workers take turns while a desk waits.
ghost use Rattle.std.specs.Prelude.{◌≡◌, map};
ghost use Rattle.xa_switch.specs.Settled.{IsSettled};
ghost use Rattle.xa_switch.specs.Belonging.{ComeFromOpenings, seat_of_desk, seat_of_worker};

use super::*;
use xa_crew::Turns;
use xa_words::TMASYNC;

// The desks and the workers of an opening.
#[derive(Drop)]
pub(super) struct Opened {
    pub(super) desks: Vec<Desk>,
    pub(super) workers: Turns,
}

impl Opened {
    pub(super) fn new<R: Wait + Abort>(rt: &R, alloc: Global, plan: &Plan) -> Opened
        ensures { ComeFromOpenings (map seat_of_desk result.desks.items) (map seat_of_worker result.workers) }
    {
        opened_pieces_come_from_their_opening();
        let Some((desks, workers)) = open(rt, alloc, plan) else {
            panic!(rt; "it is not opened");
        };
        Opened { desks, workers }
    }

    // Thread `before + 1` does this.
    pub(super) fn play<R: Wait + Abort>(&mut self, rt: &R, before: usize, acts: &[Act])
        ensures desks { map seat_of_desk self.new.desks.items ≡ map seat_of_desk self.old.desks.items }
        ensures workers { map seat_of_worker self.new.workers
            ≡ map seat_of_worker self.old.workers }
    {
        assert!(rt; before < self.desks.len());
        play(rt, &mut self.desks[before], acts, &mut self.workers);
    }

    // Ends all and settles it.
    pub(super) fn settle<R: Wait + Abort>(self, rt: &R, alloc: Global) -> Settled
        requires { ComeFromOpenings (map seat_of_desk self.desks.items) (map seat_of_worker self.workers) }
        ensures { IsSettled result }
    {
        let Opened { desks, workers } = self;
        let desks = end_all(rt, alloc, desks);
        let Some(workers) = run_all(rt, alloc, workers) else {
            panic!(rt; "memory");
        };
        settle_all(rt, alloc, desks, workers)
    }
}

// Each thread has three asynchronous requests in flight at two managers, and completes them in another
// order.
fn crossing<R: Wait + Abort>(rt: &R, alloc: Global) -> Settled
    ensures { IsSettled result }
{
    let mut opened = Opened::new(rt, alloc, &plan_of(rt, alloc, 1, 2, 2));
    opened.play(rt, 0, &first_acts(rt));
    opened.play(rt, 1, &second_acts());
    opened.settle(rt, alloc)
}

fn first_acts(rt: &impl Abort) -> [Act; 6] {
    [
        calls(1, Call::OpenRm, None, TMASYNC, 1),
        calls(2, Call::OpenRm, None, TMASYNC, 2),
        calls(1, Call::Prepare, Some(xid(rt, b"g")), TMASYNC, 3),
        completes(1, 3, Code::Nota),
        completes(2, 2, Code::Done),
        completes(1, 1, Code::Done),
    ]
}

fn second_acts() -> [Act; 6] {
    [
        calls(2, Call::OpenRm, None, TMASYNC, 1),
        calls(2, Call::CloseRm, None, TMASYNC, 2),
        calls(1, Call::OpenRm, None, TMASYNC, 3),
        completes(2, 2, Code::Done),
        completes(1, 3, Code::Done),
        completes(2, 1, Code::Done),
    ]
}

// The journals of both managers.
fn has_journals(rt: &impl Abort, settled: &Settled) {
    let (g, done) = (xid(rt, b"g"), Code::Done);
    let first = [
        entry(1, 0, Op::OpenRm, done),
        entry(1, 1, Op::Prepare(g), Code::Nota),
        entry(2, 0, Op::OpenRm, done),
    ];
    let second = [
        entry(1, 0, Op::OpenRm, done),
        entry(2, 0, Op::OpenRm, done),
        entry(2, 1, Op::CloseRm, done),
    ];
    assert!(rt; settled.journal(1) == first.as_slice());
    assert!(rt; settled.journal(2) == second.as_slice());
}

// What the thread sent to the manager, and what it collected.
fn has_part(
    rt: &impl Abort,
    settled: &Settled,
    (thread, manager): (u32, u32),
    sent: &[Op],
    collected: &[(u32, Code)],
) {
    assert!(rt; settled.sent(thread, manager) == sent);
    assert!(rt; settled.collected(thread, manager) == collected);
}

#[test]
fn what_is_collected_in_another_order_is_settled(rt: HostRuntime) {
    let settled = crossing(&rt, rt.alloc());
    has_journals(&rt, &settled);
    let (g, done) = (xid(&rt, b"g"), Code::Done);
    let sent = [Op::OpenRm, Op::Prepare(g)];
    has_part(&rt, &settled, (1, 1), &sent, &[(1, Code::Nota), (0, done)]);
    has_part(&rt, &settled, (1, 2), &[Op::OpenRm], &[(0, done)]);
    has_part(&rt, &settled, (2, 1), &[Op::OpenRm], &[(0, done)]);
    let sent = [Op::OpenRm, Op::CloseRm];
    has_part(&rt, &settled, (2, 2), &sent, &[(1, done), (0, done)]);
}
