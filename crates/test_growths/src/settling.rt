//! What becomes of an opening: all its calls, and how it is settled.
ghost use Rattle.std.specs.Prelude.{◌≡◌, ◌≤◌, ◌∷◌, [], IfSome, length, map, vec_capacity};
ghost use Rattle.std.specs.List.{All};
ghost use Rattle.xa_switch.specs.Belonging.{ComeFromOpenings, desk_seats, worker_seats, openings_of, seat_of_desk};
ghost use Rattle.xa_switch.specs.Belonging.{seat_of_worker};

use crate::commits::{ask, branch};
use crate::openings::{Opened, open, plan_of};
use crate::thing::{Came, begin, tell};
use std::alloc::Global;
use std::io::{self, Write};
use std::sync::Wait;
use test_support::{end, run_all};
use xa_calls::{RmOp, native, xa_call, xa_complete};
use xa_crew::Turns;
use xa_desk::{Desk, EndedDesk};
use xa_driver::Branch;
use xa_switch::laws::mixed_pieces_come_from_their_openings;
use xa_switch::{Why, settle};
use xa_words::{
    Call, Code, Delta, Key, TMASYNC, TMMULTIPLE, TMNOFLAGS, TMNOWAIT, TMONEPHASE, TMSUCCESS,
};
use xa_worker::DoneWorker;

// ---- calls

// Opens the branch's manager, and adds 1 for the branch, all in flight under handles 1 to 4.
fn send<R: Wait>(
    rt: &R,
    desk: &mut Desk,
    branch: &Branch,
    key: Key,
    delta: Delta,
    idle: &mut Turns,
) -> bool
    ensures seat { seat_of_desk desk.new ≡ seat_of_desk desk.old }
    ensures idled { map seat_of_worker idle.new ≡ map seat_of_worker idle.old }
{
    let addition = RmOp::Add(key, delta);
    let opened = xa_call(rt, desk, Call::OpenRm, None, branch.m, TMASYNC, idle);
    let started = ask(rt, desk, Call::Start, branch, TMASYNC, idle);
    let added = native(rt, desk, addition, branch.m, TMASYNC, idle);
    let ended = ask(rt, desk, Call::End, branch, TMSUCCESS | TMASYNC, idle);
    opened == 1 && started == 2 && added == 3 && ended == 4
}

// Completes an operation with XA_OK: that of the handle, or with TMMULTIPLE any.
fn collect<R: Wait>(
    rt: &R,
    desk: &mut Desk,
    m: u32,
    number: i32,
    flags: u32,
    idle: &mut Turns,
) -> bool
    ensures seat { seat_of_desk desk.new ≡ seat_of_desk desk.old }
    ensures idled { map seat_of_worker idle.new ≡ map seat_of_worker idle.old }
{
    let (mut handle, mut retval) = (number, 55);
    let answer = xa_complete(rt, desk, &mut handle, &mut retval, m, flags, idle);
    answer == 0 && retval == 0 && handle > 0
}

// Collects what `send` sent, in each way.
fn collect_all<R: Wait>(rt: &R, desk: &mut Desk, m: u32, idle: &mut Turns) -> bool
    ensures seat { seat_of_desk desk.new ≡ seat_of_desk desk.old }
    ensures idled { map seat_of_worker idle.new ≡ map seat_of_worker idle.old }
{
    let fourth = collect(rt, desk, m, 4, TMNOFLAGS, idle);
    let first = collect(rt, desk, 0, 0, TMMULTIPLE, idle);
    let second = collect(rt, desk, m, 0, TMMULTIPLE | TMNOWAIT, idle);
    let third = collect(rt, desk, m, 3, TMNOWAIT, idle);
    fourth && first && second && third
}

// Works for the branch and ends it so. A fifth asynchronous call finds no handle.
fn work<R: Wait>(
    rt: &R,
    desk: &mut Desk,
    branch: &Branch,
    key: Key,
    delta: Delta,
    call: Call,
    flags: u32,
    idle: &mut Turns,
) -> bool
    ensures seat { seat_of_desk desk.new ≡ seat_of_desk desk.old }
    ensures idled { map seat_of_worker idle.new ≡ map seat_of_worker idle.old }
{
    let sent = send(rt, desk, branch, key, delta, idle);
    let refused = ask(rt, desk, call, branch, flags | TMASYNC, idle);
    let collected = collect_all(rt, desk, branch.m, idle);
    let ended = ask(rt, desk, call, branch, flags, idle);
    sent && refused == Code::Async.value() && collected && ended == 0
}

// Commits a branch at manager 1 in one phase, rolls one back at manager 2, and shuts that.
fn play_with<R: Wait>(
    rt: &R,
    desk: &mut Desk,
    first: &Branch,
    second: &Branch,
    key: Key,
    delta: Delta,
    idle: &mut Turns,
) -> bool
    ensures seat { seat_of_desk desk.new ≡ seat_of_desk desk.old }
    ensures idled { map seat_of_worker idle.new ≡ map seat_of_worker idle.old }
{
    let committed = work(rt, desk, first, key, delta, Call::Commit, TMONEPHASE, idle);
    let rolled_back = work(
        rt,
        desk,
        second,
        key,
        delta,
        Call::Rollback,
        TMNOFLAGS,
        idle,
    );
    let shut = native(rt, desk, RmOp::Shut, 2, TMNOFLAGS, idle);
    let late = ask(rt, desk, Call::Prepare, second, TMNOFLAGS, idle);
    committed && rolled_back && shut == 0 && late == Code::RmFail.value()
}

// All calls, if they answer what they are to.
fn play<R: Wait>(rt: &R, desk: &mut Desk, idle: &mut Turns) -> bool
    ensures seat { seat_of_desk desk.new ≡ seat_of_desk desk.old }
    ensures idled { map seat_of_worker idle.new ≡ map seat_of_worker idle.old }
{
    match (
        branch(1, b"1"),
        branch(2, b"2"),
        Key::new(b"a"),
        Delta::new(1),
    ) {
        (Some(first), Some(second), Some(key), Some(delta)) => {
            play_with(rt, desk, &first, &second, key, delta, idle)
        }
        _ => false,
    }
}

// Room for the workers once they have run. None for want of memory.
fn room_for(alloc: Global, workers: &Turns) -> Option<Vec<DoneWorker>>
    ensures none { IfSome result (λ v. v.items ≡ []) }
    ensures room { IfSome result (λ v. length workers.now ≤ vec_capacity v) }
{
    Vec::with_capacity(alloc, workers.managers()).ok()
}

/// All calls of an opening from its opening on, to the end of its desk and its workers. They take no memory.
pub(crate) fn call_all<R: Wait, W: Write>(
    rt: &R,
    alloc: Global,
    out: &mut W,
) -> Option<io::Result<()>> {
    let Opened {
        mut desk,
        mut workers,
    } = open(rt, alloc, &plan_of(alloc, 1, 2)?)?;
    let done = room_for(alloc, &workers)?;
    if let Err(error) = begin(out) {
        return Some(Err(error));
    }
    let played = play(rt, &mut desk, &mut workers);
    let ended = end(rt, desk, &mut workers).is_some();
    workers.run(rt, done);
    let came = if played && ended {
        Came::Made
    } else {
        Came::Wrong
    };
    Some(tell(out, came))
}

// ---- settling

/// Desks that have ended, and workers that have run.
#[derive(Drop)]
pub(crate) struct Pieces {
    pub(crate) desks: Vec<EndedDesk>,
    pub(crate) workers: Vec<DoneWorker>,
}

/// Ends the desk, and runs the workers. None where something is outstanding, and for want of memory.
pub(crate) fn end_all<R: Wait>(rt: &R, alloc: Global, opened: Opened) -> Option<Pieces>
    ensures desks { IfSome result (λ p. desk_seats p.desks.items ≡ seat_of_desk opened.desk ∷ []) }
    ensures workers { IfSome result (λ p. worker_seats p.workers.items ≡ map seat_of_worker opened.workers) }
{
    let Opened { desk, mut workers } = opened;
    let ended = end(rt, desk, &mut workers)?;
    let Ok(desks) = Vec::from_array(alloc, [ended]) else {
        return None;
    };
    let workers = run_all(rt, alloc, workers)?;
    Some(Pieces { desks, workers })
}

// What an opening of one thread leaves; with two managers, one that has made all calls. None where it doesn't come so
// far.
fn pieces_of<R: Wait>(rt: &R, alloc: Global, opening: u64, managers: u32) -> Option<Pieces>
    ensures come { IfSome result (λ p. ComeFromOpenings (desk_seats p.desks.items) (worker_seats p.workers.items)) }
    ensures number { IfSome result (λ p. All (λ n. n ≡ opening)
        (openings_of (desk_seats p.desks.items) (worker_seats p.workers.items))) }
{
    let plan = plan_of(alloc, opening, managers)?;
    let mut opened = open(rt, alloc, &plan)?;
    if managers == 2 && !play(rt, &mut opened.desk, &mut opened.workers) {
        return None;
    }
    end_all(rt, alloc, opened)
}

// Settles the pieces. They come back where memory was refused.
fn attempt<R: Wait>(rt: &R, alloc: Global, pieces: Pieces) -> (Came, Option<Pieces>)
    requires { ComeFromOpenings (desk_seats pieces.desks.items) (worker_seats pieces.workers.items) }
    ensures { IfSome result.1 (λ back. ComeFromOpenings (desk_seats back.desks.items)
        (worker_seats back.workers.items)) }
{
    let many = (pieces.desks.len(), pieces.workers.len());
    let back = match settle(rt, alloc, pieces.desks, pieces.workers) {
        Ok(settled) => {
            let value = Key::new(b"a").and_then(|key| settled.value(1, &key));
            let made = value == Some(6) && settled.journal(1).len() == 5;
            return (if made { Came::Made } else { Came::Wrong }, None);
        }
        Err(back) => back,
    };
    if (back.desks.len(), back.workers.len()) != many {
        return (Came::Wrong, None);
    }
    match back.why {
        Why::NoMemory => (
            Came::Refused,
            Some(Pieces {
                desks: back.desks,
                workers: back.workers,
            }),
        ),
        Why::Stranger => (Came::Stranger, None),
        Why::Missing => (Came::Missing, None),
    }
}

// Settles the pieces, once more where memory was refused, and tells what came of it each time.
fn settle_pieces<R: Wait, W: Write>(
    rt: &R,
    alloc: Global,
    pieces: Pieces,
    out: &mut W,
) -> io::Result<()>
    requires { ComeFromOpenings (desk_seats pieces.desks.items) (worker_seats pieces.workers.items) }
{
    begin(out)?;
    let (came, back) = attempt(rt, alloc, pieces);
    tell(out, came)?;
    if let Some(pieces) = back {
        let (again, _) = attempt(rt, alloc, pieces);
        tell(out, again)?;
    }
    Ok(())
}

/// An opening of two managers.
pub(crate) fn settle_one<R: Wait, W: Write>(
    rt: &R,
    alloc: Global,
    out: &mut W,
) -> Option<io::Result<()>> {
    let pieces = pieces_of(rt, alloc, 1, 2)?;
    Some(settle_pieces(rt, alloc, pieces, out))
}

/// The desk of one opening with the worker of another.
pub(crate) fn settle_strangers<R: Wait, W: Write>(
    rt: &R,
    alloc: Global,
    out: &mut W,
) -> Option<io::Result<()>> {
    mixed_pieces_come_from_their_openings();
    let first = pieces_of(rt, alloc, 1, 1)?;
    let second = pieces_of(rt, alloc, 2, 1)?;
    let pieces = Pieces {
        desks: first.desks,
        workers: second.workers,
    };
    Some(settle_pieces(rt, alloc, pieces, out))
}

/// The desk of an opening without its worker.
pub(crate) fn settle_without_workers<R: Wait, W: Write>(
    rt: &R,
    alloc: Global,
    out: &mut W,
) -> Option<io::Result<()>> {
    let whole = pieces_of(rt, alloc, 1, 1)?;
    let pieces = Pieces {
        desks: whole.desks,
        workers: Vec::new(alloc),
    };
    Some(settle_pieces(rt, alloc, pieces, out))
}
