//! A desk in many turns, each answer of which is compared with what stands there.
use super::stepped::{Managers, opened};
use std::process::Abort;
use std::sync::Wait;
use xa_desk::{AnyFault, Desk, Refused};
use xa_words::{Code, Op};

const HANDLES: u32 = 5;

const PLACES: usize = 3;

// What stands there: the requests in the lane to the manager, the completions that aren't collected, and
// the operations that are kept.
#[derive(Default, Drop)]
struct Standing {
    requests: usize,
    completions: u32,
    kept: u32,
}

impl Standing {
    // Why the next request is to be refused.
    fn refusal(&self) -> Option<Refused> {
        if self.kept == HANDLES {
            return Some(Refused::TooMany);
        }
        if self.requests == PLACES {
            return Some(Refused::Full);
        }
        None
    }
}

// Sends a request and keeps it, or is refused for the reason that holds.
fn submit<R: Wait + Abort>(rt: &R, desk: &mut Desk, standing: &mut Standing, turn: u32) {
    match desk.submit(rt, 1, &Op::OpenRm) {
        Ok(ticket) => {
            desk.keep(ticket);
            assert!(rt; standing.refusal().is_none(), "sent in turn {turn}");
            standing.requests = standing.requests.saturating_add(1);
            standing.kept = standing.kept.saturating_add(1);
        }
        Err(why) => assert!(rt; standing.refusal() == Some(why), "in turn {turn}"),
    }
}

// The manager answers the next request, if one stands there.
fn serve<R: Wait + Abort>(rt: &R, managers: &mut Managers, standing: &mut Standing, turn: u32) {
    match managers.next(rt, 1) {
        Some(request) => {
            managers.answer(rt, 1, request.number, Code::Done);
            assert!(rt; standing.requests > 0, "taken in turn {turn}");
            standing.requests = standing.requests.saturating_sub(1);
            standing.completions = standing.completions.saturating_add(1);
        }
        None => assert!(rt; standing.requests == 0, "empty in turn {turn}"),
    }
}

// Collects what has completed: `Retry` where nothing has, and something is kept.
fn collect<R: Wait + Abort>(rt: &R, desk: &mut Desk, standing: &mut Standing, turn: u32) {
    match desk.try_complete_any(rt, 1) {
        Ok((_, code)) => {
            assert!(rt; code == Code::Done, "in turn {turn}");
            assert!(rt; standing.completions > 0, "collected in turn {turn}");
            standing.completions = standing.completions.saturating_sub(1);
            standing.kept = standing.kept.saturating_sub(1);
        }
        Err(AnyFault::Retry) => {
            assert!(rt; standing.completions == 0, "retry in turn {turn}");
            assert!(rt; standing.kept > 0, "retry in turn {turn}");
        }
        Err(AnyFault::NothingOutstanding) => {
            assert!(rt; standing.kept == 0, "nothing outstanding in turn {turn}")
        }
    }
}

// What some turn does, with no regular order.
fn next_state(state: u32) -> u32 {
    state.wrapping_mul(1_103_515_245).wrapping_add(12_345)
}

#[test]
fn each_refusal_and_each_retry_is_told_where_it_holds(rt: HostRuntime) {
    let (mut desk, mut managers) = opened(&rt, rt.alloc(), HANDLES, 2000, &[true], PLACES);
    let mut standing = Standing::default();
    let mut state = 1;
    for turn in 0..2000 {
        state = next_state(state);
        match (state >> 16) % 3 {
            0 => submit(&rt, &mut desk, &mut standing, turn),
            1 => serve(&rt, &mut managers, &mut standing, turn),
            _ => collect(&rt, &mut desk, &mut standing, turn),
        }
    }
}
