//! A client that opens two managers, and runs of it.
mod again;
mod runs;
mod shut;
mod stored;

use std::alloc::Global;
use std::process::Abort;
use std::sync::Wait;
use xa_calls::{xa_call, xa_complete};
use xa_crew::Client;
use xa_crew::laws::idles_go_on;
use xa_desk::laws::desks_go_on;
use xa_desk::{Desk, Idle};
use xa_switch::Plan;
use xa_words::{Call, Code, TMASYNC, TMNOFLAGS};

// Opens manager 1 by a synchronous call, and manager 2 by an asynchronous one.
#[derive(Drop)]
struct Opener {
    // Whether it leaves the asynchronous call outstanding.
    leaves: bool,
    // What the two calls answered.
    answers: (i32, i32),
    // What the second was completed with, if it was.
    code: Option<i32>,
}

impl Opener {
    fn new(leaves: bool) -> Opener {
        Opener {
            leaves,
            answers: (-1, -1),
            code: None,
        }
    }
}

impl Client for Opener {
    ghost works = { λ client desk client' desk'. Unit {0} };

    fn work<R: Wait, I: Idle>(&mut self, rt: &R, desk: &mut Desk, idle: &mut I) {
        desks_go_on();
        idles_go_on::<I>();
        let first = xa_call(rt, desk, Call::OpenRm, None, 1, TMNOFLAGS, idle);
        let second = xa_call(rt, desk, Call::OpenRm, None, 2, TMASYNC, idle);
        self.answers = (first, second);
        if !self.leaves {
            let (mut handle, mut retval) = (second, Code::Retry.value());
            xa_complete(rt, desk, &mut handle, &mut retval, 2, TMNOFLAGS, idle);
            self.code = Some(retval);
        }
    }
}

// A plan of so many threads and two managers without keys.
fn plan_of(rt: &impl Abort, alloc: Global, threads: u32) -> Plan {
    Plan {
        opening: 7,
        threads,
        handles: 2,
        queue: 2,
        requests: 8,
        ..test_support::plan_of(alloc, 2, &[]).expect(rt, "memory")
    }
}
