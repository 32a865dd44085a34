//! An idle that gives its processor to other threads.
use crate::idle::Idle;
use std::sync::Wait;
use std::thread;

/// Waits for other threads: it yields its processor at each idle.
#[derive(Clone, Copy, Debug, Default)]
pub struct Spin;

impl Spin {
    /// One that hasn't idled.
    pub fn new() -> Spin {
        Spin
    }
}

impl Idle for Spin {
    ghost leads_by = { λ manager before after. Unit {0} };

    ghost leads = { λ before after. Unit {0} };

    ghost leads_each = { λ manager x y p. tt };

    ghost leads_start = { λ x. tt };

    ghost leads_chain = { λ x y z p q. tt };

    fn idle<R: Wait>(&mut self, _rt: &R, _manager: u32) {
        thread::yield_now();
    }
}
