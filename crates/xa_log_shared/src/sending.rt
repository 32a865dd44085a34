//! Sending with a wait while the lane is full.
ghost use Rattle.std.specs.Prelude.{◌≡◌};
ghost use Rattle.xa_lane.specs.Senders.{with_item, but_full};

use crossbeam_utils::Backoff;
use std::sync::Wait;
use xa_lane::{Ended, Sender};

/// Sends an item.
pub(crate) fn send<T: Copy, R: Wait>(rt: &R, sender: &mut Sender<T>, item: T)
    ensures { but_full sender.new ≡ but_full (with_item item sender.old) }
{
    let backoff = Backoff::new();
    for _ in rt.forever() {
        match sender.offer(rt, item) {
            Ok(()) => return,
            Err(_) => backoff.snooze(),
        }
    }
    unreachable!()
}

/// Puts the end mark.
pub(crate) fn finish<T: Copy, R: Wait>(rt: &R, mut sender: Sender<T>) -> Ended<T>
    ensures { but_full result ≡ but_full sender }
{
    let backoff = Backoff::new();
    for _ in rt.forever() {
        match sender.finish(rt) {
            Ok(end) => return end,
            Err(back) => {
                sender = back;
                backoff.snooze();
            }
        }
    }
    unreachable!()
}
