//! How the lanes of an opening are closed.
ghost use Rattle.std.specs.Prelude.{◌≢◌, ◌<◌, length, map};
ghost use Rattle.std.specs.List.{All, AllPairs};
ghost use Rattle.xa_switch.specs.Closing.{column, IsClosable, IsClosed};

use std::alloc::Global;
use std::mem;
use std::sync::Wait;
use xa_lane::{Ended, Receiver, close_lane};

// Closes a lane with all its ends.
fn close<T: Copy, R: Wait>(rt: &R, ends: Vec<Ended<T>>, receiver: Receiver<T>)
    requires { IsClosable receiver ends.items }
    ensures { IsClosed receiver ends.items }
{
    match close_lane(rt, ends, receiver) {
        Ok(_) => {}
        Err(_) => unreachable!(),
    }
}

/// Closes each lane with its ends, which stand in the column at its place.
pub(crate) fn close_lanes<T: Copy, R: Wait>(
    rt: &R,
    alloc: Global,
    mut columns: Vec<Vec<Ended<T>>>,
    receivers: Vec<(usize, Receiver<T>)>,
)
    requires apart { AllPairs (λ a b. a.0 ≢ b.0) receivers.items }
    requires places { All (λ r. r.0 < length columns.items) receivers.items }
    requires closable { All (λ r. IsClosable r.1 (column (map (λ c. c.items) columns.items) r.0)) receivers.items }
    ensures { All (λ r. IsClosed r.1 (column (map (λ c. c.items) columns.items) r.0)) receivers.items }
{
    for (place, receiver) in receivers {
        let column = &mut columns[place];
        let ends = mem::replace(column, Vec::new(alloc));
        close(rt, ends, receiver);
    }
}
