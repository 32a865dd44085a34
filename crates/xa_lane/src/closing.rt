//! How the ends of a lane come together again.
ghost use Rattle.std.specs.Prelude.{◌≡◌, ◌↔◌, ◌≤◌, [], ◌++◌, map, All, List, IsTrue, vec_capacity};
ghost use Rattle.crossbeam_queue.specs.Passes.{view, IsPassOf};
ghost use Rattle.xa_lane.specs.declared.order.View.TheVariants.{Receives};
ghost use Rattle.xa_lane.specs.declared.parcel.Parcel.{Parcel};
ghost use Rattle.xa_base.specs.declared.limits.TheConstants.{MOST_QUEUED};
ghost use Rattle.xa_lane.specs.Order.{Tied, Within, made_in, taken_in, told_in};
ghost use Rattle.xa_lane.specs.Ends.{line_of};
ghost use Rattle.xa_lane.specs.Closing.{HasAllEnds, log_of_end, items_in, Covers, has_end};

use crate::ended::Ended;
use crate::name::LaneName;
use crate::order::{Gets, ParcelQueue, TakesIn, View};
use crate::parcel::Parcel;
use crossbeam_queue::Pass;
use std::sync::Wait;

// Whether all ends have this lane's name.
pub(crate) fn are_of<T: Copy>(ended: &Vec<Ended<T>>, name: LaneName) -> bool
    ensures { IsTrue result ↔ All (λ e. e.lane ≡ name) ended.now.items }
{
    for end in ended {
        if end.name() != name {
            return false;
        }
    }
    true
}

fn has<T: Copy>(ended: &Vec<Ended<T>>, sender: usize) -> bool
    ensures { result ≡ has_end sender ended.now.items }
{
    ended.iter().any(|end| end.index() == sender)
}

// Whether the end of each sender is there.
pub(crate) fn are_whole<T: Copy>(ended: &Vec<Ended<T>>, senders: usize) -> bool
    ensures { IsTrue result ↔ HasAllEnds senders ended.now.items }
{
    for sender in 0..senders {
        if !has(ended, sender) {
            return false;
        }
    }
    true
}

// The receiver's pass takes the senders in, one after another.
pub(crate) fn take_in<T: Copy>(
    line: &ParcelQueue<T>,
    mut pass: Pass<Parcel<T>, View<T>>,
    ended: Vec<Ended<T>>,
) -> Pass<Parcel<T>, View<T>>
    requires pass { IsPassOf line.now pass × (view pass ≡ Receives (made_in (view pass)) (taken_in (view pass)) []) }
    requires ended { All (λ e. e.line ≡ line_of line.now) ended.items }
    ensures pass { IsPassOf line.now result }
    ensures knows { view result ≡ Receives (made_in (view pass)) (taken_in (view pass)) (map log_of_end ended.items) }
{
    for end in ended {
        line.absorb::<TakesIn>(&mut pass, end.into_pass());
    }
    pass
}

// Pops until the queue is found empty. With all senders taken in, nothing can be put any more.
pub(crate) fn drain<T: Copy, R: Wait>(
    rt: &R,
    line: &ParcelQueue<T>,
    mut pass: Pass<Parcel<T>, View<T>>,
    mut left: Vec<(usize, T)>,
) -> Vec<(usize, T)>
    requires pass { IsPassOf line.now pass × (view pass ≡ Receives (made_in (view pass)) (taken_in (view pass))
        (told_in (view pass))) }
    requires whole { Covers (made_in (view pass)) (told_in (view pass)) }
    requires left { (left.items ≡ []) × (MOST_QUEUED ≤ vec_capacity left) }
    ensures { (held : List (Parcel T)) × (result.items ≡ items_in held)
        × Tied (told_in (view pass)) (taken_in (view pass) ++ held)
        × Within (made_in (view pass)) (taken_in (view pass) ++ held) }
{
    line.learn_as::<Gets>(&mut pass);
    for _ in rt.forever() {
        match line.pop_as::<Gets, R>(rt, &mut pass) {
            Some(
                Parcel {
                    from,
                    item: Some(item),
                },
            ) => left.push_reserved((from, item)),
            Some(
                Parcel {
                    from: _,
                    item: None,
                },
            ) => {}
            None => return left,
        }
    }
    unreachable!()
}
