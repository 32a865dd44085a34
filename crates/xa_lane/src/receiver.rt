//! The end of a lane that receives.
ghost use Rattle.std.specs.Prelude.{◌≡◌};
ghost use Rattle.xa_lane.specs.Ends.{Took, SameReceiver, answer_of};

use crate::name::LaneName;
use crate::order::{Gets, ParcelQueue, View};
use crate::parcel::{Parcel, Taken};
use crossbeam_queue::Pass;
use std::alloc::Global;
use std::marker::Model;
use std::sync::{Arc, Wait};

/// The receiver of a lane.
#[derive(Drop)]
pub struct Receiver<T: Copy> {
    pub(crate) line: Arc<ParcelQueue<T>, Global>,
    pub(crate) pass: Pass<Parcel<T>, View<T>>,
    pub(crate) name: LaneName,
    pub(crate) senders: usize,
    pub(crate) quiet: u64,
    // How many parcels were taken, and how many had been at the last quiet moment.
    pub(crate) taken: u64,
    pub(crate) taken_then: u64,
    // Reserved for what closing the lane finds.
    pub(crate) left: Vec<(usize, T)>,
}

impl<T: Copy> Model for Receiver<T> {
    ghost use Rattle.xa_lane.specs.Ends.{Receiving};

    ghost Value = { Receiving T };

    ghost use Rattle.std.specs.Prelude.{◌≡◌, ◌≤◌, [], length, vec_capacity};
    ghost use Rattle.std.specs.Arc.{arc_value};
    ghost use Rattle.crossbeam_queue.specs.Passes.{view as knows, IsPassOf, ruled_capacity};
    ghost use Rattle.xa_base.specs.declared.limits.TheConstants.{MOST_QUEUED};
    ghost use Rattle.xa_lane.specs.Order.{taken_in};
    ghost use Rattle.xa_lane.specs.Ends.{line_of, at_most_counted};
    ghost use Rattle.xa_lane.specs.declared.order.View.TheVariants.{Receives};

    ghost view = { λ s. record {
      lane = s.name;
      line = line_of (arc_value s.line);
      capacity = ruled_capacity (arc_value s.line);
      senders = s.senders;
      taken = taken_in (knows s.pass);
      quiet = s.quiet;
      taken_then = s.taken_then;
    } };

    ghost invariant = { λ s. IsPassOf (arc_value s.line) s.pass
        × (knows s.pass ≡ Receives s.senders (taken_in (knows s.pass)) [])
        × (s.taken ≡ at_most_counted (length (taken_in (knows s.pass)))) × (s.left.items ≡ [])
        × (MOST_QUEUED ≤ vec_capacity s.left) };
}

impl<T: Copy> Receiver<T> {
    /// The name of the receiver's lane.
    pub fn name(&self) -> LaneName
        ensures { result ≡ self.now.lane }
    {
        self.name
    }

    /// Takes what stands at the front of the lane.
    ///
    /// `Empty` is answered where a pop found nothing in the queue, which is a quiet moment and is counted.
    /// The count stays at `u64::MAX`. What had been taken by then is the receiver's `taken_then`.
    #[inline(always)]
    pub fn take<R: Wait>(&mut self, rt: &R) -> Taken<T>
        ensures same { SameReceiver self.old self.new }
        ensures took { Took self.old result self.new }
    {
        let Some(parcel) = self.take_parcel(rt) else {
            return Taken::Empty;
        };
        match parcel.item {
            Some(item) => Taken::Item(parcel.from, item),
            None => Taken::EndOf(parcel.from),
        }
    }

    /// `take`, which answers the parcel as it was put: a large item isn't moved once more. None is `Empty`.
    #[inline(always)]
    pub fn take_parcel<R: Wait>(&mut self, rt: &R) -> Option<Parcel<T>>
        ensures same { SameReceiver self.old self.new }
        ensures took { Took self.old (answer_of result) self.new }
    {
        let parcel = self.line.pop_as::<Gets, R>(rt, &mut self.pass);
        match &parcel {
            Some(_) => self.taken = self.taken.saturating_add(1),
            None => {
                self.quiet = self.quiet.saturating_add(1);
                self.taken_then = self.taken;
            }
        }
        parcel
    }
}
