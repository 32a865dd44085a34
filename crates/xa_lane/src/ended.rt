//! The ends of a lane that have sent all.
ghost use Rattle.std.specs.Prelude.{◌≡◌, []};
ghost use Rattle.crossbeam_queue.specs.Passes.{view};
ghost use Rattle.xa_lane.specs.declared.order.View.TheVariants.{Sends};
ghost use Rattle.xa_lane.specs.Closing.{log_of_end};

use crate::name::LaneName;
use crate::order::{ParcelQueue, View};
use crate::parcel::Parcel;
use crossbeam_queue::Pass;
use std::alloc::Global;
use std::marker::Model;
use std::sync::Arc;

/// A sender that has put its end mark, after all that it sent.
#[derive(Drop)]
pub struct Ended<T: Copy> {
    pub(crate) line: Arc<ParcelQueue<T>, Global>,
    pub(crate) pass: Pass<Parcel<T>, View<T>>,
    pub(crate) name: LaneName,
    pub(crate) index: usize,
    pub(crate) full: u64,
}

impl<T: Copy> Model for Ended<T> {
    ghost use Rattle.xa_lane.specs.Ends.{Sending};

    ghost Value = { Sending T };

    ghost use Rattle.std.specs.Prelude.{◌≡◌, true};
    ghost use Rattle.std.specs.Arc.{arc_value};
    ghost use Rattle.crossbeam_queue.specs.Passes.{view as knows, IsPassOf, ruled_capacity};
    ghost use Rattle.xa_lane.specs.Order.{log, sent_in};
    ghost use Rattle.xa_lane.specs.Ends.{line_of};
    ghost use Rattle.xa_lane.specs.declared.order.View.TheVariants.{Sends};

    ghost view = { λ s. record {
      lane = s.name;
      line = line_of (arc_value s.line);
      capacity = ruled_capacity (arc_value s.line);
      index = s.index;
      sent = sent_in (knows s.pass);
      full = s.full;
    } };

    ghost invariant = { λ s. IsPassOf (arc_value s.line) s.pass
        × (knows s.pass ≡ Sends (log s.index (sent_in (knows s.pass)) true)) };
}

impl<T: Copy> Ended<T> {
    /// The name of the sender's lane.
    pub fn name(&self) -> LaneName
        ensures { result ≡ self.now.lane }
    {
        self.name
    }

    pub(crate) fn index(&self) -> usize
        ensures { result ≡ self.now.index }
    {
        self.index
    }

    // The pass knows what the sender has sent, and that it has ended.
    pub(crate) fn into_pass(self) -> Pass<Parcel<T>, View<T>>
        ensures pass { (result.table_id ≡ self.line) × (result.me.1 ≡ []) }
        ensures knows { view result ≡ Sends (log_of_end self) }
    {
        let Ended {
            line: _,
            pass,
            name: _,
            index: _,
            full: _,
        } = self;
        pass
    }
}
