//! The ends of a lane that send.
ghost use Rattle.std.specs.Prelude.{◌≡◌, ◌++◌, ◌∷◌, [], OnOk, OnErr, IfErr, MatchResult};
ghost use Rattle.xa_lane.specs.Ends.{counted, SameSender};

use crate::ended::Ended;
use crate::name::LaneName;
use crate::order::{ParcelQueue, Pushes, View};
use crate::parcel::{Full, Parcel};
use crossbeam_queue::Pass;
use std::alloc::Global;
use std::marker::Model;
use std::sync::{Arc, Wait};

/// A sender of a lane.
#[derive(Drop)]
pub struct Sender<T: Copy> {
    pub(crate) line: Arc<ParcelQueue<T>, Global>,
    pub(crate) pass: Pass<Parcel<T>, View<T>>,
    pub(crate) name: LaneName,
    pub(crate) index: usize,
    pub(crate) full: u64,
}

impl<T: Copy> Model for Sender<T> {
    ghost use Rattle.xa_lane.specs.Ends.{Sending};

    ghost Value = { Sending T };

    ghost use Rattle.std.specs.Prelude.{◌≡◌, ◌≤◌, false};
    ghost use Rattle.std.specs.Arc.{arc_value};
    ghost use Rattle.crossbeam_queue.specs.Passes.{view as knows, IsPassOf, ruled_capacity};
    ghost use Rattle.xa_base.specs.declared.limits.TheConstants.{MOST_QUEUED};
    ghost use Rattle.xa_lane.specs.Order.{log, sent_in};
    ghost use Rattle.xa_lane.specs.Ends.{line_of};
    ghost use Rattle.xa_lane.specs.declared.order.View.TheVariants.{Sends};

    ghost view = { λ s. record {
      lane = s.name;
      line = line_of (arc_value s.line);
      capacity = ruled_capacity (arc_value s.line);
      index = s.index;
      sent = sent_in (knows s.pass);
      full = s.full;
    } };

    ghost invariant = { λ s. IsPassOf (arc_value s.line) s.pass
        × (knows s.pass ≡ Sends (log s.index (sent_in (knows s.pass)) false))
        × (ruled_capacity (arc_value s.line) ≤ MOST_QUEUED) };
}

impl<T: Copy> Sender<T> {
    /// The name of the sender's lane.
    pub fn name(&self) -> LaneName
        ensures { result ≡ self.now.lane }
    {
        self.name
    }

    /// Sends an item.
    ///
    /// `Full` hands it back where the queue refused it as full: nothing was sent, and the full moment is
    /// counted. The count stays at `u64::MAX`.
    #[inline(always)]
    pub fn offer<R: Wait>(&mut self, rt: &R, item: T) -> Result<(), Full<T>>
        ensures same { SameSender self.old self.new }
        ensures sent { OnOk result (self.new ≡ record self.old { sent = self.old.sent ++ item ∷ [] }) }
        ensures full { IfErr result (λ f. (f.item ≡ item) × (self.new ≡ record self.old {
          full =
              counted self.old.full;
        })) }
    {
        let parcel = Parcel {
            from: self.index,
            item: Some(item),
        };
        match self.line.push_as::<Pushes, R>(rt, &mut self.pass, parcel) {
            Ok(()) => Ok(()),
            Err(_) => {
                self.full = self.full.saturating_add(1);
                Err(Full { item })
            }
        }
    }

    /// Puts the sender's end mark, which is the last that it puts.
    ///
    /// The sender comes back where the queue refused the mark as full, which is a full moment and is
    /// counted as in `offer`.
    pub fn finish<R: Wait>(mut self, rt: &R) -> Result<Ended<T>, Sender<T>>
        ensures ended { MatchResult result (λ e. e ≡ self) (λ s. s ≡ record self { full = counted self.full }) }
    {
        let mark = Parcel {
            from: self.index,
            item: None,
        };
        match self.line.push_as::<Pushes, R>(rt, &mut self.pass, mark) {
            Ok(()) => {
                let Sender {
                    line,
                    pass,
                    name,
                    index,
                    full,
                } = self;
                Ok(Ended {
                    line,
                    pass,
                    name,
                    index,
                    full,
                })
            }
            Err(_) => {
                self.full = self.full.saturating_add(1);
                Err(self)
            }
        }
    }
}
