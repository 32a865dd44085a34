//! How a lane is opened and closed.
ghost use Rattle.std.specs.Prelude.{◌≡◌, ◌↔◌, All, IfOk, OnOk, IfErr};
ghost use Rattle.xa_lane.specs.Ends.{new_senders, new_receiver, IsLaneSize};
ghost use Rattle.xa_lane.specs.Closing.{HasAllEnds, Conserves, EndsLast, LeavesNothing, AreKnown, IsWhy};

use crate::closing::{are_of, are_whole, drain, take_in};
use crate::ended::Ended;
use crate::name::LaneName;
use crate::order::{Deals, ParcelQueue};
use crate::receiver::Receiver;
use crate::sender::Sender;
use std::alloc::{AllocError, Global};
use std::sync::{Arc, Wait};
use xa_base::{MOST_QUEUED, MOST_SENDERS};

/// Why a lane is not opened: the first reason that holds.
#[derive(Clone, Copy, Debug, PartialEq, Eq)]
pub enum LaneFault {
    /// There are not 1 to 8 senders, or the capacity is not 1 to 64.
    BadCount,
    /// There is no memory for the lane.
    NoMemory,
}

impl From<AllocError> for LaneFault {
    ghost use Rattle.xa_lane.specs.declared.lane.LaneFault.TheVariants.{NoMemory};

    ghost from_gives = { λ _ fault. fault ≡ NoMemory };

    fn from(_error: AllocError) -> LaneFault {
        LaneFault::NoMemory
    }
}

/// Why a lane is not closed: the first reason that holds.
#[derive(Clone, Copy, Debug, PartialEq, Eq)]
pub enum CloseWhy {
    /// An end has another lane's name.
    Stranger,
    /// The end of a sender isn't there.
    Missing,
}

/// A lane that is not closed. All that was given comes back.
#[derive(Drop)]
pub struct CloseFault<T: Copy> {
    pub why: CloseWhy,
    pub ended: Vec<Ended<T>>,
    pub receiver: Receiver<T>,
}

/// Opens a lane: its senders, by rising number from 0, and its receiver.
///
/// Its one queue holds `capacity` items and end marks. All memory that the lane ever takes is
/// reserved here, that for closing it too.
pub fn open_lane<T: Copy, R: Wait>(
    _rt: &R,
    alloc: Global,
    name: LaneName,
    senders: usize,
    capacity: usize,
) -> Result<(Vec<Sender<T>>, Receiver<T>), LaneFault>
    ensures refused { IfErr result (λ f. f ≡ LaneFault.BadCount ↔ ¬ IsLaneSize senders capacity) }
    ensures counts { OnOk result (IsLaneSize senders capacity) }
    ensures senders { IfOk result (λ r. r.0.items ≡ new_senders name r.1.line capacity senders) }
    ensures receiver { IfOk result (λ r. r.1 ≡ new_receiver name r.1.line capacity senders) }
{
    if !(1..=MOST_SENDERS).contains(&senders) || !(1..=MOST_QUEUED).contains(&capacity) {
        return Err(LaneFault::BadCount);
    }
    Ok(new_lane(alloc, name, senders, capacity)?)
}

fn new_lane<T: Copy>(
    alloc: Global,
    name: LaneName,
    senders: usize,
    capacity: usize,
) -> Result<(Vec<Sender<T>>, Receiver<T>), AllocError>
    requires { IsLaneSize senders capacity }
    ensures senders { IfOk result (λ r. r.0.items ≡ new_senders name r.1.line capacity senders) }
    ensures receiver { IfOk result (λ r. r.1 ≡ new_receiver name r.1.line capacity senders) }
{
    let left = Vec::with_capacity(alloc, MOST_QUEUED)?;
    let mut ends = Vec::with_capacity(alloc, senders)?;
    let (queue, mut pass) = ParcelQueue::ruled(alloc, capacity)?;
    let line = Arc::new(alloc, queue)?;
    for index in 0..senders {
        let mine = line.another::<Deals>(&mut pass);
        ends.push(Sender {
            line: Arc::try_clone(&line)?,
            pass: mine,
            name,
            index,
            full: 0,
        })?;
    }
    let receiver = Receiver {
        line,
        pass,
        name,
        senders,
        quiet: 0,
        taken: 0,
        taken_then: 0,
        left,
    };
    Ok((ends, receiver))
}

/// Closes a lane, and gives the items that were not taken, each with its sender's number. It takes
/// no memory.
///
/// Condition: ends of one name come from one lane. The ends may come in any order.
pub fn close_lane<T: Copy, R: Wait>(
    rt: &R,
    ended: Vec<Ended<T>>,
    receiver: Receiver<T>,
) -> Result<Vec<(usize, T)>, CloseFault<T>>
    requires { All (λ e. e.lane ≡ receiver.lane → e.line ≡ receiver.line) ended.items }
    ensures whole { OnOk result (All (λ e. e.lane ≡ receiver.lane) ended.items
        × HasAllEnds receiver.senders ended.items) }
    ensures conserves { IfOk result (λ left. Conserves ended.items receiver.taken left.items) }
    ensures last { IfOk result (λ left. EndsLast ended.items receiver.taken left.items) }
    ensures nothing { IfOk result (λ left. LeavesNothing ended.items receiver.taken left.items) }
    ensures known { IfOk result (λ left. AreKnown receiver.senders receiver.taken left.items) }
    ensures why { IfErr result (λ f. IsWhy f.why receiver ended.items) }
    ensures back { IfErr result (λ f. (f.ended.items ≡ ended.items) × (f.receiver ≡ receiver)) }
{
    if !are_of(&ended, receiver.name) {
        return Err(CloseFault {
            why: CloseWhy::Stranger,
            ended,
            receiver,
        });
    }
    if !are_whole(&ended, receiver.senders) {
        return Err(CloseFault {
            why: CloseWhy::Missing,
            ended,
            receiver,
        });
    }
    let Receiver {
        line,
        pass,
        name: _,
        senders: _,
        quiet: _,
        taken: _,
        taken_then: _,
        left,
    } = receiver;
    let pass = take_in(&line, pass, ended);
    Ok(drain(rt, &line, pass, left))
}
