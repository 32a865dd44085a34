//! The lanes of an opening.
ghost use Rattle.std.specs.Prelude.{map, IfOk};
ghost use Rattle.xa_base.specs.Lists.{IsUpTo};
ghost use Rattle.xa_switch.specs.Lanes.{AreNewLanes};

use crate::columns::{deal, reserve_columns};
use std::alloc::{AllocError, Global};
use std::sync::Wait;
use xa_base::{MOST_QUEUED, MOST_SENDERS};
use xa_lane::{LaneName, Receiver, Sender, open_lane};

// What a lane's name says of what goes by it.
pub(crate) const REQUESTS: u32 = 0;

pub(crate) const COMPLETIONS: u32 = 1;

/// Lanes of one kind: their receivers, by rising number, and the senders in columns: those with the lowest
/// number on their lanes first.
#[derive(Drop)]
pub(crate) struct NewLanes<T: Copy> {
    pub(crate) columns: Vec<Vec<Sender<T>>>,
    pub(crate) receivers: Vec<Receiver<T>>,
}

/// Opens so many lanes of a kind, each with so many senders, which share so many places.
pub(crate) fn open_lanes<T: Copy, R: Wait>(
    rt: &R,
    alloc: Global,
    opening: u64,
    kind: u32,
    senders: u32,
    lanes: u32,
    room: u32,
) -> Result<NewLanes<T>, AllocError>
    requires senders { IsUpTo MOST_SENDERS senders }
    requires lanes { IsUpTo MOST_SENDERS lanes }
    requires room { IsUpTo MOST_QUEUED room }
    ensures { IfOk result (λ l. AreNewLanes opening kind senders lanes room
        (map (λ c. c.items) l.columns.items) l.receivers.items) }
{
    let mut columns = reserve_columns(alloc, senders as usize, lanes as usize)?;
    let mut receivers = Vec::with_capacity(alloc, lanes as usize)?;
    for before in 0..lanes {
        let name = LaneName {
            opening,
            kind,
            index: before + 1,
        };
        let Ok((ends, receiver)) = open_lane(rt, alloc, name, senders as usize, room as usize)
        else {
            return Err(AllocError);
        };
        columns = deal(columns, ends);
        receivers.push_reserved(receiver);
    }
    Ok(NewLanes { columns, receivers })
}
