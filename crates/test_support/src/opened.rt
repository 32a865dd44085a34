//! An opening in one thread: its desks, and its workers, which take turns.
ghost use Rattle.std.specs.Prelude.{IfSome};
ghost use Rattle.xa_switch.specs.Reopening.{reopening};
ghost use Rattle.xa_switch.specs.OpenedPieces.{AreOfOneOpening};
ghost use Rattle.xa_switch.specs.Plans.{planned};
ghost use Rattle.xa_switch.specs.Recovery.{AreScansOf};

use std::alloc::Global;
use std::sync::Wait;
use xa_crew::Turns;
use xa_desk::Desk;
use xa_scan::Scan;
use xa_switch::{Again, Plan, Settled, open_switch, reopen};

/// Opens a plan. None where it can't be opened.
pub fn open<R: Wait>(rt: &R, alloc: Global, plan: &Plan) -> Option<(Vec<Desk>, Turns)>
    ensures { IfSome result (λ r. AreOfOneOpening (planned plan.now) r.0.items r.1) }
{
    let Ok((desks, workers)) = open_switch(rt, alloc, plan) else {
        return None;
    };
    Some((desks, Turns::new(workers)))
}

/// Opens again what was settled. None where it can't be.
pub fn open_again<R: Wait>(
    rt: &R,
    alloc: Global,
    settled: Settled,
    again: &Again,
) -> Option<(Vec<Desk>, Turns, Vec<Scan>)>
    ensures opened { IfSome result (λ r. AreOfOneOpening (reopening settled again.now) r.0.items r.1) }
    ensures scans { IfSome result (λ r. AreScansOf settled again.now.threads r.2.items) }
{
    let Ok((desks, workers, scans)) = reopen(rt, alloc, settled, again) else {
        return None;
    };
    Some((desks, Turns::new(workers), scans))
}
