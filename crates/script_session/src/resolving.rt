//! A resolve by a line of a script.
ghost use Rattle.std.specs.Prelude.{◌≡◌, IfOk, OnErr};
ghost use Rattle.xa_desk.specs.GoingOn.{GoesOn};
ghost use Rattle.xa_desk.specs.Kept.{AllKept};
ghost use Rattle.script_session.specs.Resolving.{CanResolve, ResolvesLeft};
ghost use Rattle.script_session.specs.Sessions.{session_of};

use script_transcript::Answer;
use std::alloc::{AllocError, Global};
use std::sync::Wait;
use xa_desk::laws::desks_go_on;
use xa_desk::{Desk, Idle};
use xa_driver::{ResolveFault, may_resolve, resolve};
use xa_log::{MemoryLog, TrialLog};
use xa_scan::Scan;

/// Resolves what was left, where the log is known and there is room for it. It fails only for want of memory, and then
/// nothing is done.
pub(crate) fn resolve_left<R: Wait, I: Idle>(
    rt: &R,
    alloc: Global,
    desk: &mut Desk,
    log: &TrialLog<MemoryLog>,
    scan: &Scan,
    idle: &mut I,
) -> Result<Answer, AllocError>
    ensures resolves { IfOk result (ResolvesLeft (session_of desk.old log.now scan.now)
        (session_of desk.new log.now scan.now)) }
    ensures goes_on { GoesOn desk.old desk.new }
    ensures kept { AllKept desk.old → AllKept desk.new }
    ensures unsent { OnErr result (desk.new ≡ desk.old) }
    ensures idled { I.leads idle.old idle.new }
    ensures prompt { ¬ CanResolve (session_of desk.old log.now scan.now) → idle.new ≡ idle.old }
{
    desks_go_on();
    if !may_resolve(desk, scan, log) {
        return Ok(Answer::Refused);
    }
    match resolve(rt, alloc, desk, scan, log, idle) {
        Ok(resolved) => Ok(Answer::Resolved(resolved.outcomes)),
        Err(ResolveFault::NoMemory) => Err(AllocError),
    }
}
