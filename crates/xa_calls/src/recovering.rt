//! The call of XA that lists what was left at a manager.
ghost use Rattle.std.specs.Prelude.{◌≡◌, ◌≤◌, false, true, is_some, List, length, IfOk};
ghost use Rattle.xa_words.specs.Xid.{XidName};
ghost use Rattle.xa_words.specs.Flags.{check_flags};
ghost use Rattle.xa_words.specs.declared.flags.Call.TheVariants as call;
ghost use Rattle.xa_words.specs.declared.request.Op.TheVariants.{Listed};
ghost use Rattle.xa_desk.specs.DeskViews.{is_known};
ghost use Rattle.xa_desk.specs.GoingOn.{GoesOn};
ghost use Rattle.xa_desk.specs.Kept.{AllKept};
ghost use Rattle.xa_desk.specs.Tickets.{LeavesTickets};
ghost use Rattle.xa_base.specs.Lists.{IsUpTo};
ghost use Rattle.xa_calls.specs.Putting.{CallLeaves, put_refusal};
ghost use Rattle.xa_calls.specs.Scans.{Scans, looked_at, with_found, room_in, scan_start, Recovers};
ghost use Rattle.xa_scan.specs.Left.{left_at};
ghost use Rattle.xa_calls.specs.Scans.{RecoversBy, HasRecovered, asks, AsksAndWaits, RecoversAndWaits};

use crate::putting::code_of;
use std::sync::Wait;
use xa_base::MOST_MANAGERS;
use xa_desk::laws::desks_go_on;
use xa_desk::{Desk, Idle};
use xa_scan::Scan;
use xa_words::{Call, Code, Mode, Op, Xid, check_flags};

// Asks the manager whether the branch is left, or of no branch whether it answers: its code, or why it isn't asked.
fn ask<R: Wait, I: Idle>(
    rt: &R,
    desk: &mut Desk,
    manager: u32,
    xid: Option<Xid>,
    idle: &mut I,
) -> Code
    ensures leaves { CallLeaves I.leads desk.old desk.new idle.old idle.new }
    ensures kept { AllKept desk.old → AllKept desk.new }
    ensures prompt { is_some (put_refusal desk.old manager false) ≡ true → idle.new ≡ idle.old }
    ensures asks { AsksAndWaits I.leads_by manager (desk.old, idle.old) (Listed xid) (desk.new, idle.new) result }
{
    desks_go_on();
    match desk.call(rt, manager, &Op::Listed(xid), idle) {
        Ok(code) => code,
        Err(why) => code_of(why),
    }
}

// Asks of these branches one after another, until so many are found: how many were found, which are written, and how
// many were looked at.
fn look<R: Wait, I: Idle>(
    rt: &R,
    desk: &mut Desk,
    manager: u32,
    left: &[Xid],
    xids: &mut [Xid],
    room: usize,
    idle: &mut I,
) -> Result<(usize, usize), Code>
    requires { room ≤ length xids.old }
    ensures scanned { (found : List XidName) × Scans (AsksAndWaits I.leads_by manager) room left.now
        (desk.old, idle.old) (desk.new, idle.new) found (looked_at result) × (xids.new ≡ with_found found xids.old)
        × IfOk result (λ r. r.0 ≡ length found) }
    ensures bound { IfOk result (λ r. r.0 ≤ room) }
    ensures within { IfOk result (λ r. r.1 ≤ length left.now) }
    ensures leaves { CallLeaves I.leads desk.old desk.new idle.old idle.new }
    ensures kept { AllKept desk.old → AllKept desk.new }
{
    desks_go_on();
    let mut found = 0;
    for looked in 0..left.len() {
        if found == room {
            return Ok((found, looked));
        }
        match ask(rt, desk, manager, Some(left[looked]), idle) {
            Code::Done => {
                xids[found] = left[looked];
                found += 1;
            }
            Code::Nota => {}
            why => return Err(why),
        }
    }
    Ok((found, left.len()))
}

// For how many there is room: for no more than an answer can tell.
fn room_in(xids: &[Xid]) -> usize
    ensures room { result ≡ room_in xids.now }
    ensures within { result ≤ length xids.now }
    ensures told { result ≤ 2147483647 }
{
    xids.len().min(i32::MAX as usize)
}

// Scans what was left at the manager from a place on.
fn recover_from<R: Wait, I: Idle>(
    rt: &R,
    desk: &mut Desk,
    scan: &mut Scan,
    xids: &mut [Xid],
    manager: u32,
    mode: Mode,
    place: usize,
    idle: &mut I,
) -> Result<usize, Code>
    requires manager { IsUpTo MOST_MANAGERS manager }
    requires within { place ≤ length (left_at scan.old manager) }
    ensures recovers { Recovers (AsksAndWaits I.leads_by manager) manager mode place (desk.old, idle.old) scan.old
        xids.old (desk.new, idle.new) scan.new xids.new result }
    ensures bound { IfOk result (λ n. n ≤ 2147483647) }
    ensures leaves { CallLeaves I.leads desk.old desk.new idle.old idle.new }
    ensures kept { AllKept desk.old → AllKept desk.new }
    ensures prompt { is_some (put_refusal desk.old manager false) ≡ true → idle.new ≡ idle.old }
{
    desks_go_on();
    match ask(rt, desk, manager, None, idle) {
        Code::Done => {}
        why => return Err(why),
    }
    let room = room_in(xids);
    let left = &scan.left(manager)[place..];
    match look(rt, desk, manager, left, xids, room, idle) {
        Ok((found, looked)) => {
            let end = if mode.end_scan {
                None
            } else {
                Some(place + looked)
            };
            scan.stand(manager, end);
            Ok(found)
        }
        Err(why) => Err(why),
    }
}

// Scans what was left at a manager, if the flags have a mode, there is such a manager, and a scan of it is open.
fn recover_by<R: Wait, I: Idle>(
    rt: &R,
    desk: &mut Desk,
    scan: &mut Scan,
    xids: &mut [Xid],
    manager: u32,
    flags: u32,
    idle: &mut I,
) -> Result<usize, Code>
    ensures recovers { RecoversBy (AsksAndWaits I.leads_by manager) (is_known desk.old.ledgers manager)
        (check_flags call.Recover flags) manager (desk.old, idle.old) scan.old xids.old (desk.new, idle.new) scan.new
        xids.new result }
    ensures bound { IfOk result (λ n. n ≤ 2147483647) }
    ensures leaves { CallLeaves I.leads desk.old desk.new idle.old idle.new }
    ensures kept { AllKept desk.old → AllKept desk.new }
    ensures prompt { asks desk.old scan.old manager (check_flags call.Recover flags) ≡ false → idle.new ≡ idle.old }
{
    desks_go_on();
    let mode = check_flags(Call::Recover, flags)?;
    if manager == 0 || manager > desk.managers() {
        return Err(Code::Inval);
    }
    let start = if mode.start_scan {
        Some(0)
    } else {
        scan.place(manager)
    };
    match start {
        Some(place) => recover_from(rt, desk, scan, xids, manager, mode, place, idle),
        None => Err(Code::Inval),
    }
}

/// `xa_recover()` of C193, chapter 5: lists branches that the manager holds prepared or heuristically completed since
/// an opening before this one, rising. It goes on where the thread's scan of the manager stands, with `TMSTARTRSCAN` at
/// the first, and stands after the last that it looked at; with `TMENDRSCAN` the scan is closed. Of each branch that
/// the reopening found left it asks the manager, so that one that was ended since isn't listed. It answers how many it
/// wrote, at the head of the slice: it stops where the slice is full or where no more are left.
///
/// The refusals, the first that holds: XAER_INVAL for the flags; XAER_INVAL for a number that no manager has;
/// XAER_INVAL where no scan of the manager is open and none begins; XAER_RMFAIL where the manager is learnt to be shut;
/// XAER_RMERR where the thread has used up its requests to the manager; else the manager's code, as XAER_PROTO where
/// the thread hasn't opened it. After a negative answer the scan stands where it stood; the slice may have been
/// written.
///
/// While it waits for an answer it idles on the manager alone (`waited`).
pub fn xa_recover<R: Wait, I: Idle>(
    rt: &R,
    desk: &mut Desk,
    scan: &mut Scan,
    xids: &mut [Xid],
    manager: u32,
    flags: u32,
    idle: &mut I,
) -> i32
    ensures recovered { HasRecovered manager flags desk.old scan.old xids.old desk.new scan.new xids.new result }
    ensures goes_on { GoesOn desk.old desk.new }
    ensures kept { AllKept desk.old → AllKept desk.new }
    ensures tickets { LeavesTickets desk.old desk.new }
    ensures idled { I.leads idle.old idle.new }
    ensures prompt { asks desk.old scan.old manager (check_flags call.Recover flags) ≡ false → idle.new ≡ idle.old }
    ensures waited { RecoversAndWaits I.leads_by manager flags (desk.old, idle.old) scan.old xids.old
        (desk.new, idle.new) scan.new xids.new result }
{
    match recover_by(rt, desk, scan, xids, manager, flags, idle) {
        Ok(found) => found as i32,
        Err(code) => code.value(),
    }
}
