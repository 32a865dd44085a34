//! How a settled opening is opened again.
ghost use Rattle.std.specs.Prelude.{◌≡◌, ◌≢◌, ◌↔◌, ℕ, ◌≤◌, ◌<◌, ◌+◌, [], None, Some, length, map, vec_capacity, IfOk};
ghost use Rattle.std.specs.Prelude.{IfErr, IsTrue, OnOk};
ghost use Rattle.std.specs.List.{All, range_with_len};
ghost use Rattle.xa_base.specs.Lists.{IsUpTo};
ghost use Rattle.xa_switch.specs.Plans.{IsWithinLimits, manager_room, new_manager};
ghost use Rattle.xa_switch.specs.OpenedPieces.{IsLaidOut, AreOfOneOpening};
ghost use Rattle.xa_switch.specs.Settled.{ReadyPart};
ghost use Rattle.xa_switch.specs.Reopening.{reopening, flags_in, managers_in, MayReopen, find_ready, parts_of};
ghost use Rattle.xa_switch.specs.Reopening.{reopened_at};
ghost use Rattle.xa_switch.specs.Recovery.{AreScansOf};

use crate::opening::layout::{Layout, lay_out, put_together};
use crate::opening::scans::scans_of;
use crate::plan::{Again, OpenFault};
use crate::settling::settled::{Carried, Settled};
use std::alloc::{AllocError, Global};
use std::sync::Wait;
use xa_base::{MOST_JOURNALED, MOST_THREADS};
use xa_desk::Desk;
use xa_scan::Scan;
use xa_tables::Manager;
use xa_tables::laws::openings_begin_with_what_was_left;
use xa_worker::Worker;

/// A settled opening that isn't opened again, and why. It comes back as it was.
#[derive(Drop)]
pub struct Unopened {
    pub why: OpenFault,
    pub settled: Settled,
}

// Of each manager whether it takes asynchronous calls.
fn flags_again(alloc: Global, settled: &Settled) -> Result<Vec<bool>, AllocError>
    ensures { IfOk result (λ v. v.items ≡ flags_in settled.now) }
{
    match settled.threads.first() {
        Some(part) => part
            .ledgers
            .iter()
            .map(|ledger| ledger.carries_async())
            .collect(alloc),
        None => Ok(Vec::new(alloc)),
    }
}

// Reserves the memory of the managers.
#[tactic(auto, using(xa_base::proofs::take_all))]
fn reserve_managers(managers: &mut Vec<Carried>, threads: u32, room: u32) -> Result<(), AllocError>
    requires threads { IsUpTo MOST_THREADS threads }
    requires room { IsUpTo MOST_JOURNALED room }
    ensures parts { parts_of managers.new.items ≡ parts_of managers.old.items }
    ensures reserved { OnOk result (All (λ c. c.reserved ≡ Some (threads, room)) managers.new.items) }
{
    for place in 0..managers.len() {
        managers[place].reserve(threads, room)?;
    }
    Ok(())
}

// Takes the manager with this number out.
fn take_manager(managers: &mut Vec<Carried>, number: u32) -> Carried
    requires { (c : ReadyPart) × (find_ready number managers.old.items ≡ Some c) }
    ensures taken { find_ready number managers.old.items ≡ Some result }
    ensures others { (m : ℕ) → m ≢ number → find_ready m managers.new.items ≡ find_ready m managers.old.items }
{
    for place in 0..managers.len() {
        if managers[place].number() == number {
            return managers.remove(place);
        }
    }
    unreachable!()
}

// The managers at the next opening, by rising number, in memory that was reserved. It takes no memory.
fn reopen_managers(
    mut carried: Vec<Carried>,
    mut managers: Vec<Manager>,
    many: u32,
    numbers: &Again,
    room: u32,
) -> Vec<Manager>
    requires there { (m : ℕ) → 1 ≤ m → m ≤ many → (c : ReadyPart) × (find_ready m carried.items ≡ Some c) }
    requires reserved { All (λ c. c.reserved ≡ Some (numbers.now.threads, room)) carried.items }
    requires room { room ≡ manager_room numbers.now }
    requires none { managers.items ≡ [] }
    requires space { many ≤ vec_capacity managers }
    ensures { result.items ≡ map (λ m. new_manager numbers.now (reopened_at (parts_of carried.items) m))
        (range_with_len 1 many) }
{
    for before in 0..many {
        let manager = take_manager(&mut carried, before + 1);
        managers.push_reserved(manager.reopened(numbers.threads, room));
    }
    managers
}

// All that the next opening needs but its managers, and the scans of what is left.
fn lay_out_again<R: Wait>(
    rt: &R,
    alloc: Global,
    settled: &Settled,
    numbers: &Again,
) -> Result<(Layout, Vec<Manager>, Vec<Scan>), AllocError>
    requires limits { IsWithinLimits numbers.now (managers_in settled.now) }
    ensures laid_out { IfOk result (λ r. IsLaidOut r.0) }
    ensures numbers { IfOk result (λ r. r.0.numbers ≡ numbers.now) }
    ensures flags { IfOk result (λ r. r.0.use_async.items ≡ flags_in settled.now) }
    ensures none { IfOk result (λ r. r.1.items ≡ []) }
    ensures space { IfOk result (λ r. managers_in settled.now ≤ vec_capacity r.1) }
    ensures scans { IfOk result (λ r. AreScansOf settled.now numbers.now.threads r.2.items) }
{
    let use_async = flags_again(alloc, settled)?;
    let layout = lay_out(rt, alloc, numbers, use_async)?;
    let managers = Vec::with_capacity(alloc, settled.managers())?;
    let scans = scans_of(alloc, settled, numbers.threads)?;
    Ok((layout, managers, scans))
}

/// Whether it may be opened again with these numbers: each is within its limits, and the opening's is its own.
pub fn may_reopen(settled: &Settled, again: &Again) -> bool
    ensures { IsTrue result ↔ MayReopen settled.now again.now }
{
    again.is_within_limits(settled.managers()) && again.opening != settled.opening
}

/// Opens a settled opening again: as `open_switch` does with a plan of these numbers, but that each manager goes on
/// from where it ended. Its values stay, and the branches that are prepared or heuristically completed, with what they
/// have added; all other branches are gone, and no thread has it open. It takes asynchronous calls as before. Each
/// thread gets a scan of what is left at each manager.
///
/// The faults: `BadPlan` where a number is outside its limits, or is that of the opening that was settled, as
/// `may_reopen` tells, and else `NoMemory`. All memory is taken before anything is put together.
pub fn reopen<R: Wait>(
    rt: &R,
    alloc: Global,
    settled: Settled,
    again: &Again,
) -> Result<(Vec<Desk>, Vec<Worker>, Vec<Scan>), Unopened>
    ensures bad { IfErr result (λ u. u.why ≡ OpenFault.BadPlan ↔ ¬ MayReopen settled again.now) }
    ensures sound { OnOk result (MayReopen settled again.now) }
    ensures back { IfErr result (λ u. u.settled ≡ settled) }
    ensures opened { IfOk result (λ r. AreOfOneOpening (reopening settled again.now) r.0.items r.1.items) }
    ensures scans { IfOk result (λ r. AreScansOf settled again.now.threads r.2.items) }
{
    let many = settled.managers();
    if !may_reopen(&settled, again) {
        let why = OpenFault::BadPlan;
        return Err(Unopened { why, settled });
    }
    let Ok((layout, managers, scans)) = lay_out_again(rt, alloc, &settled, again) else {
        let why = OpenFault::NoMemory;
        return Err(Unopened { why, settled });
    };
    let Settled {
        opening,
        threads,
        managers: mut carried,
    } = settled;
    let room = again.manager_room();
    if reserve_managers(&mut carried, again.threads, room).is_err() {
        let why = OpenFault::NoMemory;
        let settled = Settled {
            opening,
            threads,
            managers: carried,
        };
        return Err(Unopened { why, settled });
    }
    openings_begin_with_what_was_left();
    let managers = reopen_managers(carried, managers, many as u32, again, room);
    let (desks, workers) = put_together(layout, managers);
    Ok((desks, workers, scans))
}
