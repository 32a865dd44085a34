//! How an opening is made.
ghost use Rattle.std.specs.Prelude.{◌≡◌, ◌↔◌, length, map, IfOk, IfErr, OnOk};
ghost use Rattle.std.specs.List.{All};
ghost use Rattle.xa_tables.specs.Openings.{IsOpening};
ghost use Rattle.xa_switch.specs.Plans.{IsSound, IsWithinLimits, new_manager, planned, setup, use_async};
ghost use Rattle.xa_switch.specs.OpenedPieces.{AreOfOneOpening};

mod assemble;
mod lanes;
mod layout;
mod managers;
pub(crate) mod reopening;
mod reserve;
mod scans;

use crate::opening::layout::{lay_out, put_together};
use crate::opening::managers::open_managers;
use crate::plan::{Again, ManagerPlan, OpenFault, Plan};
use std::alloc::{AllocError, Global};
use std::sync::Wait;
use xa_desk::Desk;
use xa_tables::Manager;
use xa_tables::laws::openings_begin_with_what_was_left;
use xa_worker::Worker;

// Of each manager whether it takes asynchronous calls.
fn flags_of(alloc: Global, managers: &[ManagerPlan]) -> Result<Vec<bool>, AllocError>
    ensures { IfOk result (λ v. v.items ≡ use_async managers.now) }
{
    managers.iter().map(|plan| plan.use_async).collect(alloc)
}

/// Opens a switch: a desk for each thread of control and a worker for each manager, by rising number,
/// which have done nothing.
///
/// Each desk and each worker share the lane of the manager's requests and that of the thread's
/// completions. The faults come in the order of `OpenFault`: `BadPlan` exactly where the plan isn't
/// sound. All memory that desks and workers ever take is reserved here, before any is put together.
pub fn open_switch<R: Wait>(
    rt: &R,
    alloc: Global,
    plan: &Plan,
) -> Result<(Vec<Desk>, Vec<Worker>), OpenFault>
    ensures bad { IfErr result (λ f. f ≡ OpenFault.BadPlan ↔ ¬ IsSound plan.now) }
    ensures sound { OnOk result (IsSound plan.now) }
    ensures opened { IfOk result (λ r. AreOfOneOpening (planned plan.now) r.0.items r.1.items) }
{
    let numbers = plan.numbers();
    if !numbers.is_within_limits(plan.managers.len()) {
        return Err(OpenFault::BadPlan);
    }
    let room = numbers.manager_room();
    let managers = open_managers(alloc, &plan.managers, plan.threads, room)?;
    let use_async = flags_of(alloc, &plan.managers)?;
    let layout = lay_out(rt, alloc, &numbers, use_async)?;
    openings_begin_with_what_was_left();
    Ok(put_together(layout, managers))
}

/// Managers over which no switch was opened, and why. They come back as they were.
#[derive(Drop)]
pub struct UnopenedManagers {
    pub why: OpenFault,
    pub managers: Vec<Manager>,
}

/// Opens a switch over managers that are there, as those that were restored from their stores: otherwise as
/// `open_switch`. The managers stand by rising number, and each has the threads of these numbers, and the room for all
/// that they may put to it; `use_async` tells of each whether it takes asynchronous calls.
///
/// The faults: `BadPlan` exactly where a number is outside its limits, and else `NoMemory`. All memory is taken before
/// anything is put together.
pub fn open_over<R: Wait>(
    rt: &R,
    alloc: Global,
    numbers: &Again,
    use_async: Vec<bool>,
    managers: Vec<Manager>,
) -> Result<(Vec<Desk>, Vec<Worker>), UnopenedManagers>
    requires many { length managers.items ≡ length use_async.items }
    requires new { All (λ m. m ≡ new_manager numbers.now m.tables) managers.items }
    requires begins { All (λ m. IsOpening m.tables) managers.items }
    ensures opened { IfOk result (λ r. AreOfOneOpening
        (setup numbers.now use_async.items (map (λ m. m.tables) managers.items)) r.0.items r.1.items) }
    ensures bad { IfErr result (λ u. u.why ≡ OpenFault.BadPlan
        ↔ ¬ IsWithinLimits numbers.now (length use_async.items)) }
    ensures sound { OnOk result (IsWithinLimits numbers.now (length use_async.items)) }
    ensures back { IfErr result (λ u. u.managers ≡ managers) }
{
    if !numbers.is_within_limits(use_async.len()) {
        let why = OpenFault::BadPlan;
        return Err(UnopenedManagers { why, managers });
    }
    let Ok(layout) = lay_out(rt, alloc, numbers, use_async) else {
        let why = OpenFault::NoMemory;
        return Err(UnopenedManagers { why, managers });
    };
    Ok(put_together(layout, managers))
}
