//! The managers of an opening.
ghost use Rattle.std.specs.Prelude.{◌≡◌, ◌↔◌, map, IfOk, IfErr, OnOk};
ghost use Rattle.std.specs.List.{All};
ghost use Rattle.xa_base.specs.Lists.{IsUpTo};
ghost use Rattle.xa_switch.specs.Plans.{IsSoundManager, opened_by};

use crate::plan::{ManagerPlan, OpenFault};
use std::alloc::Global;
use xa_base::{MOST_JOURNALED, MOST_THREADS};
use xa_tables::{Manager, TableFault};

// One manager. Its accounts are looked at before want of memory is told.
fn open_manager(
    alloc: Global,
    plan: &ManagerPlan,
    threads: u32,
    room: u32,
) -> Result<Manager, OpenFault>
    requires threads { IsUpTo MOST_THREADS threads }
    requires room { IsUpTo MOST_JOURNALED room }
    ensures bad { IfErr result (λ f. f ≡ OpenFault.BadPlan ↔ ¬ IsSoundManager plan.now) }
    ensures sound { OnOk result (IsSoundManager plan.now) }
    ensures opened { IfOk result (λ m. m ≡ opened_by threads room plan.now) }
{
    match Manager::new(alloc, &plan.accounts, threads, room) {
        Ok(manager) => Ok(manager),
        Err(TableFault::BadAccounts) => Err(OpenFault::BadPlan),
        Err(TableFault::NoMemory) => Err(OpenFault::NoMemory),
    }
}

/// The managers, by rising number. The accounts of each are looked at before want of memory is told.
pub(crate) fn open_managers(
    alloc: Global,
    managers: &[ManagerPlan],
    threads: u32,
    room: u32,
) -> Result<Vec<Manager>, OpenFault>
    requires threads { IsUpTo MOST_THREADS threads }
    requires room { IsUpTo MOST_JOURNALED room }
    ensures bad { IfErr result (λ f. f ≡ OpenFault.BadPlan ↔ ¬ All IsSoundManager managers.now) }
    ensures sound { OnOk result (All IsSoundManager managers.now) }
    ensures opened { IfOk result (λ v. v.items ≡ map (opened_by threads room) managers.now) }
{
    let mut opened = Vec::new(alloc);
    let mut is_short = false;
    for plan in managers {
        match open_manager(alloc, plan, threads, room) {
            Ok(manager) => is_short = is_short || opened.push(manager).is_err(),
            Err(OpenFault::BadPlan) => return Err(OpenFault::BadPlan),
            Err(OpenFault::NoMemory) => is_short = true,
        }
    }
    if is_short {
        return Err(OpenFault::NoMemory);
    }
    Ok(opened)
}
