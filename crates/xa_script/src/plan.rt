//! What a script has opened.
ghost use Rattle.std.specs.Prelude.{◌≡◌, ◌≤◌, All, IfOk, length, map};
ghost use Rattle.std.specs.List.{range_with_len};
ghost use Rattle.xa_base.specs.Lists.{IsUpTo};
ghost use Rattle.xa_switch.specs.Plans.{IsSoundManager, IsSound};
ghost use Rattle.script_grammar.specs.Contents.{declared_accounts, managers_of};
ghost use Rattle.laws_transcript.specs.Planning.{plan_says, script_says, IsPlanOf, AreNumbersOf};

use script_grammar::{Declared, Script};
use std::alloc::{AllocError, Global};
use xa_base::MOST_MANAGERS;
use xa_switch::{Again, ManagerPlan, Plan};
use xa_words::Key;

// The number of a run's first opening.
const FIRST: u64 = 1;

// What a manager is opened with.
fn accounts_of(
    alloc: Global,
    manager: u32,
    keys: &[Declared],
) -> Result<Vec<(Key, u64)>, AllocError>
    ensures { IfOk result (λ v. v.items ≡ declared_accounts manager keys.now) }
{
    keys.iter()
        .filter(|declared| declared.manager == manager)
        .map(|declared| (declared.key, declared.value))
        .collect(alloc)
}

// What the script says of a manager.
fn manager_plan(alloc: Global, script: &Script, manager: u32) -> Result<ManagerPlan, AllocError>
    ensures planned { IfOk result (λ p. plan_says p ≡ script_says script.now manager) }
    ensures sound { IfOk result IsSoundManager }
{
    Ok(ManagerPlan {
        use_async: script.carries_async(manager),
        accounts: accounts_of(alloc, manager, script.keys())?,
    })
}

// The script's managers, by rising number.
fn manager_plans(alloc: Global, script: &Script) -> Result<Vec<ManagerPlan>, AllocError>
    ensures planned { IfOk result (λ v. map plan_says v.items ≡ map (script_says script.now)
        (range_with_len 1 (managers_of script.now))) }
    ensures sound { IfOk result (λ v. All IsSoundManager v.items) }
    ensures limits { IfOk result (λ v. IsUpTo MOST_MANAGERS (length v.items)) }
{
    let managers = script.managers();
    let mut plans = Vec::with_capacity(alloc, managers as usize)?;
    for before in 0..managers {
        plans.push(manager_plan(alloc, script, before + 1)?)?;
    }
    Ok(plans)
}

/// What the script says is to be opened.
pub(crate) fn plan_of(alloc: Global, script: &Script) -> Result<Plan, AllocError>
    ensures plan { IfOk result (IsPlanOf script.now) }
    ensures sound { IfOk result IsSound }
{
    Ok(Plan {
        opening: FIRST,
        threads: script.threads(),
        handles: script.handles(),
        queue: script.queue(),
        requests: script.requests(),
        managers: manager_plans(alloc, script)?,
    })
}

/// The numbers with which it is opened again.
pub(crate) fn again_of(script: &Script, opening: u64) -> Again
    ensures { AreNumbersOf script.now opening result }
{
    Again {
        opening,
        threads: script.threads(),
        handles: script.handles(),
        queue: script.queue(),
        requests: script.requests(),
    }
}
