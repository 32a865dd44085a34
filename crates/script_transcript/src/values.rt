//! The values of the declared keys after a run.
ghost use Rattle.std.specs.Prelude.{List, [], ◌∷◌, ◌++◌, IfOk};
ghost use Rattle.xa_switch.specs.Settled.{Settling};
ghost use Rattle.script_transcript.specs.Values.{opened_after, AreOfScript, AreValues};

use script_grammar::{Declared, Script};
use std::alloc::{AllocError, Global};
use xa_switch::Settled;

/// The keys of a script with their values in the settled opening, in the order in which they are shown. Where other
/// openings were before it, these are the values after all of them.
pub fn values_of(
    alloc: Global,
    script: &Script,
    settled: &Settled,
) -> Result<Vec<Declared>, AllocError>
    requires { (before : List Settling) × AreOfScript script.now (opened_after script.now before) settled.now.managers }
    ensures { IfOk result (λ values. (before : List Settling)
        → AreOfScript script.now (opened_after script.now before) settled.now.managers
        → AreValues script.now (before ++ settled.now ∷ []) values.items) }
{
    let keys = script.keys();
    let mut values = Vec::with_capacity(alloc, keys.len())?;
    for declared in keys {
        let value = settled.value(declared.manager, &declared.key).unwrap();
        values.push(Declared { value, ..*declared })?;
    }
    values.sort()?;
    Ok(values)
}
