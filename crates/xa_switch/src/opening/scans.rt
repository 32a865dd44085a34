//! Scans of what a settled opening left.
ghost use Rattle.std.specs.Prelude.{map, IfOk};
ghost use Rattle.xa_base.specs.Lists.{IsUpTo};
ghost use Rattle.xa_switch.specs.Recovery.{HasLeft, AreScansOf};

use crate::settling::settled::{Settled, find_carried};
use std::alloc::{AllocError, Global};
use std::sync::Arc;
use xa_base::MOST_THREADS;
use xa_scan::Scan;
use xa_tables::laws::openings_begin_with_what_was_left;
use xa_words::Xid;

// What is left at each manager.
fn left_of(alloc: Global, settled: &Settled) -> Result<Vec<Vec<Xid>>, AllocError>
    ensures { IfOk result (λ v. HasLeft settled.now (map (λ xs. xs.items) v.items)) }
{
    openings_begin_with_what_was_left();
    let mut lists = Vec::with_capacity(alloc, settled.managers())?;
    for before in 0..settled.managers() {
        match find_carried(&settled.managers, before as u32 + 1) {
            Some(part) => lists.push_reserved(part.left(alloc)?),
            None => unreachable!(),
        }
    }
    Ok(lists)
}

/// A scan for each thread, of what is left where the opening was settled. What is left is listed once.
pub(crate) fn scans_of(
    alloc: Global,
    settled: &Settled,
    threads: u32,
) -> Result<Vec<Scan>, AllocError>
    requires { IsUpTo MOST_THREADS threads }
    ensures { IfOk result (λ v. AreScansOf settled.now threads v.items) }
{
    let left = Arc::new(alloc, left_of(alloc, settled)?)?;
    let mut scans = Vec::with_capacity(alloc, threads as usize)?;
    for _ in 0..threads {
        scans.push_reserved(Scan::over(Arc::try_clone(&left)?));
    }
    Ok(scans)
}
