//! The stores opened again by a thread that resolves what was left in doubt.
ghost use Rattle.std.specs.Prelude.{◌≡◌};

use std::alloc::Global;
use std::process::Abort;
use std::sync::Wait;
use xa_crew::Run;
use xa_crew::laws::idles_go_on;
use xa_crew_again::{ClientAgain, WithScan, run_clients_again_in_turns};
use xa_desk::laws::desks_go_on;
use xa_desk::{Desk, Idle};
use xa_driver::{Resolved, may_resolve, resolve};
use xa_log::DecisionRecords;
use xa_scan::Scan;
use xa_switch::{Again, Settled};

// Resolves what was left by these records.
#[derive(Drop)]
pub(super) struct Resolver<D> {
    alloc: Global,
    records: D,
    pub(super) resolved: Option<Resolved>,
}

impl<D: DecisionRecords + Drop> ClientAgain for Resolver<D> {
    ghost works_again = { λ resolver desk scan resolver' desk' scan'. Unit {0} };

    fn work_again<R: Wait, I: Idle>(
        &mut self,
        rt: &R,
        desk: &mut Desk,
        scan: &mut Scan,
        idle: &mut I,
    ) {
        desks_go_on();
        idles_go_on::<I>();
        if may_resolve(desk, scan, &self.records) {
            self.resolved = resolve(rt, self.alloc, desk, scan, &self.records, idle).ok();
        }
    }
}

// The numbers of an opening for that one thread.
fn again() -> Again
    ensures { result.threads ≡ 1 }
{
    Again {
        opening: 8,
        threads: 1,
        handles: 8,
        queue: 4,
        requests: 16,
    }
}

// Opens what was settled again for that one thread, which resolves what was left by these records.
pub(super) fn resolve_by<R: Wait + Abort, D: DecisionRecords + Drop>(
    rt: &R,
    alloc: Global,
    settled: Settled,
    records: D,
) -> Run<WithScan<Resolver<D>>> {
    let resolver = Resolver {
        alloc,
        records,
        resolved: None,
    };
    let mut resolvers = Vec::with_capacity(alloc, 1).expect(rt, "memory");
    resolvers.push_reserved(resolver);
    let again = again();
    assert_eq!(rt; resolvers.len(), again.threads as usize);
    run_clients_again_in_turns(rt, alloc, settled, &again, resolvers).expect(rt, "a run")
}
