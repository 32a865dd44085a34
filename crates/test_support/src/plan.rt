//! A plan that is small everywhere.
ghost use Rattle.std.specs.Prelude.{◌≡◌, IfSome};

use std::alloc::Global;
use xa_switch::Plan;
use xa_words::Key;

/// A plan of one thread and so many managers, each with these accounts: as `Plan::uniform` makes it, but with queues of
/// 4 places, and 32 requests of the thread to each manager. None for want of memory.
pub fn plan_of(alloc: Global, managers: u32, accounts: &[(Key, u64)]) -> Option<Plan>
    ensures opening { IfSome result (λ p. p.opening ≡ 1) }
    ensures threads { IfSome result (λ p. p.threads ≡ 1) }
{
    Some(Plan {
        queue: 4,
        requests: 32,
        ..Plan::uniform(alloc, 1, managers, accounts).ok()?
    })
}
