//! Laws of idles, for a client that is lent one.
ghost use Rattle.std.specs.Prelude.{ℕ};

use xa_desk::Idle;

/// What hasn't idled, has idled once, and has idled on are all left so by idling.
#[tactic(auto, using(xa_base::proofs::arith))]
pub fn idles_go_on<I: Idle>()
    ensures same { (x : I) → I.leads x x }
    ensures once { (manager : ℕ) (old new : I) → I.leads_by manager old new → I.leads old new }
    ensures further { (old mid new : I) → I.leads old mid → I.leads mid new → I.leads old new }
{}
