//! What a waiting call does where it found nothing.
ghost use Rattle.std.specs.Prelude.{ℕ};

use std::sync::Wait;

/// What a call does each time that it found nothing of what it waits for.
///
/// An idler names what an idle in a wait for each manager does, and a relation of itself before and after
/// idles, whatever they waited for, which holds of a value with itself and chains. Each call that is lent
/// one says by the first where it idled, and leaves it in the second to what it was.
pub trait Idle {
    /// What an idle in a wait for this manager, or for any where it is 0, does to the value.
    ghost leads_by: { ℕ → Self → Self → Type 0 };

    /// What idling may do, from the value before to the value after.
    ghost leads: { Self → Self → Type 0 };

    /// Idles once, in a wait for this manager, or for any where it is 0.
    fn idle<R: Wait>(&mut self, rt: &R, manager: u32)
        ensures { leads_by manager self.old self.new };

    ghost leads_each: { (manager : ℕ) (x y : Self) → leads_by manager x y → leads x y };

    ghost leads_start: { (x : Self) → leads x x };

    ghost leads_chain: { (x y z : Self) → leads x y → leads y z → leads x z };
}
