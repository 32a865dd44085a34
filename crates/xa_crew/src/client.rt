//! What a thread of control does.
ghost use Rattle.xa_desk.specs.DeskViews.{DeskView};
ghost use Rattle.xa_desk.specs.GoingOn.{GoesOn};
ghost use Rattle.xa_desk.specs.Kept.{AllKept};

use std::sync::Wait;
use xa_desk::{Desk, Idle};

/// What a thread of control does with its desk.
///
/// It calls managers by `xa_call`, `native` and `xa_complete`, and commits by `commit`, each with the idle that it
/// is lent: in a thread of its own that yields, and in one thread for all it gives the workers their turns. The
/// contracts of these calls say that the desk goes on, that what is outstanding stays kept, and that the idle did
/// nothing else; the laws `desks_go_on` and `idles_go_on` join them.
pub trait Client: Drop {
    /// What the client and its desk may come to, from what they are at first.
    ghost works: { Self → DeskView → Self → DeskView → Type 0 };

    /// Does all that the thread does. What is outstanding may be left so, under the numbers of its handles:
    /// it is collected afterwards.
    fn work<R: Wait, I: Idle>(&mut self, rt: &R, desk: &mut Desk, idle: &mut I)
        requires { AllKept desk.old }
        ensures works { works self.old desk.old self.new desk.new }
        ensures goes_on { GoesOn desk.old desk.new }
        ensures kept { AllKept desk.new }
        ensures idled { I.leads idle.old idle.new };
}
