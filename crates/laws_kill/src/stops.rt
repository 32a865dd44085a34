//! That what is stopped between two steps is a crash.
ghost use Rattle.std.specs.Prelude.{List};
ghost use Rattle.xa_desk.specs.DeskViews.{DeskView};
ghost use Rattle.xa_switch.specs.Plans.{Setup};
ghost use Rattle.laws_kill.specs.Crashes.{IsCrash};
ghost use Rattle.laws_kill.specs.Stops.{AreStopped, StoppedWorker, stopped};

/// Where all desks and workers of an opening are stopped between two of their steps, what is left is a crash: each
/// worker's store leaves a beginning of its journal that owes what was answered, and lanes carry what was put there.
pub fn stopped_openings_are_crashes()
    ensures { (p : Setup) (desks : List DeskView) (workers : List StoppedWorker) → AreStopped p desks workers
        → IsCrash p (stopped p.numbers.opening desks workers) }
{}
