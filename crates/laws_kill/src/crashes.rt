//! A crash of the whole process, as a settled opening.
ghost use Rattle.std.specs.Prelude.{◌≡◌, [], ◌∷◌};
ghost use Rattle.xa_switch.specs.Plans.{Setup};
ghost use Rattle.laws_kill.specs.Crashes.{Crash, IsCrash};
ghost use Rattle.laws_kill.specs.AsSettled.{IsAsSettled, collected_all, journal_at};
ghost use Rattle.laws_kill.specs.Worked.{first_answers, first_journal, first_ledger, second_journal, worked_crash};
ghost use Rattle.laws_kill.specs.Worked.{worked_setup};

/// A crash (`IsCrash`) is a settled opening: as if one more thread had shut each manager where its store ends, and
/// each desk had then collected what was outstanding. What a store lacks comes after the Shut, is refused and changes
/// nothing. Whatever was sent and collected before the crash stays, and each manager leaves what is found in its store.
pub fn crashes_are_settled()
    ensures { (p : Setup) (c : Crash) → IsCrash p c → IsAsSettled p c }
{}

/// A crash with one answered request and two that are lost is one, and its settled opening has these journals and
/// answers.
pub fn worked_crashes()
    ensures crash { IsCrash worked_setup worked_crash }
    ensures first { journal_at worked_crash 1 ≡ first_journal }
    ensures second { journal_at worked_crash 2 ≡ second_journal }
    ensures answers { (collected_all 1 (journal_at worked_crash 1) first_ledger).collected ≡ first_answers }
{}
