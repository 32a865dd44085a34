//! Of a commit in stages, finished or cut short anywhere, and of what else its thread does between them.
ghost use Rattle.std.specs.List.{All};
ghost use Rattle.std.specs.Prelude.{◌≡◌, true, false, Option, None, List, []};
ghost use Rattle.std.specs.Prelude.{◌++◌, length};
ghost use Rattle.xa_words.specs.Tran.{TranName};
ghost use Rattle.xa_words.specs.declared.death.Death.{Death};
ghost use Rattle.xa_words.specs.declared.request.Op.{Op};
ghost use Rattle.xa_tables.specs.Prepared.{names};
ghost use Rattle.xa_desk.specs.LedgerViews.{LedgerView};
ghost use Rattle.xa_desk.specs.DeskViews.{DeskView, ledger};
ghost use Rattle.xa_desk.specs.Growth.{HaveGrown};
ghost use Rattle.xa_driver.specs.declared.branch.Branch.{Branch};
ghost use Rattle.xa_driver.specs.declared.done.CommitOutcome.{CommitOutcome};
ghost use Rattle.xa_driver.specs.declared.done.CommitOutcome.TheVariants as outcome;
ghost use Rattle.xa_driver.specs.declared.done.Done.{Done};
ghost use Rattle.xa_words.specs.declared.code.Code.{Code};
ghost use Rattle.xa_driver.specs.Deaths.{PutsLedger};
ghost use Rattle.xa_driver.specs.Decision.{yes_of};
ghost use Rattle.xa_driver.specs.Outcomes.{ComesTo, TellsTheLog};
ghost use Rattle.xa_driver.specs.Resolving.{AsksLedger};
ghost use Rattle.xa_log.specs.Log.{LogState, IsEither, IsReadAs, record_of};
ghost use Rattle.xa_driver.specs.declared.stages.Prepared.{Prepared};
ghost use Rattle.xa_driver.specs.declared.stages.Decided.{Decided};
ghost use Rattle.xa_driver.specs.declared.stages.Told.{Told};
ghost use Rattle.xa_driver.specs.declared.round.Round.{Round};
ghost use Rattle.xa_driver.specs.declared.stages.Preparing.{Preparing};
ghost use Rattle.xa_driver.specs.declared.stages.Telling.{Telling};
ghost use Rattle.xa_driver.specs.declared.stages.Forgetting.{Forgetting};
ghost use Rattle.xa_driver.specs.Asks.{HaveComeSoFar, KeepsTheRest};
ghost use Rattle.xa_driver.specs.Stages.{HasDecided, HasForgotten, HasPrepared, HasTold, HasVoted, IsForgetting};
ghost use Rattle.xa_driver.specs.Stages.{IsPreparing, IsTelling, MayForget, MayTell};
ghost use Rattle.xa_driver.specs.UnderWay.{IsUnderWay};
ghost use Rattle.xa_driver.specs.Trace.{AreBranchesRising, IsTranOf, MayCommit, wants_record};
ghost use Rattle.laws_commit.specs.Cut.{AreOthers, GoesByTheRecord, IsCut, LeavesBranches, NoneWasToldToCommit};
ghost use Rattle.laws_commit.specs.Cut.{NoneWasToldToRollBack, TurnsOut, endings_of, is_recorded};
ghost use Rattle.laws_commit.specs.Calls.{CommitCall, IsFinished, ResolveCall};
ghost use Rattle.laws_commit.specs.Resolution.{IsAsPromised, IsOutcomeOf};
ghost use Rattle.laws_commit.specs.Resolution.{resolves};

use xa_log::DecisionLog;

/// Of one call alone, cut short anywhere: where the log has no record of the transaction, no branch was told to commit,
/// that is no Commit of it was sent; and where it has, none was told to roll back.
#[tactic(auto, using(crate::proofs::CutSends::unrecorded_law, crate::proofs::CutSends::recorded_law))]
pub fn cut_commits_go_by_the_record()
    ensures unrecorded { (c : CommitCall) → IsCut c → (tran : TranName) → IsTranOf c.branches tran
        → is_recorded c.later tran ≡ false → NoneWasToldToCommit c }
    ensures recorded { (c : CommitCall) → IsCut c → (tran : TranName) → IsTranOf c.branches tran
        → is_recorded c.later tran ≡ true → NoneWasToldToRollBack c }
{}

/// Of the second round alone, however far it came: to no manager a Commit was sent where the log has no record of the
/// transaction, and no Rollback where it has.
#[tactic(auto, using(crate::proofs::CutSends::second_round_sends, crate::proofs::Staged::asks_so_far))]
pub fn second_rounds_go_by_the_record()
    ensures told { (bs : List Branch) (start mid old new : List LedgerView) (log later : LogState) (p : Prepared)
        (d : Decided) (t : Told) → HasPrepared bs start mid p → record_of log p.tran ≡ None → HasDecided p log later d
        → HasTold d old new t → GoesByTheRecord (is_recorded later p.tran) old new }
    ensures telling { (bs : List Branch) (start mid : List LedgerView) (desk : DeskView) (now : List LedgerView)
        (log later : LogState) (p : Prepared) (d : Decided) (t : Telling) → HasPrepared bs start mid p
        → record_of log p.tran ≡ None → HasDecided p log later d → IsTelling d desk t
        → HaveComeSoFar t.round.asks.items desk.ledgers now
        → GoesByTheRecord (is_recorded later p.tran) desk.ledgers now }
{}

/// A commit that was decided, and whose branches were all told, came to its end: what is said of those holds of it.
pub fn decided_commits_were_made()
    ensures { (c : CommitCall) (tran : TranName) (death : Option Death) (done : Done)
        → MayCommit c.desk c.log c.branches → IsTranOf c.branches tran → length c.new ≡ length c.desk.ledgers
        → ComesTo AsksLedger PutsLedger death tran c.branches (ledger c.desk.ledgers) (ledger c.new) c.log c.later
        (outcome.Decided done) → c.endings ≡ done.endings.items → IsFinished c done }
{}

/// A commit that came to its end is one that was cut short after it: what is said of those holds of it too.
pub fn finished_commits_are_cut_after_all()
    ensures { (c : CommitCall) (done : Done) → IsFinished c done → IsCut c }
{}

/// With nothing in between the next stage of a commit may be done: what it asks for follows from what `may_commit`
/// tests and the stages before it promise. Of the log it asks that it has no record of the transaction, and no more.
pub fn stages_follow()
    ensures decide { (bs : List Branch) (desk : DeskView) (new : List LedgerView) (log : LogState) (p : Prepared)
        → MayCommit desk log bs → HasPrepared bs desk.ledgers new p → record_of log p.tran ≡ None }
    ensures tell { (bs : List Branch) (desk new : DeskView) (start log later : LogState) (p : Prepared) (d : Decided)
        → MayCommit desk start bs → HasPrepared bs desk.ledgers new.ledgers p → HasDecided p log later d
        → KeepsTheRest desk new → MayTell d new }
    ensures forget { (bs : List Branch) (desk mid new : DeskView) (start log later : LogState) (p : Prepared)
        (d : Decided) (t : Told) → MayCommit desk start bs → HasPrepared bs desk.ledgers mid.ledgers p
        → HasDecided p log later d → HasTold d mid.ledgers new.ledgers t → KeepsTheRest desk mid
        → KeepsTheRest mid new → MayForget t new }
    ensures log { (bs : List Branch) (desk : DeskView) (start log : LogState) (tran : TranName)
        → MayCommit desk start bs → IsTranOf bs tran → record_of log tran ≡ None → MayCommit desk log bs }
{}

/// A stage of a commit that is let go is a commit that was cut short, whatever its thread did between its stages that
/// leaves the branches: before it was decided, once it was, or once all branches were told, where it leaves the endings
/// that it knew. The log is as the decision found it. So is a commit that came to no decision, whichever records the
/// log turns out to have.
pub fn stages_are_cuts()
    ensures prepared { (c : CommitCall) (mid : List LedgerView) (p : Prepared) → MayCommit c.desk c.log c.branches
        → HasPrepared c.branches c.desk.ledgers mid p → LeavesBranches c.branches mid c.new → c.later ≡ c.log
        → c.endings ≡ [] → IsCut c }
    ensures decided { (c : CommitCall) (mid : List LedgerView) (p : Prepared) (d : Decided)
        → MayCommit c.desk c.log c.branches → HasPrepared c.branches c.desk.ledgers mid p
        → LeavesBranches c.branches mid c.new → HasDecided p c.log c.later d → c.endings ≡ [] → IsCut c }

    // Where nobody knew whether the log has the record, what the log has once it is opened again decides.
    ensures undecided { (c : CommitCall) (mid : List LedgerView) (votes : List Code) (tran : TranName)
        → MayCommit c.desk c.log c.branches → HasVoted c.branches c.desk.ledgers mid votes
        → LeavesBranches c.branches mid c.new → IsTranOf c.branches tran → wants_record votes ≡ true
        → IsEither c.log c.later tran (yes_of c.branches votes) → c.endings ≡ [] → IsCut c }
    ensures told { (c : CommitCall) (mid tell late : List LedgerView) (p : Prepared) (d : Decided) (t : Told)
        → MayCommit c.desk c.log c.branches → HasPrepared c.branches c.desk.ledgers mid p
        → LeavesBranches c.branches mid tell → HasDecided p c.log c.later d → HasTold d tell late t
        → LeavesBranches c.branches late c.new → c.endings ≡ t.done.endings.items → IsCut c }
{}

/// So is a round that is left, however far it came: of its requests some were sent, and of these some collected.
pub fn rounds_are_cuts()
    ensures so_far { (r : Round) (now : DeskView) → IsUnderWay r now
        → HaveComeSoFar r.asks.items r.before.value.ledgers now.ledgers }
    ensures asking { (c : CommitCall) (p : Preparing) → MayCommit c.desk c.log c.branches
        → IsPreparing c.branches c.desk p → HaveComeSoFar p.round.asks.items c.desk.ledgers c.new → c.later ≡ c.log
        → c.endings ≡ [] → IsCut c }
    ensures telling { (c : CommitCall) (tell : DeskView) (mid : List LedgerView) (p : Prepared) (d : Decided)
        (t : Telling) → MayCommit c.desk c.log c.branches → HasPrepared c.branches c.desk.ledgers mid p
        → LeavesBranches c.branches mid tell.ledgers → HasDecided p c.log c.later d → IsTelling d tell t
        → HaveComeSoFar t.round.asks.items tell.ledgers c.new → c.endings ≡ [] → IsCut c }
    ensures forgetting { (c : CommitCall) (start : DeskView) (mid tell late : List LedgerView) (p : Prepared)
        (d : Decided) (t : Told) (f : Forgetting) → MayCommit c.desk c.log c.branches
        → HasPrepared c.branches c.desk.ledgers mid p → LeavesBranches c.branches mid tell
        → HasDecided p c.log c.later d → HasTold d tell late t → LeavesBranches c.branches late start.ledgers
        → IsForgetting t start f → HaveComeSoFar f.round.asks.items start.ledgers c.new
        → c.endings ≡ t.done.endings.items → IsCut c }
{}

/// So is whatever `commit` came to, with the endings that are known then: it was decided, and all branches were told;
/// it was left undecided, whichever records the log turns out to have; or its coordinator died at some point of it.
pub fn commits_are_cuts()
    ensures { (c : CommitCall) (tran : TranName) (left : LogState) (death : Option Death) (o : CommitOutcome)
        → MayCommit c.desk c.log c.branches → IsTranOf c.branches tran → length c.new ≡ length c.desk.ledgers
        → ComesTo AsksLedger PutsLedger death tran c.branches (ledger c.desk.ledgers) (ledger c.new) c.log left o
        → TurnsOut tran c.branches c.log left c.later o → c.endings ≡ endings_of o → IsCut c }
{}

/// What a log turns out to have after a commit. Where it is known that is what the commit left; and else what it is
/// read as, once it is opened again: what it had before, with the record whose append was lost or without it.
pub fn logs_turn_out_as_they_are_read<L: DecisionLog>()
    ensures known { (tran : TranName) (bs : List Branch) (old new : L) (o : CommitOutcome)
        → TellsTheLog (record { knows = L.knows; appends = L.appends; loses = L.loses }) tran bs old new o
        → L.knows new → TurnsOut tran bs (L.state old) (L.state new) (L.state new) o }
    ensures read { (tran : TranName) (bs : List Branch) (old new : L) (read : LogState) (o : CommitOutcome)
        → TellsTheLog (record { knows = L.knows; appends = L.appends; loses = L.loses }) tran bs old new o
        → IsReadAs L.state L.knows L.loses new read → TurnsOut tran bs (L.state old) (L.state new) read o }
{}

/// What a commit's thread may do between its stages that leaves the branches: nothing, one thing after another,
/// whatever sends nothing that names them, a resolve that ends none of them, and any commit of other branches, all of
/// it or a stage or a round of it alone.
pub fn others_leave_the_branches()
    ensures nothing { (bs : List Branch) (at : List LedgerView) → LeavesBranches bs at at }
    ensures chained { (bs : List Branch) (old mid new : List LedgerView) → LeavesBranches bs old mid
        → LeavesBranches bs mid new → LeavesBranches bs old new }
    ensures unnamed { (bs : List Branch) (old new : List LedgerView) → AreBranchesRising 0 bs → HaveGrown old new
        → length new ≡ length old
        → All (λ b. (more : List Op) → (ledger new b.m).sent ≡ (ledger old b.m).sent ++ more
        → All (λ op. names b.xid op ≡ false) more) bs
        → LeavesBranches bs old new }
    ensures resolved { (bs : List Branch) (q : ResolveCall) → AreBranchesRising 0 bs → IsAsPromised (resolves q)
        → All (λ r. IsOutcomeOf bs r → ⊥) q.outcomes → LeavesBranches bs q.old q.new }
    ensures committed { (bs : List Branch) (c : CommitCall) (done : Done) → AreBranchesRising 0 bs
        → AreOthers bs c.branches → IsFinished c done → LeavesBranches bs c.desk.ledgers c.new }
    ensures preparing { (bs cs : List Branch) (desk : DeskView) (now : List LedgerView) (p : Preparing)
        → AreBranchesRising 0 bs → AreOthers bs cs → IsPreparing cs desk p
        → HaveComeSoFar p.round.asks.items desk.ledgers now → LeavesBranches bs desk.ledgers now }
    ensures prepared { (bs cs : List Branch) (old new : List LedgerView) (p : Prepared) → AreBranchesRising 0 bs
        → AreOthers bs cs → HasPrepared cs old new p → LeavesBranches bs old new }
    ensures telling { (bs cs : List Branch) (start mid : List LedgerView) (desk : DeskView) (now : List LedgerView)
        (log later : LogState) (p : Prepared) (d : Decided) (t : Telling) → AreBranchesRising 0 bs → AreOthers bs cs
        → HasPrepared cs start mid p → HasDecided p log later d → IsTelling d desk t
        → HaveComeSoFar t.round.asks.items desk.ledgers now → LeavesBranches bs desk.ledgers now }
    ensures told { (bs cs : List Branch) (start mid old new : List LedgerView) (log later : LogState) (p : Prepared)
        (d : Decided) (t : Told) → AreBranchesRising 0 bs → AreOthers bs cs → HasPrepared cs start mid p
        → HasDecided p log later d → HasTold d old new t → LeavesBranches bs old new }
    ensures forgetting { (bs cs : List Branch) (start mid tell late : List LedgerView) (desk : DeskView)
        (now : List LedgerView) (log later : LogState) (p : Prepared) (d : Decided) (t : Told) (f : Forgetting)
        → AreBranchesRising 0 bs → AreOthers bs cs → HasPrepared cs start mid p → HasDecided p log later d
        → HasTold d tell late t → IsForgetting t desk f → HaveComeSoFar f.round.asks.items desk.ledgers now
        → LeavesBranches bs desk.ledgers now }
    ensures forgotten { (bs cs : List Branch) (start mid tell late old new : List LedgerView) (log later : LogState)
        (p : Prepared) (d : Decided) (t : Told) (done : Done) → AreBranchesRising 0 bs → AreOthers bs cs
        → HasPrepared cs start mid p → HasDecided p log later d → HasTold d tell late t → HasForgotten t old new done
        → LeavesBranches bs old new }
{}
