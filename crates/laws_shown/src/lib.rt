//! What a transcript shows: laws alone, of what laws_transcript says that the answers tell of the managers' journals.
//!
//! What is answered XA_OK is carried out; a line `commitall` shows one outcome, and each of its branches as what became
//! of it; where it came to no end, its branches end by the record that its log has; the values shown are sums of what
//! the journals have. Nothing that runs stands on this crate.
#![tactic(auto)]

ghost use Rattle.std.specs.Prelude.{◌≡◌, ℕ, List, All, Vec, false, [], ◌++◌, ◌∷◌};
ghost use Rattle.std.specs.Global.{Global};
ghost use Rattle.xa_switch.specs.Settled.{Settling};
ghost use Rattle.xa_driver.specs.Commits.{is_commit};
ghost use Rattle.xa_driver.specs.declared.done.CommitOutcome.TheVariants as outcome;
ghost use Rattle.xa_driver.specs.declared.done.Done.{Done};
ghost use Rattle.xa_driver.specs.declared.done.LastKnown.{LastKnown};
ghost use Rattle.xa_driver.specs.Outcomes.{endings_known, votes_known};
ghost use Rattle.xa_words.specs.declared.code.Code.{Code};
ghost use Rattle.xa_words.specs.declared.death.Death.{Death};
ghost use Rattle.xa_words.specs.Tran.{TranName};
ghost use Rattle.script_grammar.specs.declared.step.CommitAll.{CommitAll};
ghost use Rattle.script_grammar.specs.declared.script.Declared.{Declared};
ghost use Rattle.script_grammar.specs.Contents.{Content, IsScript};
ghost use Rattle.script_transcript.specs.declared.answer.TranscriptLine.{TranscriptLine};
ghost use Rattle.script_session.specs.Committing.{branches_of, named};
ghost use Rattle.laws_transcript.specs.Parts.{Part};
ghost use Rattle.laws_transcript.specs.Commits.{TakesCommit};
ghost use Rattle.laws_transcript.specs.Journals.{TakesPart};
ghost use Rattle.laws_transcript.specs.Journals.{Line, AreCarriedOut, IsCarriedOut, ShowsCommit, AreCommitted};
ghost use Rattle.laws_transcript.specs.Journals.{AddsNone, ArePrepared};
ghost use Rattle.laws_transcript.specs.ToldOpenings.{Beginning, ToldOpening, Former, TellsOf, Tells};
ghost use Rattle.script_grammar.specs.Steps.{ScriptStep};
ghost use Rattle.laws_commit.specs.Cut.{is_recorded};
ghost use Rattle.laws_commit.specs.Outcomes.{AreLeftAlone, AreLeftOrDecided};
ghost use Rattle.laws_shown.specs.Shown.{LinePlace, AreNamedByNoOther};
ghost use Rattle.laws_transcript.specs.Parts.{entered_so_far};
ghost use Rattle.laws_shown.specs.Shown.{ShowsOneOutcome, IsAsShown, CountsAsShown, IsSumOfShares};
ghost use Rattle.laws_shown.specs.Unfinished.{EndByTheRecord, EndSoOrAreDecided, IsShownByTheRecord, IsAsFarAsShown};
ghost use Rattle.laws_shown.specs.Unfinished.{IsAsFarUnlessDecided};

use laws_commit::tables_keep_to_their_laws;
use xa_switch::laws::settled_journals_follow_the_tables;

/// Each call without `TMASYNC` that answers XA_OK has its request in its manager's journal, with XA_OK.
#[tactic(auto, using(crate::proofs::Outcomes::all_carried_out))]
pub fn what_answers_ok_is_carried_out()
    ensures { (steps : List ScriptStep) (answers : List TranscriptLine) (settled : Settling) (t : ℕ) (first : Part)
        (told : AreCarriedOut steps answers settled t first) → All (IsCarriedOut settled) told.lines }
{}

/// Each branch that a line shows as committed has its Commit in its manager's journal, with XA_OK.
pub fn what_is_committed_has_its_commit()
    ensures { (steps : List ScriptStep) (answers : List TranscriptLine) (settled : Settling) (t : ℕ) (first : Part)
        (told : AreCarriedOut steps answers settled t first) → All (AreCommitted settled) told.lines }
{}

/// Where a line shows that a transaction commits, each of its branches has its Prepare in its manager's
/// journal, with XA_OK or XA_RDONLY.
pub fn what_commits_was_prepared()
    ensures { (steps : List ScriptStep) (answers : List TranscriptLine) (settled : Settling) (t : ℕ) (first : Part)
        (told : AreCarriedOut steps answers settled t first) → All (ArePrepared settled) told.lines }
{}

/// A line that shows that a transaction aborts adds no Commit to any journal.
pub fn what_aborts_adds_no_commit()
    ensures { (t : ℕ) (c : CommitAll TranName) (done : Done) (old new : Part)
        → TakesCommit t c (outcome.Decided done) old new → done.commit ≡ false
        → (m : ℕ) → AddsNone is_commit (old.entries m) (new.entries m) }
{}

/// Where a line shows `commit` none of its branches is shown as rolled back, and where it shows `abort` none
/// as committed.
pub fn one_outcome_is_shown()
    ensures { (steps : List ScriptStep) (answers : List TranscriptLine) (settled : Settling) (t : ℕ) (first : Part)
        (told : AreCarriedOut steps answers settled t first) → All ShowsOneOutcome told.lines }
{}

/// Each line has a place among those of its thread.
pub fn lines_have_their_places()
    ensures { (steps : List ScriptStep) (answers : List TranscriptLine) (settled : Settling) (t : ℕ) (first : Part)
        (told : AreCarriedOut steps answers settled t first) (before : List Line) (l : Line) (after : List Line)
        → told.lines ≡ before ++ l ∷ after → (old : Part) × (new : Part) × LinePlace told before l after old new }
{}

/// All of a transaction or nothing, by what a transcript tells: where no line of another thread names a branch of it
/// in the opening, and none of its own thread behind that of the commit, each branch is shown as what became of it, and
/// the values count what is shown as committed (clause `lines`). Where another thread has worked for a branch, too, it
/// is enough that in the journals nobody else names a branch after its Prepare (`journals`); each is shown as what
/// became of it also where heuristic decisions do (`decisions`).
pub fn branches_are_as_shown()
    ensures decisions { (s : Content) (b : Beginning) (o : ToldOpening) (tells : TellsOf s b o) (c : CommitAll TranName)
        (done : Done) (before : List Line) (l : Line) (after : List Line) (old new : Part)
        → LinePlace (tells.carried l.task.thread) before l after old new → ShowsCommit l c (outcome.Decided done)
        → AreLeftOrDecided o.settled l.task.thread (branches_of c) (entered_so_far old) (entered_so_far new)
        → IsAsShown o.settled l.task.thread (branches_of c) old done }
    ensures journals { (s : Content) (b : Beginning) (o : ToldOpening) (tells : TellsOf s b o) (c : CommitAll TranName)
        (done : Done) (before : List Line) (l : Line) (after : List Line) (old new : Part)
        → LinePlace (tells.carried l.task.thread) before l after old new → ShowsCommit l c (outcome.Decided done)
        → AreLeftAlone o.settled l.task.thread (branches_of c) (entered_so_far old) (entered_so_far new)
        → IsAsShown o.settled l.task.thread (branches_of c) old done
        × CountsAsShown o.settled l.task.thread (branches_of c) old done }
    ensures lines { (s : Content) (b : Beginning) (o : ToldOpening) (tells : TellsOf s b o) (c : CommitAll TranName)
        (done : Done) (before : List Line) (l : Line) (after : List Line)
        → (tells.carried l.task.thread).lines ≡ before ++ l ∷ after
        → ShowsCommit l c (outcome.Decided done)
        → AreNamedByNoOther o.steps b.scans l.task.thread (branches_of c) after
        → (old : Part) × (new : Part) × LinePlace (tells.carried l.task.thread) before l after old new
        × IsAsShown o.settled l.task.thread (branches_of c) old done
        × CountsAsShown o.settled l.task.thread (branches_of c) old done }
{
    tables_keep_to_their_laws();
    settled_journals_follow_the_tables();
}

/// A line of a commit that came to no end goes by the record that its thread's log has after it, or turns out to have.
/// Its coordinator died (`died`), or nobody knows whether the log has the record (`undecided`).
#[tactic(auto, using(crate::proofs::Outcomes::by_the_record))]
pub fn unfinished_commits_go_by_the_record()
    ensures died { (settled : Settling) (l : Line) (c : CommitAll TranName) (at : Death) (known : LastKnown)
        (old new : Part) → TakesPart settled l old new → ShowsCommit l c (outcome.Died at known)
        → IsShownByTheRecord (named c) (votes_known known) (endings_known known) old new }
    ensures undecided { (settled : Settling) (l : Line) (c : CommitAll TranName) (votes : Vec Code Global)
        (old new : Part) → TakesPart settled l old new → ShowsCommit l c (outcome.Undecided votes)
        → IsShownByTheRecord (named c) votes.items [] old new }
{}

/// What becomes of the branches of a commit that came to no end, where no line of another thread names one of them in
/// the opening, and none of its own thread behind that of the commit (clauses `lines`, `undecided_lines`): each that
/// voted to commit ended by the record, or is in doubt; and where the coordinator died once all had answered, each
/// branch is shown as what became of it. Where another thread has worked for a branch, too, it is enough that in the
/// journals nobody else names a branch after its Prepare (`journals`, `undecided_journals`). Where heuristic decisions
/// do, a branch that voted to commit may have one of them for its fate instead (`decisions`, `undecided_decisions`).
pub fn branches_end_by_the_record()
    ensures decisions { (s : Content) (b : Beginning) (o : ToldOpening) (tells : TellsOf s b o) (c : CommitAll TranName)
        (at : Death) (known : LastKnown) (before : List Line) (l : Line) (after : List Line) (old new : Part)
        → LinePlace (tells.carried l.task.thread) before l after old new → ShowsCommit l c (outcome.Died at known)
        → AreLeftOrDecided o.settled l.task.thread (branches_of c) (entered_so_far old) (entered_so_far new)
        → IsAsFarUnlessDecided o.settled l.task.thread c at known old new }
    ensures undecided_decisions { (s : Content) (b : Beginning) (o : ToldOpening) (tells : TellsOf s b o)
        (c : CommitAll TranName) (votes : Vec Code Global) (before : List Line) (l : Line) (after : List Line)
        (old new : Part) → LinePlace (tells.carried l.task.thread) before l after old new
        → ShowsCommit l c (outcome.Undecided votes)
        → AreLeftOrDecided o.settled l.task.thread (branches_of c) (entered_so_far old) (entered_so_far new)
        → EndSoOrAreDecided o.settled l.task.thread (branches_of c) (is_recorded new.log (named c)) false old new }
    ensures journals { (s : Content) (b : Beginning) (o : ToldOpening) (tells : TellsOf s b o) (c : CommitAll TranName)
        (at : Death) (known : LastKnown) (before : List Line) (l : Line) (after : List Line) (old new : Part)
        → LinePlace (tells.carried l.task.thread) before l after old new → ShowsCommit l c (outcome.Died at known)
        → AreLeftAlone o.settled l.task.thread (branches_of c) (entered_so_far old) (entered_so_far new)
        → IsAsFarAsShown o.settled l.task.thread c at known old new }
    ensures lines { (s : Content) (b : Beginning) (o : ToldOpening) (tells : TellsOf s b o) (c : CommitAll TranName)
        (at : Death) (known : LastKnown) (before : List Line) (l : Line) (after : List Line)
        → (tells.carried l.task.thread).lines ≡ before ++ l ∷ after
        → ShowsCommit l c (outcome.Died at known)
        → AreNamedByNoOther o.steps b.scans l.task.thread (branches_of c) after
        → (old : Part) × (new : Part) × LinePlace (tells.carried l.task.thread) before l after old new
        × IsAsFarAsShown o.settled l.task.thread c at known old new }
    ensures undecided_journals { (s : Content) (b : Beginning) (o : ToldOpening) (tells : TellsOf s b o)
        (c : CommitAll TranName) (votes : Vec Code Global) (before : List Line) (l : Line) (after : List Line)
        (old new : Part) → LinePlace (tells.carried l.task.thread) before l after old new
        → ShowsCommit l c (outcome.Undecided votes)
        → AreLeftAlone o.settled l.task.thread (branches_of c) (entered_so_far old) (entered_so_far new)
        → EndByTheRecord o.settled l.task.thread (branches_of c) (is_recorded new.log (named c)) false old new }
    ensures undecided_lines { (s : Content) (b : Beginning) (o : ToldOpening) (tells : TellsOf s b o)
        (c : CommitAll TranName) (votes : Vec Code Global) (before : List Line) (l : Line) (after : List Line)
        → (tells.carried l.task.thread).lines ≡ before ++ l ∷ after
        → ShowsCommit l c (outcome.Undecided votes)
        → AreNamedByNoOther o.steps b.scans l.task.thread (branches_of c) after
        → (old : Part) × (new : Part) × LinePlace (tells.carried l.task.thread) before l after old new
        × EndByTheRecord o.settled l.task.thread (branches_of c) (is_recorded new.log (named c)) false old new }
{
    tables_keep_to_their_laws();
    settled_journals_follow_the_tables();
}

/// The value of each key that is shown is that at the first opening and what the requests in its manager's journals
/// have added to it.
pub fn values_are_sums_of_shares()
    ensures { (s : Content) (answers : List TranscriptLine) (values : List Declared) (before : List Former)
        (last : ToldOpening)
        → IsScript s → Tells s answers values before last → All (IsSumOfShares s before last) values }
{
    settled_journals_follow_the_tables();
}
