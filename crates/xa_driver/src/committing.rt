//! A commit of several branches, in two phases, by a coordinator that may die at some point of it.
ghost use Rattle.std.specs.Prelude.{◌≡◌, ◌≤◌, ℕ, Bool, List, length, true, IfOk, OnErr};
ghost use Rattle.xa_words.specs.Tran.{TranName};
ghost use Rattle.xa_words.specs.declared.death.Death.TheVariants as death_at;
ghost use Rattle.xa_desk.specs.DeskViews.{ledger};
ghost use Rattle.xa_desk.specs.GoingOn.{GoesOn};
ghost use Rattle.xa_desk.specs.LedgerViews.{LedgerView};
ghost use Rattle.xa_desk.specs.Kept.{AllKept};
ghost use Rattle.xa_driver.specs.declared.branch.Branch.{Branch};
ghost use Rattle.xa_driver.specs.declared.done.LastKnown.TheVariants as known_as;
ghost use Rattle.xa_driver.specs.declared.stages.Decided.{Decided};
ghost use Rattle.xa_driver.specs.declared.stages.Prepared.{Prepared};
ghost use Rattle.xa_driver.specs.Asks.{among_asks};
ghost use Rattle.xa_driver.specs.Deaths.{Dies, KnowsDecision, LeavesDesk, PutsLedger, is_decided_by};
ghost use Rattle.xa_driver.specs.Idling.{IdlesAt};
ghost use Rattle.xa_driver.specs.Outcomes.{ComesTo, LeavesTheDesk, TellsTheLog};
ghost use Rattle.xa_driver.specs.RoundOrder.{GoesAsFar};
ghost use Rattle.xa_driver.specs.Resolving.{AsksLedger};
ghost use Rattle.xa_driver.specs.Stages.{HasDecided, HasPrepared, HasRoomFor, IsPreparing, IsTelling, MayTell};
ghost use Rattle.xa_driver.specs.Trace.{IsTranOf, MayCommit, has_branch_at};
ghost use Rattle.xa_driver.specs.UnderWay.{IsUnderWay, sent_count};
ghost use Rattle.xa_log.specs.Log.{LogState};

use crate::branch::Branch;
use crate::done::{CommitOutcome, LastKnown};
use crate::stages::{Decided, Preparing, Telling, begin_prepare};
use std::alloc::{AllocError, Global};
use std::sync::Wait;
use xa_base::MOST_MANAGERS;
use xa_desk::{Desk, Idle};
use xa_log::DecisionLog;
use xa_words::{Code, Death};

// Asks all branches to prepare, collects so many votes, and leaves the others in flight.
#[tactic(auto, using(crate::proofs::Requests::same_itself, crate::proofs::Requests::same_alike))]
fn die_preparing<R: Wait, I: Idle>(
    rt: &R,
    preparing: Preparing,
    desk: &mut Desk,
    count: u8,
    idle: &mut I,
) -> Vec<Code>
    requires under_way { IsUnderWay preparing.round desk.old }
    requires begins { preparing.round.before.value ≡ desk.old }
    requires none { sent_count preparing.round ≡ 0 }
    requires votes { HasRoomFor (length preparing.round.asks.items) preparing.for_votes }
    ensures dies { (bs : List Branch) (t : TranName) (log : LogState) → IsPreparing bs desk.old preparing
        → Dies AsksLedger PutsLedger (death_at.Preparing count) t bs (ledger desk.old.ledgers)
        (ledger desk.new.ledgers) log log (known_as.Votes result) }
    ensures leaves { (bs : List Branch) → IsPreparing bs desk.old preparing → LeavesDesk bs desk.old desk.new }
    ensures waited { IdlesAt I.leads_by (among_asks preparing.round.asks.items) idle.old idle.new }
    ensures ordered { GoesAsFar preparing.round.asks.items desk.old.ledgers desk.old desk.new }
    ensures idled { I.leads idle.old idle.new }
{
    let mut preparing = preparing;
    preparing.round.begin_to_collect(rt, desk, count, idle);
    preparing.leave(desk)
}

// Tells all branches the decision, collects so many of their answers, and leaves the others in flight.
fn die_telling<R: Wait, I: Idle>(
    rt: &R,
    telling: Telling,
    desk: &mut Desk,
    count: u8,
    idle: &mut I,
) -> LastKnown
    requires under_way { IsUnderWay telling.round desk.old }
    requires begins { telling.round.before.value ≡ desk.old }
    requires none { sent_count telling.round ≡ 0 }
    ensures known { result ≡ known_as.Decided telling.decision telling.votes }
    ensures dies { (bs : List Branch) (old : List LedgerView) (log later : LogState) (p : Prepared) (d : Decided)
        → HasPrepared bs old desk.old.ledgers p → HasDecided p log later d → IsTelling d desk.old telling
        → Dies AsksLedger PutsLedger (death_at.Telling count) p.tran bs (ledger old) (ledger desk.new.ledgers) log later
        result }
    ensures leaves { (bs : List Branch) → ((m : ℕ) → among_asks telling.round.asks.items m ≡ has_branch_at bs m)
        → LeavesDesk bs desk.old desk.new }
    ensures waited { IdlesAt I.leads_by (among_asks telling.round.asks.items) idle.old idle.new }
    ensures ordered { GoesAsFar telling.round.asks.items desk.old.ledgers desk.old desk.new }
    ensures idled { I.leads idle.old idle.new }
{
    let mut telling = telling;
    telling.round.begin_to_collect(rt, desk, count, idle);
    telling.leave(desk)
}

// Goes on from the decision to the death of the coordinator.
fn die_decided<R: Wait, I: Idle>(
    rt: &R,
    decided: Decided,
    desk: &mut Desk,
    death: Death,
    idle: &mut I,
) -> LastKnown
    requires may { MayTell decided desk.old }
    requires later { is_decided_by death ≡ true }
    ensures decision { KnowsDecision decided.decision decided.votes result }
    ensures dies { (bs : List Branch) (old : List LedgerView) (log later : LogState) (p : Prepared)
        → HasPrepared bs old desk.old.ledgers p → HasDecided p log later decided
        → Dies AsksLedger PutsLedger death p.tran bs (ledger old) (ledger desk.new.ledgers) log later result }
    ensures leaves { (bs : List Branch) → ((m : ℕ) → among_asks decided.round.asks.items m ≡ has_branch_at bs m)
        → LeavesDesk bs desk.old desk.new }
    ensures waited { IdlesAt I.leads_by (among_asks decided.round.asks.items) idle.old idle.new }
    ensures idled { I.leads idle.old idle.new }
{
    match death {
        Death::Telling(count) => {
            let telling = decided.begin_telling(desk);
            die_telling(rt, telling, desk, count, idle)
        }
        Death::Told => LastKnown::Told(decided.tell(rt, desk, idle).let_go()),
        _ => decided.let_go(),
    }
}

/// Commits the branches of a global transaction in two phases, by presumed abort (Mohan, Lindsay and
/// Obermarck, 1986).
///
/// It sends a Prepare to every branch before it collects any, and decides commit where no vote is against. With a yes
/// vote among them the decision is logged before the first Commit is sent. Where the log refuses the record, the
/// decision is abort; where nobody knows whether the log has it, there is none, and no branch is told any. A branch
/// that only read takes no part in the second phase. A branch that answers there that it was decided heuristically,
/// with `XA_HEURCOM` or `XA_HEURRB`, is forgotten (`xa_forget()`), all of these in flight together; what that answers
/// changes no ending. A full lane is idled on and tried again; a manager that is learnt to be shut is sent nothing,
/// which counts as `XAER_RMFAIL`.
///
/// With a `death` the coordinator dies at that point of it, and tells what it knew then. At `Preparing(k)` every
/// branch was asked to prepare, and it tells the first `k` votes; at `Prepared` all votes, and nothing is decided. At
/// `Decided` it tells the votes, the decision and whether that was logged, and no branch has heard of it. At
/// `Telling(k)` all branches that want the decision were told, and the first `k` of them have answered; at `Told` all
/// have, and it tells their endings too. None was told to forget a decision of its own. What is in flight then is kept
/// under handles, and collected as the desk ends.
///
/// It fails for want of memory alone, before anything is sent.
pub fn commit<R: Wait, L: DecisionLog, I: Idle>(
    rt: &R,
    alloc: Global,
    desk: &mut Desk,
    log: &mut L,
    branches: &[Branch],
    death: Option<Death>,
    idle: &mut I,
) -> Result<CommitOutcome, AllocError>
    requires may { MayCommit desk.old (L.state log.old) branches.now }
    requires known { L.knows log.old }

    // What was asked of the branches and told to the log, and what is known of it.
    ensures comes { IfOk result (λ o. (t : TranName) → IsTranOf branches.now t
        → ComesTo AsksLedger PutsLedger death t branches.now (ledger desk.old.ledgers) (ledger desk.new.ledgers)
        (L.state log.old) (L.state log.new) o) }
    ensures log { IfOk result (λ o. (t : TranName) → IsTranOf branches.now t
        → TellsTheLog (record { knows = L.knows; appends = L.appends; loses = L.loses }) t branches.now log.old log.new
        o) }
    ensures desk { IfOk result (LeavesTheDesk branches.now desk.old desk.new) }
    ensures managers { length desk.new.ledgers ≡ length desk.old.ledgers }

    // The desk goes on, and where all that was outstanding was kept under handles, it still is.
    ensures goes_on { GoesOn desk.old desk.new }
    ensures kept { AllKept desk.old → AllKept desk.new }

    // A record has places for all managers of the desk.
    ensures few { length desk.old.ledgers ≤ MOST_MANAGERS }

    // Want of memory comes before anything is sent.
    ensures unsent { OnErr result (desk.new ≡ desk.old) }
    ensures unlogged { OnErr result (log.new ≡ log.old) }
    ensures idle_stays { OnErr result (idle.new ≡ idle.old) }

    // Each idle is one in a wait for the manager of a branch.
    ensures waited { IdlesAt I.leads_by (has_branch_at branches.now) idle.old idle.new }
    ensures idled { I.leads idle.old idle.new }
{
    let preparing = begin_prepare(alloc, desk, branches)?;
    if let Some(Death::Preparing(count)) = death {
        let votes = die_preparing(rt, preparing, desk, count, idle);
        return Ok(CommitOutcome::Died {
            at: Death::Preparing(count),
            known: LastKnown::Votes(votes),
        });
    }
    let prepared = preparing.finish(rt, desk, idle);
    if let Some(Death::Prepared) = death {
        return Ok(CommitOutcome::Died {
            at: Death::Prepared,
            known: LastKnown::Votes(prepared.let_go()),
        });
    }
    let decided = match prepared.decide(log) {
        Ok(decided) => decided,
        Err(prepared) => return Ok(CommitOutcome::Undecided(prepared.let_go())),
    };
    match death {
        None => {
            let told = decided.tell(rt, desk, idle);
            Ok(CommitOutcome::Decided(told.forget(rt, desk, idle)))
        }
        Some(at) => Ok(CommitOutcome::Died {
            at,
            known: die_decided(rt, decided, desk, at, idle),
        }),
    }
}
