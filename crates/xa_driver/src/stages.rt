//! A commit of several branches in stages, which its caller holds one after the other and may let go at any.
//!
//! Three stages have nothing in flight: the branches have voted (`Prepared`), it is decided (`Decided`), and all
//! branches were told (`Told`). Between these are the rounds (`Preparing`, `Telling`, `Forgetting`), whose requests go
//! out one by one. A coordinator that dies lets go of the stage that it holds, or leaves the round that it is in. That
//! takes a call: a program that just drops a stage doesn't compile, so no commit is cut short unawares.
ghost use Rattle.std.specs.Prelude.{◌≡◌, ◌≤◌, ◌↔◌, List, map, length, take, IfOk, IfErr, IfSome, IsTrue, OnErr, OnOk};
ghost use Rattle.std.specs.Prelude.{None};
ghost use Rattle.xa_desk.specs.DeskViews.{DeskView};
ghost use Rattle.xa_desk.specs.GoingOn.{GoesOn};
ghost use Rattle.xa_desk.specs.Kept.{AllKept};
ghost use Rattle.xa_driver.specs.declared.branch.Branch.{Branch};
ghost use Rattle.xa_driver.specs.Asks.{KeepsTheRest, among_asks};
ghost use Rattle.xa_driver.specs.Idling.{IdlesAt};
ghost use Rattle.xa_log.specs.Log.{record_of};
ghost use Rattle.xa_driver.specs.RoundOrder.{GoesAsRound, SendsThenCollects};
ghost use Rattle.xa_driver.specs.Rounds.{code_of_ask, first_ask, second_ask, third_ask};
ghost use Rattle.xa_driver.specs.Stages.{HasDecided, HasForgotten, HasPrepared, HasRoomFor, HasTold, IsForgetting};
ghost use Rattle.xa_driver.specs.Stages.{IsPreparing, IsTelling, MayForget, MayTell};
ghost use Rattle.xa_driver.specs.declared.done.LastKnown.TheVariants.{Decided as DecidedThen};
ghost use Rattle.xa_driver.specs.Rounds.{yes_asked};
ghost use Rattle.xa_driver.specs.Trace.{AppendsOnce, IsUnknown, Logs, MayPrepare, decision_of, has_branch_at};
ghost use Rattle.xa_driver.specs.UnderWay.{IsAtRest, IsUnderWay, LeavesInFlight, sent_count};

use crate::branch::Branch;
use crate::done::{Decision, Done, Ending, LastKnown};
use crate::round::Round;
use crate::rounds::{
    first_round, has_no, has_yes, read_endings, read_votes, second_round, third_round, yes_of,
};
use std::alloc::{AllocError, Global};
use std::sync::Wait;
use xa_base::MOST_MANAGERS;
use xa_desk::{Desk, Idle};
use xa_log::{CommitRecord, DecisionLog, LogFault};
use xa_words::{Code, ManagerSet, Tran};

/// A commit that is asking its branches to prepare.
pub struct Preparing {
    /// The Prepares.
    pub round: Round,
    tran: Tran,
    // Memory for what comes, taken before anything is sent.
    for_votes: Vec<Code>,
    for_endings: Vec<Ending>,
}

/// A commit whose branches have all voted. Nothing is decided: where it is let go, the transaction is presumed aborted.
pub struct Prepared {
    round: Round,
    tran: Tran,
    votes: Vec<Code>,
    for_endings: Vec<Ending>,
}

/// A commit that is decided, and logged where that is wanted. No branch has heard of it: where it is let go, the log
/// tells whoever resolves what is left.
pub struct Decided {
    round: Round,
    decision: Decision,
    votes: Vec<Code>,
    for_endings: Vec<Ending>,
}

/// A commit that is telling its branches the decision.
pub struct Telling {
    /// A Commit or a Rollback for each branch that wants one.
    pub round: Round,
    decision: Decision,
    votes: Vec<Code>,
    for_endings: Vec<Ending>,
}

/// A commit whose branches have all been told the decision. What is known of those that were decided heuristically is
/// to be kept before they are told to forget it; where it is let go, they keep it themselves.
pub struct Told {
    round: Round,
    done: Done,
}

/// A commit that is telling the branches that were decided heuristically to forget it.
pub struct Forgetting {
    /// A Forget for each branch that keeps a decision of its own.
    pub round: Round,
    done: Done,
}

// The decision by these votes; `None` where nobody knows whether the log has its record.
fn decide_by<L: DecisionLog>(
    log: &mut L,
    tran: Tran,
    yes: ManagerSet,
    votes: &[Code],
) -> Option<Decision>
    requires known { L.knows log.old }
    requires new { record_of (L.state log.old) tran ≡ None }
    ensures decision { IfSome result (λ d. d.commit ≡ decision_of votes.now d.logged) }
    ensures logs { IfSome result (λ d. Logs tran yes votes.now d.logged (L.state log.old) (L.state log.new)) }
    ensures appends { IfSome result (λ d. AppendsOnce L.appends tran yes votes.now d.logged log.old log.new) }
    ensures known { IfSome result (λ d. L.knows log.new) }
    ensures unknown { result ≡ None → IsUnknown L.knows L.loses tran yes votes.now log.old log.new }
{
    let (commit, logged) = if has_no(votes) {
        (false, false)
    } else if !has_yes(votes) {
        (true, false)
    } else {
        match log.append(&CommitRecord { tran, yes }) {
            Ok(()) => (true, true),
            Err(LogFault::Refused) => (false, false),
            Err(LogFault::Unknown) => return None,
        }
    };
    Some(Decision { commit, logged })
}

/// Begins to ask all branches of a global transaction to prepare; nothing is sent yet.
///
/// It takes all memory that the commit needs.
#[tactic(auto, using(crate::proofs::Calls::first_can))]
pub fn begin_prepare(
    alloc: Global,
    desk: &Desk,
    branches: &[Branch],
) -> Result<Preparing, AllocError>
    requires { MayPrepare desk.now branches.now }
    ensures preparing { IfOk result (IsPreparing branches.now desk.now) }
    ensures under_way { IfOk result (λ p. IsUnderWay p.round desk.now) }
    ensures none { IfOk result (λ p. sent_count p.round ≡ 0) }
    ensures few { length desk.now.ledgers ≤ MOST_MANAGERS }
{
    desk.has_few_managers();
    let asks = first_round(alloc, branches)?;
    let for_votes = Vec::with_capacity(alloc, branches.len())?;
    let for_endings = Vec::with_capacity(alloc, branches.len())?;
    let round = Round::new(alloc, desk, asks)?;
    Ok(Preparing {
        round,
        tran: branches[0].xid.tran(),
        for_votes,
        for_endings,
    })
}

impl Preparing {
    /// Asks all branches that weren't asked yet, and collects all votes.
    pub fn finish<R: Wait, I: Idle>(self, rt: &R, desk: &mut Desk, idle: &mut I) -> Prepared
        requires under_way { IsUnderWay self.round desk.old }
        requires votes { HasRoomFor (length self.round.asks.items) self.for_votes }
        ensures prepared { (bs : List Branch) (old : DeskView) → IsPreparing bs old self
            → HasPrepared bs old.ledgers desk.new.ledgers result }
        ensures keeps { KeepsTheRest self.round.before.value desk.new }
        ensures waited { IdlesAt I.leads_by (among_asks self.round.asks.items) idle.old idle.new }
        ensures ordered { SendsThenCollects self.round desk.old desk.new }
        ensures idled { I.leads idle.old idle.new }
    {
        let Preparing {
            mut round,
            tran,
            for_votes: mut votes,
            for_endings,
        } = self;
        round.finish(rt, desk, idle);
        read_votes(&round.asks, &mut votes);
        Prepared {
            round,
            tran,
            votes,
            for_endings,
        }
    }

    /// Leaves the commit, as a coordinator does that dies here, and tells the votes that were collected. What is in
    /// flight is kept under handles, and collected as the desk ends.
    pub fn leave(self, desk: &mut Desk) -> Vec<Code>
        requires under_way { IsUnderWay self.round desk.old }
        requires votes { HasRoomFor (length self.round.asks.items) self.for_votes }
        ensures votes { result.items ≡ map code_of_ask (take self.round.collected self.round.asks.items) }
        ensures left { LeavesInFlight self.round.tickets.items desk.old desk.new }
        ensures goes_on { GoesOn desk.old desk.new }
        ensures kept { AllKept self.round.before.value → AllKept desk.new }
    {
        let Preparing {
            round,
            tran: _,
            for_votes: mut votes,
            for_endings: _,
        } = self;
        read_votes(&round.asks[..round.collected], &mut votes);
        round.leave(desk);
        votes
    }
}

/// Asks all branches of a global transaction to prepare, and collects their votes: the first phase.
///
/// It takes all memory that the commit needs, and want of it comes before anything is sent.
pub fn prepare_all<R: Wait, I: Idle>(
    rt: &R,
    alloc: Global,
    desk: &mut Desk,
    branches: &[Branch],
    idle: &mut I,
) -> Result<Prepared, AllocError>
    requires { MayPrepare desk.old branches.now }
    ensures prepared { IfOk result (HasPrepared branches.now desk.old.ledgers desk.new.ledgers) }
    ensures few { length desk.old.ledgers ≤ MOST_MANAGERS }
    ensures keeps { OnOk result (KeepsTheRest desk.old desk.new) }
    ensures ordered { OnOk result (GoesAsRound (map first_ask branches.now) desk.old desk.new) }
    ensures unsent { OnErr result (desk.new ≡ desk.old) }
    ensures waited { IdlesAt I.leads_by (has_branch_at branches.now) idle.old idle.new }
    ensures idle_stays { OnErr result (idle.new ≡ idle.old) }
    ensures idled { I.leads idle.old idle.new }
{
    let preparing = begin_prepare(alloc, desk, branches)?;
    Ok(preparing.finish(rt, desk, idle))
}

impl Prepared {
    /// The code of each branch's Prepare, in the order of the branches.
    pub fn votes(&self) -> &[Code]
        ensures { result.now ≡ self.now.votes.items }
    {
        &self.votes
    }

    /// Decides by the votes, and logs a decision to commit where there is a vote for it: the commit point.
    ///
    /// Where nobody knows whether the log has the record, nothing is decided, and the commit comes back as it was: it
    /// can only be let go.
    pub fn decide<L: DecisionLog>(self, log: &mut L) -> Result<Decided, Prepared>
        requires known { L.knows log.old }
        requires new { record_of (L.state log.old) self.tran ≡ None }
        ensures decided { IfOk result (HasDecided self (L.state log.old) (L.state log.new)) }

        // Where the votes want a record, it is appended once.
        ensures appends { IfOk result (λ d. AppendsOnce L.appends self.tran (yes_asked self.round.asks.items)
            self.votes.items d.decision.logged log.old log.new) }
        ensures known { OnOk result (L.knows log.new) }

        ensures undecided { IfErr result (λ p. p ≡ self) }
        ensures unknown { OnErr result (IsUnknown L.knows L.loses self.tran (yes_asked self.round.asks.items)
            self.votes.items log.old log.new) }
    {
        let Prepared {
            round,
            tran,
            votes,
            for_endings,
        } = self;
        let Some(decision) = decide_by(log, tran, yes_of(&round.asks), &votes) else {
            return Err(Prepared {
                round,
                tran,
                votes,
                for_endings,
            });
        };
        Ok(Decided {
            round,
            decision,
            votes,
            for_endings,
        })
    }

    /// Lets the commit go, as a coordinator does that dies here, and tells the votes.
    pub fn let_go(self) -> Vec<Code>
        requires { IsAtRest self.round }
        ensures { result ≡ self.votes }
    {
        let Prepared {
            round,
            tran: _,
            votes,
            for_endings: _,
        } = self;
        round.end();
        votes
    }
}

impl Decided {
    /// The decision, and whether the log took a record of it.
    pub fn decision(&self) -> Decision
        ensures { result ≡ self.now.decision }
    {
        self.decision
    }

    /// Whether the branches may be told at this desk: it has room for one more request to each of their managers, and a
    /// handle for each.
    pub fn may_tell(&self, desk: &Desk) -> bool
        requires rest { IsAtRest self.now.round }
        requires endings { HasRoomFor (length self.now.round.asks.items) self.now.for_endings }
        ensures { IsTrue result ↔ MayTell self.now desk.now }
    {
        self.round.may_ask(desk)
    }

    /// Begins to tell all branches the decision; nothing is sent yet.
    #[tactic(auto, using(crate::proofs::Calls::remade_rules))]
    pub fn begin_telling(self, desk: &Desk) -> Telling
        requires { MayTell self desk.now }
        ensures telling { IsTelling self desk.now result }
        ensures under_way { IsUnderWay result.round desk.now }
        ensures none { sent_count result.round ≡ 0 }
    {
        let Decided {
            mut round,
            decision,
            votes,
            for_endings,
        } = self;
        second_round(round.asks.as_mut_slice(), decision.commit);
        round.again(desk);
        Telling {
            round,
            decision,
            votes,
            for_endings,
        }
    }

    /// Tells all branches the decision, and collects what they answer: the second phase.
    pub fn tell<R: Wait, I: Idle>(self, rt: &R, desk: &mut Desk, idle: &mut I) -> Told
        requires { MayTell self desk.old }
        ensures told { HasTold self desk.old.ledgers desk.new.ledgers result }
        ensures keeps { KeepsTheRest desk.old desk.new }
        ensures waited { IdlesAt I.leads_by (among_asks self.round.asks.items) idle.old idle.new }
        ensures ordered { GoesAsRound (map (second_ask self.decision.commit) self.round.asks.items) desk.old desk.new }
        ensures idled { I.leads idle.old idle.new }
    {
        let telling = self.begin_telling(desk);
        telling.finish(rt, desk, idle)
    }

    /// Lets the commit go, as a coordinator does that dies here, and tells the decision and the votes.
    pub fn let_go(self) -> LastKnown
        requires { IsAtRest self.round }
        ensures { result ≡ DecidedThen self.decision self.votes }
    {
        let Decided {
            round,
            decision,
            votes,
            for_endings: _,
        } = self;
        round.end();
        LastKnown::Decided { decision, votes }
    }
}

impl Telling {
    /// Tells all branches that weren't told yet, and collects all that they answer.
    pub fn finish<R: Wait, I: Idle>(self, rt: &R, desk: &mut Desk, idle: &mut I) -> Told
        requires under_way { IsUnderWay self.round desk.old }
        requires endings { HasRoomFor (length self.round.asks.items) self.for_endings }
        ensures told { (d : Decided) (old : DeskView) → IsTelling d old self
            → HasTold d old.ledgers desk.new.ledgers result }
        ensures keeps { KeepsTheRest self.round.before.value desk.new }
        ensures waited { IdlesAt I.leads_by (among_asks self.round.asks.items) idle.old idle.new }
        ensures ordered { SendsThenCollects self.round desk.old desk.new }
        ensures idled { I.leads idle.old idle.new }
    {
        let Telling {
            mut round,
            decision,
            votes,
            for_endings: mut endings,
        } = self;
        round.finish(rt, desk, idle);
        read_endings(&round.asks, decision.commit, &mut endings);
        Told {
            round,
            done: Done {
                commit: decision.commit,
                logged: decision.logged,
                votes,
                endings,
            },
        }
    }

    /// Leaves the commit, as a coordinator does that dies here, and tells the decision and the votes. What is in flight
    /// is kept under handles, and collected as the desk ends.
    pub fn leave(self, desk: &mut Desk) -> LastKnown
        requires { IsUnderWay self.round desk.old }
        ensures known { result ≡ DecidedThen self.decision self.votes }
        ensures left { LeavesInFlight self.round.tickets.items desk.old desk.new }
        ensures goes_on { GoesOn desk.old desk.new }
        ensures kept { AllKept self.round.before.value → AllKept desk.new }
    {
        let Telling {
            round,
            decision,
            votes,
            for_endings: _,
        } = self;
        round.leave(desk);
        LastKnown::Decided { decision, votes }
    }
}

impl Told {
    /// What became of the transaction.
    pub fn done(&self) -> &Done
        ensures { result.now ≡ self.now.done }
    {
        &self.done
    }

    /// Whether the branches may be told to forget at this desk: it has room for one more request to each of their
    /// managers, and a handle for each.
    pub fn may_forget(&self, desk: &Desk) -> bool
        requires { IsAtRest self.now.round }
        ensures { IsTrue result ↔ MayForget self.now desk.now }
    {
        self.round.may_ask(desk)
    }

    /// Begins to tell each branch that was decided heuristically to forget it; nothing is sent yet.
    #[tactic(auto, using(crate::proofs::Calls::remade_rules))]
    pub fn begin_forgetting(self, desk: &Desk) -> Forgetting
        requires { MayForget self desk.now }
        ensures forgetting { IsForgetting self desk.now result }
        ensures under_way { IsUnderWay result.round desk.now }
        ensures none { sent_count result.round ≡ 0 }
    {
        let Told { mut round, done } = self;
        third_round(round.asks.as_mut_slice());
        round.again(desk);
        Forgetting { round, done }
    }

    /// Tells each branch that was decided heuristically to forget it: the end.
    pub fn forget<R: Wait, I: Idle>(self, rt: &R, desk: &mut Desk, idle: &mut I) -> Done
        requires { MayForget self desk.old }
        ensures forgot { HasForgotten self desk.old.ledgers desk.new.ledgers result }
        ensures keeps { KeepsTheRest desk.old desk.new }
        ensures waited { IdlesAt I.leads_by (among_asks self.round.asks.items) idle.old idle.new }
        ensures ordered { GoesAsRound (map third_ask self.round.asks.items) desk.old desk.new }
        ensures idled { I.leads idle.old idle.new }
    {
        let forgetting = self.begin_forgetting(desk);
        forgetting.finish(rt, desk, idle)
    }

    /// Lets the commit go, as a coordinator does that dies here, and tells what was known.
    pub fn let_go(self) -> Done
        requires { IsAtRest self.round }
        ensures { result ≡ self.done }
    {
        let Told { round, done } = self;
        round.end();
        done
    }
}

impl Forgetting {
    /// Tells all that weren't told yet to forget, and collects all that they answer: the end.
    pub fn finish<R: Wait, I: Idle>(self, rt: &R, desk: &mut Desk, idle: &mut I) -> Done
        requires { IsUnderWay self.round desk.old }
        ensures forgot { (t : Told) (old : DeskView) → IsForgetting t old self
            → HasForgotten t old.ledgers desk.new.ledgers result }
        ensures keeps { KeepsTheRest self.round.before.value desk.new }
        ensures waited { IdlesAt I.leads_by (among_asks self.round.asks.items) idle.old idle.new }
        ensures ordered { SendsThenCollects self.round desk.old desk.new }
        ensures idled { I.leads idle.old idle.new }
    {
        let Forgetting { mut round, done } = self;
        round.finish(rt, desk, idle);
        round.end();
        done
    }

    /// Leaves the commit, as a coordinator does that dies here: what is in flight is kept under handles, and collected
    /// as the desk ends.
    pub fn leave(self, desk: &mut Desk) -> Done
        requires { IsUnderWay self.round desk.old }
        ensures done { result ≡ self.done }
        ensures left { LeavesInFlight self.round.tickets.items desk.old desk.new }
        ensures goes_on { GoesOn desk.old desk.new }
        ensures kept { AllKept self.round.before.value → AllKept desk.new }
    {
        let Forgetting { round, done } = self;
        round.leave(desk);
        done
    }
}
