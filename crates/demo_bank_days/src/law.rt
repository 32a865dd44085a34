//! A day of the bank and its night, and many of them, against the bank as an abstract machine: laws alone.
ghost use Rattle.std.specs.Prelude.{◌≡◌, ℕ, ◌+◌, ◌^◌, ◌<◌, ◌≤◌, Bool, true, List, length};
ghost use Rattle.std.specs.List.{All};
ghost use Rattle.xa_base.specs.Lists.{IsUpTo};
ghost use Rattle.xa_tables.specs.ManagerTables.{is_declared};
ghost use Rattle.xa_words.specs.Codes.{is_done};
ghost use Rattle.xa_switch.specs.declared.plan.Plan.{Plan};
ghost use Rattle.xa_switch.specs.Reopening.{reopened_at};
ghost use Rattle.xa_switch.specs.Plans.{IsSound};
ghost use Rattle.xa_switch.specs.Worth.{plan_worth, settled_worth};
ghost use Rattle.demo_bank.specs.declared.teller.Teller.{Teller};
ghost use Rattle.demo_bank.specs.declared.teller.Transfer.{Transfer};
ghost use Rattle.demo_bank_days.specs.declared.bank.Bank.{Bank};
ghost use Rattle.demo_bank_days.specs.Days.{DayAndNight, IsDawn, all_told, balances_at, balances_of};
ghost use Rattle.demo_bank_days.specs.Banks.{HaveNoRecord, IsMovedBy, IsOpenedBank, IsReadyForDay, IsWithin};
ghost use Rattle.demo_bank_days.specs.AbstractBank.{all_applied};

use laws_balances::branches_come_out_by_the_log;
use laws_commit::finished_outcomes_leave_no_branch;
use xa_log::DecisionLog;
use xa_log::laws::several_logs_are_read_as_one;

/// Over a day and its night each transfer was applied whole or not at all, as its teller was told: in the end each
/// account has at each store the balance after all that were applied. Any store may be shut at any time, any teller may
/// die in a commit, and any log may lose an append: it is opened again, and the transfer applied where it has the
/// record. In the night one resolve, by the logs of all tellers, ends what they left. Where it told XA_OK of each
/// branch the next day may begin, with any numbers that are past those of the day.
pub fn a_day_applies_its_transfers<L: DecisionLog>()
    ensures applied { (d : DayAndNight L.state L.knows L.loses) (m : ℕ) (account : List ℕ) → length d.olds < 2 ^ 32
        → IsUpTo d.stores m → is_declared (d.tables m) account ≡ true
        → balances_at d.next m account ≡ all_applied (all_told d.founds d.news) (balances_of d.tables) m account }
    ensures dawn { (d : DayAndNight L.state L.knows L.loses) (later : ℕ)
        → All (λ r. is_done r.code ≡ true) d.resolve.outcomes → d.first ≤ later
        → All (λ t. t.habits.first + length t.transfers.items ≤ later) d.olds
        → IsDawn L.state d.stores later (reopened_at d.next.managers) d.logs }
{
    branches_come_out_by_the_log();
    several_logs_are_read_as_one();
    finished_outcomes_leave_no_branch();
}

/// A bank that was opened for a plan, whose tellers' logs have no record, is ready for its first day.
pub fn opened_banks_are_ready<L: DecisionLog>()
    ensures { (p : Plan) (tellers : List (Teller L)) (b : Bank L) → IsOpenedBank p tellers b
        → HaveNoRecord L.state tellers → IsReadyForDay L.state b }
{}

/// Whatever transfers were applied since a bank was opened for a plan, as long as both stores of each have its account:
/// all accounts are together worth what the plan declares.
pub fn applied_transfers_conserve_the_worth<L: DecisionLog>()
    ensures { (p : Plan) (tellers : List (Teller L)) (es : List (Transfer × Bool)) (b b' : Bank L) → IsSound p
        → IsOpenedBank p tellers b → IsMovedBy L.state es b b' → All (λ e. IsWithin p e.0) es
        → settled_worth p b'.settled ≡ plan_worth p }
{}
