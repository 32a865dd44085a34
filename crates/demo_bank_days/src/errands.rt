//! What the tellers of a bank are to do on a day.
ghost use Rattle.std.specs.Prelude.{◌≡◌, ℕ, ◌≤◌, [], length, vec_capacity};
ghost use Rattle.std.specs.List.{All};
ghost use Rattle.demo_bank_days.specs.Banks.{AreTurned, habits_on};

use demo_bank::{DiesAt, Habits, ShutsAt, Teller, Transfer};
use xa_log::DecisionLog;

/// What a teller is to do on a day.
#[derive(Drop)]
pub struct Errands {
    pub transfers: Vec<Transfer>,
    /// The death that it dies, if any, at a place among the transfers of the day.
    pub death: Option<DiesAt>,
    /// The store that it shuts, if any, before the transfer at a place.
    pub shuts: Option<ShutsAt>,
}

impl Errands {
    /// The habits of a teller on them, whose first transfer has this number.
    pub(crate) fn habits(&self, first: u32) -> Habits
        ensures { result ≡ habits_on first self.now }
    {
        Habits {
            first,
            death: self.death,
            shuts: self.shuts,
            forgets: false,
        }
    }
}

/// The most transfers of a teller.
pub(crate) fn most(errands: &[Errands]) -> usize
    ensures all { All (λ e. length e.transfers.items ≤ result) errands.now }
    ensures least { (n : ℕ) → All (λ e. length e.transfers.items ≤ n) errands.now → result ≤ n }
{
    let mut most = 0;
    for errand in errands {
        most = most.max(errand.transfers.len());
    }
    most
}

/// Each teller, turned to its errands.
pub(crate) fn turn_all<L: DecisionLog + Drop>(
    tellers: Vec<Teller<L>>,
    first: u32,
    errands: Vec<Errands>,
    mut turned: Vec<Teller<L>>,
) -> Vec<Teller<L>>
    requires as_many { length errands.items ≡ length tellers.items }
    requires none { turned.items ≡ [] }
    requires room { length tellers.items ≤ vec_capacity turned }
    ensures { AreTurned first tellers.items errands.items result.items }
{
    let mut errands = errands.into_iter();
    for mut teller in tellers {
        let Some(errand) = errands.next() else {
            unreachable!()
        };
        let habits = errand.habits(first);
        teller.turn_to(errand.transfers, habits);
        turned.push_reserved(teller);
    }
    turned
}
