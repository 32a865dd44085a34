//! The bank over days: each day's tellers move money. A store may be shut, a teller may die in any commit, and a log
//! may lose an append. In the night what was left in doubt is resolved by the logs of all tellers.
#![tactic(auto)]

mod bank;
mod day;
mod days;
mod errands;
mod law;
mod night;

pub use bank::Bank;
pub use day::{Closed, Stop};
pub use days::{Days, run_days};
pub use errands::Errands;
pub use law::{
    a_day_applies_its_transfers, applied_transfers_conserve_the_worth, opened_banks_are_ready,
};
pub use night::{Night, Resolver, Unresolved, run_night};
