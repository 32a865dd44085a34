//! A crew over an opening of the switch: a client for each thread of control, and a worker for each manager.
//!
//! Write what a thread of control does as a `Client`, and give a plan and a client for each of its threads to
//! `run_clients`, which has a thread for each client and each worker, or to `run_clients_in_turns`, which runs all in
//! the thread that calls it. Both promise the same: what a client leaves outstanding is collected and told, and what
//! comes back is settled, so that what was sent, carried out and collected agree. `specs/Run.antt` says it whole.
//!
//! Clients with the desks of an opening whose run hasn't begun, or couldn't, are `Opened`, which may be run later;
//! `specs/Opened.antt` says that whole. `xa_crew_again` opens what came back settled again, with clients for that.
//!
//! A caller in one thread that has no clients lends its workers as `Turns` to each call, ends its desks by `end_desk`
//! and settles them by `settle_all`.
#![tactic(auto)]

mod client;
mod client_job;
mod ending;
mod fault;
mod in_turns;
pub mod laws;
mod opened;
mod run;
mod settling;
mod turns;
mod worker_job;

pub use client::Client;
pub use client_job::Attended;
pub use ending::end_desk;
pub use fault::CrewFault;
pub use in_turns::run_clients_in_turns;
pub use opened::{CrewMemory, Opened, OpenedFault, open_clients};
pub use run::{Ran, Run, run_clients, settle_run};
pub use settling::settle_all;
pub use turns::Turns;
