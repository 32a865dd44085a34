//! A crew over an opening that is opened again.
//!
//! Write what a thread of control does there as a `ClientAgain`: it is lent the scan of what was left as well. Give
//! what came back settled of a run to `run_clients_again`, or to `run_clients_again_in_turns`, which runs all in the
//! thread that calls it; `open_clients_again` runs nothing yet. `specs/Again.antt` says what they come to. Managers
//! that have stores are run by `run_clients_again_stored`; `specs/Stored.antt` says what the stores keep.
#![tactic(auto)]

mod again;
mod stored;

pub use again::{
    AgainFault, ClientAgain, UnopenedClients, WithScan, open_clients_again, run_clients_again,
    run_clients_again_in_turns,
};
pub use stored::run_clients_again_stored;
