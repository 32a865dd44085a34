//! A lane: up to eight senders and one receiver, with an end mark of each sender.
//!
//! What is taken of a sender, and then what is left of it, is what it sent, in order. A lane is one
//! bounded queue that its senders share.
#![tactic(auto)]

mod closing;
mod ended;
mod lane;
pub mod laws;
mod name;
mod order;
mod parcel;
mod receiver;
mod sender;

pub use ended::Ended;
pub use lane::{CloseFault, CloseWhy, LaneFault, close_lane, open_lane};
pub use name::LaneName;
pub use parcel::{Full, Parcel, Taken};
pub use receiver::Receiver;
pub use sender::Sender;
