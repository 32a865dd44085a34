//! Tests of a worker for a log that coordinators on threads of their own share, over a log in memory.
#![tactic(auto)]

#[cfg(test)]
mod counted;
#[cfg(test)]
mod opened;
#[cfg(test)]
mod shared;
