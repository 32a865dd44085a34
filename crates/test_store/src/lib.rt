//! Tests of stores, over the public surface of their crate: what an opening finds after a crash.
#![tactic(auto)]

#[cfg(test)]
mod crashes;
#[cfg(test)]
mod histories;
#[cfg(test)]
mod limits;
#[cfg(test)]
mod watched;
