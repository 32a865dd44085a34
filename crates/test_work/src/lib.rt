//! Tests of units of work over their public surface.
#![tactic(auto)]

#[cfg(test)]
mod mover;
#[cfg(test)]
mod units;
