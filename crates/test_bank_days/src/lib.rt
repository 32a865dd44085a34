//! Tests of days of the bank over its public surface.
#![tactic(auto)]

#[cfg(test)]
mod days;
