//! Tests of the bank over its public surface: days of its tellers.
#![tactic(auto)]

#[cfg(test)]
mod days;
