//! Tests of the coordinator over its public surface.
#![tactic(auto)]

#[cfg(test)]
mod driver;
