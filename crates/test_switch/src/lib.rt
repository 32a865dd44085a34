//! Tests of the switch and of crews, over their public surfaces.
#![tactic(auto)]

#[cfg(test)]
mod crew;
#[cfg(test)]
mod switch;
