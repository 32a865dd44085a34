//! Tests of the parts that a switch is made of, each over its public surface: words, tables, lanes, desks, workers, and
//! the judge of their journals. They are a crate of their own, since a crate is proved once more with its tests, and
//! one for all six, since each program is proved together with all that it links.
#![tactic(auto)]

#[cfg(test)]
mod desk;
#[cfg(test)]
mod lane;
#[cfg(test)]
mod replay;
#[cfg(test)]
mod tables;
#[cfg(test)]
mod words;
#[cfg(test)]
mod worker;
