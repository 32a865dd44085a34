//! Tests of the log on a disk, over a file in memory that tears and over a real one.
#![tactic(auto)]

#[cfg(test)]
mod appending;
#[cfg(test)]
mod damage;
#[cfg(test)]
mod forgetting;
#[cfg(test)]
mod groups;
#[cfg(test)]
mod host;
#[cfg(test)]
mod images;
#[cfg(test)]
mod making;
#[cfg(test)]
mod memory;
#[cfg(test)]
mod reopened;
#[cfg(test)]
mod rewriting;
#[cfg(test)]
mod tape;
