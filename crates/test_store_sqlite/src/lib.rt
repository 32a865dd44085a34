//! Tests of a manager's store in a SQLite file, over files in memory that tear.
#![tactic(auto)]

#[cfg(test)]
mod crashes;
#[cfg(test)]
mod damage;
#[cfg(test)]
mod doubt;
#[cfg(test)]
mod files;
#[cfg(test)]
mod forged;
#[cfg(test)]
mod host;
#[cfg(test)]
mod lent;
#[cfg(test)]
mod making;
#[cfg(test)]
mod mixed;
#[cfg(test)]
mod opening;
#[cfg(test)]
mod owing;
#[cfg(test)]
mod refused;
#[cfg(test)]
mod served;
#[cfg(test)]
mod texts;
