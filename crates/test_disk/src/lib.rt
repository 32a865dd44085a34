//! Tests of tables of slots in a SQLite file, over files in memory that tear and over real ones.
#![tactic(auto)]

#[cfg(test)]
mod crashes;
#[cfg(test)]
mod database;
#[cfg(test)]
mod failing;
#[cfg(test)]
mod host;
#[cfg(test)]
mod reading;
#[cfg(test)]
mod rounds;
