//! Rounds that set and clear slots and commit, and what the slots then have.

use crate::database::{SLOTS, TABLES};
use sqlite_trees::error::StoreError;
use sqlite_trees::store::Store;
use sqlite_value::row::Row;
use sqlite_value::value::ValueRef;
use std::alloc::Global;
use xa_slots::SlotTables;

/// What each slot of each table has.
pub(crate) type State = [[Option<u32>; 12]; 3];

/// A slot of a table, and what a round leaves it with.
type Write = (u32, u32, Option<u32>);

// What a round writes.
fn writes_of(round: u32) -> [Write; 4] {
    let round = round & 0xffff;
    let odd = if round % 2 == 1 { Some(round) } else { None };
    let third = if round % 3 == 0 { None } else { Some(round) };
    [
        (0, round % 7, Some(round)),
        (1, round * 5 % SLOTS, Some(round)),
        (1, round * 7 % SLOTS, odd),
        (2, round % 4, third),
    ]
}

/// What the slots have after so many rounds.
pub(crate) fn state_after(rounds: u32) -> State {
    let mut state = [[None; 12]; 3];
    for round in 1..=rounds {
        for (table, slot, value) in writes_of(round) {
            state[table as usize % 3][slot as usize % 12] = value;
        }
    }
    state
}

fn write<S: Store>(tables: &mut SlotTables<S>, write: Write) -> Result<(), StoreError> {
    let (table, slot, value) = write;
    match value {
        Some(value) => {
            let filler = [(value & 0xff) as u8; 300];
            let cells = [ValueRef::Int(i64::from(value)), ValueRef::Blob(&filler)];
            tables.set(table, slot, &cells)
        }
        None => tables.clear(table, slot),
    }
}

/// Does a round, and commits it.
pub(crate) fn do_round<S: Store>(tables: &mut SlotTables<S>, round: u32) -> Result<(), StoreError> {
    for each in writes_of(round) {
        write(tables, each)?;
    }
    tables.commit()
}

/// Does so many rounds until one fails. How many it has committed.
pub(crate) fn do_rounds<S: Store>(tables: &mut SlotTables<S>, rounds: u32) -> u32 {
    for round in 1..=rounds {
        if do_round(tables, round).is_err() {
            return round - 1;
        }
    }
    rounds
}

// The value of a slot's row.
fn value_of(row: &Row) -> Option<u32> {
    match row.get(0) {
        ValueRef::Int(value) => u32::try_from(value).ok(),
        _ => None,
    }
}

/// What the slots have, or nothing where a table isn't read.
pub(crate) fn state_of<S: Store>(tables: &mut SlotTables<S>, alloc: Global) -> Option<State> {
    let mut state = [[None; 12]; 3];
    for table in 0..TABLES {
        let slots = tables.read(alloc, table, SLOTS).ok()?;
        for (slot, row) in slots.iter().enumerate() {
            state[table as usize % 3][slot % 12] = match row {
                Some(row) => value_of(row),
                None => None,
            };
        }
    }
    Some(state)
}
