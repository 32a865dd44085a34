//! Tables that have a row which is no slot.

use crate::database::{Pair, SLOTS, created, disks_of};
use sqlite_trees::error::StoreError;
use sqlite_trees::store::Store;
use sqlite_value::value::ValueRef;
use std::alloc::Global;
use std::process::Abort;
use xa_disk::{Tape, Tear};
use xa_slots::{SlotTables, TableReadFault};

// What reading a table finds in which one slot is set: the slots that are taken, or why it isn't read.
fn read_with(rt: &impl Abort, alloc: Global, slot: u32) -> Result<u32, TableReadFault> {
    let tapes = Pair {
        log: Tape::of(alloc, &[], 0, Tear::Nothing).expect(rt, "memory"),
        db: Tape::of(alloc, &[], 0, Tear::Nothing).expect(rt, "memory"),
    };
    let Ok(disks) = disks_of(alloc, tapes) else {
        panic!(rt; "no disks");
    };
    let Ok(mut tables) = created(rt, alloc, disks) else {
        panic!(rt; "no database");
    };
    assert!(rt;
        tables
            .set(1, 0, &[ValueRef::Text(b"a"), ValueRef::Null])
            .is_ok()
    );
    assert!(rt;
        tables
            .set(1, slot, &[ValueRef::Text(b"b"), ValueRef::Int(-7)])
            .is_ok()
    );
    let slots = tables.read(alloc, 1, SLOTS)?;
    assert!(rt; slots.len() == slot as usize + 1);
    Ok(taken(&slots))
}

fn taken<T>(slots: &[Option<T>]) -> u32 {
    let mut taken: u32 = 0;
    for slot in slots {
        taken = taken.saturating_add(u32::from(slot.is_some()));
    }
    taken
}

#[test]
fn slots_are_read(rt: HostRuntime) {
    let alloc = rt.alloc();
    assert!(rt; read_with(&rt, alloc, 0) == Ok(1));
    assert!(rt; read_with(&rt, alloc, 5) == Ok(2));
    assert!(rt; read_with(&rt, alloc, SLOTS - 1) == Ok(2));
}

#[test]
fn a_row_that_is_no_slot_is_refused(rt: HostRuntime) {
    let alloc = rt.alloc();
    assert!(rt; read_with(&rt, alloc, SLOTS) == Err(TableReadFault::NotSlots));
    assert!(rt; read_with(&rt, alloc, u32::MAX) == Err(TableReadFault::NotSlots));
}
