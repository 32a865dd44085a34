//! Files that an opening refuses, each by its fault. It leaves them as they were.

use crate::files::{Bytes, NONE, NUMBER, image, tapes_of};
use crate::forged::{ACCOUNTS, BRANCHES, CHANGES, Forged, STORE, TEXTS, full_bytes, made_of};
use crate::lent::{Asked, ENDLESS, opened};
use crate::served::key;
use sqlite_value::value::ValueRef;
use std::alloc::Global;
use std::process::Abort;
use xa_store_sqlite::{RowFault, StoreOpenFault, Table};
use xa_tables::RestoreFault;

const NULL: ValueRef<'static> = ValueRef::Null;

// Why an opening with a number refuses files, if it does. They are as they were, for a crash too; but an empty log is
// begun, with 41 bytes.
fn refusal_by(
    rt: &impl Abort,
    alloc: Global,
    bytes: &Bytes,
    number: i64,
) -> Option<StoreOpenFault> {
    let mut tapes = tapes_of(rt, alloc, bytes, NONE);
    let asked = Asked {
        number,
        accounts: &[],
        calls: ENDLESS,
    };
    let Err(fault) = opened(alloc, &mut tapes, asked) else {
        return None;
    };
    for choice in [(0, 0), (1, 1)] {
        let left = image(rt, alloc, &tapes, choice);
        let is_begun = bytes.log.is_empty() && left.log.len() <= 41;
        assert!(rt; is_begun || left.log.as_slice() == bytes.log.as_slice());
        assert!(rt; left.db.as_slice() == bytes.db.as_slice());
    }
    Some(fault)
}

fn refusal(rt: &impl Abort, alloc: Global, bytes: &Bytes) -> Option<StoreOpenFault> {
    refusal_by(rt, alloc, bytes, NUMBER)
}

// A full store, of which each case has a copy.
#[derive(Drop)]
struct Full {
    alloc: Global,
    bytes: Bytes,
}

impl Full {
    fn new(rt: &impl Abort, alloc: Global) -> Full {
        Full {
            alloc,
            bytes: full_bytes(rt, alloc),
        }
    }

    fn forged(&self, rt: &impl Abort) -> Forged {
        Forged::new(rt, self.alloc, &self.bytes)
    }

    // Why it is refused, where a slot has these cells.
    fn with(
        &self,
        rt: &impl Abort,
        table: u32,
        slot: u32,
        cells: &[ValueRef<'_>],
    ) -> Option<StoreOpenFault> {
        let mut forged = self.forged(rt);
        forged.set(rt, table, slot, cells);
        refusal(rt, self.alloc, &forged.kept(rt))
    }

    // Why it is refused, where a slot has nothing.
    fn without(&self, rt: &impl Abort, table: u32, slot: u32) -> Option<StoreOpenFault> {
        let mut forged = self.forged(rt);
        forged.clear(rt, table, slot);
        refusal(rt, self.alloc, &forged.kept(rt))
    }

    // Why it is refused, where a slot has this account.
    fn with_account(
        &self,
        rt: &impl Abort,
        slot: u32,
        name: &[u8],
        value: i64,
    ) -> Option<StoreOpenFault> {
        let cells = [NULL, ValueRef::Text(name), ValueRef::Int(value)];
        self.with(rt, ACCOUNTS, slot, &cells)
    }

    // Why it is refused, where a slot has a change of the branch with this id.
    fn with_change(
        &self,
        rt: &impl Abort,
        slot: u32,
        branch: i64,
        delta: i64,
    ) -> Option<StoreOpenFault> {
        let cells = [NULL, ValueRef::Int(branch), ValueRef::Int(delta)];
        self.with(rt, CHANGES, slot, &cells)
    }
}

// ---- accounts

fn bad_account(slot: u32, fault: RowFault) -> Option<StoreOpenFault> {
    Some(StoreOpenFault::BadRow(Table::Accounts, slot, fault))
}

#[test]
fn an_account_of_another_form_is_refused(rt: HostRuntime) {
    let full = Full::new(&rt, rt.alloc());
    let (name, value) = (ValueRef::Text(b"b"), ValueRef::Int(5));
    let rows: [&[ValueRef<'_>]; 7] = [
        &[NULL, name],
        &[NULL, name, value, value],
        &[value, name, value],
        &[NULL, ValueRef::Blob(b"b"), value],
        &[NULL, name, ValueRef::Text(b"5")],
        &[NULL, NULL, value],
        &[NULL, name, NULL],
    ];
    for cells in rows {
        let refusal = full.with(&rt, ACCOUNTS, 1, cells);
        assert!(rt; refusal == bad_account(1, RowFault::Form));
    }
    let cells = [NULL, name, value];
    assert!(rt; full.with(&rt, ACCOUNTS, 1, &cells).is_none());
}

#[test]
fn an_account_with_no_name_of_a_key_is_refused(rt: HostRuntime) {
    let full = Full::new(&rt, rt.alloc());
    for name in [b"".as_slice(), b"seventeen0letters", b"A", b"\xc3\xa4"] {
        let refusal = full.with_account(&rt, 0, name, 100);
        assert!(rt; refusal == bad_account(0, RowFault::Name));
    }
    assert!(rt;
        full.with_account(&rt, 0, b"sixteen0letters0", 100)
            .is_none()
    );
}

#[test]
fn an_account_over_the_limit_is_refused(rt: HostRuntime) {
    let full = Full::new(&rt, rt.alloc());
    for value in [-1, 1_000_000_000_001, i64::MIN, i64::MAX] {
        let refusal = full.with_account(&rt, 1, b"b", value);
        assert!(rt; refusal == bad_account(1, RowFault::Limit));
    }
    for value in [0, 1_000_000_000_000] {
        assert!(rt; full.with_account(&rt, 1, b"b", value).is_none());
    }
}

#[test]
fn a_gap_in_the_accounts_is_refused(rt: HostRuntime) {
    let full = Full::new(&rt, rt.alloc());
    let refusal = full.with_account(&rt, 3, b"c", 1);
    assert!(rt; refusal == bad_account(3, RowFault::Gap));
    let refusal = full.without(&rt, ACCOUNTS, 0);
    assert!(rt; refusal == bad_account(1, RowFault::Gap));
    assert!(rt; full.with_account(&rt, 2, b"c", 1).is_none());
}

// ---- branches

fn branch_cells<'a>(format: i64, gtrid: &'a [u8], bqual: &'a [u8]) -> [ValueRef<'a>; 5] {
    [
        NULL,
        ValueRef::Int(format),
        ValueRef::Blob(gtrid),
        ValueRef::Blob(bqual),
        ValueRef::Text(b"prepared"),
    ]
}

fn bad_branch(slot: u32, fault: RowFault) -> Option<StoreOpenFault> {
    Some(StoreOpenFault::BadRow(Table::Branches, slot, fault))
}

#[test]
fn a_branch_of_another_form_is_refused(rt: HostRuntime) {
    let full = Full::new(&rt, rt.alloc());
    let right = branch_cells(1, b"w", b"1");
    for at in 0..5 {
        // A cell of another type.
        let mut cells = right;
        cells[at] = ValueRef::Text(b"w");
        if at == 4 {
            cells[at] = ValueRef::Blob(b"prepared");
        }
        let refusal = full.with(&rt, BRANCHES, 2, &cells);
        assert!(rt; refusal == bad_branch(2, RowFault::Form));
    }
    let [id, format, gtrid, bqual, state] = right;
    for cells in [
        [id, format, gtrid, bqual, state, NULL].as_slice(),
        [id, format, gtrid, bqual].as_slice(),
    ] {
        let refusal = full.with(&rt, BRANCHES, 2, cells);
        assert!(rt; refusal == bad_branch(2, RowFault::Form));
    }
    assert!(rt; full.with(&rt, BRANCHES, 2, &right).is_none());
}

#[test]
fn a_branch_with_no_name_is_refused(rt: HostRuntime) {
    let full = Full::new(&rt, rt.alloc());
    let long = [7; 65];
    for cells in [
        branch_cells(-1, b"w", b"1"),
        branch_cells(1 << 31, b"w", b"1"),
        branch_cells(-1 - (1 << 31), b"w", b"1"),
        branch_cells(1, b"", b"1"),
        branch_cells(1, b"w", b""),
        branch_cells(1, &long, b"1"),
        branch_cells(1, b"w", &long),
    ] {
        let refusal = full.with(&rt, BRANCHES, 9, &cells);
        assert!(rt; refusal == bad_branch(9, RowFault::Name));
    }
    for format in [-(1 << 31), (1 << 31) - 1] {
        let cells = branch_cells(format, &long[..64], &long[1..]);
        assert!(rt; full.with(&rt, BRANCHES, 9, &cells).is_none());
    }
}

#[test]
fn a_branch_in_a_state_that_no_opening_leaves_is_refused(rt: HostRuntime) {
    let full = Full::new(&rt, rt.alloc());
    for state in [
        b"".as_slice(),
        b"active",
        b"Prepared",
        b"prepared ",
        b"committed",
    ] {
        let mut cells = branch_cells(1, b"w", b"1");
        cells[4] = ValueRef::Text(state);
        let refusal = full.with(&rt, BRANCHES, 3, &cells);
        assert!(rt; refusal == bad_branch(3, RowFault::State));
    }
}

// ---- changes

fn bad_change(slot: u32, fault: RowFault) -> Option<StoreOpenFault> {
    Some(StoreOpenFault::BadRow(Table::Changes, slot, fault))
}

#[test]
fn a_change_of_another_form_is_refused(rt: HostRuntime) {
    let full = Full::new(&rt, rt.alloc());
    let (branch, delta) = (ValueRef::Int(1), ValueRef::Int(-5));
    let rows: [&[ValueRef<'_>]; 5] = [
        &[NULL, branch],
        &[NULL, branch, delta, NULL],
        &[branch, branch, delta],
        &[NULL, NULL, delta],
        &[NULL, branch, ValueRef::Text(b"-5")],
    ];
    for cells in rows {
        let refusal = full.with(&rt, CHANGES, 1, cells);
        assert!(rt; refusal == bad_change(1, RowFault::Form));
    }
    assert!(rt; full.with(&rt, CHANGES, 1, &[NULL, branch, delta]).is_none());
}

#[test]
fn a_change_of_no_branch_is_refused(rt: HostRuntime) {
    let full = Full::new(&rt, rt.alloc());
    for branch in [-1, 0, 4, 65_536, 65_537, i64::MAX] {
        let refusal = full.with_change(&rt, 1, branch, 5);
        assert!(rt; refusal == bad_change(1, RowFault::Unknown));
    }
    // The branch of the change that is there goes.
    let refusal = full.without(&rt, BRANCHES, 0);
    assert!(rt; refusal == bad_change(0, RowFault::Unknown));
}

#[test]
fn a_change_over_the_limit_is_refused(rt: HostRuntime) {
    let full = Full::new(&rt, rt.alloc());
    for delta in [1_000_000_000_001, -1_000_000_000_001, i64::MIN, i64::MAX] {
        let refusal = full.with_change(&rt, 1, 1, delta);
        assert!(rt; refusal == bad_change(1, RowFault::Limit));
    }
}

// ---- the row of the store

#[test]
fn a_row_of_the_store_with_another_form_is_refused(rt: HostRuntime) {
    let full = Full::new(&rt, rt.alloc());
    let (version, number) = (ValueRef::Int(1), ValueRef::Int(NUMBER));
    let rows: [&[ValueRef<'_>]; 5] = [
        &[NULL, version],
        &[NULL, version, number, NULL],
        &[version, version, number],
        &[NULL, ValueRef::Text(b"1"), number],
        &[NULL, version, NULL],
    ];
    for cells in rows {
        let refusal = full.with(&rt, STORE, 0, cells);
        assert!(rt; refusal == Some(StoreOpenFault::BadRow(Table::Store, 0, RowFault::Form)));
    }
}

// Another version comes before another number.
#[test]
fn another_version_is_refused(rt: HostRuntime) {
    let full = Full::new(&rt, rt.alloc());
    for (version, number) in [(2, NUMBER), (0, NUMBER), (-1, NUMBER), (2, 78)] {
        let cells = [NULL, ValueRef::Int(version), ValueRef::Int(number)];
        let refusal = full.with(&rt, STORE, 0, &cells);
        assert!(rt; refusal == Some(StoreOpenFault::OtherVersion));
    }
}

#[test]
fn each_other_number_is_refused(rt: HostRuntime) {
    let alloc = rt.alloc();
    let bytes = full_bytes(&rt, alloc);
    for number in [78, -77, 0, i64::MIN, i64::MAX] {
        let refusal = refusal_by(&rt, alloc, &bytes, number);
        assert!(rt; refusal == Some(StoreOpenFault::OtherNumber));
    }
    assert!(rt; refusal_by(&rt, alloc, &bytes, NUMBER).is_none());
}

#[test]
fn rows_with_none_of_the_store_are_refused(rt: HostRuntime) {
    let alloc = rt.alloc();
    let full = Full::new(&rt, rt.alloc());
    let tables = [(ACCOUNTS, 2), (BRANCHES, 3), (CHANGES, 1)];
    // Each table alone has rows.
    for (table, _) in tables {
        let mut forged = full.forged(&rt);
        forged.clear(&rt, STORE, 0);
        for (other, rows) in tables {
            for slot in 0..rows {
                if other != table {
                    forged.clear(&rt, other, slot);
                }
            }
        }
        let refusal = refusal(&rt, alloc, &forged.kept(&rt));
        assert!(rt; refusal == Some(StoreOpenFault::NotAStore));
    }
}

// ---- rows in all

#[test]
fn a_table_with_too_many_rows_is_refused(rt: HostRuntime) {
    let full = Full::new(&rt, rt.alloc());
    let two = [NULL, ValueRef::Int(1), ValueRef::Int(1)];
    let refusal = full.with_account(&rt, 256, b"c", 1);
    assert!(rt; refusal == Some(StoreOpenFault::TooMany(Table::Accounts)));
    let refusal = full.with(&rt, BRANCHES, 65_536, &branch_cells(1, b"w", b"1"));
    assert!(rt; refusal == Some(StoreOpenFault::TooMany(Table::Branches)));
    let refusal = full.with(&rt, CHANGES, 2, &two);
    assert!(rt; refusal == Some(StoreOpenFault::TooMany(Table::Changes)));
    let refusal = full.with(&rt, STORE, 1, &two);
    assert!(rt; refusal == Some(StoreOpenFault::TooMany(Table::Store)));
}

#[test]
fn a_row_before_the_first_slot_is_refused(rt: HostRuntime) {
    let alloc = rt.alloc();
    let full = Full::new(&rt, rt.alloc());
    for (number, table) in [
        (ACCOUNTS, Table::Accounts),
        (BRANCHES, Table::Branches),
        (CHANGES, Table::Changes),
        (STORE, Table::Store),
    ] {
        for rowid in [0, i64::MIN] {
            let mut forged = full.forged(&rt);
            forged.put(&rt, number, rowid, [NULL; 3]);
            let refusal = refusal(&rt, alloc, &forged.kept(&rt));
            assert!(rt; refusal == Some(StoreOpenFault::TooMany(table)));
        }
    }
}

// An opening for 600 requests wants 300 slots more of the 65,536.
#[test]
fn branches_need_room_for_those_to_come(rt: HostRuntime) {
    let full = Full::new(&rt, rt.alloc());
    let cells = branch_cells(1, b"w", b"1");
    let refusal = full.with(&rt, BRANCHES, 65_236, &cells);
    assert!(rt; refusal == Some(StoreOpenFault::TooMany(Table::Branches)));
    assert!(rt; full.with(&rt, BRANCHES, 65_235, &cells).is_none());
}

// ---- rows that make no manager

fn not_restored(fault: RestoreFault) -> Option<StoreOpenFault> {
    Some(StoreOpenFault::NotRestored(fault))
}

#[test]
fn a_key_or_a_branch_that_stands_twice_is_refused(rt: HostRuntime) {
    let full = Full::new(&rt, rt.alloc());
    let refusal = full.with_account(&rt, 2, b"a", 1);
    assert!(rt; refusal == not_restored(RestoreFault::BadAccounts));
    let refusal = full.with(&rt, BRANCHES, 5, &branch_cells(1, b"x", b"1"));
    assert!(rt; refusal == not_restored(RestoreFault::BranchTwice));
}

#[test]
fn a_change_of_a_branch_that_is_not_prepared_is_refused(rt: HostRuntime) {
    let full = Full::new(&rt, rt.alloc());
    for branch in [2, 3] {
        let refusal = full.with_change(&rt, 1, branch, 5);
        assert!(rt; refusal == not_restored(RestoreFault::NotPrepared));
    }
}

#[test]
fn a_change_that_takes_a_value_out_of_its_limits_is_refused(rt: HostRuntime) {
    let full = Full::new(&rt, rt.alloc());
    for delta in [-56, 1_000_000_000_000 - 54] {
        let refusal = full.with_change(&rt, 1, 1, delta);
        assert!(rt; refusal == not_restored(RestoreFault::OutOfLimits));
    }
    for delta in [-55, 1_000_000_000_000 - 55] {
        assert!(rt; full.with_change(&rt, 1, 1, delta).is_none());
    }
}

// ---- other databases

#[test]
fn a_database_with_other_tables_is_refused(rt: HostRuntime) {
    let alloc = rt.alloc();
    let [accounts, branches, changes, store] = TEXTS;
    let other = (
        "accounts",
        "CREATE TABLE accounts(id INTEGER PRIMARY KEY, name TEXT NOT NULL, value INTEGER NOT NULL)",
    );
    let more = ("more", "CREATE TABLE more(id INTEGER PRIMARY KEY)");
    for texts in [
        [other, branches, changes, store].as_slice(),
        [accounts, branches, changes].as_slice(),
        [accounts, branches, changes, store, more].as_slice(),
        [branches, accounts, changes, store].as_slice(),
        [more].as_slice(),
    ] {
        let refusal = refusal(&rt, alloc, &made_of(&rt, alloc, texts));
        assert!(rt; refusal == Some(StoreOpenFault::OtherTables));
    }
}

// A database with just these tables and no row is a store that was made, and no more.
#[test]
fn a_database_with_these_tables_gets_the_accounts(rt: HostRuntime) {
    let alloc = rt.alloc();
    let mut tapes = tapes_of(&rt, alloc, &made_of(&rt, alloc, &TEXTS), NONE);
    let asked = Asked {
        number: NUMBER,
        accounts: &[(key(&rt, b"c"), 7)],
        calls: ENDLESS,
    };
    match opened(alloc, &mut tapes, asked) {
        Ok(manager) => assert!(rt; manager.value(&key(&rt, b"c")) == Some(7)),
        Err(_) => panic!(rt; "no store"),
    }
}
