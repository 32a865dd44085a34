//! Rows of the file: the values after the rowid. The first is that of the column `id`, which SQLite stores as NULL,
//! since the rowid stands for it.
ghost use Rattle.std.specs.Prelude.{◌≡◌, ◌≤◌, ◌<◌, ℤ, map, IfOk, IfSome, IfNone, IsErrOf, OnErr};
ghost use Rattle.sqlite_value.specs.Value.{owned};
ghost use Rattle.xa_base.specs.declared.limits.TheConstants.{MOST_VALUE};
ghost use Rattle.xa_store_sqlite.specs.declared.fault.RowFault.TheVariants.{Gap};
ghost use Rattle.xa_store_sqlite.specs.declared.mirror.TheConstants.{MOST_BRANCHES};
ghost use Rattle.xa_store_sqlite.specs.declared.mirror.Left.{Left};
ghost use Rattle.xa_store_sqlite.specs.Images.{account_cells, branch_cells, change_cells, state_text, store_cells};
ghost use Rattle.xa_store_sqlite.specs.Images.{IsAccount, IsBranchRow, IsChangeRow, store_row};

use crate::fault::RowFault;
use crate::mirror::{Branch, Change, Left, MOST_BRANCHES};
use sqlite_value::row::Row;
use sqlite_value::value::ValueRef;
use xa_base::MOST_VALUE;
use xa_tables::HeuristicDecision;
use xa_words::{Delta, Key, Xid};

/// The version of this layout.
pub(crate) const VERSION: i64 = 1;

// ---- states

/// The text of a state.
pub(crate) fn text_of(state: Left) -> &'static [u8]
    ensures { result.now ≡ state_text state }
{
    match state {
        Left::Prepared => b"prepared",
        Left::Completed(HeuristicDecision::Commit) => b"committed heuristically",
        Left::Completed(HeuristicDecision::Rollback) => b"rolled back heuristically",
    }
}

/// The state with this text.
pub(crate) fn state_named(text: &[u8]) -> Option<Left>
    ensures state { IfSome result (λ s. text.now ≡ state_text s) }
    ensures none { IfNone result ((s : Left) → text.now ≡ state_text s → ⊥) }
{
    if text == b"prepared".as_slice() {
        Some(Left::Prepared)
    } else if text == b"committed heuristically".as_slice() {
        Some(Left::Completed(HeuristicDecision::Commit))
    } else if text == b"rolled back heuristically".as_slice() {
        Some(Left::Completed(HeuristicDecision::Rollback))
    } else {
        None
    }
}

// ---- spelling

/// The row of an account.
pub(crate) fn account_cells(key: &Key, value: u64) -> [ValueRef<'_>; 3]
    requires { value ≤ MOST_VALUE }
    ensures { map owned result ≡ account_cells (key.now, value) }
{
    [
        ValueRef::Null,
        ValueRef::Text(key.as_bytes()),
        ValueRef::Int(value as i64),
    ]
}

/// The row of a branch.
pub(crate) fn branch_cells(branch: &Branch) -> [ValueRef<'_>; 5]
    ensures { map owned result ≡ branch_cells branch.now }
{
    let (xid, state) = branch;
    [
        ValueRef::Null,
        ValueRef::Int(i64::from(xid.format())),
        ValueRef::Blob(xid.gtrid()),
        ValueRef::Blob(xid.bqual()),
        ValueRef::Text(text_of(*state)),
    ]
}

/// The row of a change: the branch by its id.
pub(crate) fn change_cells(change: &Change) -> [ValueRef<'static>; 3]
    ensures { map owned result ≡ change_cells change.now }
{
    [
        ValueRef::Null,
        ValueRef::Int(i64::from(change.branch) + 1),
        ValueRef::Int(change.delta.amount()),
    ]
}

/// The row that says what the file is.
pub(crate) fn store_cells(number: i64) -> [ValueRef<'static>; 3]
    ensures { map owned result ≡ store_cells number }
{
    [
        ValueRef::Null,
        ValueRef::Int(VERSION),
        ValueRef::Int(number),
    ]
}

// ---- parsing

/// The account of a row.
#[tactic(auto, using(crate::proofs::Columns::three))]
pub(crate) fn account_in(row: &Row) -> Result<(Key, u64), RowFault>
    ensures account { IfOk result (λ a. row.now ≡ account_cells a) }
    ensures small { IfOk result (λ a. a.1 ≤ MOST_VALUE) }
    ensures refused { OnErr result (IsAccount row.now → ⊥) }
    ensures alone { IsErrOf result Gap → ⊥ }
{
    let cells = (row.get(0), row.get(1), row.get(2));
    let (ValueRef::Null, ValueRef::Text(name), ValueRef::Int(value)) = cells else {
        return Err(RowFault::Form);
    };
    if row.len() != 3 {
        return Err(RowFault::Form);
    }
    let Some(key) = Key::new(name) else {
        return Err(RowFault::Name);
    };
    match u64::try_from(value) {
        Ok(value) if value <= MOST_VALUE => Ok((key, value)),
        _ => Err(RowFault::Limit),
    }
}

/// The branch of a row.
#[tactic(auto, using(crate::proofs::Columns::five, crate::proofs::Columns::named))]
pub(crate) fn branch_in(row: &Row) -> Result<Branch, RowFault>
    ensures branch { IfOk result (λ b. row.now ≡ branch_cells b) }
    ensures refused { OnErr result (IsBranchRow row.now → ⊥) }
{
    let (ValueRef::Null, ValueRef::Int(format)) = (row.get(0), row.get(1)) else {
        return Err(RowFault::Form);
    };
    let (ValueRef::Blob(gtrid), ValueRef::Blob(bqual), ValueRef::Text(text)) = (
        row.get(2),
        row.get(3),
        row.get(4),
    ) else {
        return Err(RowFault::Form);
    };
    if row.len() != 5 {
        return Err(RowFault::Form);
    }
    let Ok(format) = i32::try_from(format) else {
        return Err(RowFault::Name);
    };
    let Ok(xid) = Xid::new(format, gtrid, bqual) else {
        return Err(RowFault::Name);
    };
    let Some(state) = state_named(text) else {
        return Err(RowFault::State);
    };
    Ok((xid, state))
}

/// The change of a row.
pub(crate) fn change_in(row: &Row) -> Result<Change, RowFault>
    ensures change { IfOk result (λ c. row.now ≡ change_cells c) }
    ensures slot { IfOk result (λ c. c.branch < MOST_BRANCHES) }
    ensures refused { OnErr result (IsChangeRow row.now → ⊥) }
{
    let cells = (row.get(0), row.get(1), row.get(2));
    let (ValueRef::Null, ValueRef::Int(id), ValueRef::Int(amount)) = cells else {
        return Err(RowFault::Form);
    };
    if row.len() != 3 {
        return Err(RowFault::Form);
    }
    if id < 1 || id > i64::from(MOST_BRANCHES) {
        return Err(RowFault::Unknown);
    }
    let Some(delta) = Delta::new(amount) else {
        return Err(RowFault::Limit);
    };
    Ok(Change {
        branch: (id - 1) as u32,
        delta,
    })
}

/// The version and the number of the row that says what the file is.
pub(crate) fn store_in(row: &Row) -> Result<(i64, i64), RowFault>
    ensures row { IfOk result (λ r. row.now ≡ store_row r.0 r.1) }
    ensures refused { OnErr result ((version number : ℤ) → row.now ≡ store_row version number → ⊥) }
{
    let cells = (row.get(0), row.get(1), row.get(2));
    let (ValueRef::Null, ValueRef::Int(version), ValueRef::Int(number)) = cells else {
        return Err(RowFault::Form);
    };
    if row.len() != 3 {
        return Err(RowFault::Form);
    }
    Ok((version, number))
}
