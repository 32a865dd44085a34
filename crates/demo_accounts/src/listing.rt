//! What a log has at the start: what was decided when the last run ended, however that was.
ghost use Rattle.std.specs.Prelude.{◌≢◌, OnOk};
ghost use Rattle.xa_log_file.specs.declared.condition.Condition.TheVariants.{Lost};

use crate::fault::Fault;
use crate::lines::{name_of, write_lines};
use std::alloc::{AllocError, Global};
use std::io::Write;
use xa_log::{CommitRecord, DecisionRecords};
use xa_log_file::{Device, FileLog};
use xa_words::{ManagerSet, Tran};

// The stores that voted yes: `1, 3`.
fn add_stores(alloc: Global, lines: &mut String, yes: &ManagerSet) -> Result<(), AllocError> {
    let mut before = " ";
    for store in yes.iter() {
        let text = format!(in alloc; "{before}{store}")?;
        lines.push_str(&text)?;
        before = ", ";
    }
    Ok(())
}

// The line of a record.
fn add_record(
    alloc: Global,
    lines: &mut String,
    tran: &Tran,
    yes: &ManagerSet,
) -> Result<(), AllocError> {
    let name = name_of(alloc, tran)?;
    lines.push_str("  ")?;
    lines.push_str(&name)?;
    lines.push_str(" in doubt when the last run ended: commit at stores")?;
    add_stores(alloc, lines, yes)?;
    lines.push_str("\n")
}

/// Tells what a teller's log has.
pub fn tell_records<W: Write, D: Device>(
    alloc: Global,
    out: &mut W,
    teller: u32,
    log: &FileLog<D>,
) -> Result<(), Fault>
    ensures { OnOk result (log.now.condition ≢ Lost) }
{
    if !log.is_known() {
        return Err(Fault::Undecided(teller));
    }
    let mut records = String::new(alloc);
    let mut count: u32 = 0;
    for place in 0..log.slots() {
        if let Some(CommitRecord { tran, yes }) = log.record_at(place) {
            add_record(alloc, &mut records, &tran, &yes)?;
            count = count.saturating_add(1);
        }
    }
    let mut lines = format!(in alloc; "teller {teller}: {count} records\n")?;
    lines.push_str(&records)?;
    if count > 0 {
        lines.push_str(
            "  the stores were in memory: nothing is left to tell them, and all are forgotten\n",
        )?;
    }
    write_lines(out, &lines)
}
