//! A thread of a script: its desk with its decision log.
ghost use Rattle.std.specs.Prelude.{◌≡◌, IfOk};
ghost use Rattle.xa_log.specs.Trial.{trial_reopened};
ghost use Rattle.script_session.specs.Sessions.{log_of, new_session, new_sessions, sessions_again};

use script_grammar::Script;
use std::alloc::{AllocError, Global};
use xa_desk::Desk;
use xa_log::{MemoryLog, ReopenLog, TrialLog};
use xa_scan::Scan;

/// A thread of control with its decision log, and its scans of what a reopening found left.
#[derive(Drop)]
pub struct Session {
    pub desk: Desk,
    pub log: TrialLog<MemoryLog>,
    pub scan: Scan,
}

/// The log of a thread that has committed nothing. Of its appends, counted from 1, those that the script names fail or
/// have an unknown end.
pub fn log_of(alloc: Global, script: &Script, thread: u32) -> TrialLog<MemoryLog>
    ensures { result ≡ log_of script.now thread }
{
    let log = TrialLog::new(MemoryLog::new(alloc));
    let log = match script.failing_append(thread) {
        Some(k) => log.failing_at(k),
        None => log,
    };
    match script.unknown_append(thread) {
        Some(end) => log.losing_at(end.append, end.kept),
        None => log,
    }
}

/// The threads of these desks at the first opening, with logs as the script says.
pub fn sessions_of(
    alloc: Global,
    script: &Script,
    desks: Vec<Desk>,
) -> Result<Vec<Session>, AllocError>
    ensures { IfOk result (λ v. v.items ≡ new_sessions script.now desks.items) }
{
    let mut sessions = Vec::with_capacity(alloc, desks.len())?;
    for desk in desks {
        let log = log_of(alloc, script, desk.thread());
        let scan = Scan::none();
        sessions.push(Session { desk, log, scan })?;
    }
    Ok(sessions)
}

// The log, opened again. The log in memory below it stays as it is.
fn reopened(log: TrialLog<MemoryLog>) -> TrialLog<MemoryLog>
    ensures { result ≡ trial_reopened log }
{
    log.reopen()
}

/// The threads of these desks at a later opening, each with the log that it had, opened again, and with the
/// scans that it got.
pub fn sessions_again(
    alloc: Global,
    desks: Vec<Desk>,
    logs: Vec<TrialLog<MemoryLog>>,
    scans: Vec<Scan>,
) -> Result<Vec<Session>, AllocError>
    ensures { IfOk result (λ v. v.items ≡ sessions_again desks.items logs.items scans.items) }
{
    desks
        .into_iter()
        .zip(logs)
        .zip(scans)
        .map(|((desk, log), scan)| Session {
            desk,
            log: reopened(log),
            scan,
        })
        .collect(alloc)
}
