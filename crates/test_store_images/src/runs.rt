//! Runs of the script over two files of which a call fails.
use crate::fault::Fault;
use crate::files::{Bytes, Failure, Tapes};
use crate::found::Found;
use crate::names::Names;
use crate::script::serve;
use crate::served::Served;
use std::alloc::Global;
use xa_store_sqlite::StoreOpenFault;

/// What is done from an opening of the files on.
#[derive(Clone, Copy)]
pub(crate) struct Session {
    /// The batches from this one on,
    pub(crate) first: u32,
    /// up to the one before this, are served and settled.
    pub(crate) end: u32,
    /// Then the log is copied to the database file.
    pub(crate) copies: bool,
}

/// What a crash may leave.
#[derive(Clone, Copy)]
pub(crate) struct Left {
    /// What the last settle that succeeded has left.
    pub(crate) settled: Found,
    /// What the one under way would leave. It is the same where there is none.
    pub(crate) under_way: Found,
}

impl Left {
    /// This alone.
    pub(crate) fn of(found: Found) -> Left {
        Left {
            settled: found,
            under_way: found,
        }
    }

    /// Whether a crash may leave this.
    pub(crate) fn allows(&self, found: &Found) -> bool {
        self.settled == *found || self.under_way == *found
    }
}

// Serves a session's batches, each of them settled, until a settle fails. Whether none did.
fn settle_batches(
    alloc: Global,
    names: &Names,
    session: &Session,
    served: &mut Served<'_>,
    left: &mut Left,
) -> Result<bool, Fault> {
    for batch in session.first..session.end {
        serve(served, names, batch)?;
        left.under_way = served.found(alloc, names)?;
        if !served.settles()? {
            return Ok(false);
        }
        left.settled = left.under_way;
    }
    Ok(true)
}

// Serves the batches of a store that was opened. Whether no call failed.
fn serve_session(
    alloc: Global,
    names: &Names,
    session: &Session,
    mut served: Served<'_>,
    left: &mut Left,
) -> Result<bool, Fault> {
    let found = served.found(alloc, names)?;
    if !left.allows(&found) {
        return Err(Fault::Other);
    }
    *left = Left::of(found);
    served.begin()?;
    if !settle_batches(alloc, names, session, &mut served, left)? {
        return Ok(false);
    }
    Ok(!session.copies || served.copies())
}

// Opens the files, and serves a session. Whether no call failed.
fn run_session(
    alloc: Global,
    names: &Names,
    session: &Session,
    tapes: &mut Tapes,
    left: &mut Left,
) -> Result<bool, Fault> {
    match Served::open(alloc, tapes, &names.accounts()) {
        Ok(served) => serve_session(alloc, names, session, served, left),
        Err(StoreOpenFault::Failed) => Ok(false),
        Err(fault) => Err(Fault::Unopened(fault)),
    }
}

// Serves sessions, until a call fails. Whether none did.
fn run_sessions(
    alloc: Global,
    names: &Names,
    sessions: &[Session],
    tapes: &mut Tapes,
    left: &mut Left,
) -> Result<bool, Fault> {
    for session in sessions {
        if !run_session(alloc, names, session, tapes, left)? {
            return Ok(false);
        }
    }
    Ok(true)
}

/// Files, with sessions that begin on them.
#[derive(Drop)]
pub(crate) struct Part {
    pub(crate) name: &'static str,
    pub(crate) sessions: &'static [Session],
    /// The bytes of the files before them.
    pub(crate) before: Bytes,
    /// What an opening of these finds, and makes where it finds nothing.
    pub(crate) left: Left,
}

/// What a run leaves.
#[derive(Drop)]
pub(crate) struct Run {
    pub(crate) tapes: Tapes,
    pub(crate) left: Left,
}

impl Part {
    /// Whether there are no files before it.
    pub(crate) fn is_making(&self) -> bool {
        self.before.db.is_empty()
    }

    /// The files before it.
    pub(crate) fn into_bytes(self) -> Bytes {
        let Part {
            name: _,
            sessions: _,
            before,
            left: _,
        } = self;
        before
    }

    /// Serves the sessions, of which a call fails, or none.
    pub(crate) fn run(
        &self,
        alloc: Global,
        names: &Names,
        failure: &Failure,
    ) -> Result<Run, Fault> {
        let mut tapes = Tapes::of(alloc, &self.before, failure)?;
        let mut left = self.left;
        let is_whole = run_sessions(alloc, names, self.sessions, &mut tapes, &mut left)?;
        if is_whole || tapes.have_failed(failure) {
            Ok(Run { tapes, left })
        } else {
            Err(Fault::Unsettled)
        }
    }
}
