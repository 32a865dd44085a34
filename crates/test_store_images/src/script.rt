//! The script: batches of requests, each of which is settled.
use crate::fault::Fault;
use crate::names::Names;
use crate::served::Served;
use xa_words::Op;

/// How many batches there are.
pub(crate) const BATCHES: u32 = 12;

/// Serves the batch with this number, counted from 0, after those before it. Its settle writes one to three branches.
pub(crate) fn serve(served: &mut Served<'_>, names: &Names, batch: u32) -> Result<(), Fault> {
    match batch {
        0 => served.prepare(names.x, names.a, -30),
        1 => prepare_two(served, names),
        2 => decide_all(served, names),
        3 => begin_one(served, names),
        4 => decide_next(served, names),
        5 => forget_next(served, names),
        6 => prepare_wide(served, names),
        7 => commit_wide(served, names),
        8 => decide_last(served, names),
        9 => forget_last(served, names),
        10 => end_both(served, names),
        _ => prepare_three(served, names),
    }
}

fn prepare_two(served: &mut Served<'_>, names: &Names) -> Result<(), Fault> {
    served.prepare(names.y, names.b, 5)?;
    served.prepare(names.z, names.c, 1)
}

fn decide_all(served: &mut Served<'_>, names: &Names) -> Result<(), Fault> {
    served.does(1, Op::Commit(names.x, false))?;
    served.does(1, Op::Heur(names.y, true))?;
    served.does(1, Op::Rollback(names.z))
}

// The branch of the second thread is active as this is settled, so it isn't in the file.
fn begin_one(served: &mut Served<'_>, names: &Names) -> Result<(), Fault> {
    served.does(1, Op::Forget(names.y))?;
    served.prepare(names.z, names.a, 1)?;
    served.start(2, names.w, names.c, 4)
}

// The key of a branch that was decided is free again.
fn decide_next(served: &mut Served<'_>, names: &Names) -> Result<(), Fault> {
    served.does(1, Op::Heur(names.z, false))?;
    served.prepare(names.x, names.a, -70)?;
    served.end(2, names.w)?;
    served.does(2, Op::Commit(names.w, true))
}

fn forget_next(served: &mut Served<'_>, names: &Names) -> Result<(), Fault> {
    served.does(1, Op::Forget(names.z))?;
    served.does(1, Op::Rollback(names.x))?;
    served.commit_at_once(names.u, names.b, 2)
}

// A branch with three changes, two of them to the same account.
fn prepare_wide(served: &mut Served<'_>, names: &Names) -> Result<(), Fault> {
    served.start(1, names.v, names.a, -1)?;
    served.add(1, names.b, -2)?;
    served.add(1, names.c, 3)?;
    served.add(1, names.c, 2)?;
    served.end(1, names.v)?;
    served.does(1, Op::Prepare(names.v))
}

fn commit_wide(served: &mut Served<'_>, names: &Names) -> Result<(), Fault> {
    served.does(1, Op::Commit(names.v, false))?;
    served.prepare(names.y, names.d, 9)
}

fn decide_last(served: &mut Served<'_>, names: &Names) -> Result<(), Fault> {
    served.commit_at_once(names.u, names.a, 1)?;
    served.does(1, Op::Heur(names.y, true))
}

fn forget_last(served: &mut Served<'_>, names: &Names) -> Result<(), Fault> {
    served.does(1, Op::Forget(names.y))?;
    served.prepare(names.x, names.b, -5)?;
    served.prepare(names.z, names.c, 1)
}

fn end_both(served: &mut Served<'_>, names: &Names) -> Result<(), Fault> {
    served.does(1, Op::Commit(names.x, false))?;
    served.does(1, Op::Rollback(names.z))
}

fn prepare_three(served: &mut Served<'_>, names: &Names) -> Result<(), Fault> {
    served.prepare(names.u, names.d, 1)?;
    served.prepare(names.v, names.a, 2)?;
    served.prepare(names.w, names.b, 3)
}
