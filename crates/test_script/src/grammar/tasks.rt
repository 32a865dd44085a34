//! Commits of several branches, and logs that fail.
use super::{OwnStep, call, has_steps};
use script_grammar::{Action, CommitAll, ManagerCall, Step, Task, read_script};
use std::test::Fail;
use xa_words::{Call, Death, ManagerSet, TMASYNC, Tran};

pub(super) fn commit(
    line: u32,
    thread: u32,
    gtrid: &[u8],
    managers: &[u32],
) -> Result<OwnStep, Fail> {
    commit_until(line, thread, gtrid, managers, None)
}

pub(super) fn commit_until(
    line: u32,
    thread: u32,
    gtrid: &[u8],
    managers: &[u32],
    death: Option<Death>,
) -> Result<OwnStep, Fail> {
    let tran = Tran::new(1, gtrid).ok().ok_or("tran")?;
    let mut all = ManagerSet::new();
    for manager in 1..=8 {
        if managers.contains(&manager) {
            all.add(manager);
        }
    }
    Ok(Step::Task(Task {
        line,
        thread,
        action: Action::CommitAll(CommitAll {
            tran,
            managers: all,
            death,
        }),
    }))
}

#[test]
fn tasks_are_read_in_the_order_of_the_lines(rt: HostRuntime) -> Result<(), Fail> {
    let mut text = b"threads 3\nmanagers 8\n2 commitall t 1 3 8\n1 open 9 async\nturn 5\n\
        3\tcommitall 0z 000000000000000002\n1 commitall t 1 2 3 4 5 6 7 8"
        .as_slice();
    let script = read_script(rt.alloc(), &mut text, false)?;
    let want = [
        commit(3, 2, b"t", &[1, 3, 8])?,
        call(4, 1, 9, ManagerCall::Xa(Call::OpenRm, None), TMASYNC),
        Step::Turn {
            line: 5,
            manager: 5,
        },
        commit(6, 3, b"0z", &[2])?,
        commit(7, 1, b"t", &[1, 2, 3, 4, 5, 6, 7, 8])?,
    ];
    assert!(rt; has_steps(&script, &want));
    Ok(())
}

#[test]
fn the_last_logfail_of_a_thread_counts(rt: HostRuntime) -> Result<(), Fail> {
    let mut text = b"logfail 1 5\nthreads 3\nlogfail 3 1000000\nlogfail 2 7\nlogfail 1 6\n\
        logfail 2 1\n1 open 1\n"
        .as_slice();
    let script = read_script(rt.alloc(), &mut text, false)?;
    let rows = [
        (0, None),
        (1, Some(6)),
        (2, Some(1)),
        (3, Some(1_000_000)),
        (4, None),
        (8, None),
        (9, None),
        (u32::MAX, None),
    ];
    for (thread, append) in rows {
        assert_eq!(rt; script.failing_append(thread), append, "at {thread}");
    }
    Ok(())
}
