//! Lines that reopen, that recover and that resolve, and the faults in them.
use super::{call, has_steps};
use script_grammar::{Action, ManagerCall, Reason, ScriptFault, Step, Task, read_script};
use std::test::Fail;
use xa_words::{Call, TMASYNC, TMENDRSCAN, TMSTARTRSCAN};

#[test]
fn lines_that_reopen_recover_and_resolve_are_read(rt: HostRuntime) -> Result<(), Fail> {
    let mut text = b"threads 2\nmanagers 2\n1 recover 2 64 startrscan endrscan\nreopen\n\
        2 recover 9 000000000000000007\n\t reopen \n1 open 1 startrscan\n\
        1 recover 4294967295 0 endrscan async endrscan\n2\tresolve "
        .as_slice();
    let script = read_script(rt.alloc(), &mut text, false)?;
    let want = [
        call(3, 1, 2, ManagerCall::Recover(64), TMSTARTRSCAN | TMENDRSCAN),
        Step::Reopen { line: 4 },
        call(5, 2, 9, ManagerCall::Recover(7), 0),
        Step::Reopen { line: 6 },
        call(7, 1, 1, ManagerCall::Xa(Call::OpenRm, None), 0x0100_0000),
        call(
            8,
            1,
            u32::MAX,
            ManagerCall::Recover(0),
            TMASYNC | 0x0080_0000,
        ),
        Step::Task(Task {
            line: 9,
            thread: 2,
            action: Action::Resolve,
        }),
    ];
    assert!(rt; has_steps(&script, &want));
    Ok(())
}

#[test]
fn threads_that_run_side_by_side_may_recover(rt: HostRuntime) -> Result<(), Fail> {
    let mut text = b"1 recover 1 1".as_slice();
    let script = read_script(rt.alloc(), &mut text, true)?;
    let want = [call(1, 1, 1, ManagerCall::Recover(1), 0)];
    assert!(rt; has_steps(&script, &want));
    Ok(())
}

#[test]
fn the_first_fault_is_told(rt: HostRuntime) {
    let rows = [
        (b"reopen".as_slice(), true, 1, Reason::ReopenInThreadsMode),
        (b"reopen 1", true, 1, Reason::ReopenInThreadsMode),
        (b"reopen 1", false, 1, Reason::ExtraWord),
        (b"reopens", false, 1, Reason::UnknownWord),
        (b"1 reopen", false, 1, Reason::UnknownWord),
        (b"reopen\nthreads 2", false, 2, Reason::SettingAfterAction),
        (b"reopen\nkey 1 a 1", false, 2, Reason::SettingAfterAction),
        (b"recover 1 4", false, 1, Reason::UnknownWord),
        (b"1 recover", false, 1, Reason::MissingWord),
        (b"1 recover 1", false, 1, Reason::MissingWord),
        (b"1 recover 1 x", false, 1, Reason::BadNumber),
        (b"1 recover 1 endrscan 4", false, 1, Reason::BadNumber),
        (b"1 recover x 65", false, 1, Reason::BadNumber),
        (b"1 recover 4294967296 x", false, 1, Reason::OutOfRange),
        (b"1 recover 1 65", false, 1, Reason::OutOfRange),
        (b"1 recover 1 65 foo", false, 1, Reason::OutOfRange),
        (b"1 recover 1 4 foo", false, 1, Reason::UnknownWord),
        (b"1 recover 1 4 4", false, 1, Reason::UnknownWord),
        (b"resolve", false, 1, Reason::UnknownWord),
        (b"0 resolve", false, 1, Reason::OutOfRange),
        (b"1 resolve 1", true, 1, Reason::ExtraWord),
        (b"1 resolve async", false, 1, Reason::ExtraWord),
    ];
    for (i, (text, threads_mode, line, why)) in rows.into_iter().enumerate() {
        let mut text = text;
        let found = read_script(rt.alloc(), &mut text, threads_mode).err();
        let want = Some(ScriptFault::Line { line, why });
        assert_eq!(rt; found, want, "at {i}");
    }
}
