//! Coordinators that die, and logs one of whose appends has an unknown end.
use super::has_steps;
use super::tasks::{commit, commit_until};
use script_grammar::{Reason, ScriptFault, UnknownAppend, read_script};
use std::test::Fail;
use xa_words::Death;

#[test]
fn a_coordinator_dies_where_its_line_says(rt: HostRuntime) -> Result<(), Fail> {
    let mut text = b"managers 2\n1 commitall dies 1 2\n1 commitall t 1 2 dies prepared\n\
        1 commitall t 1 dies prepared 0\n1 commitall t 2 dies decided\n1 commitall t 1 2 dies told\n\
        1 commitall t 1\tdies told 007\n"
        .as_slice();
    let script = read_script(rt.alloc(), &mut text, false)?;
    let want = [
        commit(2, 1, b"dies", &[1, 2])?,
        commit_until(3, 1, b"t", &[1, 2], Some(Death::Prepared))?,
        commit_until(4, 1, b"t", &[1], Some(Death::Preparing(0)))?,
        commit_until(5, 1, b"t", &[2], Some(Death::Decided))?,
        commit_until(6, 1, b"t", &[1, 2], Some(Death::Told))?,
        commit_until(7, 1, b"t", &[1], Some(Death::Telling(7)))?,
    ];
    assert!(rt; has_steps(&script, &want));
    Ok(())
}

#[test]
fn the_last_logunknown_of_a_thread_counts(rt: HostRuntime) -> Result<(), Fail> {
    let mut text = b"logunknown 1 5 kept\nthreads 3\nlogunknown 3 1000000 kept\nlogfail 2 9\n\
        logunknown 1 6 lost\n1 open 1\n"
        .as_slice();
    let script = read_script(rt.alloc(), &mut text, false)?;
    let unknown = |append, kept| Some(UnknownAppend { append, kept });
    let rows = [
        (0, None),
        (1, unknown(6, false)),
        (2, None),
        (3, unknown(1_000_000, true)),
        (4, None),
        (8, None),
        (9, None),
        (u32::MAX, None),
    ];
    for (thread, append) in rows {
        assert_eq!(rt; script.unknown_append(thread), append, "at {thread}");
    }
    Ok(())
}

#[test]
fn the_words_after_dies_are_judged_from_left_to_right(rt: HostRuntime) -> Result<(), Fail> {
    let rows = [
        (b"1 commitall t dies told".as_slice(), Reason::BadNumber),
        (b"1 commitall t 1 x dies".as_slice(), Reason::BadNumber),
        (b"1 commitall t 2 dies".as_slice(), Reason::MissingWord),
        (
            b"1 commitall t 2 dies fly 8 8".as_slice(),
            Reason::UnknownWord,
        ),
        (
            b"1 commitall t 2 dies told x 8".as_slice(),
            Reason::BadNumber,
        ),
        (
            b"1 commitall t 2 dies told 8 8".as_slice(),
            Reason::OutOfRange,
        ),
        (
            b"1 commitall t 2 dies prepared 7 8".as_slice(),
            Reason::ExtraWord,
        ),
        (
            b"1 commitall t 2 dies decided 1".as_slice(),
            Reason::ExtraWord,
        ),
        (
            b"1 commitall t 2 dies told 7".as_slice(),
            Reason::BadBranches,
        ),
    ];
    for (text, why) in rows {
        let mut line = text;
        let read = read_script(rt.alloc(), &mut line, false);
        let fault = read.err().ok_or("no fault")?;
        assert_eq!(rt; fault, ScriptFault::Line { line: 1, why });
    }
    Ok(())
}

#[test]
fn the_words_after_logunknown_are_judged_from_left_to_right(rt: HostRuntime) -> Result<(), Fail> {
    let rows = [
        (b"logunknown".as_slice(), Reason::MissingWord),
        (b"logunknown 2 x".as_slice(), Reason::OutOfRange),
        (b"logunknown 1 x fly".as_slice(), Reason::BadNumber),
        (b"logunknown 1 0 fly".as_slice(), Reason::OutOfRange),
        (b"logunknown 1 1000000".as_slice(), Reason::MissingWord),
        (b"logunknown 1 1 fly 1".as_slice(), Reason::UnknownWord),
        (b"logunknown 1 1 lost 1".as_slice(), Reason::ExtraWord),
    ];
    for (text, why) in rows {
        let mut line = text;
        let read = read_script(rt.alloc(), &mut line, false);
        let fault = read.err().ok_or("no fault")?;
        assert_eq!(rt; fault, ScriptFault::Line { line: 1, why });
    }
    let mut late = b"1 open 1\nlogunknown fly".as_slice();
    let fault = read_script(rt.alloc(), &mut late, false)
        .err()
        .ok_or("no fault")?;
    let why = Reason::SettingAfterAction;
    assert_eq!(rt; fault, ScriptFault::Line { line: 2, why });
    Ok(())
}
