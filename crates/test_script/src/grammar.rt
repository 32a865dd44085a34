//! How a script is read into settings, keys and steps, and the texts of faults.
mod deaths;
mod reopening;
mod tasks;

use script_grammar::{
    Action, Called, Declared, ManagerCall, Reason, Script, ScriptFault, Step, Task, read_script,
};
use std::test::Fail;
use xa_words::{Call, Delta, Key, Tran, Xid};

// A step with names of its own.
type OwnStep = Step<Xid, Tran>;

fn call(line: u32, thread: u32, manager: u32, call: ManagerCall<Xid>, flags: u32) -> OwnStep {
    Step::Task(Task {
        line,
        thread,
        action: Action::Call(Called {
            manager,
            call,
            flags,
        }),
    })
}

// Whether these are the steps of the script, in their order.
fn has_steps(script: &Script, want: &[OwnStep]) -> bool {
    if script.len() != want.len() {
        return false;
    }
    for place in 0..want.len() {
        let step = script.step(place);
        if step.map(|name| name.xid(), |gtrid| gtrid.tran(), |key| *key) != want[place] {
            return false;
        }
    }
    true
}

#[test]
fn faults_have_their_numbers_and_texts(rt: HostRuntime) -> Result<(), Fail> {
    let rows = [
        (Reason::LineTooLong, "line too long"),
        (Reason::BadByte, "bad byte"),
        (Reason::TooManyLines, "too many lines"),
        (Reason::UnknownWord, "unknown word"),
        (Reason::MissingWord, "missing word"),
        (Reason::ExtraWord, "extra word"),
        (Reason::BadNumber, "bad number"),
        (Reason::OutOfRange, "out of range"),
        (Reason::BadKey, "bad key"),
        (Reason::BadXid, "bad xid"),
        (Reason::SettingAfterAction, "setting after action"),
        (Reason::SettingTwice, "setting twice"),
        (Reason::KeyTwice, "key twice"),
        (Reason::TooManyKeys, "too many keys"),
        (Reason::BadBranches, "bad branches"),
        (Reason::TurnInThreadsMode, "turn in threads mode"),
        (Reason::ReopenInThreadsMode, "reopen in threads mode"),
    ];
    for (i, (why, text)) in rows.iter().enumerate() {
        let line = ScriptFault::Line { line: 7, why: *why };
        let found = format!(in rt.alloc(); "{} {line}", *why as u8)?;
        let want = format!(in rt.alloc(); "{} line 7: {text}", i + 1)?;
        assert_eq!(rt; found.as_str(), want.as_str());
    }
    let others = format!(in rt.alloc(); "{}, {}", ScriptFault::Read, ScriptFault::NoMemory)?;
    assert_eq!(rt; others.as_str(), "input failed, out of memory");
    Ok(())
}

#[test]
fn a_script_is_read_into_settings_keys_and_steps(rt: HostRuntime) -> Result<(), Fail> {
    let mut text = b"threads 3\nmanagers 2\nrequests 9\nkey 2 a 100\n1 open 1\n1 start 1 g.1\n\
        2 add 1 a -30\n1 end 1 g.1 suspend fail\n1 prepare 1 g.1\n3 commit 1 g.1 onephase\n\n\
        1 rollback 4 g.1 join\n1 close 2\n2 shut 1 async"
        .as_slice();
    let script = read_script(rt.alloc(), &mut text, true)?;
    assert_eq!(rt; script.threads(), 3);
    assert_eq!(rt; script.managers(), 2);
    assert_eq!(rt; script.requests(), 9);
    let key = Key::new(b"a").ok_or("key")?;
    let xid = Xid::new(1, b"g", b"1").ok().ok_or("xid")?;
    let delta = Delta::new(-30).ok_or("delta")?;
    assert_eq!(rt;
        script.keys(),
        [Declared {
            manager: 2,
            key,
            value: 100
        }]
        .as_slice()
    );
    let want = [
        call(5, 1, 1, ManagerCall::Xa(Call::OpenRm, None), 0),
        call(6, 1, 1, ManagerCall::Xa(Call::Start, Some(xid)), 0),
        call(7, 2, 1, ManagerCall::Add(key, delta), 0),
        call(8, 1, 1, ManagerCall::Xa(Call::End, Some(xid)), 0x2200_0000),
        call(9, 1, 1, ManagerCall::Xa(Call::Prepare, Some(xid)), 0),
        call(
            10,
            3,
            1,
            ManagerCall::Xa(Call::Commit, Some(xid)),
            0x4000_0000,
        ),
        call(
            12,
            1,
            4,
            ManagerCall::Xa(Call::Rollback, Some(xid)),
            0x0020_0000,
        ),
        call(13, 1, 2, ManagerCall::Xa(Call::CloseRm, None), 0),
        call(14, 2, 1, ManagerCall::Shut, 0x8000_0000),
    ];
    assert!(rt; has_steps(&script, &want));
    Ok(())
}

#[test]
fn settings_have_defaults(rt: HostRuntime) -> Result<(), Fail> {
    let script = read_script(rt.alloc(), &mut b"".as_slice(), false)?;
    assert_eq!(rt; script.threads(), 1);
    assert_eq!(rt; script.managers(), 1);
    assert_eq!(rt; script.requests(), 256);
    Ok(())
}
