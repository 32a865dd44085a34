//! A store in real files, which stay for sqlite3 to read.

use crate::files::{MOST, NUMBER};
use crate::served::{branch, key};
use std::fs;
use std::process::Abort;
use xa_disk::{HostFile, open_files};
use xa_store::Store;
use xa_store_sqlite::{SqliteStore, open};
use xa_tables::{Manager, State};
use xa_words::{Code, Delta, EndHow, Key, Op, Request, StartHow, Xid};

const PATH: &str = "xa_store_sqlite_test.db";

const LOG: &str = "xa_store_sqlite_test.db-wal";

type Opened = (Manager, SqliteStore<HostFile>);

fn opened(rt: &HostRuntime, accounts: &[(Key, u64)]) -> Option<Opened> {
    let files = open_files(rt, PATH, MOST).ok()?;
    open(rt.alloc(), files, NUMBER, accounts, 2, 64).ok()
}

fn ask(rt: &impl Abort, opened: &mut Opened, op: Op) {
    let code = opened.0.apply(1, &op);
    assert!(rt; code == Code::Done);
    let request = Request {
        thread: 1,
        number: 0,
        op,
    };
    opened.1.tell(&request, code);
}

fn prepare(rt: &impl Abort, opened: &mut Opened, xid: Xid, name: &[u8], amount: i64) {
    let delta = Delta::new(amount).expect(rt, "within the limit");
    ask(rt, opened, Op::Start(xid, StartHow::Fresh));
    ask(rt, opened, Op::Add(key(rt, name), delta));
    ask(rt, opened, Op::End(xid, EndHow::Success));
    ask(rt, opened, Op::Prepare(xid));
}

#[test]
fn real_files_keep_a_branch_in_doubt(rt: HostRuntime) {
    let _ = fs::remove_file(&rt, PATH);
    let _ = fs::remove_file(&rt, LOG);
    let (x, y) = (branch(&rt, b"x"), branch(&rt, b"y"));
    let accounts = [(key(&rt, b"alice"), 100), (key(&rt, b"bob"), 50)];
    let mut first = opened(&rt, &accounts).expect(&rt, "a new store");
    ask(&rt, &mut first, Op::OpenRm);
    prepare(&rt, &mut first, x, b"alice", -30);
    prepare(&rt, &mut first, y, b"bob", 7);
    ask(&rt, &mut first, Op::Heur(y, true));
    assert!(rt; first.1.settle(&first.0).is_ok());
    drop(first);
    let again = opened(&rt, &[]).expect(&rt, "a store");
    assert!(rt; again.0.state(&x) == Some(State::Prepared));
    assert!(rt; again.0.value(&key(&rt, b"bob")) == Some(57));
    assert!(rt; !again.1.owes());
}
