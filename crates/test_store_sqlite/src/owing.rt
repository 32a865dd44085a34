//! What makes a store owe.

use crate::files::NONE;
use crate::served::{Served, add, branch};
use xa_store::Store;
use xa_words::{Code, EndHow, Op, StartHow};

#[test]
fn what_changes_nothing_durable_owes_nothing(rt: HostRuntime) {
    let alloc = rt.alloc();
    let mut served = Served::new(&rt, alloc);
    let (x, y) = (branch(&rt, b"x"), branch(&rt, b"y"));
    served.does(&rt, Op::OpenRm);
    served.does(&rt, Op::Start(x, StartHow::Fresh));
    served.does(&rt, add(&rt, b"a", 5));
    served.does(&rt, Op::End(x, EndHow::Success));
    served.does(&rt, Op::Rollback(x));
    // A branch that changed nothing votes read-only, and one that isn't known is refused.
    served.does(&rt, Op::Start(y, StartHow::Fresh));
    served.does(&rt, Op::End(y, EndHow::Success));
    assert!(rt; served.ask(1, Op::Prepare(y)) == Code::RdOnly);
    assert!(rt; served.ask(1, Op::Commit(y, false)) == Code::Nota);
    assert!(rt; !served.store.owes());
    let bytes = served.close();
    assert!(rt; bytes.log.calls() > 0);
}

// A settle of nothing makes no call of the files, and a commit in one phase writes values alone.
#[test]
fn a_settle_of_nothing_writes_nothing(rt: HostRuntime) {
    let alloc = rt.alloc();
    let bytes = Served::new(&rt, alloc).kept(&rt, alloc);
    let Ok(mut served) = Served::found(&rt, alloc, &bytes, NONE) else {
        panic!(rt; "no store");
    };
    served.settle(&rt);
    served.settle(&rt);
    let tapes = served.close();
    let Ok(quiet) = Served::found(&rt, alloc, &bytes, NONE) else {
        panic!(rt; "no store");
    };
    let none = quiet.close();
    assert!(rt; tapes.log.calls() == none.log.calls());
    assert!(rt; tapes.db.calls() == none.db.calls());
}

#[test]
fn a_commit_in_one_phase_owes_its_values(rt: HostRuntime) {
    let alloc = rt.alloc();
    let mut served = Served::new(&rt, alloc);
    let x = branch(&rt, b"x");
    served.does(&rt, Op::OpenRm);
    served.does(&rt, Op::Start(x, StartHow::Fresh));
    served.does(&rt, add(&rt, b"b", -50));
    served.does(&rt, Op::End(x, EndHow::Success));
    served.does(&rt, Op::Commit(x, true));
    assert!(rt; served.store.owes());
    served.settle(&rt);
    let bytes = served.kept(&rt, alloc);
    let Ok(served) = Served::found(&rt, alloc, &bytes, NONE) else {
        panic!(rt; "no store");
    };
    assert!(rt; served.value(&rt, b"b") == 0);
    assert!(rt; served.value(&rt, b"a") == 100);
}
