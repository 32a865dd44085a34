//! Stores that are opened again.

use crate::files::NONE;
use crate::served::{Served, branch};
use xa_store::Store;
use xa_tables::State;
use xa_words::Op;

#[test]
fn a_prepared_branch_is_found_and_committed(rt: HostRuntime) {
    let alloc = rt.alloc();
    let mut served = Served::new(&rt, alloc);
    assert!(rt; !served.store.owes());
    served.does(&rt, Op::OpenRm);
    served.prepare(&rt, branch(&rt, b"x"), b"a", -30);
    assert!(rt; served.store.owes());
    served.settle(&rt);
    let bytes = served.kept(&rt, alloc);
    let Ok(mut served) = Served::found(&rt, alloc, &bytes, NONE) else {
        panic!(rt; "no store");
    };
    assert!(rt; served.manager.state(&branch(&rt, b"x")) == Some(State::Prepared));
    assert!(rt; served.value(&rt, b"a") == 100);
    served.does(&rt, Op::OpenRm);
    served.does(&rt, Op::Commit(branch(&rt, b"x"), false));
    served.settle(&rt);
    let bytes = served.kept(&rt, alloc);
    let Ok(served) = Served::found(&rt, alloc, &bytes, NONE) else {
        panic!(rt; "no store");
    };
    assert!(rt; served.manager.state(&branch(&rt, b"x")).is_none());
    assert!(rt; served.value(&rt, b"a") == 70);
}
