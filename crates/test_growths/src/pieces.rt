//! What an opening is made of, each part by itself and all of it.
use crate::thing::Came;
use std::alloc::{AllocError, Global};
use std::sync::Wait;
use xa_desk::DeskParts;
use xa_lane::{LaneFault, LaneName, open_lane};
use xa_switch::{OpenFault, Plan, open_switch};
use xa_tables::{Manager, TableFault};
use xa_words::Key;
use xa_worker::WorkerParts;

pub(crate) fn new_manager(alloc: Global) -> Came {
    let Some(key) = Key::new(b"a") else {
        return Came::Wrong;
    };
    match Manager::new(alloc, &[(key, 5)], 8, 64) {
        Ok(_) => Came::Made,
        Err(TableFault::NoMemory) => Came::Refused,
        Err(TableFault::BadAccounts) => Came::Wrong,
    }
}

pub(crate) fn lane<R: Wait>(rt: &R, alloc: Global) -> Came {
    let name = LaneName {
        opening: 1,
        kind: 0,
        index: 1,
    };
    match open_lane::<u64, _>(rt, alloc, name, 8, 64) {
        Ok(_) => Came::Made,
        Err(LaneFault::NoMemory) => Came::Refused,
        Err(LaneFault::BadCount) => Came::Wrong,
    }
}

pub(crate) fn desk_memory(alloc: Global) -> Came {
    match DeskParts::reserve(alloc, 8, 32, 64, [true; 8].as_slice()) {
        Ok(_) => Came::Made,
        Err(AllocError) => Came::Refused,
    }
}

pub(crate) fn worker_memory(alloc: Global) -> Came {
    match WorkerParts::reserve(alloc, 8, 64) {
        Ok(_) => Came::Made,
        Err(AllocError) => Came::Refused,
    }
}

pub(crate) fn switch<R: Wait>(rt: &R, alloc: Global, plan: &Plan) -> Came {
    match open_switch(rt, alloc, plan) {
        Ok(_) => Came::Made,
        Err(OpenFault::NoMemory) => Came::Refused,
        Err(OpenFault::BadPlan) => Came::Wrong,
    }
}
