//! What takes memory, and what came of it.
use crate::commits::{Committer, append};
use crate::openings::plan_of;
use crate::pieces::{desk_memory, lane, new_manager, switch, worker_memory};
use crate::reopening::{Resolver, open_again, settled};
use std::alloc::Global;
use std::io::{self, Write};
use std::sync::Wait;
use xa_log::MemoryLog;
use xa_switch::{Plan, Settled};

/// What came of a thing.
#[derive(Clone, Copy, Debug, PartialEq, Eq)]
pub(crate) enum Came {
    Made,
    /// Memory was refused, and nothing was made.
    Refused,
    /// A record was refused memory, so the transaction was rolled back.
    Aborted,
    /// Pieces of two openings aren't settled.
    Stranger,
    /// An opening isn't settled that misses a piece.
    Missing,
    Wrong,
}

impl Came {
    fn line(self) -> &'static [u8] {
        match self {
            Came::Made => b"made\n",
            Came::Refused => b"refused\n",
            Came::Aborted => b"aborted\n",
            Came::Stranger => b"stranger\n",
            Came::Missing => b"missing\n",
            Came::Wrong => b"wrong\n",
        }
    }
}

/// Something that takes memory, and that may be done again where memory was refused.
#[derive(Drop)]
pub(crate) enum Thing {
    Manager,
    Lane,
    DeskMemory,
    WorkerMemory,
    Switch(Plan),
    Reopen(Option<Settled>),
    Resolve(Resolver),
    Append(MemoryLog),
    Commit(Committer),
}

impl Thing {
    /// The thing of this name, with all that it begins with.
    pub(crate) fn named<R: Wait>(rt: &R, alloc: Global, name: &str) -> Option<Thing> {
        let thing = match name {
            "manager" => Thing::Manager,
            "lane" => Thing::Lane,
            "desk" => Thing::DeskMemory,
            "worker" => Thing::WorkerMemory,
            "switch" => Thing::Switch(plan_of(alloc, 1, 2)?),
            "reopen" => Thing::Reopen(Some(settled(rt, alloc)?)),
            "resolve" => Thing::Resolve(Resolver::new(rt, alloc)?),
            "append" => Thing::Append(MemoryLog::new(alloc)),
            "commit" => Thing::Commit(Committer::new(rt, alloc)?),
            _ => return None,
        };
        Some(thing)
    }

    // Does it, and tells what came of it.
    fn attempt<R: Wait>(&mut self, rt: &R, alloc: Global) -> Came {
        match self {
            Thing::Manager => new_manager(alloc),
            Thing::Lane => lane(rt, alloc),
            Thing::DeskMemory => desk_memory(alloc),
            Thing::WorkerMemory => worker_memory(alloc),
            Thing::Switch(plan) => switch(rt, alloc, plan),
            Thing::Reopen(kept) => open_again(rt, alloc, kept),
            Thing::Resolve(resolver) => resolver.resolve(rt, alloc),
            Thing::Append(log) => append(log),
            Thing::Commit(committer) => committer.commit(rt, alloc),
        }
    }
}

/// Writes that all is ready.
pub(crate) fn begin<W: Write>(out: &mut W) -> io::Result<()> {
    out.write_all(b"now\n")
}

/// Writes what came of a thing.
pub(crate) fn tell<W: Write>(out: &mut W, came: Came) -> io::Result<()> {
    out.write_all(came.line())
}

/// Does the thing, once more where memory was refused, and tells what came of it each time.
pub(crate) fn do_it<R: Wait, W: Write>(
    rt: &R,
    alloc: Global,
    thing: &mut Thing,
    out: &mut W,
) -> io::Result<()> {
    begin(out)?;
    let came = thing.attempt(rt, alloc);
    tell(out, came)?;
    if came == Came::Refused {
        let again = thing.attempt(rt, alloc);
        tell(out, again)?;
    }
    Ok(())
}
