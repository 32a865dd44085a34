//! Does one thing that takes memory, and tells what came of it: `test_growths THING`. The check of growths refuses it
//! one growth of memory after the other.
//!
//! It makes all ready, and writes `now`. What it takes from there to its next line is what the thing takes. That line
//! is `made`, or why the thing wasn't made: where it is `refused`, for want of memory, the thing is done once more, and
//! the last line is what came of that. `wrong` is never to stand there. The status is 2 where no thing has that
//! name, and where it can't be made ready.
#![tactic(auto)]

mod commits;
mod openings;
mod pieces;
mod reopening;
mod settling;
mod thing;

use settling::{call_all, settle_one, settle_strangers, settle_without_workers};
use std::alloc::Global;
use std::env;
use std::io::{self, Write};
use std::process::ExitCode;
use std::rt::Env;
use std::sync::Wait;
use thing::{Thing, do_it};

// Does the thing of this name, and tells what came of it. None where there is no such thing.
fn tell<R: Wait, W: Write>(
    rt: &R,
    alloc: Global,
    name: &str,
    out: &mut W,
) -> Option<io::Result<()>> {
    let told = match name {
        "settle" => settle_one(rt, alloc, out)?,
        "strangers" => settle_strangers(rt, alloc, out)?,
        "missing" => settle_without_workers(rt, alloc, out)?,
        "calls" => call_all(rt, alloc, out)?,
        _ => do_it(rt, alloc, &mut Thing::named(rt, alloc, name)?, out),
    };
    Some(told)
}

// The word after the program's name.
fn word<R: Env + AllocGlobal>(rt: &R) -> Option<String> {
    env::args(rt).ok()?.nth(1)
}

fn main(rt: HostRuntime) -> ExitCode {
    let mut out = rt.stdout();
    let told = match word(&rt) {
        Some(name) => tell(&rt, rt.alloc(), &name, &mut out),
        None => None,
    };
    match told {
        Some(Ok(())) => ExitCode::from(0),
        Some(Err(_)) => ExitCode::from(1),
        None => ExitCode::from(2),
    }
}
