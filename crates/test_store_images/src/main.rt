//! Opens what crashes leave of a manager's store: `test_store_images [SEED [IMAGES [EVERY]]]`.
//!
//! It runs a script over two files in memory, in four parts: the making of a store, settles, copies of the log to the
//! database file with settles after them, and settles of files that are opened again. Each write, change of the length
//! and sync of each file fails in turn, torn in each of four ways. Then images of the files are opened, by chance but
//! for the first four, as the seed has it. Each has to have what the last settle that succeeded has left, or the one
//! under way, as the manager had it that was told the same requests. A making may also leave nothing. IMAGES is how
//! many there are of each failure, 16 by default.
//!
//! Then each byte is turned, of a database file to which the log was copied, of one beside a log with settles after the
//! copy, and of that log. Files with a byte turned are read as they were, or refused as damaged with the database
//! file as it was. With a byte of the log turned they may also have what an earlier settle has left, as where a write
//! of the log was torn.
//!
//! With EVERY only the calls fail whose number it divides, and only the bytes are turned whose place it divides.
//!
//! It writes a line for each part and each file, how many images of makings can't be opened, and at last how many are
//! right, with status 0. Where one isn't, the last line says which, with status 1. The status is 2 where a word is no
//! number.
#![tactic(auto)]

mod fault;
mod files;
mod found;
mod images;
mod lent;
mod names;
mod parts;
mod random;
mod runs;
mod script;
mod served;
mod turned;

use fault::Fault;
use files::{Failure, Side};
use images::{Counts, Trial, Wrong};
use names::Names;
use parts::{copying, making, reopening, settling};
use random::Random;
use runs::Part;
use std::alloc::Global;
use std::env;
use std::io::{self, Write};
use std::process::ExitCode;
use std::rt::Env;
use turned::{Turned, database_alone, database_beside, log_beside};

// How many images of each failure are opened by default.
const USUAL_IMAGES: u32 = 16;

// How many calls of each file a run makes in which none fails.
fn calls_of(alloc: Global, names: &Names, part: &Part) -> Result<(u32, u32), Fault> {
    let run = part.run(alloc, names, &Failure::NONE)?;
    Ok((run.tapes.calls(Side::Log), run.tapes.calls(Side::Database)))
}

// How images are chosen, how many there are of each failure, and that each call fails whose number this divides.
#[derive(Clone, Copy)]
struct Choosing {
    random: Random,
    images: u32,
    every: u32,
}

// Opens the images of a part, which makes so many calls of each file.
fn open_all(
    alloc: Global,
    names: &Names,
    part: &Part,
    calls: (u32, u32),
    choosing: &mut Choosing,
) -> Result<Counts, Wrong> {
    let mut trial = Trial {
        alloc,
        names,
        part,
        images: choosing.images,
        every: choosing.every,
        counts: Counts::NONE,
    };
    trial.fail_calls(Side::Log, calls.0, &mut choosing.random)?;
    trial.fail_calls(Side::Database, calls.1, &mut choosing.random)?;
    Ok(trial.counts)
}

// Tells why a part isn't begun.
fn refuse<W: Write>(out: &mut W, fault: Fault) -> io::Result<bool> {
    writeln!(out, "a part can't be begun: {fault:?}")?;
    Ok(false)
}

// Opens the images of a part that was begun, and tells how many there are, or what is wrong. Whether all are right.
fn tell_begun<W: Write>(
    alloc: Global,
    names: &Names,
    part: &Part,
    choosing: &mut Choosing,
    counts: &mut Counts,
    out: &mut W,
) -> io::Result<bool> {
    let calls = match calls_of(alloc, names, part) {
        Ok(calls) => calls,
        Err(fault) => return refuse(out, fault),
    };
    match open_all(alloc, names, part, calls, choosing) {
        Ok(opened) => {
            counts.add(&opened);
            let (images, all) = (opened.all(), calls.0.saturating_add(calls.1));
            writeln!(out, "{} {images} images of {all} calls", part.name)?;
            Ok(true)
        }
        Err(wrong) => {
            writeln!(out, "{}: {wrong}", part.name)?;
            Ok(false)
        }
    }
}

// The same of a part that may not be begun.
fn tell_part<W: Write>(
    alloc: Global,
    names: &Names,
    part: Result<Part, Fault>,
    choosing: &mut Choosing,
    counts: &mut Counts,
    out: &mut W,
) -> io::Result<bool> {
    match part {
        Ok(part) => tell_begun(alloc, names, &part, choosing, counts, out),
        Err(fault) => refuse(out, fault),
    }
}

// Opens the images of all parts, until one isn't right. Whether all are.
fn tell_parts<W: Write>(
    alloc: Global,
    names: &Names,
    choosing: &mut Choosing,
    counts: &mut Counts,
    out: &mut W,
) -> io::Result<bool> {
    Ok(
        tell_part(alloc, names, making(alloc, names), choosing, counts, out)?
            && tell_part(alloc, names, settling(alloc, names), choosing, counts, out)?
            && tell_part(alloc, names, copying(alloc, names), choosing, counts, out)?
            && tell_part(alloc, names, reopening(alloc, names), choosing, counts, out)?,
    )
}

// Turns the bytes of a file, and tells what is found. Whether that is right.
fn tell_turns<W: Write>(
    alloc: Global,
    names: &Names,
    turned: &mut Turned,
    every: u32,
    out: &mut W,
) -> io::Result<bool> {
    match turned.turn_all(alloc, names, every as usize) {
        Ok(turns) => {
            let (name, bytes) = (turned.name, turns.bytes);
            writeln!(out, "turned {bytes} bytes of the {name} in 2 ways: {turns}")?;
            Ok(true)
        }
        Err(missed) => {
            writeln!(out, "{}: {missed}", turned.name)?;
            Ok(false)
        }
    }
}

// The same of files that may not be made.
fn tell_made<W: Write>(
    alloc: Global,
    names: &Names,
    turned: Result<Turned, Fault>,
    every: u32,
    out: &mut W,
) -> io::Result<bool> {
    match turned {
        Ok(mut turned) => tell_turns(alloc, names, &mut turned, every, out),
        Err(fault) => refuse(out, fault),
    }
}

// Turns the bytes of the files, until a turn isn't seen. Whether all are.
fn tell_turned<W: Write>(
    alloc: Global,
    names: &Names,
    every: u32,
    out: &mut W,
) -> io::Result<bool> {
    Ok(
        tell_made(alloc, names, database_alone(alloc, names), every, out)?
            && tell_made(alloc, names, database_beside(alloc, names), every, out)?
            && tell_made(alloc, names, log_beside(alloc, names), every, out)?,
    )
}

// Opens all images, and tells how many are right. Whether all are.
fn tell<W: Write>(
    alloc: Global,
    names: &Names,
    mut choosing: Choosing,
    out: &mut W,
) -> io::Result<bool> {
    let mut counts = Counts::NONE;
    if !tell_parts(alloc, names, &mut choosing, &mut counts, out)?
        || !tell_turned(alloc, names, choosing.every, out)?
    {
        return Ok(false);
    }
    writeln!(out, "{} makings that can't be opened", counts.unfinished)?;
    writeln!(out, "all {} images are right", counts.right)?;
    Ok(true)
}

// The number at this place after the program's name, or the usual one where there is no word. None where a word is no
// number.
fn number_at<R: Env + AllocGlobal>(rt: &R, place: usize, usual: u32) -> Option<u32> {
    match env::args(rt).ok()?.nth(place) {
        Some(word) => word.parse::<u32>().ok(),
        None => Some(usual),
    }
}

// How images are chosen, by the words after the program's name.
fn chosen<R: Env + AllocGlobal>(rt: &R) -> Option<Choosing> {
    Some(Choosing {
        random: Random::new(u64::from(number_at(rt, 1, 1)?)),
        images: number_at(rt, 2, USUAL_IMAGES)?,
        every: number_at(rt, 3, 1)?,
    })
}

fn main(rt: HostRuntime) -> ExitCode {
    let (Some(choosing), Some(names)) = (chosen(&rt), Names::new()) else {
        return ExitCode::from(2);
    };
    match tell(rt.alloc(), &names, choosing, &mut rt.stdout()) {
        Ok(true) => ExitCode::from(0),
        Ok(false) => ExitCode::from(1),
        Err(_) => ExitCode::from(4),
    }
}
