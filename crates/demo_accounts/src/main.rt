//! A bank whose decision logs outlive it: `demo_accounts FOLDER [DAYS]`. `demo_accounts --help` says what its statuses
//! mean.
//!
//! Four tellers, each in a thread of its own, move money between three stores in memory, and each decides by a log in
//! a file of the folder (files.rt). At the start the program tells what the logs have: what was decided when the last
//! run ended, however it ended (listing.rt). Then the tellers work day by day, and tell of each commit once it is made
//! (clerk.rt, day.rt). Each transfer has a name that no other has, of this run or another (numbers.rt).
#![tactic(auto)]

mod clerk;
mod day;
mod fault;
mod files;
mod lines;
mod listing;
mod numbers;
mod words;

use crate::day::keep_the_days;
use crate::fault::Fault;
use crate::lines::write_lines;
use crate::words::{Order, OrderFault, help, order_of};
use std::env;
use std::io::{self, Write};
use std::process::ExitCode;
use std::sync::Wait;
use std::thread::Threads;

// The words after the program's name.
fn given_words(rt: &HostRuntime) -> io::Result<Vec<String>> {
    let mut words = Vec::new(rt.alloc());
    for word in env::args(rt)?.skip(1) {
        words.push(word)?;
    }
    Ok(words)
}

// Does what the words order, with the files of the runtime, in threads of the handle.
fn obey<H: Threads + Wait + Copy + Send + 'static>(
    files: &HostRuntime,
    rt: &H,
    words: &[String],
) -> Result<(), Fault> {
    let alloc = files.alloc();
    let mut texts = Vec::with_capacity(alloc, words.len())?;
    for word in words {
        texts.push(word.as_str())?;
    }
    match order_of(alloc, &texts) {
        Ok(Order::Keep { folder, days }) => keep_the_days(files, rt, folder, days),
        Ok(Order::Help) => write_lines(&mut files.stdout(), &help(alloc)?),
        Err(OrderFault::Usage) => Err(Fault::Usage),
        Err(OrderFault::NoMemory) => Err(Fault::NoMemory),
    }
}

// Tells of a fault on standard error. The first word is the folder.
fn tell(rt: &HostRuntime, words: &[String], fault: Fault) {
    let folder = words.first().map_or("", |word| word.as_str());
    let mut out = rt.stderr();
    let _ = match fault.line(rt.alloc(), folder) {
        Ok(line) => out.write_all(line.as_bytes()),
        Err(_) => out.write_all(b"demo_accounts: out of memory\n"),
    };
}

fn main(rt: HostRuntime) -> ExitCode {
    // A word that is no text is none of the program's.
    let Ok(words) = given_words(&rt) else {
        tell(&rt, &[], Fault::Usage);
        return ExitCode::from(Fault::Usage.status());
    };
    match obey(&rt, &rt, &words) {
        Ok(()) => ExitCode::SUCCESS,
        Err(fault) => {
            tell(&rt, &words, fault);
            ExitCode::from(fault.status())
        }
    }
}
