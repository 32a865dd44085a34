//! Runs a script of XA calls: `xaswitch turns` or `xaswitch threads`.
#![tactic(auto)]

mod help;

use crate::help::{is_help, show_help};
use std::alloc::AllocError;
use std::env;
use std::io::{self, ErrorKind, Read, Write};
use std::process::ExitCode;
use std::rt::Env;
use std::sync::Wait;
use std::thread::Threads;
use xa_script::program;

// The words after the program's name.
fn words<R: Env + AllocGlobal>(rt: &R) -> io::Result<Vec<String>> {
    let mut words = Vec::new(rt.alloc());
    for word in env::args(rt)?.skip(1) {
        words.push(word)?;
    }
    Ok(words)
}

// The exit status of the program with these words.
fn status<R: AllocGlobal + Threads + Wait + Copy + Send + 'static>(
    rt: &R,
    words: &[String],
    reader: &mut impl Read,
    out: &mut impl Write,
    err: &mut impl Write,
) -> Result<u8, AllocError> {
    let mut texts = Vec::with_capacity(rt.alloc(), words.len())?;
    for word in words {
        texts.push(word.as_str())?;
    }
    Ok(program(rt, rt.alloc(), &texts, reader, out, err))
}

fn main(rt: HostRuntime) -> ExitCode {
    let mut reader = rt.stdin();
    let mut out = rt.stdout();
    let mut err = rt.stderr();
    let answer = match words(&rt) {
        Ok(words) if is_help(&words) => Ok(show_help(&mut out, &mut err)),
        Ok(words) => status(&rt, &words, &mut reader, &mut out, &mut err),
        // A word that is no text names nothing, as no word does.
        Err(error) if error.kind() == ErrorKind::InvalidData => {
            status(&rt, &[], &mut reader, &mut out, &mut err)
        }
        Err(_) => Err(AllocError),
    };
    match answer {
        Ok(code) => ExitCode::from(code),
        Err(AllocError) => {
            let _ = err.write_all(b"out of memory\n");
            ExitCode::from(3)
        }
    }
}
