//! Reading a script to its end, and what each line of it says.
ghost use Rattle.std.specs.Prelude.{◌≡◌, ◌≤◌, true, length, IfOk, IfSome, OnOk, IfErr, Ok};
ghost use Rattle.script_grammar.specs.Text.{HasNoEnd, is_script_byte, without_return};
ghost use Rattle.script_grammar.specs.Contents.{NoneReopens};
ghost use Rattle.script_grammar.specs.Grammar.{Reads, script_of, head_of, item_by, item_of, line_of, after_line};
ghost use Rattle.script_grammar.specs.Grammar.{FailsAt};
ghost use Rattle.std.specs.List.{list_all};
ghost use Rattle.script_grammar.specs.Taking.{Gives, with_item_in};

use crate::fault::{LineFault, Reason, ScriptFault};
use crate::script::{Count, Script};
use crate::setting::{declared_of, logfail_of, logunknown_of, setting_of, sync_of};
use crate::step::{Step, reopen_of, take_task, turn_of};
use crate::words::{Words, all_digits, meaning_in};
use memchr::memchr;
use std::alloc::{AllocError, Global};
use std::io::Read;

// How many lines a script may have.
pub(crate) const MOST_LINES: u32 = 100_000;

// How many bytes a line may have, its carriage return and line feed not counted.
pub(crate) const LONGEST_LINE: usize = 512;

// How many bytes of a short line are judged at once, and how many a long one has at least.
const BLOCK: usize = 8;

const LONG: usize = 64;

/// What the first word of a line says that the line is.
#[derive(Clone, Copy)]
pub(crate) enum Head {
    Comment,
    Count(Count),
    Sync,
    LogFail,
    LogUnknown,
    Key,
    Turn,
    Reopen,
    Thread,
}

// The words that say what a line is; a comment and a line of a thread begin otherwise.
const HEADS: [(&[u8], Head); 11] = [
    (b"threads", Head::Count(Count::Threads)),
    (b"managers", Head::Count(Count::Managers)),
    (b"handles", Head::Count(Count::Handles)),
    (b"queue", Head::Count(Count::Queue)),
    (b"requests", Head::Count(Count::Requests)),
    (b"sync", Head::Sync),
    (b"logfail", Head::LogFail),
    (b"logunknown", Head::LogUnknown),
    (b"key", Head::Key),
    (b"turn", Head::Turn),
    (b"reopen", Head::Reopen),
];

fn head_of(word: &[u8]) -> Option<Head>
    ensures { result ≡ head_of word.now }
{
    if word.starts_with(b"#") {
        return Some(Head::Comment);
    }
    // Most lines begin so.
    if all_digits(word) {
        return Some(Head::Thread);
    }
    meaning_in(&HEADS, word)
}

// Takes the words of the line of this number.
#[tactic(auto, unfolding(crate::specs::Grammar::item_by))]
fn take_words(
    script: &mut Script,
    threads_mode: bool,
    number: u32,
    words: &mut Words,
) -> Result<(), LineFault>
    ensures { Gives result
        (with_item_in script.old (item_of threads_mode script.old number words.old))
        script.new }
{
    if words.are_comment() {
        return Ok(());
    }
    let Some(first) = words.next() else {
        return Ok(());
    };
    match head_of(first).ok_or(Reason::UnknownWord)? {
        Head::Comment => Ok(()),
        Head::Thread => take_task(script, number, first, words),
        Head::Count(count) => {
            let setting = setting_of(script, count, words)?;
            script.set(count, setting);
            Ok(())
        }
        Head::Sync => {
            let manager = sync_of(script, words)?;
            Ok(script.add_sync(manager)?)
        }
        Head::LogFail => {
            let (thread, append) = logfail_of(script, words)?;
            script.set_failing(thread, append);
            Ok(())
        }
        Head::LogUnknown => {
            let (thread, unknown) = logunknown_of(script, words)?;
            script.set_unknown(thread, unknown);
            Ok(())
        }
        Head::Key => {
            let declared = declared_of(script, words)?;
            Ok(script.add_key(declared)?)
        }
        Head::Turn => {
            let manager = turn_of(script, threads_mode, words)?;
            Ok(script.add_step(&Step::Turn {
                line: number,
                manager,
            })?)
        }
        Head::Reopen => {
            reopen_of(threads_mode, words)?;
            Ok(script.add_step(&Step::Reopen { line: number })?)
        }
    }
}

fn is_script_byte(b: u8) -> bool
    ensures { result ≡ is_script_byte b }
{
    matches!(b, b' '..=b'~' | b'\t')
}

// Whether a block is of such bytes. Without a return at the first bad byte all of them are judged at once.
#[inline(always)]
fn are_script_bytes(block: &[u8]) -> bool
    ensures { result ≡ list_all is_script_byte block.now }
{
    let mut good = true;
    for b in block {
        good &= is_script_byte(*b);
    }
    good
}

// Whether a line is of such bytes, judged block by block.
fn are_script_blocks(line: &[u8]) -> bool
    ensures { result ≡ list_all is_script_byte line.now }
{
    if line.len() < BLOCK {
        return line.iter().all(|b| is_script_byte(*b));
    }
    let last = line.len() - BLOCK;
    let mut start = 0;
    while start < last {
        if !are_script_bytes(&line[start..start + BLOCK]) {
            return false;
        }
        start += BLOCK;
    }
    // The last block may begin in the one before it, so that no byte is left to be judged alone.
    are_script_bytes(&line[last..])
}

fn all_script_bytes(line: &[u8]) -> bool
    ensures { result ≡ list_all is_script_byte line.now }
{
    if line.len() < LONG {
        are_script_blocks(line)
    } else {
        // As one block it takes less for each byte, and a little more for the line.
        are_script_bytes(line)
    }
}

fn without_return(line: &[u8]) -> &[u8]
    ensures { result.now ≡ without_return line.now }
{
    match line {
        [front @ .., b'\r'] => front,
        _ => line,
    }
}

// Takes the line of this number, whose carriage return is dropped.
#[tactic(auto, unfolding(crate::specs::Grammar::line_of))]
fn take_line(
    script: &mut Script,
    threads_mode: bool,
    number: u32,
    line: &[u8],
) -> Result<(), LineFault>
    ensures line { Gives result
        (with_item_in script.old (line_of threads_mode script.old number line.now))
        script.new }
    ensures few { OnOk result (number ≤ MOST_LINES) }
{
    if number > MOST_LINES {
        return Err(LineFault::Wrong(Reason::TooManyLines));
    }
    if line.len() > LONGEST_LINE {
        return Err(LineFault::Wrong(Reason::LineTooLong));
    }
    if !all_script_bytes(line) {
        return Err(LineFault::Wrong(Reason::BadByte));
    }
    take_words(script, threads_mode, number, &mut Words::new(line))
}

// Takes the line of this number, which may end with a carriage return.
#[tactic(auto, unfolding(crate::specs::Grammar::after_line))]
pub(crate) fn read_line(
    script: &mut Script,
    threads_mode: bool,
    number: u32,
    line: &[u8],
) -> Result<(), ScriptFault>
    ensures ok { OnOk result (after_line threads_mode script.old number line.now ≡ Ok script.new) }
    ensures few { OnOk result (number ≤ MOST_LINES) }
    ensures err { IfErr result (λ fault.
        FailsAt number fault (after_line threads_mode script.old number line.now)) }
{
    match take_line(script, threads_mode, number, without_return(line)) {
        Ok(()) => Ok(()),
        Err(LineFault::Wrong(why)) => Err(ScriptFault::Line { line: number, why }),
        Err(LineFault::NoMemory) => Err(ScriptFault::NoMemory),
    }
}

// Room for a line and its carriage return.
const ROOM: usize = LONGEST_LINE + 1;

// How many bytes are read at once.
const CHUNK: usize = 65_536;

// What the whole lines so far say, and what has come of the next.
#[derive(Drop)]
struct Reading {
    // Whether the threads of the script are to run side by side.
    threads_mode: bool,
    script: Script,
    // The number of the next line.
    number: u32,
    line: Vec<u8>,
    ghost no_end: { HasNoEnd line.items },
    ghost short: { length line.items ≤ 513 },
    ghost few: { number ≤ 100_001 },
}

impl Reading {
    ghost use Rattle.std.specs.Prelude.{◌≡◌, true, [], ◌∷◌, ◌++◌, OnOk, IfOk, IfErr, IfSome};
    ghost use Rattle.script_grammar.specs.Text.{line_feed, HasNoEnd};
    ghost use Rattle.script_grammar.specs.Grammar.{Reads, Fails};
    ghost use Rattle.script_grammar.specs.Contents.{NoneReopens};
    ghost use Rattle.script_grammar.specs.Reading.{goes_on, IsFreshReading, HasTakenBytes, StaysOne, FailsOn};

    fn new(alloc: Global, threads_mode: bool) -> Result<Reading, AllocError>
        ensures fresh { IfOk result (IsFreshReading threads_mode) }
        ensures one { IfOk result (λ r. (r.threads_mode ≡ threads_mode) × NoneReopens r.script.steps) }
    {
        Ok(Reading {
            threads_mode,
            script: Script::new(alloc)?,
            number: 1,
            line: Vec::with_capacity(alloc, ROOM)?,
        })
    }

    // Takes a part of a line, whose line feed is still to come.
    #[tactic(auto, using(crate::proofs::Lines::too_many, crate::proofs::Lines::too_long))]
    fn take_part(&mut self, part: &[u8]) -> Result<(), ScriptFault>
        requires { HasNoEnd part.now }
        ensures ok { OnOk result (HasTakenBytes self.old self.new part.now) }
        ensures err { IfErr result (FailsOn self.old part.now) }
        ensures one { OnOk result (StaysOne self.old self.new) }
    {
        if part.len() > ROOM - self.line.len() {
            // No line end is waited for: the line may have none.
            let line = self.number;
            let why = if line > MOST_LINES {
                Reason::TooManyLines
            } else {
                Reason::LineTooLong
            };
            return Err(ScriptFault::Line { line, why });
        }
        self.line.extend_from_slice(part)?;
        Ok(())
    }

    // Takes the line feed after a line that came in parts.
    #[tactic(auto, using(crate::proofs::Scripts::line_rules))]
    fn end_line(&mut self) -> Result<(), ScriptFault>
        ensures ok { OnOk result (HasTakenBytes self.old self.new (line_feed ∷ [])) }
        ensures err { IfErr result (FailsOn self.old (line_feed ∷ [])) }
        ensures one { OnOk result (StaysOne self.old self.new) }
    {
        read_line(&mut self.script, self.threads_mode, self.number, &self.line)?;
        self.line.clear();
        self.number += 1;
        Ok(())
    }

    // Takes the rest of a line, and the line feed after it.
    fn take_line(&mut self, rest: &[u8]) -> Result<(), ScriptFault>
        requires { HasNoEnd rest.now }
        ensures ok { OnOk result (HasTakenBytes self.old self.new (rest.now ++ line_feed ∷ [])) }
        ensures err { IfErr result (FailsOn self.old (rest.now ++ line_feed ∷ [])) }
        ensures one { OnOk result (StaysOne self.old self.new) }
    {
        if !self.line.is_empty() {
            self.take_part(rest)?;
            return self.end_line();
        }
        // The whole line is in the chunk: it is read where it lies.
        read_line(&mut self.script, self.threads_mode, self.number, rest)?;
        self.number += 1;
        Ok(())
    }

    fn take_chunk(&mut self, chunk: &[u8]) -> Result<(), ScriptFault>
        ensures ok { OnOk result (HasTakenBytes self.old self.new chunk.now) }
        ensures err { IfErr result (FailsOn self.old chunk.now) }
        ensures one { OnOk result (StaysOne self.old self.new) }
    {
        let mut rest = chunk;
        while let Some(end) = memchr(b'\n', rest) {
            self.take_line(&rest[..end])?;
            rest = &rest[end + 1..];
        }
        self.take_part(rest)
    }

    // Takes all that is left to read.
    fn take_all<R: Read>(&mut self, reader: &mut R) -> Result<(), ScriptFault>
        ensures ok { OnOk result (IfSome (R.remaining reader.old) (λ bytes.
            goes_on self.old bytes ≡ goes_on self.new [])) }
        ensures err { IfErr result (λ fault. IfSome (R.remaining reader.old) (λ bytes.
            Fails fault (goes_on self.old bytes))) }
        ensures one { OnOk result (StaysOne self.old self.new) }
    {
        let mut chunk = [0; CHUNK];
        for _ in 0..u64::MAX {
            let count = reader.read(&mut chunk).map_err(|_| ScriptFault::Read)?;
            if count == 0 {
                return Ok(());
            }
            self.take_chunk(&chunk[..count])?;
        }
        // The reader has no end.
        Err(ScriptFault::Read)
    }

    // Takes the last line, which may lack its line feed.
    fn finish(self) -> Result<Script, ScriptFault>
        ensures reads { Reads result (goes_on self []) }
        ensures one { self.threads_mode ≡ true → NoneReopens self.script.steps
            → IfOk result (λ s. NoneReopens s.steps) }
    {
        let Reading {
            threads_mode,
            mut script,
            number,
            line,
            ..
        } = self;
        if line.is_empty() {
            return Ok(script);
        }
        read_line(&mut script, threads_mode, number, &line)?;
        Ok(script)
    }
}

/// Reads the whole script before anything runs.
///
/// The first faulty line decides: its number, from 1, and its first fault. Reading stops there.
/// A read that fails is `Read`, and want of memory `NoMemory`.
///
/// `threads_mode` says whether the threads of the script are to run side by side; then no line of it
/// may be a `turn` or a `reopen`.
pub fn read_script<R: Read>(
    alloc: Global,
    reader: &mut R,
    threads_mode: bool,
) -> Result<Script, ScriptFault>
    ensures reads { IfSome (R.remaining reader.old) (λ bytes. Reads result (script_of threads_mode bytes)) }
    ensures one { threads_mode ≡ true → IfOk result (λ s. NoneReopens s.steps) }
{
    let mut reading = Reading::new(alloc, threads_mode)?;
    reading.take_all(reader)?;
    reading.finish()
}
