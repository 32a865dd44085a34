//! A judge of journals, which takes nothing from the switch: the sequential tables carry the requests of a journal out
//! once more, from the declared accounts on.
#![tactic(auto)]

ghost use Rattle.std.specs.Prelude.{◌≡◌, ◌≤◌, ◌+◌, ℕ, length, slice_get, All, IsTrue, Some};
ghost use Rattle.std.specs.List.{range_with_len};
ghost use Rattle.xa_base.specs.Lists.{IsUpTo};
ghost use Rattle.xa_worker.specs.Journal.{Follows};
ghost use Rattle.test_replay.specs.Replay.{Agrees, ShowsValues, WasOpened, numbers_of_thread};

use std::alloc::Global;
use xa_base::{MOST_JOURNALED, MOST_THREADS};
use xa_tables::Manager;
use xa_words::{Code, Key, Op, Request};

// Whether the tables, which are those of so many threads, give each request of the journal the code that it has there.
// It leaves them as they are after the journal.
fn replays(tables: &mut Manager, threads: u32, journal: &[(Request, Code)]) -> bool
    requires { tables.old.threads ≡ threads }
    ensures follows { IsTrue result → Follows tables.old.tables journal.now tables.new.tables }
    ensures threads { IsTrue result → All (λ e. IsUpTo threads e.0.thread) journal.now }
{
    for entry in journal {
        let thread = entry.0.thread;
        if thread < 1 || threads < thread || tables.room() == 0 {
            return false;
        }
        if tables.apply(thread, &entry.0.op) != entry.1 {
            return false;
        }
    }
    true
}

// Whether the thread's requests have the numbers 0, 1, .. in the journal, as many as it sent.
fn is_in_order(journal: &[(Request, Code)], thread: u32, sent: usize) -> bool
    ensures { IsTrue result → numbers_of_thread thread journal.now ≡ range_with_len 0 sent }
{
    let mut next = 0_usize;
    for entry in journal {
        if entry.0.thread == thread {
            if entry.0.number as usize != next {
                return false;
            }
            next += 1;
        }
    }
    next == sent
}

// The same for each thread, by rising number.
fn are_in_order(journal: &[(Request, Code)], sent: &[usize]) -> bool
    requires { length sent.now ≤ MOST_THREADS }
    ensures { IsTrue result → (k n : ℕ) → slice_get sent.now k ≡ Some n
        → numbers_of_thread (k + 1) journal.now ≡ range_with_len 0 n }
{
    for (before, many) in sent.iter().enumerate() {
        if !is_in_order(journal, before as u32 + 1, *many) {
            return false;
        }
    }
    true
}

// Whether the tables have these values of these keys.
fn have_values(tables: &Manager, values: &[(Key, Option<u64>)]) -> bool
    ensures { IsTrue result → ShowsValues tables.now.tables values.now }
{
    values.iter().all(|shown| tables.value(&shown.0) == shown.1)
}

/// Whether this is what an opening of a manager with these accounts may come to: its journal has the codes that the
/// sequential tables give, each thread's requests are there in their order, as many as it sent, and the keys have the
/// values that the tables leave. Where memory is refused, or the journal is longer than any, it says no.
///
/// What was sent is given by rising thread, from thread 1 on.
pub fn agrees(
    alloc: Global,
    accounts: &[(Key, u64)],
    journal: &[(Request, Code)],
    sent: &[usize],
    values: &[(Key, Option<u64>)],
) -> bool
    requires some { 1 ≤ length sent.now }
    requires most { length sent.now ≤ MOST_THREADS }
    ensures { IsTrue result → Agrees accounts.now journal.now sent.now values.now }
{
    let threads = sent.len() as u32;
    let Ok(mut tables) = Manager::new(alloc, accounts, threads, MOST_JOURNALED as u32) else {
        return false;
    };
    if !replays(&mut tables, threads, journal) || !are_in_order(journal, sent) {
        return false;
    }
    have_values(&tables, values)
}

/// Whether a thread has opened the manager, by its journal.
pub fn was_opened(journal: &[(Request, Code)]) -> bool
    ensures { IsTrue result → WasOpened journal.now }
{
    journal.iter().any(|entry| matches!(entry.0.op, Op::OpenRm) && entry.1 == Code::Done)
}
