//! Runs in threads whose workers have paces of their own.
ghost use Rattle.std.specs.Prelude.{◌≡◌, length, IfOk};

use std::alloc::Global;
use std::sync::atomic::{AtomicU64, Ordering};
use std::sync::{Arc, Wait};
use std::test::Fail;
use std::thread::yield_now;
use xa_script::{read_script, run_threads};
use xa_words::Request;
use xa_worker::{Free, Pace};

// Holds a worker before its request until so many workers are there.
#[derive(Drop)]
struct Meeting {
    there: Arc<AtomicU64, Global>,
    wanted: u64,
    met: Arc<AtomicU64, Global>,
}

impl Pace for Meeting {
    ghost told = { λ request before after. Unit {0} };

    fn before<R: Wait>(&mut self, _rt: &R, _request: &Request) {
        self.there.fetch_add(1, Ordering::SeqCst);
        for _ in 0..10_000_000 {
            if self.there.load(Ordering::SeqCst) >= self.wanted {
                self.met.fetch_add(1, Ordering::SeqCst);
                return;
            }
            yield_now();
        }
    }
}

fn new_meeting(
    there: &Arc<AtomicU64, Global>,
    met: &Arc<AtomicU64, Global>,
) -> Result<Meeting, Fail> {
    Ok(Meeting {
        there: Arc::try_clone(there)?,
        wanted: 2,
        met: Arc::try_clone(met)?,
    })
}

// A pace for each worker that there may be.
fn meetings(
    alloc: Global,
    there: &Arc<AtomicU64, Global>,
    met: &Arc<AtomicU64, Global>,
) -> Result<Vec<Meeting>, Fail>
    ensures { IfOk result (λ v. length v.items ≡ 8) }
{
    let paces = [
        new_meeting(there, met)?,
        new_meeting(there, met)?,
        new_meeting(there, met)?,
        new_meeting(there, met)?,
        new_meeting(there, met)?,
        new_meeting(there, met)?,
        new_meeting(there, met)?,
        new_meeting(there, met)?,
    ];
    match Vec::from_array(alloc, paces) {
        Ok(paces) => Ok(paces),
        Err(_) => Err("memory".into()),
    }
}

#[test]
fn two_workers_are_at_work_at_once(rt: HostRuntime) -> Result<(), Fail> {
    let mut text = b"threads 2\nmanagers 2\n1 open 1\n2 open 2\n".as_slice();
    let script = read_script(rt.alloc(), &mut text, true)?;
    let there = Arc::new(rt.alloc(), AtomicU64::new(0))?;
    let met = Arc::new(rt.alloc(), AtomicU64::new(0))?;
    let paces = meetings(rt.alloc(), &there, &met)?;
    let mut out = Vec::new(rt.alloc());
    run_threads(&rt, rt.alloc(), &script, &mut out, paces)?;
    assert_eq!(rt; out.as_slice(), b"3 1 0\n4 2 0\n".as_slice());
    assert_eq!(rt; met.load(Ordering::SeqCst), 2);
    Ok(())
}

// Counts the requests that come to the worker of each pace, by the pace's place.
#[derive(Drop)]
struct Counting {
    counts: Arc<[AtomicU64; 8], Global>,
    place: usize,
}

impl Pace for Counting {
    ghost told = { λ request before after. Unit {0} };

    fn before<R: Wait>(&mut self, _rt: &R, _request: &Request) {
        if let Some(count) = self.counts.get(self.place) {
            count.fetch_add(1, Ordering::SeqCst);
        }
    }
}

fn new_counting(counts: &Arc<[AtomicU64; 8], Global>, place: usize) -> Result<Counting, Fail> {
    Ok(Counting {
        counts: Arc::try_clone(counts)?,
        place,
    })
}

fn all_counting(alloc: Global, counts: &Arc<[AtomicU64; 8], Global>) -> Result<Vec<Counting>, Fail>
    ensures { IfOk result (λ v. length v.items ≡ 8) }
{
    let paces = [
        new_counting(counts, 0)?,
        new_counting(counts, 1)?,
        new_counting(counts, 2)?,
        new_counting(counts, 3)?,
        new_counting(counts, 4)?,
        new_counting(counts, 5)?,
        new_counting(counts, 6)?,
        new_counting(counts, 7)?,
    ];
    match Vec::from_array(alloc, paces) {
        Ok(paces) => Ok(paces),
        Err(_) => Err("memory".into()),
    }
}

// Manager m is asked m times.
#[test]
fn the_worker_of_manager_m_has_the_pace_at_place_m_minus_1(rt: HostRuntime) -> Result<(), Fail> {
    let mut text = Vec::new(rt.alloc());
    text.extend_from_slice(b"managers 8\n")?;
    for manager in 1..9 {
        for _ in 0..manager {
            text.extend_from_slice(b"1 open ")?;
            text.push(b'0' + manager)?;
            text.push(b'\n')?;
        }
    }
    let script = read_script(rt.alloc(), &mut text.as_slice(), true)?;
    let counts = Arc::new(rt.alloc(), [0; 8].map(|_: i32| AtomicU64::new(0)))?;
    let paces = all_counting(rt.alloc(), &counts)?;
    let mut out = Vec::new(rt.alloc());
    run_threads(&rt, rt.alloc(), &script, &mut out, paces)?;
    for (place, count) in counts.iter().enumerate() {
        assert_eq!(rt; count.load(Ordering::SeqCst), place as u64 + 1);
    }
    Ok(())
}
