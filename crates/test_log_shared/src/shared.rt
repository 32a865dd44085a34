//! Coordinators on threads of their own, over one log.

use crate::counted::{CountedLog, Upsets};
use crate::opened::record_of;
use std::alloc::Global;
use std::process::Abort;
use std::sync::Wait;
use std::thread;
use std::thread::Threads;
use xa_desk::Spin;
use xa_log::{CommitRecord, DecisionLog, DecisionRecords, LogFault};
use xa_log_shared::{LogClient, open_log_worker};
use xa_words::Tran;

// How many of a coordinator's appends were taken, refused, and had an unknown end.
#[derive(Clone, Copy, Debug, Default, PartialEq, Eq)]
struct Counts {
    taken: u32,
    refused: u32,
    unknown: u32,
}

// Appends so many records, one after another, while the log is known.
fn append_all<R: Wait + Abort + Copy>(
    rt: R,
    mut client: LogClient<R>,
    first: u32,
    appends: u32,
) -> Counts {
    let mut counts = Counts::default();
    for number in 0..appends {
        if !client.is_known() {
            break;
        }
        let record = record_of(&rt, first.wrapping_add(number));
        if client.has(&record.tran).is_some() {
            continue;
        }
        match client.append(&record) {
            Ok(()) => counts.taken = counts.taken.wrapping_add(1),
            Err(LogFault::Refused) => counts.refused = counts.refused.wrapping_add(1),
            Err(LogFault::Unknown) => counts.unknown = counts.unknown.wrapping_add(1),
        }
    }
    let _ = client.end();
    counts
}

// What the coordinators were answered, and the log at the end. The first records of two coordinators are so far apart.
fn share<R: Threads + Wait + Abort + Copy + Send + 'static>(
    rt: R,
    alloc: Global,
    log: CountedLog,
    coordinators: usize,
    appends: u32,
    apart: u32,
) -> (Vec<Counts>, CountedLog) {
    let (worker, clients) = match open_log_worker(rt, alloc, log, coordinators, 1000) {
        Ok(opened) => opened,
        Err(_) => panic!(rt; "no worker"),
    };
    let mut threads = Vec::new(alloc);
    let mut first = 0u32;
    for client in clients {
        let from = first;
        let Ok(handle) = thread::spawn(&rt, move || append_all(rt, client, from, appends)) else {
            panic!(rt; "no thread");
        };
        assert!(rt; threads.push(handle).is_ok());
        first = first.wrapping_add(apart);
    }
    let ends = worker.run(&rt, &mut Spin::new());
    let mut counts = Vec::new(alloc);
    for handle in threads {
        assert!(rt; counts.push(handle.join(&rt)).is_ok());
    }
    (counts, ends.log)
}

fn opened<R: Abort>(rt: &R, alloc: Global, room: usize, upsets: Upsets) -> CountedLog {
    CountedLog::new(alloc, room, upsets).expect(rt, "memory")
}

#[test]
fn each_append_of_each_coordinator_is_taken(rt: HostRuntime) {
    for coordinators in [1, 4, 8] {
        let log = opened(&rt, rt.alloc(), 4000, Upsets::default());
        let (counts, log) = share(rt, rt.alloc(), log, coordinators, 100, 100);
        let all = Counts {
            taken: 100,
            ..Counts::default()
        };
        assert!(rt; counts.iter().all(|count| *count == all));
        assert_eq!(rt; counts.len(), coordinators);
        assert_eq!(rt; log.len(), 100 * coordinators);
        let calls = log.groups.wrapping_add(log.singles);
        let appends = 100 * coordinators as u64;
        assert!(rt;
            if coordinators == 1 {
                calls == appends
            } else {
                calls < appends
            },
            "{calls} calls"
        );
    }
}

#[test]
fn what_is_refused_isnt_there_and_what_fits_is(rt: HostRuntime) {
    // The calls from the 20th to the 40th are refused, those of groups too.
    let upsets = Upsets {
        refused_at: 20,
        refused: 20,
        ..Upsets::default()
    };
    let log = opened(&rt, rt.alloc(), 4000, upsets);
    let (counts, log) = share(rt, rt.alloc(), log, 4, 300, 300);
    let mut taken = 0u32;
    let mut refused = 0u32;
    for count in &counts {
        assert_eq!(rt; count.unknown, 0);
        assert_eq!(rt; count.taken.wrapping_add(count.refused), 300);
        taken = taken.wrapping_add(count.taken);
        refused = refused.wrapping_add(count.refused);
    }
    assert_eq!(rt; log.len(), taken as usize);
    assert!(rt; refused <= 20);
}

#[test]
fn once_it_is_lost_nothing_is_told_any_more(rt: HostRuntime) {
    let upsets = Upsets {
        lost_at: 50,
        ..Upsets::default()
    };
    let log = opened(&rt, rt.alloc(), 4000, upsets);
    let (counts, log) = share(rt, rt.alloc(), log, 4, 300, 300);
    assert!(rt;
        counts
            .iter()
            .all(|count| count.unknown == 1 && count.refused == 0)
    );
    assert_eq!(rt; log.groups.wrapping_add(log.singles), 50);
}

#[test]
fn a_full_log_takes_what_fits(rt: HostRuntime) {
    let log = opened(&rt, rt.alloc(), 100, Upsets::default());
    let (counts, log) = share(rt, rt.alloc(), log, 4, 300, 300);
    assert_eq!(rt; log.len(), 100);
    assert!(rt;
        counts
            .iter()
            .all(|count| count.taken.wrapping_add(count.refused) == 300)
    );
}

#[test]
fn each_transaction_is_taken_of_one_coordinator(rt: HostRuntime) {
    let log = opened(&rt, rt.alloc(), 4000, Upsets::default());
    let (counts, log) = share(rt, rt.alloc(), log, 8, 100, 0);
    let taken: u32 = counts
        .iter()
        .fold(0, |sum, count| sum.wrapping_add(count.taken));
    let refused: u32 = counts
        .iter()
        .fold(0, |sum, count| sum.wrapping_add(count.refused));
    assert_eq!(rt; taken, 100);
    assert_eq!(rt; refused, 700);
    assert_eq!(rt; log.len(), 100);
}

fn add<R: Wait + Copy>(client: &mut LogClient<R>, record: &CommitRecord) -> bool {
    client.is_known() && client.has(&record.tran).is_none() && client.append(record).is_ok()
}

fn has<R: Wait + Copy>(client: &LogClient<R>, tran: &Tran) -> bool {
    client.is_known() && client.has(tran).is_some()
}

// Appends ten records where there is room for eight, forgets one, and then all but two.
fn forget_most<R: Wait + Abort + Copy>(rt: R, mut client: LogClient<R>) -> (u32, bool) {
    let mut taken = 0u32;
    for number in 0..10 {
        if add(&mut client, &record_of(&rt, number)) {
            taken = taken.wrapping_add(1);
        }
    }
    let third = record_of(&rt, 3).tran;
    if client.is_known() {
        client.forget(&third);
    }
    let kept = [record_of(&rt, 1).tran, record_of(&rt, 5).tran];
    if client.is_known() {
        client.keep_only(&kept);
    }
    let (first, fifth) = (record_of(&rt, 1).tran, record_of(&rt, 5).tran);
    let is_right = has(&client, &first) && has(&client, &fifth) && !has(&client, &third);
    let _ = client.end();
    (taken, is_right)
}

#[test]
fn what_is_forgotten_leaves_the_log(rt: HostRuntime) {
    let log = opened(&rt, rt.alloc(), 4000, Upsets::default());
    let Ok((worker, mut clients)) = open_log_worker(rt, rt.alloc(), log, 1, 8) else {
        panic!(rt; "no worker");
    };
    let client = clients.pop().expect(&rt, "a client");
    let Ok(handle) = thread::spawn(&rt, move || forget_most(rt, client)) else {
        panic!(rt; "no thread");
    };
    let ends = worker.run(&rt, &mut Spin::new());
    assert_eq!(rt; handle.join(&rt), (8, true));
    assert_eq!(rt; ends.log.len(), 2);
    // A coordinator that is full asks nothing.
    assert_eq!(rt; ends.log.groups.wrapping_add(ends.log.singles), 8);
}
