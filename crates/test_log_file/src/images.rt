//! Every file that a crash may leave of many appends.

use crate::memory::{
    Log, SLOT, added, created, durable_of, file_of, forget, has, numbered, opened, takes,
};
use crate::tape::Tape;
use std::alloc::Global;
use std::process::Abort;

// How many slots the log of many appends has.
pub(crate) const MANY: u32 = 200;

// How many of the files that a crash may leave of an append of this record to that file, whose k-th call fails, have
// the records from before; and how many have the new one too. Only at its slot do they differ.
fn images(rt: &impl Abort, alloc: Global, bytes: &[u8], number: u32, k: u32) -> (u32, u32) {
    let mut log = opened(rt, alloc, bytes, k);
    let _ = added(&mut log, &numbered(rt, number));
    let tape = file_of(log);
    let start = 18 + SLOT * (number as usize & 0xffff);
    let (mut kept, mut more): (u32, u32) = (0, 0);
    for cut in 0..=SLOT {
        let log = opened(rt, alloc, &tape.crashed_at(rt, start + cut), 0);
        kept = kept.saturating_add(u32::from(has_those_before(rt, &log, number)));
        more = more.saturating_add(u32::from(has(&log, &numbered(rt, number))));
    }
    (kept, more)
}

// Whether the log has the first record, the last before this one, and one between.
fn has_those_before(rt: &impl Abort, log: &Log, number: u32) -> bool {
    let before = [0, number / 2, number.saturating_sub(1)];
    number == 0
        || before
            .iter()
            .all(|earlier| has(log, &numbered(rt, *earlier)))
}

// Each call of each append fails in turn, and every file that a crash then may leave is opened.
#[test]
fn every_image_of_many_appends_has_the_records_from_before(rt: HostRuntime) {
    let alloc = rt.alloc();
    let mut bytes = durable_of(created(&rt, alloc, MANY));
    let (mut all, mut with_more): (u32, u32) = (0, 0);
    for number in 0..MANY {
        for k in 3..7 {
            let (kept, more) = images(&rt, alloc, &bytes, number, k);
            assert!(rt; kept == SLOT as u32 + 1);
            // Before the gate is written the record isn't there.
            assert!(rt; k >= 5 || more == 0);
            all = all.saturating_add(kept);
            with_more = with_more.saturating_add(more);
        }
        bytes = appended(&rt, alloc, &bytes, number);
    }
    assert!(rt; all > 75_000 && with_more > 0);
}

// The file after one more append.
fn appended(rt: &impl Abort, alloc: Global, bytes: &[u8], number: u32) -> Vec<u8> {
    let mut log = opened(rt, alloc, bytes, 0);
    assert!(rt; takes(&mut log, &numbered(rt, number)));
    durable_of(log)
}

// ---- rounds that forget

// Each round appends a record and forgets the one of two rounds before, so two are taken.
const ROUNDS: u32 = 240;

// The slots of the file of the rounds.
pub(crate) const FEW: u32 = 4;

// After an opening the forgotten ones are there again.
fn forget_old(rt: &impl Abort, log: &mut Log, number: u32) {
    for back in 3..=FEW + 2 {
        if number >= back {
            forget(log, &numbered(rt, number.saturating_sub(back)));
        }
    }
}

// The number of the record in a slot, where its gate is open.
fn number_in(image: &[u8], slot: usize) -> Option<u32> {
    match image.get(18 + SLOT * (slot & 0xff)..)? {
        [255, _, _, _, _, _, a, b, c, d, ..] => Some(u32::from_be_bytes([*a, *b, *c, *d])),
        _ => None,
    }
}

// Whether a slot has no record, or one that isn't older than those that may have come back, which the log has.
fn is_right_at(rt: &impl Abort, log: &Log, image: &[u8], slot: usize, number: u32) -> bool {
    let Some(there) = number_in(image, slot) else {
        return true;
    };
    let is_late = there <= number && there.saturating_add(FEW + 2) >= number;
    is_late & has(log, &numbered(rt, there))
}

// Whether a file that a crash may leave of the append of this number has the two records from before, perhaps the new
// one, perhaps forgotten ones, and nothing else.
fn is_right(rt: &impl Abort, alloc: Global, image: &[u8], number: u32) -> bool {
    let log = opened(rt, alloc, image, 0);
    let mut right = true;
    for back in 1..=2 {
        right &= number < back || has(&log, &numbered(rt, number.saturating_sub(back)));
    }
    for slot in 0..FEW as usize {
        right &= is_right_at(rt, &log, image, slot, number);
    }
    right
}

// How many images there are of the append whose k-th call fails, each of them right: torn at each byte, or at each that
// isn't on the disk, from either side.
fn right_images(
    rt: &impl Abort,
    alloc: Global,
    bytes: &[u8],
    number: u32,
    k: u32,
    at_each: bool,
) -> u32 {
    let mut log = opened(rt, alloc, bytes, k);
    forget_old(rt, &mut log, number);
    let _ = added(&mut log, &numbered(rt, number));
    let tape = file_of(log);
    let mut images: u32 = 0;
    for cut in 0..tape.now.len() {
        if at_each || tape.now.get(cut) != tape.durable.get(cut) {
            assert!(rt; are_right(rt, alloc, &tape, cut, number));
            images = images.saturating_add(2);
        }
    }
    images
}

// Whether both files that are torn at this byte are right.
fn are_right(rt: &impl Abort, alloc: Global, tape: &Tape, cut: usize, number: u32) -> bool {
    is_right(rt, alloc, &tape.crashed_at(rt, cut), number)
        && is_right(rt, alloc, &tape.crashed_from(rt, cut), number)
}

// The file after one more round.
fn after_round(rt: &impl Abort, alloc: Global, bytes: &[u8], number: u32) -> Vec<u8> {
    let mut log = opened(rt, alloc, bytes, 0);
    forget_old(rt, &mut log, number);
    assert!(rt; takes(&mut log, &numbered(rt, number)));
    durable_of(log)
}

#[test]
fn every_image_has_the_records_and_perhaps_forgotten_ones(rt: HostRuntime) {
    let alloc = rt.alloc();
    let mut bytes = durable_of(created(&rt, alloc, FEW));
    let mut all: u32 = 0;
    for number in 0..ROUNDS {
        // The first two calls are those of the opening.
        for k in 3..9 {
            let at_each = k == 3 + number % 6;
            all = all.saturating_add(right_images(&rt, alloc, &bytes, number, k, at_each));
        }
        bytes = after_round(&rt, alloc, &bytes, number);
    }
    assert!(rt; all > 150_000);
}
