//! A flag that one thread sets and another waits for.
use std::sync::atomic::{AtomicBool, Ordering};
use std::thread;

// How often the waiting thread looks.
const TURNS: u32 = 10_000_000;

/// Waits until the flag is set, and gives up in the end. It tells whether the flag was set.
pub fn comes(flag: &AtomicBool) -> bool {
    for _turn in 0..TURNS {
        if flag.load(Ordering::SeqCst) {
            return true;
        }
        thread::yield_now();
    }
    false
}
