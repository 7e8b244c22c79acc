//! A bounded wait for other threads.

use crossbeam_utils::Backoff;
use std::sync::atomic::{AtomicU64, Ordering};

/// How often a call that waits backs off before it gives up.
const MOST_TURNS: u64 = 2_000_000;

/// Waits until the count is at least so much. False: it has given up.
pub(crate) fn waits_for(count: &AtomicU64, least: u64) -> bool {
    let backoff = Backoff::new();
    for _ in 0..MOST_TURNS {
        if count.load(Ordering::SeqCst) >= least {
            return true;
        }
        backoff.snooze();
    }
    false
}

/// Backs off so many times.
pub(crate) fn stays(turns: u64) {
    let backoff = Backoff::new();
    for _ in 0..turns {
        backoff.snooze();
    }
}

/// One more.
pub(crate) fn count_one(count: &AtomicU64) -> u64 {
    count.fetch_add(1, Ordering::SeqCst)
}
