//! Gates that hold up workers until others have come.

use crate::waiting::{count_one, stays, waits_for};
use dn_guest::NoMemory;
use dn_io::{MemBeats, MemSink, MemSource};
use dn_top::{Gate, defined_top, status_number};
use std::alloc::Global;
use std::sync::Wait;
use std::sync::atomic::{AtomicU64, Ordering};
use std::thread::Threads;

/// Two flooding routers. Router 1's tick of group 1 may be handled while router 0's tick of group 0 waits: it is
/// past the horizon.
const PAIR: &[u8] =
    b"defined 1\nperiod 100\ngroups 4\nseed 0\nrouter a flood\nrouter b flood\nlink a b 10 1\nfeed\nend\n";

/// Six flooding routers without links.
const SIX: &[u8] =
    b"defined 1\nperiod 100\ngroups 4\nseed 0\nrouter a flood\nrouter b flood\nrouter c flood\nrouter d flood\nrouter e flood\nrouter f flood\nfeed\nend\n";

/// Runs the case with these words and this gate, and gives the exit status.
fn run<Y: Gate + Sync, R: Threads + Wait + Sync>(
    rt: &R,
    alloc: Global,
    words: &[&str],
    case: &[u8],
    gate: &Y,
) -> Result<u8, NoMemory> {
    let mut owned = Vec::new(alloc);
    for word in words {
        owned.push(String::from_str(alloc, word)?)?;
    }
    let mut source = MemSource::new(Vec::from_slice(alloc, case)?, Vec::new(alloc), 1_000);
    let mut sink = MemSink::new(alloc, Vec::new(alloc), 1_000, 100_000)?;
    let mut beats = MemBeats::new(Vec::new(alloc));
    let status = defined_top(
        rt,
        alloc,
        owned.as_slice(),
        &mut source,
        &mut sink,
        &mut beats,
        gate,
    );
    Ok(status_number(&status))
}

/// Router 0's first call and router 1's first call behind its first event wait for each other.
#[derive(Drop)]
struct Meeting {
    of_the_first: AtomicU64,
    of_the_second: AtomicU64,
    misses: AtomicU64,
}

impl Meeting {
    /// The first call counted here waits for one that is counted there.
    fn meet(&self, own: &AtomicU64, other: &AtomicU64) {
        if count_one(own) == 0 && !waits_for(other, 1) {
            count_one(&self.misses);
        }
    }
}

impl Gate for Meeting {
    fn enter(&self, router: u16, place: u64) {
        if router == 0 {
            self.meet(&self.of_the_first, &self.of_the_second);
        } else if place >= 1 {
            self.meet(&self.of_the_second, &self.of_the_first);
        }
    }
}

/// A worker that computes while it has the turn, or that handles an event only when no earlier one can come, makes
/// the other wait in vain.
#[test]
fn workers_handle_what_has_come(rt: HostRuntime) -> Result<(), NoMemory> {
    let gate = Meeting {
        of_the_first: AtomicU64::new(0),
        of_the_second: AtomicU64::new(0),
        misses: AtomicU64::new(0),
    };
    let words = ["run", "--workers", "2"];
    let status = run(&rt, rt.alloc(), &words, PAIR, &gate)?;
    assert!(rt; status == 0);
    assert!(rt; gate.of_the_second.load(Ordering::SeqCst) >= 1);
    assert!(rt; gate.misses.load(Ordering::SeqCst) == 0);
    Ok(())
}

/// The first four calls wait for one another, and then stay on for a while.
#[derive(Drop)]
struct Crowd {
    entered: AtomicU64,
    inside: AtomicU64,
    too_many: AtomicU64,
    misses: AtomicU64,
}

/// As many calls wait for one another.
const CROWD: u64 = 4;

impl Gate for Crowd {
    fn enter(&self, _router: u16, _place: u64) {
        if count_one(&self.inside) >= CROWD {
            count_one(&self.too_many);
        }
        if count_one(&self.entered) < CROWD {
            if !waits_for(&self.entered, CROWD) {
                count_one(&self.misses);
            }
            stays(1_000);
        }
        self.inside.fetch_sub(1, Ordering::SeqCst);
    }
}

#[test]
fn as_many_workers_as_the_words_say(rt: HostRuntime) -> Result<(), NoMemory> {
    let gate = Crowd {
        entered: AtomicU64::new(0),
        inside: AtomicU64::new(0),
        too_many: AtomicU64::new(0),
        misses: AtomicU64::new(0),
    };
    let words = ["run", "--workers", "4"];
    let status = run(&rt, rt.alloc(), &words, SIX, &gate)?;
    assert!(rt; status == 0);
    assert!(rt; gate.misses.load(Ordering::SeqCst) == 0);
    assert!(rt; gate.too_many.load(Ordering::SeqCst) == 0);
    Ok(())
}
