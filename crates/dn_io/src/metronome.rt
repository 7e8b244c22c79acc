// What tells how much time has passed, in beats.
ghost use Rattle.std.specs.Prelude.{◌≡◌, Option, ℕ, None};
ghost use Rattle.dn_io.specs.Beats.{Passes, last_beat};

use std::marker::Model;
use std::rt::Clock;
use std::time::Instant;

/// What tells how many beats have passed. It never fails.
pub trait Metronome {
    /// The answers that it will give, by the number of the call from 0, where it tells them.
    ghost beats: { Self → Option (ℕ → ℕ) };

    /// How many beats have passed since it was made.
    fn passed(&mut self) -> u64
        ensures { Passes result (beats self.old) (beats self.new) };
}

/// A metronome in memory. It tells all its answers.
///
/// Seen as the list of the answers that it gives in turn; the last one comes again and again.
#[derive(Drop)]
pub struct MemBeats {
    answers: Vec<u64>,
    at: usize,
}

impl Model for MemBeats {
    ghost use Rattle.std.specs.Prelude.{◌≤◌, ◌-◌, List, ℕ, drop, vec_len};

    ghost Value = { List ℕ };

    ghost view = { λ b. drop b.at b.answers.items };

    ghost invariant = { λ b. b.at ≤ vec_len b.answers - 1 };
}

impl MemBeats {
    /// A metronome that gives these answers in turn, then the last one again, or 0 where there is none.
    pub fn new(answers: Vec<u64>) -> MemBeats
        ensures { result ≡ answers.items }
    {
        MemBeats { answers, at: 0 }
    }
}

impl Metronome for MemBeats {
    ghost use Rattle.std.specs.Prelude.{Some};
    ghost use Rattle.dn_io.specs.Beats.{in_turn};

    ghost beats = { λ b. Some (in_turn b) };

    fn passed(&mut self) -> u64 {
        match self.answers.as_slice().get(self.at) {
            None => 0,
            Some(answer) => {
                let answer = *answer;
                if self.at + 1 < self.answers.len() {
                    self.at += 1;
                }
                answer
            }
        }
    }
}

/// A metronome over a clock that never goes back, as the operating system's. A beat is 1,000 milliseconds,
/// counted from when it was made. Where the clock can't be read it repeats its last answer, which is 0 at
/// first; so it does always where the clock couldn't be read when it was made. It tells none of its answers.
#[derive(Drop)]
pub struct ClockBeats<C: Clock> {
    clock: C,
    start: Option<Instant>,
    last: u64,
}

impl<C: Clock> ClockBeats<C> {
    /// A metronome that begins now.
    pub fn new(clock: C) -> ClockBeats<C>
        ensures { last_beat result ≡ 0 }
    {
        let start = Instant::now(&clock).ok();
        ClockBeats {
            clock,
            start,
            last: 0,
        }
    }

    /// Whole beats since it was made, where the clock can be read.
    fn reading(&self) -> Option<u64> {
        let passed = self.start?.elapsed(&self.clock).ok()?;
        Some(passed.as_secs())
    }
}

impl<C: Clock> Metronome for ClockBeats<C> {
    ghost use Rattle.std.specs.Prelude.{None};

    ghost beats = { λ _. None };

    fn passed(&mut self) -> u64
        ensures beats { Passes result None None }
        // It keeps its last answer.
        ensures last { last_beat self.new ≡ result }
    {
        self.last = self.reading().unwrap_or(self.last);
        self.last
    }
}
