//! The turn: a lock around one value, whose holders know what the value has logged.
//!
//! Threads that share a `Turn` have a seat each (`TurnSeat`). A seat tries to take the value (`try_take`), changes
//! it, and puts it back (`put`). A try never waits: when another seat has the value, it answers `None`. As with
//! any lock at most one seat has the value at a time. What a mutex can't say, a turn says: the value keeps a log
//! (`dn_world::Kept`), and a seat knows the log as it last saw it (`seen`). The next value that the seat takes has
//! a log that begins with `seen`, the same header and the same opening guests; and what the seat itself did stands
//! in that log at its place (`mine`). So a thread can rely on its own work, whatever the others did between.
//!
//! | File | What it has |
//! |---|---|
//! | `turn.rt` | `Turn` and `TurnSeat` with their calls |
//! | `view.rt` | what a seat at the table knows, and the rule that every step keeps |
//! | `steps.rt` | what each step on the table tells the seat that makes it |
//! | `specs/Seat.antt` | a seat as contracts see it |
//! | `specs/Rule.antt` | the rule: who may have the value, and what every seat's knowledge has to do with the log |
//! | `specs/Places.antt` | places in a log |
//!
//! One seat has the right to feed the case: it alone may add a Beacon, an Inject or a Close to the log. The first
//! seat has it, and may hand it to one that it splits off. At the end seats are joined into the first one, and
//! `close` gives the value back.
//!
//! The one contract upwards: the clauses of `Turn::try_take`, `put`, `split_seat`, `join_seat` and `close`. A turn
//! stands on `atomic_table` with one word (0: the value is in its slot, 1: a seat has it) and one slot. No call
//! waits, and none but `new` takes memory.
#![tactic(auto)]

mod steps;
mod turn;
mod view;

pub use turn::{Turn, TurnSeat};
pub use view::View;
