//! A fabric driven on one thread: by the steps of a journal, or by a schedule that is drawn from a number.
//!
//! A fabric (`dn_fabric`) takes the steps that it is told to take, in whatever order. Here the order is
//! stated. `replay` takes the steps of a journal, one after another, and says which is the first that a run
//! of the case could not take there. `shake` makes a run up: at each turn it lists the steps that may be
//! taken, draws a number from the one before, and takes the step at that place. Both go no further than a
//! step that leaves more rows below the boundary than a trace shows.
//!
//! A step may be taken where it is enabled in the fabric's world (`dn_world`), and the case asks for it or
//! leaves it free: a Beacon only where the next external, if there is one, is of a later group; an Inject of
//! the next external; a Close after all of them.
//!
//! | File | What it has |
//! |---|---|
//! | `replaying.rt` | `replay` |
//! | `shaking.rt` | `shake` |
//! | `ended.rt` | `Ended`, what the steps came to |
//! | `allowed.rt` | whether a step may be taken |
//! | `choices.rt` | what a turn of a schedule chooses from: how many of each kind, and the one at a place |
//! | `laws.rt` | what the steps are that come to each answer, those that are taken, and those of a schedule; only a Commit cuts |
//! | `taking.rt` | taking one step; a Handle is a lease, its computation, and the outcome that comes back |
//! | `specs/Allowed.antt` | allowed steps, and what the steps of a journal come to |
//! | `specs/Outcomes.antt` | where steps stop at Illegal and at Open |
//! | `specs/Choices.antt` | what a turn chooses from, and the schedule of a number |
//! | `specs/Endings.antt` | how a fabric stands after a drive |
//!
//! The one contract upwards: `replay` and `shake` answer what the definitions say, for every network of the
//! fabric's header and opening guests. At `Whole` the fabric's rows are those of the lockstep trace of the
//! case and no more, its nodes have handled the lockstep lists, and its journal is a legal run that feeds the
//! case; at `Cut` its rows are those of the lockstep trace, which is cut there.
#![tactic(auto)]

mod allowed;
mod choices;
mod ended;
pub mod laws;
mod replaying;
mod shaking;
mod taking;

pub use ended::Ended;
pub use replaying::replay;
pub use shaking::shake;
