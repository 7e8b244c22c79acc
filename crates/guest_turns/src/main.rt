//! Plays tables of turns (`table_program`) with the guests of all kinds: what OSPF, RIP and flooding guests do with
//! single inputs. `tests/guest_turns/README.md` has the lines of a table, and says how to add one.
//!
//! | File | What it has |
//! |---|---|
//! | `routers.rt` | the routers of a table, and what each line does with them |
//! | `turns.rt` | what a router does with an input, and what is told of it |
//! | `settings.rt` | the guest that a `router` line tells |
//! | `ospf_state.rt` | the line of an OSPF router's state, from its image |
#![tactic(auto)]

mod ospf_state;
mod routers;
mod settings;
mod turns;

use routers::Routers;
use std::process::ExitCode;

fn main(rt: HostRuntime) -> ExitCode {
    table_program::run(&rt, "guest_turns", &mut Routers::new(rt.alloc()))
}
