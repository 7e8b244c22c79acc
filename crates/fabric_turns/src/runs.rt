//! A run: its case, its fabric, and the outcomes that were set aside.

use crate::acts::{finish, lease, take, work};
use crate::drives::{opening, replayed, shaken};
use crate::shown::{
    committed, push_accepted, push_ended, push_header, push_rows, push_state, push_steps,
    push_turn, steps_of_fabric,
};
use crate::words::{Act, Ask, Word, steps_of, word_of};
use dn_case::read_case;
use dn_fabric::{Fabric, Finished};
use dn_guest::{Flood, NoMemory};
use dn_model::Case;
use dn_router::{Order, Outcome};
use std::alloc::Global;
use table_program::{Bench, Out};

/// The run that began last.
#[derive(Drop)]
pub(crate) struct Runs {
    run: Option<Run>,
}

/// A run of a case.
#[derive(Drop)]
struct Run {
    case: Case,
    fabric: Fabric<Flood>,
    /// The outcomes of orders that were given out, the first one first.
    aside: Vec<Outcome<Flood>>,
}

impl Bench for Runs {
    fn take(&mut self, alloc: Global, text: &[u8], out: &mut Out) -> Result<bool, NoMemory> {
        if text.starts_with(b"defined ") {
            return self.begin(alloc, text, out);
        }
        match self.run.as_mut() {
            Some(run) => run.follow(alloc, text, out),
            None => Ok(false),
        }
    }
}

/// The case of a text; None where it can't be read.
fn case_of(alloc: Global, text: &[u8]) -> Option<Case> {
    match read_case(alloc, text) {
        Ok((case, _size)) => Some(case),
        Err(_) => None,
    }
}

impl Runs {
    pub(crate) fn new() -> Runs {
        Runs { run: None }
    }

    /// A run of the case begins. Whether it could be read.
    fn begin(&mut self, alloc: Global, text: &[u8], out: &mut Out) -> Result<bool, NoMemory> {
        let Some(case) = case_of(alloc, text) else {
            return Ok(false);
        };
        let run = Run::new(alloc, case)?;
        run.push(out);
        self.run = Some(run);
        Ok(true)
    }
}

impl Run {
    /// The run before its first step.
    fn new(alloc: Global, case: Case) -> Result<Run, NoMemory> {
        let fabric = opening(alloc, &case)?;
        Ok(Run {
            case,
            fabric,
            aside: Vec::new(alloc),
        })
    }

    /// Tells how the fabric is.
    fn push(&self, out: &mut Out) {
        out.text("= ");
        push_turn(&self.fabric, out);
    }

    /// The case goes on with this fabric, and no outcome is set aside.
    fn go_on(&mut self, alloc: Global, fabric: Fabric<Flood>) {
        self.fabric = fabric;
        self.aside = Vec::new(alloc);
    }

    /// Replays the journal in the case from its begin, and tells what it came to. Whether it could be read.
    fn replay(&mut self, alloc: Global, text: &[u8], out: &mut Out) -> Result<bool, NoMemory> {
        let Some(steps) = steps_of(alloc, &self.case.header, text) else {
            return Ok(false);
        };
        let (fabric, ended) = replayed(alloc, &self.case, steps.as_slice())?;
        self.go_on(alloc, fabric);
        push_ended("= ", ended, out);
        self.push(out);
        Ok(true)
    }

    /// Takes so many turns of the number's schedule from the begin of the case, and replays the journal. Tells
    /// what both came to, and whether both have the same rows.
    fn shake(
        &mut self,
        alloc: Global,
        number: u64,
        turns: u64,
        out: &mut Out,
    ) -> Result<(), NoMemory> {
        let (fabric, ended) = shaken(alloc, &self.case, number, turns)?;
        self.go_on(alloc, fabric);
        push_ended("= ", ended, out);
        self.push_again(alloc, out)
    }

    /// Replays the journal beside the fabric, and tells what it came to, and whether both have the same rows.
    fn push_again(&self, alloc: Global, out: &mut Out) -> Result<(), NoMemory> {
        let (again, ended) = replayed(alloc, &self.case, steps_of_fabric(&self.fabric))?;
        push_ended("= again ", ended, out);
        out.flag(
            committed(&again) != committed(&self.fabric),
            "= other rows\n",
        );
        Ok(())
    }

    /// Gives the router's order out, computes it, and sets the outcome aside. Tells how many events led to the
    /// order's base.
    fn lease(&mut self, router: u16, out: &mut Out) -> Result<bool, NoMemory> {
        match lease(&mut self.fabric, router)? {
            Some(order) => {
                out.number("order at ", order.place());
                out.text("; ");
                self.set_aside(order)?;
                Ok(true)
            }
            None => Ok(false),
        }
    }

    /// Computes the order, and sets the outcome aside.
    fn set_aside(&mut self, order: Order<Flood>) -> Result<(), NoMemory> {
        self.aside.push(order.compute()?)?;
        Ok(())
    }

    /// The place of the outcome that was set aside first for the router; past all where there is none.
    fn place_aside(&self, router: u16) -> usize {
        for place in 0..self.aside.len() {
            if self.aside[place].router() == router {
                return place;
            }
        }
        self.aside.len()
    }

    /// Brings the outcome back that was set aside first for the router, and tells what became of it.
    fn finish(&mut self, router: u16, out: &mut Out) -> Result<bool, NoMemory> {
        let place = self.place_aside(router);
        if place >= self.aside.len() {
            return Ok(false);
        }
        let outcome = self.aside.remove(place);
        let finished = finish(&mut self.fabric, outcome)?;
        out.text(match finished {
            Some(Finished::Applied) => "applied; ",
            Some(Finished::Stale) => "stale; ",
            None => "",
        });
        Ok(finished.is_some())
    }

    /// Does what is said if it may be done, and tells what was answered. Whether it could be done.
    fn act(&mut self, alloc: Global, act: Act, out: &mut Out) -> Result<bool, NoMemory> {
        match act {
            Act::Take(step) => take(alloc, &mut self.fabric, step, out),
            Act::Lease(router) => self.lease(router, out),
            Act::Finish(router) => self.finish(router, out),
            Act::Work => work(alloc, &mut self.fabric),
            Act::Stop => {
                self.fabric.stop();
                Ok(true)
            }
        }
    }

    /// Does what is said, and tells how the fabric is then.
    fn turn(&mut self, alloc: Global, act: Act, out: &mut Out) -> Result<(), NoMemory> {
        out.text("= ");
        let could = self.act(alloc, act, out)?;
        out.flag(!could, "not now; ");
        push_turn(&self.fabric, out);
        Ok(())
    }

    /// Tells what is asked for.
    fn tell(&mut self, alloc: Global, ask: Ask, out: &mut Out) -> Result<(), NoMemory> {
        match ask {
            Ask::Shake(number, turns) => return self.shake(alloc, number, turns, out),
            Ask::State(router) => return push_state(alloc, &self.fabric, router, out),
            Ask::Rows => push_rows(&self.fabric, out),
            Ask::Steps => push_steps(&self.fabric, out),
            Ask::Header => push_header(&self.fabric, out),
            Ask::Accepted => push_accepted(&self.fabric, out),
        }
        Ok(())
    }

    /// Replays the journal, or does what the line says. Whether the text could be read.
    fn follow(&mut self, alloc: Global, text: &[u8], out: &mut Out) -> Result<bool, NoMemory> {
        if text.starts_with(b"journal\n") {
            return self.replay(alloc, text, out);
        }
        match word_of(alloc, &self.case.header, text)? {
            Some(Word::Act(act)) => self.turn(alloc, act, out)?,
            Some(Word::Ask(ask)) => self.tell(alloc, ask, out)?,
            None => return Ok(false),
        }
        Ok(true)
    }
}
