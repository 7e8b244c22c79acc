//! The engine.

ghost use Rattle.std.specs.Prelude.{◌≡◌, ◌↔◌, ◌+◌, ◌<◌, ◌≤◌, ◌++◌, ℕ, List, Some, None, true, length, slice_get, IfOk, IfErr, OnErr, IsErr, option_copied};
ghost use Rattle.std.specs.List.Sorted.{IsPermutation, IsSorted};
ghost use Rattle.dn_model.specs.declared.feed.External.{External};
ghost use Rattle.dn_model.specs.Order.{event_cmp};
ghost use Rattle.dn_model.specs.Network.{Network, routers, sent_to, state};
ghost use Rattle.dn_model.specs.Settled.{row_limit, rows};
ghost use Rattle.dn_model.specs.SoFar.{by_router};
ghost use Rattle.dn_lockstep.specs.Running.{Running, StandsIn, first_rows, messages};
ghost use Rattle.dn_lockstep.specs.Answers.{answer_after, HasMoved};

use crate::agenda::Agenda;
use crate::opening::opening_nodes;
use crate::step::handle_least;
use crate::wiring::Wiring;
use dn_guest::{Guest, NoMemory, Node};
use dn_model::{Case, Event, Header, Row, row_limit};
use std::alloc::{AllocError, Global};
use std::marker::Model;

/// What `Engine::next` did.
#[derive(Clone, Copy, Debug)]
pub enum Next {
    /// One row was handled.
    Row,
    /// All rows were handled before.
    End,
    /// As many rows as a trace shows were handled before, and there are more.
    Cut,
}

/// A run of a network in lockstep: the rows so far, and what waits.
#[derive(Drop)]
pub struct Engine<G: Guest> {
    header: Header,
    wiring: Wiring,
    nodes: Vec<Node<G>>,
    agenda: Agenda,
    place: u64,
    last: Option<Row>,
    spent: bool,
}

impl<G: Guest> Model for Engine<G> {
    ghost use Rattle.dn_lockstep.specs.Agendas.{waiting_in};
    ghost use Rattle.dn_lockstep.specs.Running.{Running};
    ghost use Rattle.dn_lockstep.specs.Steps.{IsSound};

    ghost Value = { Running G };

    ghost view = { λ e. record { header = e.header; nodes = e.nodes.items; waiting = waiting_in e.agenda; place = e.place; last = e.last; spent = e.spent } };

    ghost invariant = { λ e. IsSound e.header e.wiring e.nodes.items e.agenda e.place e.last e.spent };
}

impl<G: Guest> Engine<G> {
    /// The engine before the first row, with these guests at routers 0, 1, ..
    pub fn new(alloc: Global, case: &Case, guests: Vec<G>) -> Result<Engine<G>, NoMemory>
        requires { length guests.items ≡ length case.now.header.routers }
        ensures stands { IfOk result (λ made. (net : Network G) → net.header ≡ case.now.header →
            net.guests ≡ G.meaning → ((r : ℕ) → r < routers net → slice_get guests.items r ≡ Some (net.opening r)) →
            StandsIn net case.now.feed made) }
        ensures place { IfOk result (λ made. made.place ≡ 0) }
        ensures header { IfOk result (λ made. made.header ≡ case.now.header) }
    {
        dn_model::laws::order_of_events();
        dn_model::laws::cases_are_timed::<G>();
        dn_model::laws::rows_one_by_one::<G>();
        dn_model::laws::lists_of_routers::<G>();
        let header = case.header.copy(alloc)?;
        let wiring = Wiring::new(alloc, &header)?;
        let nodes = opening_nodes(alloc, &header, guests)?;
        let agenda = Agenda::new(alloc, &header, case.feed.as_slice())?;
        Ok(Engine {
            header,
            wiring,
            nodes,
            agenda,
            place: 0,
            last: None,
            spent: false,
        })
    }

    /// Handles the next row, unless there is none or the row limit is reached. After `NoMemory` the
    /// engine is spent; its place and last row stay.
    pub fn next(&mut self, alloc: Global) -> Result<Next, NoMemory>
        ensures answer { (net : Network G) (feed : List External) → net.guests ≡ G.meaning →
            StandsIn net feed self.old →
            IfOk result (λ answer. answer ≡ answer_after self.old.place (rows net feed)) }
        ensures moved { (net : Network G) (feed : List External) → net.guests ≡ G.meaning →
            StandsIn net feed self.old → IfOk result (λ answer. HasMoved net feed self.old answer self.new) }
        ensures spent { OnErr result (self.new.spent ≡ true) }
        ensures stays_spent { self.old.spent ≡ true → IsErr result }
        ensures onward { IfOk result (λ answer. answer ≡ Next.Row → (self.old.place < row_limit) ×
            (self.new.place ≡ self.old.place + 1)) }
        ensures header { self.new.header ≡ self.old.header }
        ensures kept { OnErr result ((self.new.place ≡ self.old.place) × (self.new.last ≡ self.old.last)) }
    {
        dn_model::laws::one_settled_family::<G>();
        dn_model::laws::same_families::<G>();
        dn_model::laws::rows_one_by_one::<G>();
        dn_model::laws::lists_of_routers::<G>();
        if self.spent {
            return Err(AllocError);
        }
        if self.agenda.is_empty() {
            return Ok(Next::End);
        }
        if self.place == row_limit(&self.header) {
            return Ok(Next::Cut);
        }
        match handle_least(
            alloc,
            &self.header,
            &self.wiring,
            self.nodes.as_mut_slice(),
            &mut self.agenda,
        ) {
            Ok(event) => {
                self.last = Some(event);
                self.place += 1;
                Ok(Next::Row)
            }
            Err(error) => {
                self.spent = true;
                Err(error)
            }
        }
    }

    /// The row handled last. None exactly at place 0.
    pub fn last(&self) -> Option<&Row>
        ensures row { option_copied result ≡ self.now.last }
        ensures none { (result ≡ None) ↔ (self.now.place ≡ 0) }
    {
        self.last.as_ref()
    }

    /// The next row, also beyond the row limit. None exactly where there is none.
    pub fn peek(&self) -> Option<&Event>
        ensures { (net : Network G) (feed : List External) → StandsIn net feed self.now →
            option_copied result ≡ slice_get (rows net feed) self.now.place }
    {
        dn_model::laws::rows_one_by_one::<G>();
        self.agenda.peek()
    }

    /// How many rows were handled.
    pub fn place(&self) -> u64
        ensures place { result ≡ self.now.place }
        ensures within { result ≤ row_limit }
    {
        self.place
    }

    /// The node of a router.
    pub fn node(&self, router: u16) -> &Node<G>
        requires { router < length self.now.header.routers }
        ensures value { slice_get self.now.nodes router ≡ Some result.now }
        ensures replay { (net : Network G) (feed : List External) → StandsIn net feed self.now →
            result.now ≡ state net router (by_router (first_rows net feed self.now.place) router) }
    {
        &self.nodes[usize::from(router)]
    }

    /// The messages to a router that the rows so far emitted and that aren't rows yet, in order.
    pub fn waiting(&self, alloc: Global, router: u16) -> Result<Vec<Event>, NoMemory>
        requires { router < length self.now.header.routers }
        ensures sorted { IfOk result (λ found. IsSorted event_cmp found.items) }
        ensures elements { IfOk result (λ found. IsPermutation
            (messages (by_router self.now.waiting router)) found.items) }
        ensures sent { (net : Network G) (feed : List External) → StandsIn net feed self.now →
            IfOk result (λ found. IsPermutation (sent_to net (by_router (first_rows net feed self.now.place)) router) (messages (by_router (first_rows net feed self.now.place) router) ++
            found.items)) }
    {
        dn_model::laws::order_of_events();
        dn_model::laws::lists_of_routers::<G>();
        let mut found = self.agenda.messages_to(alloc, router)?;
        found.sort_unstable();
        Ok(found)
    }
}
