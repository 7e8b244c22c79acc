//! The engine as the definition says it: all events that wait stand in one list, which is searched for the
//! least each time. It is plain and slow on purpose, and is run beside `Engine` alone.

ghost use Rattle.std.specs.Prelude.{◌≡◌, ◌+◌, ◌<◌, ◌≤◌, ◌++◌, [], ℕ, List, Some, true, length, slice_get, slice_index_or, IfOk, OnOk, OnErr, IsErr};
ghost use Rattle.dn_model.specs.declared.feed.External.{External};
ghost use Rattle.dn_model.specs.declared.event.Event.{Event};
ghost use Rattle.dn_model.specs.Network.{Network, externals, routers};
ghost use Rattle.dn_model.specs.Settled.{row_limit, rows};
ghost use Rattle.dn_lockstep.specs.Agendas.{group_ticks, later_ticks};
ghost use Rattle.dn_lockstep.specs.Least.{IsUpTo};
ghost use Rattle.dn_lockstep.specs.Running.{StandsIn};
ghost use Rattle.dn_lockstep.specs.Steps.{AreInside, IsHandled};
ghost use Rattle.dn_lockstep.specs.Answers.{answer_after, HasMoved};

use dn_guest::{Guest, NoMemory, Node};
use dn_lockstep::{Next, opening_nodes};
use dn_model::{Case, Event, External, Header, Row, emitted, row_limit};
use std::alloc::{AllocError, Global};
use std::marker::Model;

/// A run, as `Engine` is, whose waiting events stand in a list.
#[derive(Drop)]
pub(crate) struct PlainEngine<G: Guest> {
    header: Header,
    nodes: Vec<Node<G>>,
    waiting: Vec<Event>,
    place: u64,
    last: Option<Row>,
    spent: bool,
}

impl<G: Guest> Model for PlainEngine<G> {
    ghost use Rattle.dn_lockstep.specs.Running.{Running};
    ghost use Rattle.dn_plain.specs.Plain.{IsPlain};

    ghost Value = { Running G };

    ghost view = { λ e. record { header = e.header; nodes = e.nodes.items; waiting = e.waiting.items; place = e.place; last = e.last; spent = e.spent } };

    ghost invariant = { λ e. IsPlain e.header e.nodes.items e.waiting.items e.place e.spent };
}

impl<G: Guest> PlainEngine<G> {
    /// Before the first row, with these guests at routers 0, 1, ..
    pub(crate) fn new(
        alloc: Global,
        case: &Case,
        guests: Vec<G>,
    ) -> Result<PlainEngine<G>, NoMemory>
        requires { length guests.items ≡ length case.now.header.routers }
        ensures { IfOk result (λ made. (net : Network G) → net.header ≡ case.now.header → net.guests ≡ G.meaning →
            ((r : ℕ) → r < routers net → slice_get guests.items r ≡ Some (net.opening r)) →
            StandsIn net case.now.feed made) }
    {
        dn_model::laws::order_of_events();
        dn_model::laws::cases_are_timed::<G>();
        dn_model::laws::rows_one_by_one::<G>();
        dn_model::laws::lists_of_routers::<G>();
        let header = case.header.copy(alloc)?;
        let nodes = opening_nodes(alloc, &header, guests)?;
        let waiting = all_injected(alloc, &header, case.feed.as_slice())?;
        Ok(PlainEngine {
            header,
            nodes,
            waiting,
            place: 0,
            last: None,
            spent: false,
        })
    }

    /// Handles the next row, unless there is none or the row limit is reached.
    pub(crate) fn next(&mut self, alloc: Global) -> Result<Next, NoMemory>
        ensures answer { (net : Network G) (feed : List External) → net.guests ≡ G.meaning →
            StandsIn net feed self.old →
            IfOk result (λ answer. answer ≡ answer_after self.old.place (rows net feed)) }
        ensures moved { (net : Network G) (feed : List External) → net.guests ≡ G.meaning →
            StandsIn net feed self.old → IfOk result (λ answer. HasMoved net feed self.old answer self.new) }
        ensures spent { OnErr result (self.new.spent ≡ true) }
        ensures stays_spent { self.old.spent ≡ true → IsErr result }
    {
        dn_model::laws::one_settled_family::<G>();
        dn_model::laws::same_families::<G>();
        dn_model::laws::rows_one_by_one::<G>();
        dn_model::laws::lists_of_routers::<G>();
        if self.spent {
            return Err(AllocError);
        }
        if self.waiting.is_empty() {
            return Ok(Next::End);
        }
        if self.place == row_limit(&self.header) {
            return Ok(Next::Cut);
        }
        match handle_least(
            alloc,
            &self.header,
            self.nodes.as_mut_slice(),
            &mut self.waiting,
        ) {
            Ok(event) => {
                self.last = Some(event);
                self.place += 1;
                Ok(Next::Row)
            }
            Err(error) => {
                self.spent = true;
                Err(error)
            }
        }
    }

    /// The row handled last.
    pub(crate) fn last(&self) -> Option<&Row> {
        self.last.as_ref()
    }

    /// The least of what waits.
    pub(crate) fn peek(&self) -> Option<&Event> {
        if self.waiting.is_empty() {
            return None;
        }
        Some(&self.waiting[place_of_least(self.waiting.as_slice())])
    }

    /// The nodes, of routers 0, 1, ..
    pub(crate) fn nodes(&self) -> &[Node<G>] {
        self.nodes.as_slice()
    }

    /// The messages to a router that wait, in order.
    pub(crate) fn waiting(&self, alloc: Global, router: u16) -> Result<Vec<Event>, NoMemory> {
        let mut found = Vec::new(alloc);
        for event in self.waiting.as_slice() {
            if event.router == router && event.key.class == 2 {
                found.push(event.copy(alloc)?)?;
            }
        }
        found.sort_unstable();
        Ok(found)
    }
}

/// Takes the least event out, lets its router's node take it, and puts what that step emits with the
/// others.
fn handle_least<G: Guest>(
    alloc: Global,
    header: &Header,
    nodes: &mut [Node<G>],
    waiting: &mut Vec<Event>,
) -> Result<Event, NoMemory>
    requires one_each { length nodes.old ≡ length header.now.routers }
    requires inside { AreInside (length header.now.routers) waiting.old.items }
    requires more { 0 < length waiting.old.items }
    ensures { IfOk result (λ event. IsHandled G.meaning header.now nodes.old waiting.old.items event nodes.new waiting.new.items) }
{
    let event = waiting.remove(place_of_least(waiting.as_slice()));
    let sent = nodes[usize::from(event.router)].take(alloc, &event.input)?;
    let mut more = emitted(alloc, header, &event, sent.as_slice())?;
    waiting.append(&mut more)?;
    Ok(event)
}

/// The place of the least event.
fn place_of_least(events: &[Event]) -> usize
    requires { 0 < length events.now }
    ensures within { result < length events.now }
    ensures least { (d : Event) → IsUpTo (slice_index_or events.now result d) events.now }
{
    let mut least = 0usize;
    for place in 0..events.len() {
        if events[place].cmp(&events[least]).is_lt() {
            least = place;
        }
    }
    least
}

/// All that is injected: the externals, and each router's ticks.
fn all_injected(alloc: Global, header: &Header, feed: &[External]) -> Result<Vec<Event>, NoMemory>
    ensures { IfOk result (λ made. made.items ≡ externals 0 feed.now ++
        later_ticks 0 header.now.groups (length header.now.routers)) }
{
    let mut made = all_externals(alloc, feed)?;
    let routers = header.routers.as_slice().len() as u16;
    for group in 0..header.groups {
        push_ticks(&mut made, group, routers)?;
    }
    Ok(made)
}

/// The externals of a feed.
fn all_externals(alloc: Global, feed: &[External]) -> Result<Vec<Event>, NoMemory>
    ensures { IfOk result (λ made. made.items ≡ externals 0 feed.now) }
{
    let mut made = Vec::new(alloc);
    for (place, item) in feed.iter().enumerate() {
        made.push(Event::external(alloc, place as u64, item)?)?;
    }
    Ok(made)
}

/// The ticks of a group at so many routers.
#[tactic(auto, unfolding(dn_lockstep::specs::Agendas::group_ticks))]
fn push_ticks(events: &mut Vec<Event>, group: u32, routers: u16) -> Result<(), NoMemory>
    ensures { OnOk result (events.new.items ≡ events.old.items ++ group_ticks group routers) }
{
    for router in 0..routers {
        events.push(Event::tick(group, router))?;
    }
    Ok(())
}
