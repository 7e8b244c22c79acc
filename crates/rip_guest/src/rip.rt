//! The guest, and its step by cases on the input.

ghost use Rattle.std.specs.Prelude.{◌≡◌, ◌↔◌, ◌≤◌, ◌++◌, IsTrue, IfOk, OnOk, length, map, min, refl};
ghost use Rattle.dn_guest.specs.KeepsFront.{KeepsFront};
ghost use Rattle.rip_table.specs.Held.{settled};
ghost use Rattle.rip_table.specs.Own.{with_own};
ghost use Rattle.rip_table.specs.Routes.{all_changed};
ghost use Rattle.rip_wire.specs.Constants.{infinity};
ghost use Rattle.rip_wire.specs.Reading.{message_at};
ghost use Rattle.rip_guest.specs.ImageTells.{same_by_image};
ghost use Rattle.rip_guest.specs.Rip.{rip};
ghost use Rattle.rip_guest.specs.State.{has_port, opening, opening_routes, with_routes};
ghost use Rattle.rip_guest.specs.Updates.{updates};
ghost use Rattle.rip_guest.specs.Step.{handled, handled_outs, is_passed_over, outs_of_message, routes_after_message};
ghost use Rattle.rip_guest.specs.Step.{tick_outs, tick_routes, triggered_sent, triggered_update};

use crate::RipSettings;
use crate::commands::command;
use crate::image::push_image;
use crate::requests::answer_request;
use crate::responses::take_response;
use crate::show::push_show;
use crate::updates::{put_request, put_requests, put_updates};
use dn_guest::{Bytes, Guest, Input, Outbox};
use dn_net::{Costs, PrefixList};
use rip_table::Table;
use rip_wire::{INFINITY, LAST_TICK_TAKEN, REQUEST, UPDATE_INTERVAL, decode};
use std::alloc::{AllocError, Global};
use std::marker::Model;

/// A RIP router. Contracts see its number, the last tick, the cost of each port and its routes.
#[derive(Drop)]
pub struct Rip {
    number: u16,
    /// 0 before the first tick.
    last_tick: u32,
    costs: Vec<u8>,
    table: Table,
}

impl Model for Rip {
    ghost use Rattle.std.specs.Prelude.{◌≤◌, length};
    ghost use Rattle.rip_guest.specs.State.{RipState, state_of};

    ghost Value = { RipState };

    ghost view = { λ r. state_of r.number r.last_tick r.costs.items r.table };

    ghost invariant = { λ r. length r.costs.items ≤ 16 };
}

/// The costs of the ports, each at most 16.
fn kept_costs(alloc: Global, costs: &Costs) -> Result<Vec<u8>, AllocError>
    ensures { IfOk result (λ kept. kept.items ≡ map (min infinity) costs.now) }
{
    let mut kept = Vec::new(alloc);
    for cost in costs.as_slice() {
        kept.push((*cost).min(u16::from(INFINITY)) as u8)?;
    }
    Ok(kept)
}

/// Sets an own network at tick 0.
fn connect_at_start(table: &mut Table, prefix: (u32, u8, u16)) -> Result<(), AllocError>
    ensures { OnOk result (table.new ≡ with_own table.old prefix.0 prefix.1 (min infinity prefix.2) 0) }
{
    let (address, len, metric) = prefix;
    table.connect(address, len, metric.min(u16::from(INFINITY)) as u8, 0)
}

/// A table with the own networks at tick 0, none of them marked as changed.
fn opening_table(alloc: Global, prefixes: &PrefixList) -> Result<Table, AllocError>
    ensures { IfOk result (λ table. table ≡ opening_routes prefixes.now) }
{
    let mut table = Table::new(alloc);
    for prefix in prefixes.as_slice() {
        connect_at_start(&mut table, *prefix)?;
    }
    table.settle();
    Ok(table)
}

impl Rip {
    /// A router that begins with these settings, which have at most 16 ports.
    pub fn new(alloc: Global, settings: &RipSettings) -> Result<Rip, AllocError>
        requires { length settings.now.costs ≤ 16 }
        ensures { IfOk result (λ made. made ≡ opening settings.now.number settings.now.costs settings.now.prefixes) }
    {
        Ok(Rip {
            number: settings.number,
            last_tick: 0,
            costs: kept_costs(alloc, &settings.costs)?,
            table: opening_table(alloc, &settings.prefixes)?,
        })
    }

    /// How many ports the router has.
    fn port_count(&self) -> u8
        ensures count { result ≡ length self.now.costs }
        ensures few { result ≤ 16 }
    {
        self.costs.len() as u8
    }

    /// Whether the router has this port.
    fn has_port(&self, port: u8) -> bool
        ensures { result ≡ has_port self.now port }
    {
        port < self.port_count()
    }

    /// Puts out an update on each up port, of all routes or of those alone that changed, and takes the marks
    /// away (RFC 2453 sections 3.10 and 3.10.1).
    fn update(
        &mut self,
        alloc: Global,
        ports: u16,
        only_changed: bool,
        out: &mut Outbox,
    ) -> Result<(), AllocError>
        ensures state { OnOk result (self.new ≡ with_routes self.old (all_changed settled self.old.routes)) }
        ensures outputs { OnOk result (out.new
            ≡ out.old ++ updates only_changed self.old.routes ports (length self.old.costs)) }
    {
        let count = self.port_count();
        put_updates(alloc, ports, count, &self.table, only_changed, out)?;
        self.table.settle();
        Ok(())
    }

    /// A tick: the timers (RFC 2453 section 3.8), a request for the whole table at tick 0 (section 3.9.1), and the
    /// regular update (section 3.8). In this profile it goes out at the ticks that are equal to the router's number
    /// modulo 30, without a random offset.
    fn tick(
        &mut self,
        alloc: Global,
        ports: u16,
        group: u32,
        out: &mut Outbox,
    ) -> Result<(), AllocError>
        ensures state { OnOk result (self.new
            ≡ record self.old { last_tick = group; routes = tick_routes self.old group }) }
        ensures outputs { OnOk result (out.new ≡ out.old ++ tick_outs ports self.old group) }
    {
        self.last_tick = group;
        // section 3.8: the timeouts, then the garbage collection
        self.table.tick(group);
        // section 3.9.1: a router that has just come up asks its neighbours for the whole table
        if group == 0 {
            put_requests(alloc, ports, self.port_count(), out)?;
        }
        // section 3.8: every 30 seconds
        if group % UPDATE_INTERVAL == u32::from(self.number) % UPDATE_INTERVAL {
            self.update(alloc, ports, false, out)?;
        }
        Ok(())
    }

    /// A message on a port of the router: a request (RFC 2453 section 3.9.1) or a response (section 3.9.2). Bytes that
    /// are none do nothing.
    fn message(
        &mut self,
        alloc: Global,
        port: u8,
        body: &[u8],
        out: &mut Outbox,
    ) -> Result<(), AllocError>
        requires { IsTrue (has_port self.old port) }
        ensures state { OnOk result (self.new
            ≡ with_routes self.old (routes_after_message self.old port (message_at body.now))) }
        ensures outputs { OnOk result (out.new ≡ out.old ++ outs_of_message self.old port (message_at body.now)) }
    {
        let Some(message) = decode(alloc, body)? else {
            return Ok(());
        };
        let entries = message.entries.as_slice();
        // section 3.9.1
        if message.command == REQUEST {
            return answer_request(alloc, &self.table, port, entries, out);
        }
        // section 3.9.2; the other command is a response
        let cost = self.costs[usize::from(port)];
        take_response(&mut self.table, port, cost, self.last_tick, entries)
    }

    /// What an input does before the triggered update at the end of the step. Commands, and what Down and Up do, are
    /// this project's own.
    fn handle(
        &mut self,
        alloc: Global,
        ports: u16,
        input: &Input,
        out: &mut Outbox,
    ) -> Result<(), AllocError>
        ensures state { OnOk result (self.new ≡ handled self.old input.now) }
        ensures outputs { OnOk result (out.new ≡ out.old ++ handled_outs ports self.old input.now) }
    {
        match input {
            // sections 3.8 and 3.9.1
            Input::Tick(group) => self.tick(alloc, ports, *group, out)?,
            // this profile: own networks are set and withdrawn
            Input::Cmd(body) => command(&mut self.table, self.last_tick, body.as_slice())?,
            // this profile: the routes by the port are lost
            Input::Down(port) if self.has_port(*port) => self
                .table
                .lose_port(*port, self.last_tick),
            // section 3.9.1: the neighbour is asked for the whole table
            Input::Up(port) if self.has_port(*port) => put_request(alloc, *port, out)?,
            // sections 3.9.1 and 3.9.2
            Input::Msg(port, body) if self.has_port(*port) => {
                self.message(alloc, *port, body.as_slice(), out)?
            }
            _ => {}
        }
        Ok(())
    }

    /// The end of the step: a triggered update if some route changed (RFC 2453 section 3.10.1). This profile sends it
    /// at once, without a wait of 1 to 5 seconds.
    fn trigger_update(
        &mut self,
        alloc: Global,
        ports: u16,
        out: &mut Outbox,
    ) -> Result<(), AllocError>
        ensures state { OnOk result (self.new ≡ triggered_sent self.old) }
        ensures outputs { OnOk result (out.new ≡ out.old ++ triggered_update ports self.old) }
    {
        // section 3.10.1: the changed routes alone
        if self.table.changed() {
            self.update(alloc, ports, true, out)?;
        }
        Ok(())
    }

    /// Whether the input is a tick before the last one, or past 65,535, which is this project's own.
    fn is_passed_over(&self, input: &Input) -> bool
        ensures { result ≡ is_passed_over self.now input.now }
    {
        match input {
            Input::Tick(group) => *group < self.last_tick || LAST_TICK_TAKEN < *group,
            _ => false,
        }
    }
}

impl Guest for Rip {
    ghost meaning = { rip };

    ghost sort_stays = { λ _ _ _. refl };

    ghost image_tells = { λ one other _ same. same_by_image one other same };

    fn step(
        &mut self,
        alloc: Global,
        ports: u16,
        input: &Input,
        out: &mut Outbox,
    ) -> Result<(), AllocError> {
        if self.is_passed_over(input) {
            return Ok(());
        }
        self.handle(alloc, ports, input, out)?;
        self.trigger_update(alloc, ports, out)
    }

    fn fork(&self, alloc: Global) -> Result<Self, AllocError> {
        Ok(Rip {
            number: self.number,
            last_tick: self.last_tick,
            costs: self.costs.clone()?,
            table: self.table.fork(alloc)?,
        })
    }

    fn same(&self, other: &Self) -> bool {
        self.number == other.number
            && self.last_tick == other.last_tick
            && self.costs == other.costs
            && self.table.same(&other.table)
    }

    fn sort(&self) -> u8 {
        2
    }

    fn image(&self, _alloc: Global, out: &mut Bytes) -> Result<(), AllocError> {
        push_image(self.number, self.last_tick, &self.costs, &self.table, out)
    }

    fn show(&self, _alloc: Global, out: &mut Bytes) -> Result<(), AllocError> {
        push_show(&self.table, out)
    }
}
