//! The step by cases on the input: a packet goes by its type to what takes it (RFC 2328 section 8.2), and a
//! port that goes down takes its neighbour Down (section 9.3). That ticks and commands are inputs too is this
//! project's own.

ghost use Rattle.std.specs.Prelude.{◌≡◌, ◌<◌, OnOk, false, length};
ghost use Rattle.ospf_wire.specs.Packets.{IsEncodable};
ghost use Rattle.ospf_router.specs.Step.{IsTaken, receive_body, handled, is_from_full, is_passed_over, receive_message, next, port_down, stepped};

use crate::command::command;
use crate::router::Router;
use dn_guest::Input;
use ospf_wire::{BACKBONE, Body, Packet, decode};
use std::alloc::{AllocError, Global};

/// The last tick that is taken.
const LAST_TICK: u32 = 65_535;

impl Router {
    /// Whether a packet of this router id is from the Full neighbour at the port (RFC 2328 section 8.2).
    fn is_from_full(&self, port: u8, from: u32) -> bool
        requires { port < length self.now.interfaces.ports }
        ensures { result ≡ is_from_full port from self.now }
    {
        self.interfaces.neighbour(port).is_full_of(from)
    }

    /// The body of a packet of area 0 that comes on a port, by its type (RFC 2328 section 8.2).
    #[tactic(auto, unfolding(crate::specs::Step::receive_body))]
    fn receive_body(
        &mut self,
        alloc: Global,
        ports: u16,
        port: u8,
        packet: &Packet,
    ) -> Result<(), AllocError>
        requires port { port < length self.old.interfaces.ports }
        requires lengths { IsEncodable packet.now }
        ensures { OnOk result (self.new ≡ receive_body ports port packet.now.router packet.now.body self.old) }
    {
        let from = packet.router;
        // RFC 2328 section 8.2, the last paragraph: a Hello counts from any router, other packets from a
        // neighbour alone; section 13: from a Full one (this profile has no states between).
        match &packet.body {
            Body::Hello(hello) => self.receive_hello(alloc, port, from, hello)?,
            Body::Update(lsas) if self.is_from_full(port, from) => {
                let full = self.interfaces.full_mask(ports);
                self.receive_update(alloc, full, port, lsas.as_slice())?
            }
            Body::Ack(heads) if self.is_from_full(port, from) => {
                self.receive_acknowledgement(port, heads.as_slice())
            }
            Body::Update(_) | Body::Ack(_) => {}
        }
        Ok(())
    }

    /// A message on a port (RFC 2328 section 8.2).
    #[tactic(auto, unfolding(crate::specs::Step::receive_message))]
    fn receive_message(
        &mut self,
        alloc: Global,
        ports: u16,
        port: u8,
        bytes: &[u8],
    ) -> Result<(), AllocError>
        ensures { OnOk result (self.new ≡ receive_message ports port bytes.now self.old) }
    {
        if !self.interfaces.has_port(port) {
            return Ok(());
        }
        // RFC 2328 section 8.2: the OSPF header, by the grammar of packets.
        let Some(packet) = decode(alloc, bytes)? else {
            return Ok(());
        };
        // RFC 2328 section 8.2, the area id, test (1); this profile: area 0 alone.
        if packet.area != BACKBONE {
            return Ok(());
        }
        self.receive_body(alloc, ports, port, &packet)
    }

    /// The neighbour at a port that goes down is Down (RFC 2328 section 9.3, InterfaceDown, and section 10.3,
    /// LLDown).
    #[tactic(auto, unfolding(crate::specs::Step::port_down))]
    fn port_down(&mut self, port: u8)
        ensures { self.new ≡ port_down port self.old }
    {
        if self.interfaces.has_port(port) {
            self.interfaces.neighbour_down(port);
        }
    }

    /// What an input does before the end of the step.
    #[tactic(auto, unfolding(crate::specs::Step::handled))]
    fn handle(&mut self, alloc: Global, ports: u16, input: &Input) -> Result<(), AllocError>
        requires { IsTaken input.now }
        ensures { OnOk result (self.new ≡ handled ports input.now self.old) }
    {
        match input {
            Input::Tick(group) => self.tick(alloc, ports, *group as u16)?,
            Input::Cmd(body) => command(&mut self.prefixes, body.as_slice())?,
            Input::Down(port) => self.port_down(*port),
            // RFC 2328 section 9.3, InterfaceUp; this profile: no Hello goes out before the next tick of
            // Hellos.
            Input::Up(_) => {}
            Input::Msg(port, bytes) => self.receive_message(alloc, ports, *port, bytes.as_slice())?,
        }
        Ok(())
    }

    /// Whether the input is a tick before the last one, or past 65,535.
    fn passes_over(&self, input: &Input) -> bool
        ensures test { result ≡ is_passed_over self.now.tick input.now }
        ensures taken { result ≡ false → IsTaken input.now }
    {
        match input {
            Input::Tick(group) => *group < u32::from(self.tick) || LAST_TICK < *group,
            _ => false,
        }
    }

    /// A step that isn't passed over.
    #[tactic(auto, unfolding(crate::specs::Step::stepped))]
    fn run(&mut self, alloc: Global, ports: u16, input: &Input) -> Result<(), AllocError>
        requires { IsTaken input.now }
        ensures { OnOk result (self.new ≡ stepped ports input.now self.old) }
    {
        self.handle(alloc, ports, input)?;
        self.finish_step(alloc, ports)
    }

    /// A step: the state changes, and what is put out stands behind what stood in `out`. A tick before the
    /// last one, or past 65,535, does nothing. After `NoMemory` nothing is said of the router.
    #[tactic(auto, unfolding(crate::specs::Step::next))]
    pub fn step(&mut self, alloc: Global, ports: u16, input: &Input) -> Result<(), AllocError>
        ensures { OnOk result (self.new ≡ next ports input.now self.old) }
    {
        if self.passes_over(input) {
            return Ok(());
        }
        self.run(alloc, ports, input)
    }
}
