//! The flooding guest: a body that is new is kept, and put out on every other port that is up.

ghost use Rattle.std.specs.Prelude.{◌≡◌, ◌↔◌, ◌++◌, [], IsTrue, IfOk, OnOk, refl};
ghost use Rattle.dn_guest.specs.Flood.{flood, is_new, with_body, flooded, copies, goes_to, flood_image, flood_show, seen_line, AreBodies};
ghost use Rattle.dn_guest.specs.FloodImage.{same_by_image};
ghost use Rattle.dn_guest.specs.KeepsFront.{KeepsFront};

use crate::body_set::BodySet;
use crate::hex::push_hex;
use crate::ports::is_up;
use crate::{Bytes, Guest, Input, Outbox};
use std::alloc::{AllocError, Global};
use std::collections::BTreeSet;
use std::marker::Model;

/// The greatest number of bodies that are kept.
const MOST_BODIES: usize = 65_535;

/// The bodies that came so far, each of 1 to 255 bytes. Contracts see them as a list in ascending order.
#[derive(Drop)]
pub struct Flood {
    bodies: BodySet,
}

impl Model for Flood {
    ghost use Rattle.std.specs.Prelude.{List, ℕ};
    ghost use Rattle.dn_guest.specs.Flood.{AreBodies};

    ghost Value = { List (List ℕ) };

    ghost view = { λ f. f.bodies };

    ghost invariant = { λ f. AreBodies f.bodies };
}

impl Flood {
    /// A guest that has seen nothing. It takes no memory.
    pub fn new(_alloc: Global) -> Flood
        ensures { result ≡ [] }
    {
        Flood {
            bodies: BodySet::new(),
        }
    }

    /// Whether the body is kept and put out.
    fn is_new(&self, body: &Bytes) -> bool
        ensures { result ≡ is_new self.now body.now }
    {
        (0 < body.len() && body.len() < 256)
            && (self.bodies.len() < MOST_BODIES && !self.bodies.has(body))
    }

    /// Keeps a body that is new, and puts it out on each up port but the one on which it came.
    fn flood(
        &mut self,
        alloc: Global,
        ports: u16,
        from: Option<u8>,
        body: &Bytes,
        out: &mut Outbox,
    ) -> Result<(), AllocError>
        ensures state { OnOk result (self.new ≡ with_body self.old body.now) }
        ensures outputs { OnOk result (out.new ≡ out.old ++ flooded ports from self.old body.now) }
    {
        if self.is_new(body) {
            put_copies(alloc, ports, from, body, out)?;
            self.bodies.insert(alloc, body.copy(alloc)?)?;
        }
        Ok(())
    }
}

/// Whether the port is up, and isn't the one on which the body came.
fn goes_to(ports: u16, from: Option<u8>, port: u8) -> bool
    ensures { result ≡ goes_to ports from port }
{
    match from {
        None => is_up(ports, port),
        Some(other) => is_up(ports, port) && port != other,
    }
}

/// Puts out the body on each such port, in ascending order.
fn put_copies(
    alloc: Global,
    ports: u16,
    from: Option<u8>,
    body: &Bytes,
    out: &mut Outbox,
) -> Result<(), AllocError>
    ensures { OnOk result (out.new ≡ out.old ++ copies ports from body.now) }
{
    for port in 0..16 {
        if goes_to(ports, from, port) {
            out.put(port, body.copy(alloc)?)?;
        }
    }
    Ok(())
}

impl Guest for Flood {
    ghost meaning = { flood };

    ghost sort_stays = { λ _ _ _. refl };

    ghost image_tells = { λ one other _ same. same_by_image one other same };

    fn step(
        &mut self,
        alloc: Global,
        ports: u16,
        input: &Input,
        out: &mut Outbox,
    ) -> Result<(), AllocError> {
        match input {
            Input::Cmd(body) => self.flood(alloc, ports, None, body, out),
            Input::Msg(port, body) => self.flood(alloc, ports, Some(*port), body, out),
            Input::Tick(_) | Input::Down(_) | Input::Up(_) => Ok(()),
        }
    }

    fn fork(&self, _alloc: Global) -> Result<Self, AllocError> {
        Ok(Flood {
            bodies: self.bodies.fork()?,
        })
    }

    fn same(&self, other: &Self) -> bool {
        self.bodies.same(&other.bodies)
    }

    fn sort(&self) -> u8 {
        0
    }

    fn image(&self, _alloc: Global, out: &mut Bytes) -> Result<(), AllocError> {
        match self.bodies.bodies() {
            Some(bodies) => push_image(bodies, out),
            None => out.append(&[0, 0]),
        }
    }

    fn show(&self, _alloc: Global, out: &mut Bytes) -> Result<(), AllocError> {
        match self.bodies.bodies() {
            Some(bodies) => push_show(bodies, out),
            None => Ok(()),
        }
    }
}

/// The number of bodies in two bytes, then each body behind its length.
fn push_image(bodies: &BTreeSet<Bytes>, out: &mut Bytes) -> Result<(), AllocError>
    requires { AreBodies bodies.now.keys }
    ensures ok { OnOk result (out.new ≡ out.old ++ flood_image bodies.now.keys) }
    ensures kept { KeepsFront out.old out.new }
{
    let count = bodies.len();
    out.push((count / 256) as u8)?;
    out.push((count % 256) as u8)?;
    for body in bodies.iter() {
        out.push(body.len() as u8)?;
        out.append(body.as_slice())?;
    }
    Ok(())
}

/// A line for each body.
fn push_show(bodies: &BTreeSet<Bytes>, out: &mut Bytes) -> Result<(), AllocError>
    ensures ok { OnOk result (out.new ≡ out.old ++ flood_show bodies.now.keys) }
    ensures kept { KeepsFront out.old out.new }
{
    for body in bodies.iter() {
        push_seen(body.as_slice(), out)?;
    }
    Ok(())
}

/// The line `seen HEX` of a body.
fn push_seen(body: &[u8], out: &mut Bytes) -> Result<(), AllocError>
    ensures ok { OnOk result (out.new ≡ out.old ++ seen_line body.now) }
    ensures kept { KeepsFront out.old out.new }
{
    out.append(b"seen ")?;
    push_hex(body, out)?;
    out.push(b'\n')?;
    Ok(())
}
