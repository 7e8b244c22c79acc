//! What a router does with an input, and what is told of it.

use crate::ospf_state::push_state;
use dn_guest::{Bytes, Guest, Input, NoMemory, Outbox, Output};
use guest_any::AnyGuest;
use std::alloc::Global;
use table_program::{Fields, Out};

/// A guest by its name, and the mask of its up ports.
#[derive(Drop)]
pub(crate) struct Router {
    pub(crate) name: Bytes,
    pub(crate) guest: AnyGuest,
    pub(crate) ports: u16,
}

impl Router {
    /// Takes a line that speaks of this router.
    pub(crate) fn take_line(
        &mut self,
        alloc: Global,
        fields: &mut Fields<'_>,
        out: &mut Out,
    ) -> Result<(), NoMemory> {
        if fields.takes(b"ports") {
            let word = fields.word();
            self.ports = fields.hex_of(word, 0xffff) as u16;
            return Ok(());
        }
        if fields.takes(b"show") {
            return self.show(alloc, out);
        }
        if fields.takes(b"image") {
            return self.image(alloc, out);
        }
        if fields.takes(b"sort") {
            out.number("= sort ", u64::from(self.guest.sort()));
            out.text("\n");
            return Ok(());
        }
        let input = input_of(alloc, fields)?;
        if fields.is_read() {
            self.turn(alloc, &input, out)?;
        }
        Ok(())
    }

    /// Whether both have the same state.
    pub(crate) fn is_same(&self, other: &Router) -> bool {
        self.guest.same(&other.guest)
    }

    /// A turn: appends what the guest puts out, the state of an OSPF router, and whether nothing changed.
    fn turn(&mut self, alloc: Global, input: &Input, out: &mut Out) -> Result<(), NoMemory> {
        let before = self.guest.fork(alloc)?;
        self.step(alloc, input, out)?;
        out.flag(self.guest.same(&before), "= unchanged\n");
        Ok(())
    }

    /// Takes the input, and appends what the guest puts out and the state of an OSPF router.
    fn step(&mut self, alloc: Global, input: &Input, out: &mut Out) -> Result<(), NoMemory> {
        let mut outbox = Outbox::new(alloc);
        self.guest.step(alloc, self.ports, input, &mut outbox)?;
        push_outputs(outbox.outputs(), out);
        self.state(alloc, out)
    }

    /// Appends the state of an OSPF router.
    fn state(&self, alloc: Global, out: &mut Out) -> Result<(), NoMemory> {
        if let AnyGuest::Ospf(guest) = &self.guest {
            let mut image = Bytes::new(alloc);
            guest.image(alloc, &mut image)?;
            push_state(image.as_slice(), out);
        }
        Ok(())
    }

    /// Appends the image in hexadecimal.
    fn image(&self, alloc: Global, out: &mut Out) -> Result<(), NoMemory> {
        let mut image = Bytes::new(alloc);
        self.guest.image(alloc, &mut image)?;
        out.hex("= ", image.as_slice());
        out.text("\n");
        Ok(())
    }

    /// Appends the lines of the show, each behind a bar.
    fn show(&self, alloc: Global, out: &mut Out) -> Result<(), NoMemory> {
        let mut show = Bytes::new(alloc);
        self.guest.show(alloc, &mut show)?;
        push_behind_bars(show.as_slice(), out);
        Ok(())
    }
}

/// Appends outputs, a line each.
fn push_outputs(outputs: &[Output], out: &mut Out) {
    for output in outputs {
        push_output(output.port, output.body.as_slice(), out);
    }
}

/// Appends an output.
fn push_output(port: u8, body: &[u8], out: &mut Out) {
    out.number("> ", u64::from(port));
    out.hex(" ", body);
    out.text("\n");
}

/// Appends the lines of a text, each behind a bar.
fn push_behind_bars(text: &[u8], out: &mut Out) {
    let mut is_start = true;
    for byte in text {
        out.flag(is_start, "| ");
        out.append(&[*byte]);
        is_start = *byte == b'\n';
    }
}

/// The input of a turn.
fn input_of(alloc: Global, fields: &mut Fields<'_>) -> Result<Input, NoMemory> {
    if fields.takes(b"tick") {
        return Ok(Input::Tick(fields.long()));
    }
    if fields.takes(b"cmd") {
        return Ok(Input::Cmd(fields.bytes(alloc)?));
    }
    if fields.takes(b"down") {
        return Ok(Input::Down(fields.byte()));
    }
    if fields.takes(b"up") {
        return Ok(Input::Up(fields.byte()));
    }
    if !fields.takes(b"msg") {
        fields.refuse();
    }
    let port = fields.byte();
    Ok(Input::Msg(port, fields.bytes(alloc)?))
}
