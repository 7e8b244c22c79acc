//! The lines of rows and states. Each call appends to a text; after `NoMemory` what stood in it before
//! still stands at its front.

ghost use Rattle.std.specs.Prelude.{◌≡◌, ◌++◌, ◌∷◌, [], OnOk};
ghost use Rattle.std.specs.Fmt.{decimal};
ghost use Rattle.dn_guest.specs.Hex.{hex};
ghost use Rattle.dn_guest.specs.KeepsFront.{KeepsFront};
ghost use Rattle.dn_model.specs.Routers.{name_at};
ghost use Rattle.dn_text.specs.Hexadecimals.{hex64};
ghost use Rattle.dn_trace.specs.Rows.{field, last_field, class_letter, body_text, input_text, key_text, row_line, hex16, state_line};

use dn_guest::{Bytes, Guest, Input, NoMemory, Node};
use dn_model::{Key, RouterDef, Row};
use dn_text::{push_decimal, push_hex, push_hex64};
use std::alloc::Global;

/// A field, and the space behind it.
#[tactic(auto, unfolding(crate::specs::Rows::field))]
fn push_field(out: &mut Bytes, text: &[u8]) -> Result<(), NoMemory>
    ensures ok { OnOk result (out.new ≡ out.old ++ field text.now) }
    ensures kept { KeepsFront out.old out.new }
{
    out.append(text)?;
    out.append(b" ")?;
    Ok(())
}

#[tactic(auto, unfolding(crate::specs::Rows::field))]
fn push_number_field(out: &mut Bytes, n: u64) -> Result<(), NoMemory>
    ensures ok { OnOk result (out.new ≡ out.old ++ field (decimal n)) }
    ensures kept { KeepsFront out.old out.new }
{
    push_decimal(out, n)?;
    out.append(b" ")?;
    Ok(())
}

#[tactic(auto, unfolding(crate::specs::Rows::field))]
fn push_tie_field(out: &mut Bytes, tie: u64) -> Result<(), NoMemory>
    ensures ok { OnOk result (out.new ≡ out.old ++ field (hex64 tie)) }
    ensures kept { KeepsFront out.old out.new }
{
    push_hex64(out, tie)?;
    out.append(b" ")?;
    Ok(())
}

/// The letter of a class: 0 is a tick, 1 an external, 2 a message.
#[tactic(auto, unfolding(crate::specs::Rows::class_letter))]
fn class_letter(class: u8) -> u8
    ensures { result ≡ class_letter class }
{
    match class {
        0 => b't',
        1 => b'x',
        _ => b'm',
    }
}

#[tactic(auto, unfolding(crate::specs::Rows::key_text))]
fn push_key(out: &mut Bytes, key: &Key) -> Result<(), NoMemory>
    ensures ok { OnOk result (out.new ≡ out.old ++ key_text key.now) }
    ensures kept { KeepsFront out.old out.new }
{
    push_number_field(out, u64::from(key.group))?;
    push_number_field(out, u64::from(key.sum))?;
    push_field(out, &[class_letter(key.class)])?;
    push_tie_field(out, key.tie)?;
    push_number_field(out, u64::from(key.origin))?;
    push_number_field(out, key.seq)?;
    Ok(())
}

#[tactic(auto, unfolding(crate::specs::Rows::body_text))]
fn push_body(out: &mut Bytes, body: &[u8]) -> Result<(), NoMemory>
    ensures ok { OnOk result (out.new ≡ out.old ++ body_text body.now) }
    ensures kept { KeepsFront out.old out.new }
{
    if body.is_empty() {
        out.append(b"-")?;
    } else {
        push_hex(out, body)?;
    }
    Ok(())
}

/// A word, and then a number.
fn push_word_and_number(out: &mut Bytes, word: &[u8], n: u64) -> Result<(), NoMemory>
    ensures ok { OnOk result (out.new ≡ out.old ++ (word.now ++ decimal n)) }
    ensures kept { KeepsFront out.old out.new }
{
    out.append(word)?;
    push_decimal(out, n)?;
    Ok(())
}

#[tactic(auto, unfolding(crate::specs::Rows::input_text))]
fn push_input(out: &mut Bytes, input: &Input) -> Result<(), NoMemory>
    ensures ok { OnOk result (out.new ≡ out.old ++ input_text input.now) }
    ensures kept { KeepsFront out.old out.new }
{
    match input {
        Input::Tick(_) => {
            out.append(b"tick")?;
            Ok(())
        }
        Input::Cmd(body) => {
            out.append(b"cmd ")?;
            push_hex(out, body.as_slice())?;
            Ok(())
        }
        Input::Down(port) => {
            push_word_and_number(out, b"down ", u64::from(*port))?;
            Ok(())
        }
        Input::Up(port) => {
            push_word_and_number(out, b"up ", u64::from(*port))?;
            Ok(())
        }
        Input::Msg(port, body) => {
            push_word_and_number(out, b"msg ", u64::from(*port))?;
            out.append(b" ")?;
            push_body(out, body.as_slice())?;
            Ok(())
        }
    }
}

#[tactic(auto, unfolding(crate::specs::Rows::last_field))]
fn push_input_line(out: &mut Bytes, input: &Input) -> Result<(), NoMemory>
    ensures ok { OnOk result (out.new ≡ out.old ++ last_field (input_text input.now)) }
    ensures kept { KeepsFront out.old out.new }
{
    push_input(out, input)?;
    out.append(b"\n")?;
    Ok(())
}

/// The name of a router; empty where there is none of that number.
fn name_of(routers: &[RouterDef], router: u16) -> &[u8]
    ensures { result.now ≡ name_at routers.now router }
{
    match routers.get(usize::from(router)) {
        Some(found) => found.name.as_slice(),
        None => &[],
    }
}

/// Appends the line of a row: `GROUP SUM CLASS TIE ORIGIN SEQ ROUTER INPUT`.
#[tactic(auto, unfolding(crate::specs::Rows::row_line))]
pub fn push_row(out: &mut Bytes, routers: &[RouterDef], row: &Row) -> Result<(), NoMemory>
    ensures ok { OnOk result (out.new ≡ out.old ++ row_line routers.now row.now) }
    ensures kept { KeepsFront out.old out.new }
{
    push_key(out, &row.key)?;
    push_field(out, name_of(routers, row.router))?;
    push_input_line(out, &row.input)?;
    Ok(())
}

#[tactic(auto, unfolding(crate::specs::Rows::field, crate::specs::Rows::hex16))]
fn push_ports_field(out: &mut Bytes, ports: u16) -> Result<(), NoMemory>
    ensures ok { OnOk result (out.new ≡ out.old ++ field (hex16 ports)) }
    ensures kept { KeepsFront out.old out.new }
{
    push_hex(out, &ports.to_be_bytes())?;
    out.append(b" ")?;
    Ok(())
}

#[tactic(auto, unfolding(crate::specs::Rows::last_field))]
fn push_image<G: Guest>(alloc: Global, out: &mut Bytes, guest: &G) -> Result<(), NoMemory>
    ensures ok { OnOk result (out.new ≡ out.old ++ last_field (hex (G.meaning.image guest.now))) }
    ensures kept { KeepsFront out.old out.new }
{
    let mut image = Bytes::new(alloc);
    guest.image(alloc, &mut image)?;
    push_hex(out, image.as_slice())?;
    out.append(b"\n")?;
    Ok(())
}

/// Appends the line of a state: `state NAME SENDS PORTS IMAGE`.
#[tactic(auto, unfolding(crate::specs::Rows::state_line))]
pub fn push_state<G: Guest>(
    alloc: Global,
    out: &mut Bytes,
    routers: &[RouterDef],
    router: u16,
    node: &Node<G>,
) -> Result<(), NoMemory>
    ensures ok { OnOk result (out.new ≡ out.old ++ state_line G.meaning routers.now router node.now) }
    ensures kept { KeepsFront out.old out.new }
{
    push_field(out, b"state")?;
    push_field(out, name_of(routers, router))?;
    push_number_field(out, node.sends)?;
    push_ports_field(out, node.ports)?;
    push_image(alloc, out, &node.guest)?;
    Ok(())
}
