//! Reading a command.

ghost use Rattle.std.specs.Prelude.{◌≡◌, ◌<◌, ◌^◌, length, codes, IfOk};
ghost use Rattle.dn_text.specs.Lines.{parts};
ghost use Rattle.dn_command.specs.Commands.{alone, with_field, plain_with_field, short_break, long_break, break_if, command_of_fields, command_of};

use crate::fields::{is_word, number_32, number_in, port_of, probe_name, router_of};
use crate::{Break, Command};
use dn_guest::NoMemory;
use dn_model::RouterDef;
use dn_text::{first_part, unhex};
use std::alloc::Global;

/// So many rows can be asked for at once.
const MOST_ROWS: u64 = 200_000;

/// What a line without its newline asks for, where the header has these routers. None where the line is no command,
/// names an unknown router, or has a number out of its range: a group or a sum is at most 4,294,967,295, a port at
/// most 15, and `step` takes 1 to 200,000 rows. The name of a probe isn't looked up: any field that isn't empty is one.
#[tactic(auto, unfolding(crate::specs::Commands::command_of))]
pub fn read_command(
    alloc: Global,
    routers: &[RouterDef],
    line: &[u8],
) -> Result<Option<Command>, NoMemory>
    requires { length routers.now < 2 ^ 16 }
    ensures { IfOk result (λ found. found ≡ command_of routers.now line.now) }
{
    let (word, rest) = first_part(b' ', line);
    let Some(rest) = rest else {
        return Ok(alone(word));
    };
    let (first, rest) = first_part(b' ', rest);
    let Some(rest) = rest else {
        return with_field(alloc, routers, word, first);
    };
    let (second, rest) = first_part(b' ', rest);
    let Some(rest) = rest else {
        return Ok(break_if(word, short_break(alloc, routers, first, second)?));
    };
    let (third, rest) = first_part(b' ', rest);
    match rest {
        None => Ok(break_if(word, long_break(routers, first, second, third))),
        Some(_rest) => Ok(None),
    }
}

/// The command of a word alone.
#[tactic(auto, unfolding(crate::specs::Commands::alone))]
fn alone(word: &[u8]) -> Option<Command>
    ensures { result ≡ alone word.now }
{
    if is_word(word, b"step") {
        Some(Command::Step(1))
    } else if is_word(word, b"run") {
        Some(Command::Run)
    } else if is_word(word, b"where") {
        Some(Command::Where)
    } else if is_word(word, b"last") {
        Some(Command::Last)
    } else if is_word(word, b"quit") {
        Some(Command::Quit)
    } else {
        None
    }
}

/// The command of a word and a field.
#[tactic(auto, unfolding(crate::specs::Commands::with_field))]
fn with_field(
    alloc: Global,
    routers: &[RouterDef],
    word: &[u8],
    field: &[u8],
) -> Result<Option<Command>, NoMemory>
    requires { length routers.now < 2 ^ 16 }
    ensures { IfOk result (λ found. found ≡ with_field routers.now word.now field.now) }
{
    if is_word(word, b"watch") {
        let Some(name) = probe_name(alloc, field)? else {
            return Ok(None);
        };
        Ok(Some(Command::Watch(name)))
    } else if is_word(word, b"unwatch") {
        let Some(name) = probe_name(alloc, field)? else {
            return Ok(None);
        };
        Ok(Some(Command::Unwatch(name)))
    } else {
        Ok(plain_with_field(routers, word, field))
    }
}

#[tactic(auto, unfolding(crate::specs::Commands::plain_with_field))]
fn plain_with_field(routers: &[RouterDef], word: &[u8], field: &[u8]) -> Option<Command>
    requires { length routers.now < 2 ^ 16 }
    ensures { result ≡ plain_with_field routers.now word.now field.now }
{
    if is_word(word, b"step") {
        Some(Command::Step(number_in(1, MOST_ROWS, field)?))
    } else if is_word(word, b"until") {
        Some(Command::Until(number_32(field)?))
    } else if is_word(word, b"show") {
        Some(Command::Show(router_of(routers, field)?))
    } else if is_word(word, b"queue") {
        Some(Command::Queue(router_of(routers, field)?))
    } else {
        None
    }
}

/// The break of a kind and one field.
#[tactic(auto, unfolding(crate::specs::Commands::short_break))]
fn short_break(
    alloc: Global,
    routers: &[RouterDef],
    kind: &[u8],
    field: &[u8],
) -> Result<Option<Break>, NoMemory>
    requires { length routers.now < 2 ^ 16 }
    ensures { IfOk result (λ found. found ≡ short_break routers.now kind.now field.now) }
{
    if is_word(kind, b"router") {
        let Some(router) = router_of(routers, field) else {
            return Ok(None);
        };
        Ok(Some(Break::Router(router)))
    } else if is_word(kind, b"body") {
        let Some(bytes) = unhex(alloc, field)? else {
            return Ok(None);
        };
        Ok(Some(Break::Body(bytes)))
    } else {
        Ok(None)
    }
}

/// The break of a kind and two fields.
#[tactic(auto, unfolding(crate::specs::Commands::long_break))]
fn long_break(routers: &[RouterDef], kind: &[u8], first: &[u8], second: &[u8]) -> Option<Break>
    requires { length routers.now < 2 ^ 16 }
    ensures { result ≡ long_break routers.now kind.now first.now second.now }
{
    if is_word(kind, b"at") {
        Some(Break::At(number_32(first)?, number_32(second)?))
    } else if is_word(kind, b"port") {
        Some(Break::Port(router_of(routers, first)?, port_of(second)?))
    } else {
        None
    }
}

/// The command of the break, where the word is `break`.
#[tactic(auto, unfolding(crate::specs::Commands::break_if))]
fn break_if(word: &[u8], stop: Option<Break>) -> Option<Command>
    ensures { result ≡ break_if word.now stop }
{
    if is_word(word, b"break") {
        Some(Command::Break(stop?))
    } else {
        None
    }
}
