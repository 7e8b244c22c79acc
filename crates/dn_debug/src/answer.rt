//! The answer to a line.

ghost use Rattle.std.specs.Prelude.{◌≡◌, List, Some, IfOk};
ghost use Rattle.dn_model.specs.declared.feed.External.{External};
ghost use Rattle.dn_model.specs.Network.{Network};
ghost use Rattle.dn_debug.specs.Watching.{watched};
ghost use Rattle.dn_debug.specs.Situations.{IsAt, situation};
ghost use Rattle.dn_debug.specs.Transcript.{told_by};
ghost use Rattle.dn_debug.specs.Replying.{HasReplied};

use crate::Told;
use crate::commands::answer_command;
use crate::lines::push_unknown;
use crate::walk::Walk;
use dn_command::{Command, read_command};
use dn_guest::{Bytes, Guest, NoMemory};
use dn_model::Header;
use dn_probe::Probe;
use std::alloc::Global;

/// Whether the session goes on after the command.
fn told_of(command: &Command) -> Told
    ensures { result ≡ told_by (Some command.now) }
{
    match command {
        Command::Quit => Told::Quit,
        _ => Told::Go,
    }
}

/// Answers a line without its newline: appends the text, and says whether the session goes on.
pub(crate) fn answer<G: Guest, P: Probe>(
    alloc: Global,
    walk: &mut Walk<G, P>,
    header: &Header,
    line: &[u8],
    out: &mut Bytes,
) -> Result<Told, NoMemory>
    requires { walk.old.engine.header ≡ header.now }
    ensures header { walk.new.engine.header ≡ walk.old.engine.header }
    ensures replied { (net : Network G) (feed : List External) → net.guests ≡ G.meaning →
        IsAt net feed walk.old.engine walk.old.latest →
        IfOk result (λ told. HasReplied net feed (situation walk.old.engine.place walk.old.breaks.items (watched P.watcher walk.old.watching)) line.now told walk.new.engine walk.new.latest (situation walk.new.engine.place walk.new.breaks.items (watched P.watcher walk.new.watching)) out.old out.new) }
{
    dn_command::laws::a_line_is_read_as_what_it_asks_for();
    let Some(command) = read_command(alloc, header.routers.as_slice(), line)? else {
        push_unknown(out)?;
        return Ok(Told::Go);
    };
    let told = told_of(&command);
    answer_command(alloc, walk, header, command, out)?;
    Ok(told)
}
