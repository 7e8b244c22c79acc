//! Lines of the debugger: some that are commands, and some that are none.

use crate::calls::case_of;
use dn_command::{Break, Command, read_command};
use dn_guest::NoMemory;
use std::alloc::Global;

/// Two routers with a link.
const PAIR: &[u8] =
    b"defined 1\nperiod 10\ngroups 2\nseed 0\nrouter a flood\nrouter b flood\nlink a b 1 1\nfeed\nend\n";

/// A line for each row of the table of commands.
const COMMANDS: &[&[u8]] = &[
    b"step",
    b"step 200000",
    b"run",
    b"until 4294967295",
    b"break at 0 4294967295",
    b"break router b",
    b"break port b 15",
    b"break body 0a",
    b"watch loop",
    b"unwatch loop",
    b"show a",
    b"queue b",
    b"where",
    b"last",
    b"quit",
];

/// Misspelt, cut off, with too many words, with an unknown router, or with a number out of its range.
const NONE: &[&[u8]] = &[
    b"",
    b" ",
    b"Run",
    b"runs",
    b"run ",
    b" run",
    b"step ",
    b"step 0",
    b"step 01",
    b"step -1",
    b"step 200001",
    b"step 1 1",
    b"step  1",
    b"until",
    b"until 4294967296",
    b"break",
    b"break at 0",
    b"break at 0 0 0",
    b"break at 0 4294967296",
    b"break router c",
    b"break router",
    b"break port b",
    b"break port b 16",
    b"break port c 0",
    b"break body",
    b"break body ",
    b"break body a",
    b"break body 0A",
    b"break row 1",
    b"watch",
    b"watch ",
    b"watch loop storm",
    b"unwatch ",
    b"show",
    b"show c",
    b"queue a b",
    b"where 1",
    b"last 16",
    b"quit\n",
];

/// Whether a line of two routers is a command.
fn is_command(alloc: Global, line: &[u8]) -> Result<bool, NoMemory> {
    let case = case_of(alloc, PAIR)?;
    Ok(read_command(alloc, case.header.routers.as_slice(), line)?.is_some())
}

#[test]
fn lines_of_each_command_are_read(rt: HostRuntime) -> Result<(), NoMemory> {
    for line in COMMANDS {
        assert!(rt; is_command(rt.alloc(), line)?);
    }
    Ok(())
}

#[test]
fn other_lines_are_no_commands(rt: HostRuntime) -> Result<(), NoMemory> {
    for line in NONE {
        assert!(rt; !is_command(rt.alloc(), line)?);
    }
    Ok(())
}

#[test]
fn a_command_has_the_numbers_of_its_line(rt: HostRuntime) -> Result<(), NoMemory> {
    let case = case_of(rt.alloc(), PAIR)?;
    let found = read_command(
        rt.alloc(),
        case.header.routers.as_slice(),
        b"break port b 3",
    )?;
    assert!(rt; matches!(found, Some(Command::Break(Break::Port(1, 3)))));
    Ok(())
}
