//! The lines of a table, one after another.

ghost use Rattle.std.specs.Prelude.{◌≤◌, ◌<◌, length};

use crate::ending::Ending;
use crate::out::Out;
use dn_guest::NoMemory;
use dn_text::first_line;
use std::alloc::Global;

/// What the lines of a table work on.
pub trait Bench {
    /// Does what the text says, which is a line, or the lines of a case or a journal, with its newlines. Appends
    /// what happened. Whether it could be read.
    fn take(&mut self, alloc: Global, text: &[u8], out: &mut Out) -> Result<bool, NoMemory>;
}

/// Plays the table on the bench, and writes it again with what happened.
pub(crate) fn play<B: Bench>(alloc: Global, bench: &mut B, table: &[u8], out: &mut Out) -> Ending {
    let mut rest = table;
    'texts: while !rest.is_empty() {
        let (text, behind) = first_text(rest);
        match play_text(alloc, bench, text, out) {
            Ok(true) => rest = behind,
            Ok(false) => return Ending::Unreadable(line_number(table, rest)),
            Err(_) => return Ending::NoMemory(line_number(table, rest)),
        }
    }
    Ending::Played
}

/// Copies a text, plays it, and appends what happened. Whether it could be read.
fn play_text<B: Bench>(
    alloc: Global,
    bench: &mut B,
    text: &[u8],
    out: &mut Out,
) -> Result<bool, NoMemory> {
    if is_outcome(text) {
        return Ok(true);
    }
    out.append(text);
    if is_comment(text) {
        return Ok(true);
    }
    let is_read = bench.take(alloc, text, out);
    if out.is_short() {
        Err(NoMemory)
    } else {
        is_read
    }
}

/// Whether it is a line that a program writes itself.
fn is_outcome(text: &[u8]) -> bool {
    matches!(text.first().copied(), Some(b'=' | b'>' | b'|' | b'-'))
}

/// Whether it is a comment or an empty line.
fn is_comment(text: &[u8]) -> bool {
    matches!(text.first().copied(), Some(b'#' | b'\n'))
}

/// The first line, or all lines of the case or the journal that begins with it; and what stands behind.
fn first_text(table: &[u8]) -> (&[u8], &[u8])
    requires { 0 < length table.now }
    ensures { length result.1.now < length table.now }
{
    let (line, behind) = first_line(table);
    let mut rest = behind;
    if line.starts_with(b"defined ") || line.starts_with(b"journal\n") {
        rest = behind_end(behind);
    }
    (&table[..table.len() - rest.len()], rest)
}

/// What stands behind the first line that begins with `end`; nothing if there is none.
fn behind_end(text: &[u8]) -> &[u8]
    ensures { length result.now ≤ length text.now }
{
    let mut rest = text;
    'lines: while !rest.is_empty() {
        let (line, behind) = first_line(rest);
        rest = behind;
        if line.starts_with(b"end") {
            break;
        }
    }
    rest
}

/// The number of the line with which the rest of the table begins.
fn line_number(table: &[u8], rest: &[u8]) -> u64 {
    lines_of(table)
        .saturating_sub(lines_of(rest))
        .saturating_add(1)
}

/// How many newlines the text has.
fn lines_of(text: &[u8]) -> u64 {
    text.iter().filter(|byte| **byte == b'\n').count() as u64
}
