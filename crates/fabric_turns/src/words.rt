//! What a line says.

use dn_guest::{Bytes, NoMemory};
use dn_journal::{Step, read_journal};
use dn_model::Header;
use std::alloc::Global;
use table_program::Fields;

/// A line behind a case.
#[derive(Drop)]
pub(crate) enum Word {
    Act(Act),
    Ask(Ask),
}

/// What is done with the fabric.
#[derive(Drop)]
pub(crate) enum Act {
    /// A step of a journal.
    Take(Step),
    /// The router's order is given out and computed.
    Lease(u16),
    /// The outcome of the router's order comes back.
    Finish(u16),
    /// The fabric is stopped.
    Stop,
    /// The next work is done until there is none.
    Work,
}

/// What is told of the fabric.
#[derive(Drop)]
pub(crate) enum Ask {
    /// What so many turns of the number's schedule come to.
    Shake(u64, u64),
    /// The router's node.
    State(u16),
    /// The committed rows.
    Rows,
    /// The steps of the journal.
    Steps,
    /// The header.
    Header,
    /// The accepted externals.
    Accepted,
}

/// What a line with its newline says; None where it can't be read.
pub(crate) fn word_of(
    alloc: Global,
    header: &Header,
    line: &[u8],
) -> Result<Option<Word>, NoMemory> {
    let mut fields = Fields::new(alloc, line)?;
    if let Some(word) = own_word(header, &mut fields) {
        return Ok(if fields.is_read() { Some(word) } else { None });
    }
    match step_of(alloc, header, line)? {
        Some(step) => Ok(Some(Word::Act(Act::Take(step)))),
        None => Ok(None),
    }
}

/// A word that no journal has, with what stands behind it.
fn own_word(header: &Header, fields: &mut Fields<'_>) -> Option<Word> {
    match fields.word() {
        b"stop" => Some(Word::Act(Act::Stop)),
        b"work" => Some(Word::Act(Act::Work)),
        b"rows" => Some(Word::Ask(Ask::Rows)),
        b"steps" => Some(Word::Ask(Ask::Steps)),
        b"header" => Some(Word::Ask(Ask::Header)),
        b"accepted" => Some(Word::Ask(Ask::Accepted)),
        b"lease" => Some(Word::Act(Act::Lease(router_of(header, fields)))),
        b"finish" => Some(Word::Act(Act::Finish(router_of(header, fields)))),
        b"state" => Some(Word::Ask(Ask::State(router_of(header, fields)))),
        b"shake" => Some(Word::Ask(shake_of(fields))),
        _ => None,
    }
}

/// The number of a schedule, and how many turns are taken.
fn shake_of(fields: &mut Fields<'_>) -> Ask {
    let number = fields.number(u64::MAX);
    Ask::Shake(number, fields.number(u64::MAX))
}

/// The number of the router whose name is next; if there is none that is noted.
fn router_of(header: &Header, fields: &mut Fields<'_>) -> u16 {
    let name = fields.word();
    for (number, router) in header.routers.as_slice().iter().enumerate() {
        if router.name.as_slice() == name {
            return number as u16;
        }
    }
    fields.refuse();
    0
}

/// The steps of a journal's text; None where it can't be read.
pub(crate) fn steps_of(alloc: Global, header: &Header, text: &[u8]) -> Option<Vec<Step>> {
    read_journal(alloc, header, text).ok()
}

/// The step of a line with its newline: that of a journal of this one line.
fn step_of(alloc: Global, header: &Header, line: &[u8]) -> Result<Option<Step>, NoMemory> {
    let text = journal_of(alloc, line)?;
    match steps_of(alloc, header, text.as_slice()) {
        Some(mut steps) => Ok(steps.pop()),
        None => Ok(None),
    }
}

/// The text of a journal of this one line.
fn journal_of(alloc: Global, line: &[u8]) -> Result<Bytes, NoMemory> {
    let mut text = Bytes::from_slice(alloc, b"journal\n")?;
    text.append(line)?;
    text.append(b"end journal 1\n")?;
    Ok(text)
}
