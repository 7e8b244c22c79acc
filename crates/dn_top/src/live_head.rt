//! Reading the head of a live input: line by line, up to the line `feed`.

ghost use Rattle.std.specs.Prelude.{◌≡◌, ◌≤◌, ◌<◌, ◌+◌, ◌^◌, ◌++◌, ◌↔◌, List, ℕ, [], codes, length, true, IfOk, IfErr, OnOk};
ghost use Rattle.dn_io.specs.Streams.{Rose};
ghost use Rattle.dn_case.specs.Reading.{HasNoCase};
ghost use Rattle.dn_top.specs.LiveHeads.{IsRead, IsWhich, IsFrontOf, IsTextRefusal, Takes, TakesHead, HasHead, RefusesHead, RefusesText};

use crate::input::MOST_INPUT;
use crate::status::Status;
use dn_case::{CaseError, read_case};
use dn_io::{Line, LineReader, Source};
use dn_model::Case;
use std::alloc::{AllocError, Global};

/// The head of a live input.
#[derive(Drop)]
pub(crate) struct Head {
    /// The case that the head spells, with the line `end` behind it.
    pub(crate) case: Case,
    /// What gives the live lines behind it.
    pub(crate) lines: LineReader,
    /// The number of the first live line.
    pub(crate) first: u64,
}

/// Reads the lines up to the line `feed`, or to the end of the source, and then the header that they spell.
pub(crate) fn read_head<S: Source>(alloc: Global, source: &mut S) -> Result<Head, Status>
    ensures head { IfOk result (λ head. HasHead (S.left source.old) (S.left source.new) head.case head.lines head.first) }
    ensures open { IfOk result (λ head. (head.lines.is_open ≡ true) × (head.first + head.lines.room < 2 ^ 64)) }
    ensures refusal { IfErr result (λ status. RefusesHead status (S.left source.old) (S.left source.new)) }
    ensures fault { IfErr result (λ status. status ≡ Status.ReadFault →
        Rose (S.faults source.old) (S.faults source.new)) }
    ensures later { S.faults source.old ≤ S.faults source.new }
{
    dn_case::a_case_text_spells_its_case();
    match gather(alloc, source)? {
        Gathered::Head(text, lines, first) => {
            let case = closed_case(alloc, text)?;
            Ok(Head { case, lines, first })
        }
        Gathered::Short(text) => Err(refusal(alloc, text.as_slice())),
    }
}

/// What came of a head.
#[derive(Drop)]
enum Gathered {
    /// All of its lines, the line `feed` too; the reader of the lines behind it, and the number of the next one.
    Head(Vec<u8>, LineReader, u64),
    /// The source ended before a line `feed`: all that it gave.
    Short(Vec<u8>),
}

/// Reads up to the line `feed`, or to the end of the source.
fn gather<S: Source>(alloc: Global, source: &mut S) -> Result<Gathered, Status>
    ensures read { IfOk result (λ gathered. IsRead gathered (S.left source.old) (S.left source.new)) }
    ensures refusal { IfErr result (λ status. RefusesText status (S.left source.old) (S.left source.new)) }
    ensures fault { IfErr result (λ status. status ≡ Status.ReadFault →
        Rose (S.faults source.old) (S.faults source.new)) }
    ensures later { S.faults source.old ≤ S.faults source.new }
{
    let Ok(mut lines) = LineReader::new(alloc, MOST_INPUT) else {
        return Err(Status::NoMemory);
    };
    let mut text = Vec::new(alloc);
    let mut count: u64 = 0;
    'lines: loop {
        match next_line(alloc, &mut lines, source, &mut text) {
            Ok(Taken::Above) => count += 1,
            Ok(Taken::Feed) => return Ok(Gathered::Head(text, lines, count + 2)),
            Ok(Taken::Last) => return Ok(Gathered::Short(text)),
            Err(status) => return Err(status),
        }
    }
}

/// Which line of a head was taken.
#[derive(Clone, Copy)]
enum Taken {
    /// A whole line other than `feed`.
    Above,
    /// The line `feed`.
    Feed,
    /// The last line, which has no newline, or none.
    Last,
}

/// Takes the next line.
fn next_line<S: Source>(
    alloc: Global,
    lines: &mut LineReader,
    source: &mut S,
    text: &mut Vec<u8>,
) -> Result<Taken, Status>
    requires { lines.old.is_open ≡ true }
    ensures takes { Takes result lines.old lines.new (S.left source.old) (S.left source.new) text.old.items
        text.new.items }
    ensures fault { IfErr result (λ status. status ≡ Status.ReadFault →
        Rose (S.faults source.old) (S.faults source.new)) }
    ensures later { S.faults source.old ≤ S.faults source.new }
{
    let Ok(line) = lines.next(alloc, source) else {
        return Err(Status::NoMemory);
    };
    match append_line(text, line) {
        Ok(taken) => taken,
        Err(_) => Err(Status::NoMemory),
    }
}

/// Appends a line.
fn append_line(text: &mut Vec<u8>, line: Line) -> Result<Result<Taken, Status>, AllocError>
    ensures { IfOk result (λ taken. TakesHead line taken text.old.items text.new.items) }
{
    match line {
        Line::Full(bytes) => {
            text.extend_from_slice(bytes.as_slice())?;
            text.push(b'\n')?;
            Ok(Ok(which(bytes.as_slice())))
        }
        Line::Rest(bytes) => {
            text.extend_from_slice(bytes.as_slice())?;
            Ok(Ok(Taken::Last))
        }
        Line::End => Ok(Ok(Taken::Last)),
        Line::Failed => Ok(Err(Status::ReadFault)),
        Line::TooBig => Ok(Err(Status::TooBig)),
    }
}

/// Whether a whole line is `feed`.
fn which(line: &[u8]) -> Taken
    ensures { IsWhich result line.now }
{
    if line == b"feed".as_slice() {
        Taken::Feed
    } else {
        Taken::Above
    }
}

/// The case of a head, with the line `end` behind it.
fn closed_case(alloc: Global, text: Vec<u8>) -> Result<Case, Status>
    ensures found { IfOk result (λ c. IsFrontOf (text.items ++ codes "end\n") c) }
    ensures refusal { IfErr result (λ status. IsTextRefusal (text.items ++ codes "end\n") status) }
{
    let mut text = text;
    let Ok(()) = text.extend_from_slice(b"end\n") else {
        return Err(Status::NoMemory);
    };
    judged(alloc, text.as_slice())
}

/// The case at the front of a text.
fn judged(alloc: Global, text: &[u8]) -> Result<Case, Status>
    ensures found { IfOk result (λ c. IsFrontOf text.now c) }
    ensures refusal { IfErr result (λ status. IsTextRefusal text.now status) }
{
    match read_case(alloc, text) {
        Ok((case, _size)) => Ok(case),
        Err(CaseError::Fault(fault)) => Err(Status::BadCase(fault)),
        Err(CaseError::NoMemory) => Err(Status::NoMemory),
    }
}

/// The refusal of a text without a case.
fn refusal(alloc: Global, text: &[u8]) -> Status
    requires { HasNoCase text.now }
    ensures { IsTextRefusal text.now result }
{
    match judged(alloc, text) {
        Ok(_case) => unreachable!(),
        Err(status) => status,
    }
}
