// Lines from a source, one after another.
ghost use Rattle.std.specs.Prelude.{◌≡◌, ◌<◌, ◌≤◌, ◌++◌, IfOk, IfSome, Ok, [], length, true};
ghost use Rattle.std.specs.List.{Contains};
ghost use Rattle.dn_io.specs.Streams.{Rose, Gives};
ghost use Rattle.dn_io.specs.LineReading.{opening_reader, closed_reader, Tells, Closes, IsLast, IsLastLine, IsCutAt, Refills, TakesPiece};

use crate::{NoMemory, Source, Took};
use std::alloc::Global;
use std::marker::Model;

/// The answer of a line reader.
#[derive(Drop)]
pub enum Line {
    /// The next line, without its newline.
    Full(Vec<u8>),
    /// What stands behind the last newline, at least one byte: a last line without a newline.
    Rest(Vec<u8>),
    /// No byte is left.
    End,
    /// The source failed, and what it has given holds no further newline.
    Failed,
    /// More bytes came than the limit allows, and those within the limit hold no further newline.
    TooBig,
}

/// How many bytes are asked for at once.
const PIECE: usize = 4096;

/// Reads lines from a source, within a limit that counts all its bytes from the first one on, newlines too.
/// It reads only while it holds no whole line, so a line is given as soon as its newline has come.
///
/// Seen as `LineReading` of `specs/LineReading.antt`.
#[derive(Drop)]
pub struct LineReader {
    /// What is held stands in it from `from` to `to`.
    buffer: Vec<u8>,
    from: usize,
    to: usize,
    room: u64,
    is_open: bool,
}

impl Model for LineReader {
    ghost use Rattle.std.specs.Prelude.{◌≤◌, ◌<◌, slice_range, vec_len};
    ghost use Rattle.dn_io.specs.LineReading.{LineReading};

    ghost Value = { LineReading };

    ghost view = { λ r. record { held = slice_range r.buffer.items r.from r.to; room = r.room; is_open = r.is_open } };

    ghost invariant = { λ r. (r.from ≤ r.to) × (r.to ≤ vec_len r.buffer) × (0 < vec_len r.buffer) };
}

impl LineReader {
    /// A reader that has read nothing. It takes its buffer here, and gives at most `limit` bytes.
    pub fn new(alloc: Global, limit: u64) -> Result<LineReader, NoMemory>
        ensures { IfOk result (λ made. made ≡ opening_reader limit) }
    {
        Ok(LineReader {
            buffer: vec![in alloc; 0; PIECE]?,
            from: 0,
            to: 0,
            room: limit,
            is_open: true,
        })
    }

    /// Whether it may be asked for a line.
    pub fn is_open(&self) -> bool
        ensures { result ≡ self.now.is_open }
    {
        self.is_open
    }

    /// The next line. Behind any answer but `Full` the reader isn't open.
    pub fn next<S: Source>(&mut self, alloc: Global, source: &mut S) -> Result<Line, NoMemory>
        requires { self.old.is_open ≡ true }
        // Some bytes came; what the answer says of those that were held and then these.
        ensures given { Gives (S.left source.old) (S.left source.new)
            (λ came. IfOk result (λ line. Tells line self.old (self.old.held ++ came) self.new)) }
        ensures closes { Closes result self.new }
        // At the end nothing is left.
        ensures none_left { IfOk result (λ line. IsLast line → IfSome (S.left source.new) (λ left. left ≡ [])) }
        ensures failed { result ≡ Ok Line.Failed → Rose (S.faults source.old) (S.faults source.new) }
        ensures later { S.faults source.old ≤ S.faults source.new }
        // A line that is held whole is given without a read.
        ensures at_once { Contains self.old.held 10 → source.new ≡ source.old }
    {
        let answer = self.gather(alloc, source);
        if !matches!(answer, Ok(Line::Full(_))) {
            self.close();
        }
        answer
    }

    /// The next line; a reader whose line isn't full is still to be closed.
    fn gather<S: Source>(&mut self, alloc: Global, source: &mut S) -> Result<Line, NoMemory>
        requires { self.old.is_open ≡ true }
        ensures given { Gives (S.left source.old) (S.left source.new)
            (λ came. IfOk result (λ line. Tells line self.old (self.old.held ++ came) self.new)) }
        ensures none_left { IfOk result (λ line. IsLast line → IfSome (S.left source.new) (λ left. left ≡ [])) }
        ensures failed { result ≡ Ok Line.Failed → Rose (S.faults source.old) (S.faults source.new) }
        ensures later { S.faults source.old ≤ S.faults source.new }
        ensures at_once { Contains self.old.held 10 → source.new ≡ source.old }
    {
        let mut line = Vec::new(alloc);
        loop {
            match self.refill(source) {
                Refill::Held => {}
                Refill::End => return Ok(last_line(line)),
                Refill::Failed => return Ok(Line::Failed),
            }
            match self.take_piece(&mut line)? {
                Piece::Ended => return Ok(Line::Full(line)),
                Piece::Part => {}
                Piece::Over => return Ok(Line::TooBig),
            }
        }
    }

    /// Reads the next bytes where none is held.
    fn refill<S: Source>(&mut self, source: &mut S) -> Refill
        ensures bytes { Refills result self.old self.new (S.left source.old) (S.left source.new) }
        ensures failed { result ≡ Refill.Failed → Rose (S.faults source.old) (S.faults source.new) }
        ensures later { S.faults source.old ≤ S.faults source.new }
        ensures at_once { 0 < length self.old.held → (source.new ≡ source.old) × (self.new ≡ self.old) }
    {
        if self.from < self.to {
            return Refill::Held;
        }
        match source.read(self.buffer.as_mut_slice()) {
            Took::Bytes(count) => {
                self.from = 0;
                self.to = count as usize;
                Refill::Held
            }
            Took::End => Refill::End,
            Took::Failed => Refill::Failed,
        }
    }

    /// Moves what is held behind `line`, up to the next newline, which is dropped.
    fn take_piece(&mut self, line: &mut Vec<u8>) -> Result<Piece, NoMemory>
        ensures { IfOk result (λ piece. TakesPiece piece self.old self.new line.old.items line.new.items) }
    {
        let held = &self.buffer[self.from..self.to];
        let within = &held[..(held.len() as u64).min(self.room) as usize];
        match newline_in(within) {
            Some(n) => {
                line.extend_from_slice(&within[..n])?;
                self.from += n + 1;
                self.room -= n as u64 + 1;
                Ok(Piece::Ended)
            }
            None if within.len() < held.len() => Ok(Piece::Over),
            None => {
                line.extend_from_slice(within)?;
                self.room -= within.len() as u64;
                self.from = self.to;
                Ok(Piece::Part)
            }
        }
    }

    fn close(&mut self)
        ensures { self.new ≡ closed_reader }
    {
        self.from = self.to;
        self.room = 0;
        self.is_open = false;
    }
}

/// Whether bytes are held.
enum Refill {
    Held,
    End,
    Failed,
}

/// How far a line has come.
enum Piece {
    /// Its newline came.
    Ended,
    /// No newline came.
    Part,
    /// No newline came within the limit, and there are more bytes.
    Over,
}

/// The place of the first newline.
fn newline_in(text: &[u8]) -> Option<usize>
    ensures { IsCutAt text.now result }
{
    for (i, byte) in text.iter().enumerate() {
        if *byte == b'\n' {
            return Some(i);
        }
    }
    None
}

/// The answer where the source has ended behind these bytes.
fn last_line(bytes: Vec<u8>) -> Line
    ensures { IsLastLine result bytes.items }
{
    if bytes.is_empty() {
        Line::End
    } else {
        Line::Rest(bytes)
    }
}
