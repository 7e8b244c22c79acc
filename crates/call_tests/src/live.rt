//! Lines, beats and live lines.

ghost use Rattle.std.specs.Prelude.{◌≤◌};

use dn_case::{Cause, LiveError, read_case, read_live};
use dn_guest::{Input, NoMemory};
use dn_io::{ClockBeats, Line, LineReader, MemBeats, MemSource, Metronome};
use dn_model::Header;
use std::alloc::{AllocError, Global};
use std::cell::Cell;
use std::io;
use std::io::ErrorKind;
use std::rt::Clock;
use std::time::Duration;

/// A source of these bytes in pieces of so many bytes; the read of this number fails.
fn source(alloc: Global, text: &[u8], piece: u64, fails: u64) -> Result<MemSource, NoMemory>
    requires { 1 ≤ piece }
{
    let fails = Vec::from_slice(alloc, &[fails])?;
    Ok(MemSource::new(Vec::from_slice(alloc, text)?, fails, piece))
}

/// The answer of a reader that is open.
fn next(alloc: Global, reader: &mut LineReader, source: &mut MemSource) -> Result<Line, NoMemory> {
    if !reader.is_open() {
        return Err(AllocError);
    }
    reader.next(alloc, source)
}

/// Whether the answer is this line.
fn is_full(line: Line, text: &[u8]) -> bool {
    match line {
        Line::Full(bytes) => bytes.as_slice() == text,
        _other => false,
    }
}

/// Whether the answer is this last line, which no newline ends.
fn is_rest(line: Line, text: &[u8]) -> bool {
    match line {
        Line::Rest(bytes) => bytes.as_slice() == text,
        _other => false,
    }
}

/// How long the line is that the answer is.
fn line_length(line: Line) -> usize {
    match line {
        Line::Full(bytes) => bytes.len(),
        _other => 0,
    }
}

#[test]
fn lines_come_in_single_bytes(rt: HostRuntime) -> Result<(), NoMemory> {
    let alloc = rt.alloc();
    let mut source = source(alloc, b"ab\n\nc", 1, 99)?;
    let mut reader = LineReader::new(alloc, 5)?;
    assert!(rt; is_full(next(alloc, &mut reader, &mut source)?, b"ab"));
    assert!(rt; source.as_slice() == b"\nc".as_slice());
    assert!(rt; is_full(next(alloc, &mut reader, &mut source)?, b""));
    assert!(rt; is_rest(next(alloc, &mut reader, &mut source)?, b"c"));
    assert!(rt; !reader.is_open());
    Ok(())
}

#[test]
fn a_long_line_goes_over_the_buffer(rt: HostRuntime) -> Result<(), NoMemory> {
    let alloc = rt.alloc();
    let mut text = vec![in alloc; b'x'; 5_000]?;
    text.extend_from_slice(b"\ny\n")?;
    let mut source = source(alloc, text.as_slice(), 9_999, 99)?;
    let mut reader = LineReader::new(alloc, 9_999)?;
    assert!(rt; line_length(next(alloc, &mut reader, &mut source)?) == 5_000);
    assert!(rt; source.as_slice().is_empty());
    assert!(rt; is_full(next(alloc, &mut reader, &mut source)?, b"y"));
    assert!(rt; matches!(next(alloc, &mut reader, &mut source)?, Line::End));
    Ok(())
}

/// The limit counts all that came before, newlines too.
#[test]
fn the_limit_is_of_all_lines(rt: HostRuntime) -> Result<(), NoMemory> {
    let alloc = rt.alloc();
    let mut inside = LineReader::new(alloc, 6)?;
    let mut fits = source(alloc, b"ab\ncd\n", 9, 99)?;
    assert!(rt; is_full(next(alloc, &mut inside, &mut fits)?, b"ab"));
    assert!(rt; is_full(next(alloc, &mut inside, &mut fits)?, b"cd"));
    assert!(rt; matches!(next(alloc, &mut inside, &mut fits)?, Line::End));
    let mut beyond = LineReader::new(alloc, 5)?;
    let mut long = source(alloc, b"ab\ncd\n", 9, 99)?;
    assert!(rt; is_full(next(alloc, &mut beyond, &mut long)?, b"ab"));
    assert!(rt; matches!(next(alloc, &mut beyond, &mut long)?, Line::TooBig));
    assert!(rt; !beyond.is_open());
    Ok(())
}

/// A read that fails within the second line.
#[test]
fn a_fault_ends_the_lines(rt: HostRuntime) -> Result<(), NoMemory> {
    let alloc = rt.alloc();
    let mut source = source(alloc, b"ab\ncd\n", 2, 2)?;
    let mut reader = LineReader::new(alloc, 99)?;
    assert!(rt; is_full(next(alloc, &mut reader, &mut source)?, b"ab"));
    assert!(rt; matches!(next(alloc, &mut reader, &mut source)?, Line::Failed));
    assert!(rt; !reader.is_open());
    Ok(())
}

#[test]
fn beats_come_in_turn(rt: HostRuntime) -> Result<(), NoMemory> {
    let alloc = rt.alloc();
    let mut beats = MemBeats::new(Vec::from_slice(alloc, &[3, 1])?);
    assert!(rt; beats.passed() == 3 && beats.passed() == 1 && beats.passed() == 1);
    assert!(rt; MemBeats::new(Vec::new(alloc)).passed() == 0);
    Ok(())
}

/// A clock that shows these milliseconds, and can't be read where there are none.
#[derive(Drop)]
struct Shown {
    millis: Cell<Option<u64>>,
}

impl Clock for Shown {
    fn monotonic(&self) -> io::Result<Duration> {
        match self.millis.get() {
            Some(millis) => Ok(Duration::from_millis(millis)),
            None => Err(io::Error::from(ErrorKind::Other)),
        }
    }

    fn since_1970(&self) -> io::Result<Duration> {
        Ok(Duration::from_millis(0))
    }
}

/// A beat is 1,000 milliseconds since the beginning; a clock that can't be read changes nothing.
#[test]
fn a_clock_gives_beats(rt: HostRuntime) {
    let clock = Shown {
        millis: Cell::new(Some(700)),
    };
    let mut beats = ClockBeats::new(&clock);
    clock.millis.set(Some(1_699));
    assert!(rt; beats.passed() == 0);
    clock.millis.set(Some(3_700));
    assert!(rt; beats.passed() == 3);
    clock.millis.set(None);
    assert!(rt; beats.passed() == 3);
    let mut without = ClockBeats::new(&clock);
    clock.millis.set(Some(9_000));
    assert!(rt; without.passed() == 0);
    assert!(rt; ClockBeats::new(&rt).passed() <= 60);
}

/// The cause of a bad line.
fn cause_of(alloc: Global, header: &Header, line: &[u8]) -> Option<Cause> {
    match read_live(alloc, header, line) {
        Err(LiveError::Bad(cause)) => Some(cause),
        _ => None,
    }
}

/// Whether the line is this command to this router.
fn is_command(answer: Result<(u16, Input), LiveError>, router: u16, body: &[u8]) -> bool {
    match answer {
        Ok((at, input)) => match input {
            Input::Cmd(bytes) => at == router && bytes.as_slice() == body,
            _other => false,
        },
        Err(_error) => false,
    }
}

/// Two routers with a link between them.
const PAIR: &[u8] =
    b"defined 1\nperiod 1\ngroups 1\nseed 0\nrouter a flood\nrouter b flood\nlink a b 1 1\nfeed\nend\n";

#[test]
fn live_lines(rt: HostRuntime) -> Result<(), NoMemory> {
    let alloc = rt.alloc();
    let Ok((case, _)) = read_case(alloc, PAIR) else {
        return Err(AllocError);
    };
    let header = &case.header;
    assert!(rt; is_command(read_live(alloc, header, b"b cmd 41"), 1, b"A"));
    assert!(rt;
        matches!(
            read_live(alloc, header, b"a down 0"),
            Ok((0, Input::Down(0)))
        )
    );
    assert!(rt; matches!(read_live(alloc, header, b"a up 0"), Ok((0, Input::Up(0)))));
    assert!(rt; matches!(cause_of(alloc, header, b"@0 a up 0"), Some(Cause::Syntax)));
    assert!(rt; matches!(cause_of(alloc, header, b"a tick"), Some(Cause::Syntax)));
    assert!(rt; matches!(cause_of(alloc, header, b"a up 0\n"), Some(Cause::Syntax)));
    assert!(rt; matches!(cause_of(alloc, header, b"c up 16"), Some(Cause::Range)));
    assert!(rt; matches!(cause_of(alloc, header, b"c up 1"), Some(Cause::Name)));
    assert!(rt; matches!(cause_of(alloc, header, b"b up 1"), Some(Cause::Port)));
    Ok(())
}
