// Sources and sinks over std's readers and writers.
ghost use Rattle.std.specs.Prelude.{◌≡◌, ◌<◌, ◌≤◌, None, length};
ghost use Rattle.std.specs.Io.{ReadsAtMost, WritesAtMost};
ghost use Rattle.std.specs.Io.KnownBytes.{ReadConsumes, WriteAppends};
ghost use Rattle.dn_io.specs.Streams.{Reads, Writes, Rose};
ghost use Rattle.dn_io.specs.Standard.{reader_of, faults_read, writer_of, faults_written, PassesOn, HandsOn};

use crate::{Put, Sink, Source, Took};
use std::io;
use std::io::{ErrorKind, Read, Write};

/// A source over a reader, as standard input. It tells nothing of what is left.
#[derive(Drop)]
pub struct StdSource<R: Read> {
    inner: R,
    failed: u64,
}

impl<R: Read> StdSource<R> {
    /// A source that reads from `inner`.
    pub fn new(inner: R) -> StdSource<R>
        ensures reader { reader_of result ≡ inner }
        ensures none_failed { faults_read result ≡ 0 }
    {
        StdSource { inner, failed: 0 }
    }
}

impl<R: Read> Source for StdSource<R> {
    ghost left = { λ _. None };

    ghost faults = { faults_read };

    fn read(&mut self, into: &mut [u8]) -> Took
        requires { 0 < length into.old }
        ensures bytes { Reads result None None into.new }
        ensures failed { result ≡ Took.Failed → Rose (faults_read self.old) (faults_read self.new) }
        ensures later { faults_read self.old ≤ faults_read self.new }

        // What the reader says of its own bytes.
        ensures passed { PassesOn result (R.remaining (reader_of self.old))
            (R.remaining (reader_of self.new)) into.new }
    {
        match read_uninterrupted(&mut self.inner, into) {
            Ok(0) => Took::End,
            Ok(count) => Took::Bytes(count as u64),
            Err(_) => {
                self.failed = self.failed.saturating_add(1);
                Took::Failed
            }
        }
    }
}

/// A sink over a writer, as standard output. It tells nothing of what was written. A write that takes
/// nothing of a piece that isn't empty is a fault.
#[derive(Drop)]
pub struct StdSink<W: Write> {
    inner: W,
    failed: u64,
}

impl<W: Write> StdSink<W> {
    /// A sink that writes to `inner`.
    pub fn new(inner: W) -> StdSink<W>
        ensures writer { writer_of result ≡ inner }
        ensures none_failed { faults_written result ≡ 0 }
    {
        StdSink { inner, failed: 0 }
    }
}

impl<W: Write> Sink for StdSink<W> {
    ghost holds = { λ _. None };

    ghost faults = { faults_written };

    fn write(&mut self, piece: &[u8]) -> Put
        ensures bytes { Writes result None None piece.now }
        ensures failed { result ≡ Put.Failed → Rose (faults_written self.old) (faults_written self.new) }
        ensures later { faults_written self.old ≤ faults_written self.new }

        // What the writer says of its own bytes.
        ensures handed { HandsOn result (W.contents (writer_of self.old)) (W.contents (writer_of self.new)) piece.now }
    {
        if piece.is_empty() {
            return Put::Bytes(0);
        }
        match write_uninterrupted(&mut self.inner, piece) {
            Ok(0) | Err(_) => {
                self.failed = self.failed.saturating_add(1);
                Put::Failed
            }
            Ok(count) => Put::Bytes(count as u64),
        }
    }
}

/// One read. A read that a signal interrupts is made again.
fn read_uninterrupted<R: Read>(reader: &mut R, into: &mut [u8]) -> io::Result<usize>
    ensures within { ReadsAtMost result into.new }
    ensures bytes { ReadConsumes (R.remaining reader.old) (R.remaining reader.new) result into.new }
{
    for _ in 0..u64::MAX {
        match reader.read(into) {
            Err(error) if error.kind() == ErrorKind::Interrupted => {}
            answer => return answer,
        }
    }
    Err(io::Error::from(ErrorKind::Interrupted))
}

/// One write. A write that a signal interrupts is made again.
fn write_uninterrupted<W: Write>(writer: &mut W, piece: &[u8]) -> io::Result<usize>
    ensures within { WritesAtMost result piece.now }
    ensures bytes { WriteAppends (W.contents writer.old) (W.contents writer.new) result piece.now }
{
    for _ in 0..u64::MAX {
        match writer.write(piece) {
            Err(error) if error.kind() == ErrorKind::Interrupted => {}
            answer => return answer,
        }
    }
    Err(io::Error::from(ErrorKind::Interrupted))
}
