//! `defined_plain`, which no program calls, on a source and a sink that fail at a numbered call or move single
//! bytes.

ghost use Rattle.std.specs.Prelude.{◌≤◌};

use crate::calls::SMALLEST;
use dn_guest::NoMemory;
use dn_io::{MemSink, MemSource};
use dn_top::{defined_plain, status_number};
use std::alloc::Global;

/// The smallest case in pieces of so many bytes; the read of this number fails.
fn source(alloc: Global, piece: u64, fails: u64) -> Result<MemSource, NoMemory>
    requires { 1 ≤ piece }
{
    let fails = Vec::from_slice(alloc, &[fails])?;
    Ok(MemSource::new(Vec::from_slice(alloc, SMALLEST)?, fails, piece))
}

/// An empty sink that takes so many bytes at a call; the write of this number fails.
pub(crate) fn sink(alloc: Global, piece: u64, fails: u64) -> Result<MemSink, NoMemory>
    requires { 1 ≤ piece }
{
    MemSink::new(alloc, Vec::from_slice(alloc, &[fails])?, piece, 100_000)
}

/// A word.
fn words(alloc: Global, word: &str) -> Result<Vec<String>, NoMemory> {
    let mut words = Vec::new(alloc);
    words.push(String::from_str(alloc, word)?)?;
    Ok(words)
}

/// The exit status of a command of one word, among those that wait for nobody.
fn plain(
    alloc: Global,
    word: &str,
    source: &mut MemSource,
    sink: &mut MemSink,
) -> Result<u8, NoMemory> {
    let words = words(alloc, word)?;
    let status = defined_plain(alloc, words.as_slice(), source, sink);
    Ok(status_number(&status))
}

/// A read that fails, and a write: what was written is a front of the case.
#[test]
fn faults_in_the_middle(rt: HostRuntime) -> Result<(), NoMemory> {
    let mut sink = sink(rt.alloc(), 20, 2)?;
    assert!(rt;
        plain(
            rt.alloc(),
            "lockstep",
            &mut source(rt.alloc(), 40, 1)?,
            &mut sink
        )? == 5
    );
    assert!(rt; sink.as_slice().is_empty());
    assert!(rt;
        plain(
            rt.alloc(),
            "lockstep",
            &mut source(rt.alloc(), 40, 99)?,
            &mut sink
        )? == 6
    );
    assert!(rt; sink.as_slice().len() == 40 && SMALLEST.starts_with(sink.as_slice()));
    Ok(())
}

#[test]
fn single_bytes(rt: HostRuntime) -> Result<(), NoMemory> {
    let mut source = source(rt.alloc(), 1, 999)?;
    let mut sink = sink(rt.alloc(), 1, 999)?;
    assert!(rt; plain(rt.alloc(), "run", &mut source, &mut sink)? == 2);
    assert!(rt; plain(rt.alloc(), "lockstep", &mut source, &mut sink)? == 0);
    assert!(rt; sink.as_slice().ends_with(b"\nend trace 1\n"));
    Ok(())
}
