//! Sessions of the debugger: the whole transcript of one, and when a session drops its probes.

ghost use Rattle.std.specs.Prelude.{[], codes, false};

use crate::calls::case_of;
use dn_debug::{Boxed, Conversed, Session, converse};
use dn_guest::{Bytes, Flood, NoMemory};
use dn_io::{LineReader, MemSink, MemSource};
use dn_model::{Header, Row};
use dn_probe::{Probe, StormProbe};
use std::alloc::{AllocError, Global};
use std::sync::atomic::{AtomicU64, Ordering};
use table_program::flooding_guests;

/// Two flooding routers with a link of delay 10.
const PAIR: &[u8] =
    b"defined 1\nperiod 100\ngroups 4\nseed 0\nrouter a flood\nrouter b flood\nlink a b 10 1\nfeed\n@0 a cmd 41\n@2 a down 0\nend\n";

/// What stands behind `quit` isn't answered.
const LINES: &[u8] = b"break router b\nrun\nstep 2\nshow b\nwhere\nquit\nwhere\n";

const TRANSCRIPT: &[u8] =
    b"break 0\n0 0 t 0000000000000000 1 0 b tick\nat 2 break 0\n0 0 x 0000000000000000 0 0 a cmd 41\n0 10 m 0000000000000000 0 0 b msg 0 41\nat 4 break 0\nnode b 0 0001\nseen 41\nat 4\n";

/// A session of the pair.
fn session_of<P: Probe>(alloc: Global, probes: Vec<P>) -> Result<Session<Flood, P>, NoMemory> {
    let case = case_of(alloc, PAIR)?;
    let guests = flooding_guests(alloc, case.header.routers.as_slice().len())?;
    Session::new(alloc, case, guests, probes)
}

/// What a session with these probes writes for the lines; None where it wasn't done.
fn written<P: Probe>(
    alloc: Global,
    probes: Vec<P>,
    lines: &[u8],
) -> Result<Option<MemSink>, NoMemory> {
    let mut session = session_of(alloc, probes)?;
    converse_in(alloc, &mut session, lines)
}

/// What the session writes for the lines; None where it wasn't done.
fn converse_in<P: Probe>(
    alloc: Global,
    session: &mut Session<Flood, P>,
    lines: &[u8],
) -> Result<Option<MemSink>, NoMemory> {
    let mut reader = LineReader::new(alloc, 1_000)?;
    let mut source = MemSource::new(Vec::from_slice(alloc, lines)?, Vec::new(alloc), 20);
    let mut sink = MemSink::new(alloc, Vec::new(alloc), 1_000, 100_000)?;
    match converse(alloc, session, &mut reader, &mut source, &mut sink) {
        Conversed::Done => Ok(Some(sink)),
        _ => Ok(None),
    }
}

#[test]
fn a_whole_session(rt: HostRuntime) -> Result<(), NoMemory> {
    let alloc = rt.alloc();
    let mut probes = Vec::new(alloc);
    probes.push(Boxed {
        probe: Box::new(alloc, StormProbe::new())?,
    })?;
    let sink = written(alloc, probes, LINES)?;
    assert!(rt; matches!(&sink, Some(sink) if sink.as_slice() == TRANSCRIPT));
    Ok(())
}

/// A probe that says no to each row, and counts its drops.
struct Counting<'a> {
    drops: &'a AtomicU64,
    shown: u64,
}

impl Drop for Counting<'_> {
    fn drop(self) {
        self.drops.fetch_add(1, Ordering::SeqCst);
        let Counting { drops: _, shown: _ } = self;
    }
}

impl Probe for Counting<'_> {
    ghost watcher = { λ p. record {
      rules = record {
        name = codes "count";
        opening = λ header. [];
        rule = λ memory row show. record { yes = false; memory = [] };
        report = λ memory shown. [];
      };
      memory = [];
      shown = p.shown;
    } };

    fn name(&self) -> &[u8] {
        b"count"
    }

    fn begin(&mut self, _alloc: Global, _header: &Header) -> Result<(), NoMemory> {
        self.shown = 0;
        Ok(())
    }

    fn seen(&mut self, _alloc: Global, _row: &Row, _show: &[u8]) -> Result<bool, NoMemory> {
        self.shown = self.shown.checked_add(1).ok_or(AllocError)?;
        Ok(false)
    }

    fn shown(&self) -> u64 {
        self.shown
    }

    fn report(&self, _out: &mut Bytes) -> Result<(), NoMemory> {
        Ok(())
    }
}

/// One of two probes is dropped at `unwatch`, and the other, which is attached, at the session's end.
#[test]
fn probes_are_dropped(rt: HostRuntime) -> Result<(), NoMemory> {
    let alloc = rt.alloc();
    let drops = AtomicU64::new(0);
    {
        let mut probes = Vec::new(alloc);
        for _probe in 0..2 {
            probes.push(Counting {
                drops: &drops,
                shown: 0,
            })?;
        }
        let mut session = session_of(alloc, probes)?;
        let sink = converse_in(
            alloc,
            &mut session,
            b"watch count\nwatch count\nrun\nunwatch count",
        )?;
        assert!(rt; sink.is_some() && drops.load(Ordering::SeqCst) == 1);
    }
    assert!(rt; drops.load(Ordering::SeqCst) == 2);
    Ok(())
}
