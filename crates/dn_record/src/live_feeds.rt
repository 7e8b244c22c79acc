//! Live feeds: which lines they accept, how these are stamped, and why they close.

ghost use Rattle.std.specs.Prelude.{◌≡◌, false};

use crate::{Fed, Feeder, LiveEnd, LiveFeed};
use dn_case::{Cause, read_case};
use dn_guest::NoMemory;
use dn_io::{LineReader, MemBeats, MemSource};
use dn_model::{Case, Header};
use std::alloc::{AllocError, Global};

/// Two flooding routers, and five groups.
const CASE: &[u8] =
    b"defined 1\nperiod 100\ngroups 5\nseed 0\nrouter a flood\nrouter b flood\nlink a b 10 1\nfeed\nend\n";

/// The header of the case.
fn header(alloc: Global) -> Result<Header, NoMemory> {
    match read_case(alloc, CASE) {
        Ok((case, _size)) => Ok(case.header),
        Err(_) => Err(AllocError),
    }
}

/// A source of these bytes, one at a call; the read of this number fails.
fn source(alloc: Global, text: &[u8], fails: u64) -> Result<MemSource, NoMemory> {
    let fails = Vec::from_slice(alloc, &[fails])?;
    Ok(MemSource::new(Vec::from_slice(alloc, text)?, fails, 1))
}

/// The stamps of all that the feeder gives until it closes, but at most ten.
fn stamps<F: Feeder>(alloc: Global, feeder: &mut F) -> Result<Vec<u32>, NoMemory>
    requires { F.closed feeder.old ≡ false }
{
    let mut stamps = Vec::new(alloc);
    'feed: for _ in 0..10 {
        match feeder.next(alloc)? {
            Fed::One(_router, _input, stamp) => stamps.push(stamp)?,
            Fed::Closed => return Ok(stamps),
        }
    }
    Ok(stamps)
}

/// What came of live lines: the stamps, and why the feed has closed. The first line has the number 9.
fn heard(
    alloc: Global,
    text: &[u8],
    fails: u64,
) -> Result<(Vec<u32>, Option<LiveEnd>, Case), NoMemory> {
    let mut source = source(alloc, text, fails)?;
    let mut beats = MemBeats::new(Vec::from_slice(alloc, &[0, 0, 3, 2, 9])?);
    let lines = LineReader::new(alloc, 1_000)?;
    let mut feed = LiveFeed::new(alloc, header(alloc)?, lines, 9, &mut source, &mut beats);
    let stamps = stamps(alloc, &mut feed)?;
    let ended = feed.ended();
    let (case, _source, _beats) = feed.into_parts();
    Ok((stamps, ended, case))
}

#[test]
fn live_lines_are_stamped(rt: HostRuntime) -> Result<(), NoMemory> {
    let text = b"a cmd 41\nb cmd 42\na cmd 43\nb cmd 44\na cmd 45\nend\n";
    let (stamps, ended, case) = heard(rt.alloc(), text, 9_999)?;
    assert!(rt; stamps.as_slice() == [0, 0, 3, 3, 4].as_slice());
    assert!(rt; matches!(ended, Some(LiveEnd::Closed)));
    assert!(rt; case.feed.as_slice().len() == 5);
    Ok(())
}

#[test]
fn a_live_feed_closes_at_a_bad_line(rt: HostRuntime) -> Result<(), NoMemory> {
    let text = b"a cmd 41\nb cmd 42\na cmd 43\nz cmd 44\na cmd 45\nend\n";
    let (stamps, ended, _case) = heard(rt.alloc(), text, 9_999)?;
    assert!(rt; stamps.as_slice() == [0, 0, 3].as_slice());
    assert!(rt;
        matches!(ended, Some(LiveEnd::Bad(fault)) if fault.line == 12 && matches!(fault.cause, Cause::Name))
    );
    Ok(())
}

#[test]
fn a_live_feed_closes_where_its_source_fails(rt: HostRuntime) -> Result<(), NoMemory> {
    let text = b"a cmd 41\nb cmd 42\na cmd 43\nb cmd 44\na cmd 45\nend\n";
    let (stamps, ended, _case) = heard(rt.alloc(), text, 30)?;
    assert!(rt; stamps.as_slice() == [0, 0, 3].as_slice());
    assert!(rt; matches!(ended, Some(LiveEnd::Failed)));
    Ok(())
}

#[test]
fn a_last_line_without_newline_is_bad(rt: HostRuntime) -> Result<(), NoMemory> {
    let (stamps, ended, _case) = heard(rt.alloc(), b"a cmd 41\nend", 9_999)?;
    assert!(rt; stamps.as_slice() == [0].as_slice());
    assert!(rt;
        matches!(ended, Some(LiveEnd::Bad(fault)) if fault.line == 10 && matches!(fault.cause, Cause::Syntax))
    );
    Ok(())
}
