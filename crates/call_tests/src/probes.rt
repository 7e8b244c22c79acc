//! Probes on small shows: tables of rows, each with the show of its router after it, and whether the probe says yes.

use crate::calls::case_of;
use dn_guest::{Bytes, Input, NoMemory};
use dn_model::Event;
use dn_probe::{LoopProbe, LostProbe, Probe, StormProbe};
use std::alloc::Global;

/// A ring of three routers. Port 0 of a leads to b and port 1 to c; of b to a and c; of c, which runs RIP, to b and a.
const RING: &[u8] =
    b"defined 1\nperiod 10\ngroups 2\nseed 0\nrouter a ospf\nrouter b ospf\nrouter c rip\nlink a b 1 1\nlink b c 1 1\nlink c a 1 1\nfeed\nend\n";

/// A router's number, its show, and what a probe says.
type Shown = (u16, &'static [u8], bool);

const LOOPS: &[Shown] = &[
    (0, b"route 10.0.0.0/8 2 via 0\n", false),
    (1, b"neighbour 1 full 3\nroute 10.0.0.0/8 2 via 1\n", false),
    // c to a, a to b, b to c.
    (2, b"route 10.0.0.0/8 3 via 1\n", true),
    (2, b"route 10.0.0.0/8 16 via 1\n", false),
    // The least port leads from b to a, and back.
    (1, b"route 10.0.0.0/8 2 via 0 1\n", true),
    (1, b"route 10.0.0.0/8 2 via own 0\n", false),
    (1, b"route 10.0.0.0/8 2 via 2\n", false),
    (1, b"route 10.0.0.0/9 2 via 0\n", false),
];

const LOSSES: &[Shown] = &[
    (
        2,
        b"route 10.0.0.0/8 3 via 1\nroute 10.9.0.0/16 1 via own\n",
        false,
    ),
    (
        2,
        b"route 10.9.0.0/16 1 via own\nroute 10.0.0.0/8 4 via 0\n",
        false,
    ),
    (
        2,
        b"route 10.9.0.0/16 1 via own\nroute 10.0.0.0/8 16 via 0\n",
        true,
    ),
    (2, b"route 10.9.0.0/16 1 via own\n", false),
    (0, b"neighbour 0 full 2\nroute 10.0.0.0/8 16 via 0\n", false),
    (0, b"neighbour 0 full 2\n", true),
];

/// Begins the probe in the ring and shows it the rows. Whether it says what the table says, and then reports so.
fn plays<P: Probe>(
    alloc: Global,
    probe: &mut P,
    table: &[Shown],
    report: &[u8],
) -> Result<bool, NoMemory> {
    probe.begin(alloc, &case_of(alloc, RING)?.header)?;
    let mut agrees = true;
    for (router, show, yes) in table {
        if probe.seen(alloc, &Event::tick(0, *router), show)? != *yes {
            agrees = false;
        }
    }
    let mut out = Bytes::new(alloc);
    probe.report(&mut out)?;
    Ok(agrees && out.as_slice() == report)
}

#[test]
fn loops_are_seen(rt: HostRuntime) -> Result<(), NoMemory> {
    let mut probe = LoopProbe::new(rt.alloc());
    assert!(rt;
        plays(
            rt.alloc(),
            &mut probe,
            LOOPS,
            b"report loop shown 8 yes 2\n"
        )?
    );
    Ok(())
}

#[test]
fn losses_are_seen(rt: HostRuntime) -> Result<(), NoMemory> {
    let mut probe = LostProbe::new(rt.alloc());
    assert!(rt;
        plays(
            rt.alloc(),
            &mut probe,
            LOSSES,
            b"report lost shown 6 yes 2\n"
        )?
    );
    Ok(())
}

/// A message to the first router, in a group.
fn message(alloc: Global, group: u32) -> Event {
    let mut row = Event::tick(group, 0);
    row.input = Input::Msg(0, Bytes::new(alloc));
    row
}

/// How often the probe says yes at so many messages of a group.
fn yes_at(
    alloc: Global,
    probe: &mut StormProbe,
    group: u32,
    messages: u32,
) -> Result<u32, NoMemory> {
    let mut yes: u32 = 0;
    for _message in 0..messages {
        if probe.seen(alloc, &message(alloc, group), b"")? {
            yes = yes.saturating_add(1);
        }
    }
    Ok(yes)
}

#[test]
fn storms_are_seen(rt: HostRuntime) -> Result<(), NoMemory> {
    let alloc = rt.alloc();
    let mut probe = StormProbe::new();
    let before = yes_at(alloc, &mut probe, 0, 1_000)?;
    assert!(rt; before == 0 && !probe.seen(alloc, &Event::tick(0, 0), b"")?);
    assert!(rt; yes_at(alloc, &mut probe, 0, 2)? == 2);
    assert!(rt; yes_at(alloc, &mut probe, 1, 1_000)? == 0 && probe.shown() == 2_003);
    Ok(())
}

#[test]
fn probes_in_boxes(rt: HostRuntime) -> Result<(), NoMemory> {
    let alloc = rt.alloc();
    let mut probes: Vec<Box<dyn Probe>> = Vec::new(alloc);
    probes.push(Box::new(alloc, LoopProbe::new(alloc))?)?;
    probes.push(Box::new(alloc, StormProbe::new())?)?;
    probes.push(Box::new(alloc, LostProbe::new(alloc))?)?;
    let mut names = Bytes::new(alloc);
    for probe in &mut probes {
        probe.seen(alloc, &message(alloc, 0), b"")?;
        names.append(probe.name())?;
    }
    assert!(rt; names.as_slice() == b"loopstormlost".as_slice() && probes[1].shown() == 1);
    Ok(())
}
