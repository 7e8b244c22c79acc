//! Calls that no program makes, each once with ample memory.

use dn_case::read_case;
use dn_ckpt::Shelf;
use dn_guest::{Flood, NoMemory, Node};
use dn_model::{Case, Event, Timing};
use dn_router::Router;
use dn_router::laws::nothing_before_zeros;
use ospf_flood::Lists;
use ospf_lsdb::LsaKey;
use std::alloc::{AllocError, Global};

/// One flooding router for one moment.
pub(crate) const SMALLEST: &[u8] =
    b"defined 1\nperiod 1\ngroups 1\nseed 0\nrouter a flood\nfeed\nend\n";

/// The case of a text.
pub(crate) fn case_of(alloc: Global, text: &[u8]) -> Result<Case, NoMemory> {
    match read_case(alloc, text) {
        Ok((case, _length)) => Ok(case),
        Err(_) => Err(AllocError),
    }
}

/// The smallest case.
pub(crate) fn smallest(alloc: Global) -> Result<Case, NoMemory> {
    case_of(alloc, SMALLEST)
}

/// A node that has sent so many messages.
pub(crate) fn node(alloc: Global, sends: u64) -> Node<Flood> {
    Node {
        guest: Flood::new(alloc),
        ports: 1,
        sends,
    }
}

#[test]
fn a_case_is_copied(rt: HostRuntime) -> Result<(), NoMemory> {
    let copy = smallest(rt.alloc())?.copy(rt.alloc())?;
    assert!(rt; copy.header.routers.as_slice().len() == 1 && copy.feed.as_slice().is_empty());
    Ok(())
}

#[test]
fn a_router_tells_what_waits(rt: HostRuntime) -> Result<(), NoMemory> {
    let alloc = rt.alloc();
    let timing = Timing {
        period: 1,
        groups: 1,
        seed: 0,
    };
    let mut router = Router::new(alloc, 0, Vec::new(alloc), timing, node(alloc, 0))?;
    nothing_before_zeros();
    router.arrive(true, Event::tick(0, 0))?;
    assert!(rt; router.todo_keys()?.len() == 1 && router.done().is_empty());
    Ok(())
}

#[test]
fn trimming_keeps_the_base(rt: HostRuntime) -> Result<(), NoMemory> {
    let alloc = rt.alloc();
    let mut shelf = Shelf::new(alloc, node(alloc, 10))?;
    shelf.keep(2, node(alloc, 12))?;
    shelf.keep(7, node(alloc, 17))?;
    if shelf.least_place() <= 6 {
        shelf.trim(6);
    }
    assert!(rt; shelf.least_place() == 2);
    Ok(())
}

#[test]
fn a_list_tells_its_keys(rt: HostRuntime) -> Result<(), NoMemory> {
    let key = LsaKey {
        kind: 1,
        id: 5,
        router: 5,
    };
    let mut lists = Lists::new(rt.alloc(), 1)?;
    lists.put(0, key, 90)?;
    assert!(rt; lists.keys(0)?.len() == 1);
    Ok(())
}
