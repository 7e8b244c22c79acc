//! A full link-state database and a full RIP routing table, which take nothing more (docs/OSPF.md, docs/RIP.md).

ghost use Rattle.std.specs.Prelude.{◌≡◌, ◌+◌, IfOk, length};

use ospf_flood::{Lists, NoMemory, Verdict, receive};
use ospf_lsdb::Lsdb;
use ospf_wire::{Lsa, LsaBody, LsaHeader, fletcher_set};
use rip_table::Table;
use std::alloc::Global;

/// The router-LSA of this router without links, with the right checksum.
fn lsa(alloc: Global, router: u32) -> Result<Lsa, NoMemory>
    ensures { IfOk result (λ lsa. lsa.head.length ≡ 20 + length lsa.body) }
{
    let head = LsaHeader {
        age: 0,
        options: 2,
        kind: 1,
        id: router,
        router,
        seq: 0x8000_0001,
        sum: 0,
        length: 24,
    };
    let body = LsaBody::from_slice(alloc, &[0, 0, 0, 0])?;
    let mut lsa = Lsa { head, body };
    fletcher_set(&mut lsa);
    Ok(lsa)
}

/// A database of the LSAs of so many routers.
fn database(alloc: Global, count: u32) -> Result<Lsdb, NoMemory> {
    let mut database = Lsdb::new(alloc);
    for router in 0..count {
        database.install(lsa(alloc, router)?, 50, true, false)?;
    }
    Ok(database)
}

/// The verdict on the LSA of this router, which comes on the one port.
fn verdict(alloc: Global, database: &mut Lsdb, router: u32) -> Result<Verdict, NoMemory> {
    let came = lsa(alloc, router)?;
    let mut lists = Lists::new(alloc, 1)?;
    let step = receive(database, &mut lists, 1, 0, &came, 0xffff_ffff, 100)?;
    Ok(step.verdict)
}

#[test]
fn a_full_database(rt: HostRuntime) -> Result<(), NoMemory> {
    let mut database = database(rt.alloc(), 65_533)?;
    assert!(rt; verdict(rt.alloc(), &mut database, 65_533)? == Verdict::Installed);
    assert!(rt; verdict(rt.alloc(), &mut database, 65_534)? == Verdict::Discarded);
    assert!(rt; verdict(rt.alloc(), &mut database, 65_533)? == Verdict::Acked);
    Ok(())
}

#[test]
fn a_full_routing_table(rt: HostRuntime) -> Result<(), NoMemory> {
    let mut table = Table::new(rt.alloc());
    for address in 0..65_540 {
        table.connect(address, 32, 1, 0)?;
    }
    assert!(rt; table.len() == 65_535 && table.get(65_535, 32).is_none());
    assert!(rt; table.keys()?.len() == 65_535);
    Ok(())
}
