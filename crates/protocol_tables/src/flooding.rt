//! The receive table of OSPF (RFC 2328 section 13): `copy` installs an LSA, `receive` receives one.

ghost use Rattle.std.specs.Prelude.{◌≡◌, ◌+◌, ◌<◌, IfOk, length};

use crate::lsas::{lsa_of, push_kept, push_key};
use crate::named::{byte, number, ports, some_number};
use dn_guest::NoMemory;
use ospf_flood::{Lists, Step, Verdict};
use ospf_lsdb::{LsaKey, Lsdb, key_of};
use ospf_wire::Lsa;
use std::alloc::Global;
use table_program::{Fields, Out};

/// The LSA that stands on retransmission lists: the router-LSA of router 5.
const LISTED: LsaKey = LsaKey {
    kind: 1,
    id: 5,
    router: 5,
};

/// `copy`: installs the LSA at the tick `installed`, by flooding or not; it was sent at the tick `sent`.
pub(crate) fn copy(
    alloc: Global,
    database: &mut Lsdb,
    fields: &mut Fields<'_>,
) -> Result<(), NoMemory> {
    let lsa = lsa_of(alloc, fields)?;
    let key = key_of(&lsa.head);
    let installed = number(fields, b"installed", 50);
    let flooded = fields.has(b"flooded");
    database.install(lsa, installed, flooded, fields.has(b"foreign"))?;
    if let Some(sent) = some_number(fields, b"sent", 0xffff_ffff) {
        database.note_sent(&key, sent as u32);
    }
    Ok(())
}

/// So many lists; the LSA 1/5/5 stands on those of the ports `listed`, since the tick `at`.
fn lists_of(alloc: Global, count: u8, fields: &mut Fields<'_>) -> Result<Lists, NoMemory>
    ensures { IfOk result (λ lists. length lists ≡ count) }
{
    let listed = ports(fields, b"listed");
    let at = number(fields, b"at", 90);
    let mut lists = Lists::new(alloc, count)?;
    lists.put_on(listed, LISTED, at)?;
    Ok(lists)
}

/// How an LSA comes: the ports that have a full neighbour, the port on which it comes, the router's own id,
/// and the tick.
#[derive(Clone, Copy)]
struct Arrival {
    full: u16,
    port: u8,
    own: u32,
    now: u32,
}

fn arrival_of(fields: &mut Fields<'_>) -> Arrival {
    let full = ports(fields, b"full");
    Arrival {
        full: if full == 0 { 0b0111 } else { full },
        port: byte(fields, b"port", 1),
        own: number(fields, b"own", 9),
        now: number(fields, b"now", 100),
    }
}

/// `receive`: receives the LSA on a port of a router that has `lists` ports. It tells the step, and what
/// the database and the lists are then.
pub(crate) fn receive(
    alloc: Global,
    database: &mut Lsdb,
    fields: &mut Fields<'_>,
    out: &mut Out,
) -> Result<(), NoMemory> {
    let arrival = arrival_of(fields);
    let count = byte(fields, b"lists", 4);
    if arrival.port >= count {
        fields.refuse();
        return Ok(());
    }
    let came = lsa_of(alloc, fields)?;
    let mut lists = lists_of(alloc, count, fields)?;
    receive_lsa(database, &mut lists, arrival, &came, out)?;
    push_lists(&lists, count, out)
}

/// Receives the LSA, and tells the step and the database.
fn receive_lsa(
    database: &mut Lsdb,
    lists: &mut Lists,
    arrival: Arrival,
    came: &Lsa,
    out: &mut Out,
) -> Result<(), NoMemory>
    requires port { arrival.port < length lists.old }
    requires size { came.now.head.length ≡ 20 + length came.now.body }
    ensures { length lists.new ≡ length lists.old }
{
    let Arrival {
        full,
        port,
        own,
        now,
    } = arrival;
    let step = ospf_flood::receive(database, lists, full, port, came, own, now)?;
    push_step(step, out);
    for (key, kept) in database.iter() {
        push_kept(key, kept, out);
    }
    Ok(())
}

/// Appends the verdict, and what is to be done.
fn push_step(step: Step, out: &mut Out) {
    out.text(match step.verdict {
        Verdict::Discarded => "-> Discarded",
        Verdict::Acked => "-> Acked",
        Verdict::Installed => "-> Installed",
        Verdict::SentBack => "-> SentBack",
        Verdict::Implied => "-> Implied",
    });
    out.flag(step.flush, " flush");
    out.flag(step.renew, " renew");
    out.text("\n");
}

/// Appends the lists of so many ports.
fn push_lists(lists: &Lists, count: u8, out: &mut Out) -> Result<(), NoMemory>
    requires { length lists.now ≡ count }
{
    for port in 0..count {
        push_list(port, lists.entries(port)?.as_slice(), out);
    }
    Ok(())
}

/// Appends what stands on a port's list.
fn push_list(port: u8, list: &[(LsaKey, u32)], out: &mut Out) {
    for (key, tick) in list {
        out.number("-> list ", u64::from(port));
        push_key(": ", *key, out);
        out.number(" at ", u64::from(*tick));
        out.text("\n");
    }
}
