//! Link State Updates as they are sent (RFC 2328 section 13.3 and appendix A.3.5).

ghost use Rattle.std.specs.Prelude.{◌≡◌, ◌+◌, ◌≤◌, ◌++◌, ◌∷◌, [], All, IsTrue, IfOk, OnOk, map};
ghost use Rattle.std.specs.List.{filter_map};
ghost use Rattle.ospf_wire.specs.Packets.{IsEncodable};
ghost use Rattle.ospf_wire.specs.declared.packet.Body.TheVariants as body;
ghost use Rattle.ospf_router.specs.BuildUpdates.{copies, copy_of, is_sendable, of_age, one_update, packet_of, packs, sent_age, update_len, update_on, updates_on};

use dn_guest::{Bytes, Outbox, is_up};
use ospf_lsdb::{LsaKey, Lsdb};
use ospf_wire::{BACKBONE, Body, INF_TRANS_DELAY, Lsa, Lsas, MAX_AGE, Packet, encode};
use std::alloc::{AllocError, Global};
use std::mem;

/// How many bytes a packet with several LSAs has at most, which is this project's own.
const MOST_PACKED: usize = 1_400;

/// How many bytes the body of an LSA has at most: with its header, the head of an Update and that of a
/// packet it has 65,535.
const MOST_BODY: usize = 65_487;

/// How many bytes the header of an LSA has.
const HEADER: usize = 20;

/// How many bytes an Update without LSAs has.
const EMPTY_UPDATE: usize = 28;

/// How many ports a mask has.
const PORTS: u8 = 16;

/// The bytes of a packet of the router with this number, in area 0.
#[tactic(auto, unfolding(crate::specs::BuildUpdates::packet_of))]
pub fn packet_of(alloc: Global, number: u16, body: Body) -> Result<Bytes, AllocError>
    requires { IsEncodable (record { router = number + 1; area = 0; body = body }) }
    ensures { IfOk result (λ bytes. bytes ≡ packet_of number body) }
{
    let packet = Packet {
        router: u32::from(number) + 1,
        area: BACKBONE,
        body,
    };
    let mut bytes = Bytes::new(alloc);
    encode(alloc, &packet, &mut bytes)?;
    Ok(bytes)
}

/// The age with which an LSA of this age is sent: InfTransDelay more, and MaxAge at most (RFC 2328 section
/// 13.3).
pub fn sent_age(age: u16) -> u16
    ensures { result ≡ sent_age age }
{
    if age < MAX_AGE {
        age + INF_TRANS_DELAY
    } else {
        MAX_AGE
    }
}

/// The LSA with another age.
pub fn of_age(lsa: Lsa, age: u16) -> Lsa
    ensures { result ≡ of_age age lsa }
{
    let mut sent = lsa;
    sent.head.age = age;
    sent
}

/// Whether its length is that of its bytes and leaves room for the packet around it.
fn is_sendable(lsa: &Lsa) -> bool
    ensures { result ≡ is_sendable lsa.now }
{
    let len = lsa.body.len();
    len <= MOST_BODY && usize::from(lsa.head.length) == HEADER + len
}

/// The copy in the database as it is sent at this tick.
#[tactic(auto, unfolding(crate::specs::BuildUpdates::copy_of))]
pub fn copy_of(db: &Lsdb, key: &LsaKey, now: u32) -> Result<Option<Lsa>, AllocError>
    ensures { IfOk result (λ copy. copy ≡ copy_of now db.now key.now) }
{
    let Some(kept) = db.get(key) else {
        return Ok(None);
    };
    let lsa = kept.lsa.clone()?;
    Ok(Some(of_age(lsa, sent_age(kept.age(now)))))
}

/// Puts out these bytes on each port of the mask, in ascending order.
fn put_copies(alloc: Global, mask: u16, bytes: &Bytes, out: &mut Outbox) -> Result<(), AllocError>
    ensures { OnOk result (out.new ≡ out.old ++ copies mask bytes.now) }
{
    for port in 0..PORTS {
        if is_up(mask, port) {
            out.put(port, bytes.copy(alloc)?)?;
        }
    }
    Ok(())
}

/// The bytes of an Update with these LSAs.
fn update_of(alloc: Global, number: u16, lsas: Vec<Lsa>) -> Result<Bytes, AllocError>
    requires lengths { All (λ l. IsTrue (is_sendable l)) lsas.items }
    requires room { update_len lsas.items ≤ 65535 }
    ensures { IfOk result (λ bytes. bytes ≡ packet_of number (body.Update lsas.items)) }
{
    packet_of(alloc, number, Body::Update(Lsas::from_vec(lsas)))
}

/// A list of one LSA.
fn single_lsa(alloc: Global, lsa: Lsa) -> Result<Vec<Lsa>, AllocError>
    ensures { IfOk result (λ list. list.items ≡ lsa ∷ []) }
{
    let mut list = Vec::with_capacity(alloc, 1)?;
    list.push(lsa)?;
    Ok(list)
}

/// Puts out an Update with this LSA alone on each port of the mask.
#[tactic(auto, unfolding(crate::specs::BuildUpdates::update_on))]
pub fn send_update(
    alloc: Global,
    mask: u16,
    number: u16,
    lsa: Option<Lsa>,
    out: &mut Outbox,
) -> Result<(), AllocError>
    ensures { OnOk result (out.new ≡ out.old ++ update_on mask number lsa) }
{
    let Some(lsa) = lsa else {
        return Ok(());
    };
    // No port, so nothing is sent. This profile: an LSA of another length than its bytes isn't sent.
    if mask == 0 || !is_sendable(&lsa) {
        return Ok(());
    }
    let bytes = update_of(alloc, number, single_lsa(alloc, lsa)?)?;
    put_copies(alloc, mask, &bytes, out)
}

/// The copies of these LSAs, in their order.
fn copies_of(alloc: Global, db: &Lsdb, keys: &[LsaKey], now: u32) -> Result<Vec<Lsa>, AllocError>
    ensures { IfOk result (λ copies. copies.items ≡ filter_map (copy_of now db.now) keys.now) }
{
    let mut copies = Vec::new(alloc);
    for key in keys {
        if let Some(copy) = copy_of(db, key, now)? {
            copies.push(copy)?;
        }
    }
    Ok(copies)
}

/// Puts out an Update with these LSAs on a port.
fn put_pack(
    alloc: Global,
    port: u8,
    number: u16,
    pack: Vec<Lsa>,
    out: &mut Outbox,
) -> Result<(), AllocError>
    requires lengths { All (λ l. IsTrue (is_sendable l)) pack.items }
    requires room { update_len pack.items ≤ 65535 }
    ensures { OnOk result (out.new ≡ out.old ++ one_update port number pack.items ∷ []) }
{
    out.put(port, update_of(alloc, number, pack)?)
}

/// Puts out these LSAs on a port, as many in each Update as go into 1,400 bytes.
fn put_packs(
    alloc: Global,
    port: u8,
    number: u16,
    lsas: Vec<Lsa>,
    out: &mut Outbox,
) -> Result<(), AllocError>
    ensures { OnOk result (out.new ≡ out.old ++ map (one_update port number) (packs [] lsas.items)) }
{
    let mut pack: Vec<Lsa> = Vec::new(alloc);
    let mut len = EMPTY_UPDATE;
    for lsa in lsas {
        if is_sendable(&lsa) {
            let more = HEADER + lsa.body.len();
            // This profile: a packet with several LSAs has at most 1,400 bytes (RFC 2328 section 13.3
            // leaves it to the size of a datagram).
            if !pack.is_empty() && MOST_PACKED < len + more {
                let full = mem::replace(&mut pack, Vec::new(alloc));
                put_pack(alloc, port, number, full, out)?;
                len = EMPTY_UPDATE;
            }
            len += more;
            pack.push(lsa)?;
        }
    }
    if pack.is_empty() {
        return Ok(());
    }
    put_pack(alloc, port, number, pack, out)
}

/// Puts out the copies of these LSAs on a port, as many in each Update as go into 1,400 bytes.
#[tactic(auto, unfolding(crate::specs::BuildUpdates::updates_on))]
pub fn send_updates(
    alloc: Global,
    port: u8,
    number: u16,
    db: &Lsdb,
    keys: &[LsaKey],
    now: u32,
    out: &mut Outbox,
) -> Result<(), AllocError>
    ensures { OnOk result (out.new ≡ out.old ++ updates_on port number now db.now keys.now) }
{
    let copies = copies_of(alloc, db, keys, now)?;
    put_packs(alloc, port, number, copies, out)
}
