//! The bytes that tell the database. They are this project's own.

ghost use Rattle.std.specs.Prelude.{◌≡◌, ◌++◌, ◌≤◌, ◌^◌, OnOk};
ghost use Rattle.std.specs.List.{flat_map};
ghost use Rattle.dn_guest.specs.KeepsFront.{KeepsFront};
ghost use Rattle.ospf_guest.specs.Numbers.{bit, one_more};
ghost use Rattle.ospf_guest.specs.PlainImage.{head_image};
ghost use Rattle.ospf_guest.specs.Image.{database_image, flags_byte, is_named, is_plain, kept_image, odd_image, sent_image};

use crate::image::{four, push_eight, two};
use dn_guest::Bytes;
use ospf_lsdb::{Kept, LsaKey, Lsdb};
use ospf_wire::LsaHeader;
use std::alloc::AllocError;

/// The flag of an LSA that isn't plain.
const ODD: u8 = 4;

/// The bytes of a header.
#[tactic(auto, unfolding(crate::specs::PlainImage::head_image))]
fn head_image(head: LsaHeader) -> [u8; 20]
    ensures { result ≡ head_image head }
{
    let age = two(head.age);
    let id = four(head.id);
    let router = four(head.router);
    let seq = four(head.seq);
    let sum = two(head.sum);
    let length = two(head.length);
    [
        age[0],
        age[1],
        head.options,
        head.kind,
        id[0],
        id[1],
        id[2],
        id[3],
        router[0],
        router[1],
        router[2],
        router[3],
        seq[0],
        seq[1],
        seq[2],
        seq[3],
        sum[0],
        sum[1],
        length[0],
        length[1],
    ]
}

/// 0 for none, and one more than the number.
fn one_more(sent: Option<u32>) -> u64
    ensures value { result ≡ one_more sent }
    ensures few { result ≤ 2 ^ 32 }
{
    match sent {
        None => 0,
        Some(tick) => u64::from(tick) + 1,
    }
}

/// Whether the header has this name.
fn is_named(key: &LsaKey, head: &LsaHeader) -> bool
    ensures { result ≡ is_named key.now head.now }
{
    key.kind == head.kind && (key.id == head.id && key.router == head.router)
}

/// Whether it stands at its own name, its length is that of its bytes, and it was last sent before the last
/// of all ticks.
fn is_plain(key: &LsaKey, kept: &Kept) -> bool
    ensures { result ≡ is_plain key.now kept.now }
{
    let len = kept.lsa.body.len();
    is_named(key, &kept.lsa.head)
        && (one_more(kept.sent) < 0x1_0000_0000
            && (len <= 65_535 && usize::from(kept.lsa.head.length) == 20 + len))
}

/// 1 where it was flooded, 2 where it is foreign, and 4 where it isn't plain.
fn flags_byte(key: &LsaKey, kept: &Kept) -> u8
    ensures { result ≡ flags_byte key.now kept.now }
{
    let flooded = if kept.flooded { 1 } else { 0 };
    let foreign = if kept.foreign { 2 } else { 0 };
    let odd = if is_plain(key, kept) { 0 } else { ODD };
    flooded + foreign + odd
}

/// Appends when it was last sent, its name, and how many bytes its body has.
fn push_odd(key: &LsaKey, kept: &Kept, out: &mut Bytes) -> Result<(), AllocError>
    ensures ok { OnOk result (out.new ≡ out.old ++ odd_image key.now kept.now) }
    ensures kept { KeepsFront out.old out.new }
{
    push_eight(one_more(kept.sent), out)?;
    out.push(key.kind)?;
    out.append(&four(key.id))?;
    out.append(&four(key.router))?;
    push_eight(kept.lsa.body.len() as u64, out)
}

/// Appends when it was last sent, and what tells an LSA that isn't plain.
fn push_sent(key: &LsaKey, kept: &Kept, out: &mut Bytes) -> Result<(), AllocError>
    ensures ok { OnOk result (out.new ≡ out.old ++ sent_image key.now kept.now) }
    ensures kept { KeepsFront out.old out.new }
{
    if is_plain(key, kept) {
        out.append(&four(one_more(kept.sent) as u32))
    } else {
        push_odd(key, kept, out)
    }
}

/// Appends an LSA of the database.
#[tactic(auto, unfolding(crate::specs::Image::kept_image))]
fn push_kept(key: &LsaKey, kept: &Kept, out: &mut Bytes) -> Result<(), AllocError>
    ensures ok { OnOk result (out.new ≡ out.old ++ kept_image (key.now, kept.now)) }
    ensures kept { KeepsFront out.old out.new }
{
    out.append(&four(kept.installed))?;
    out.push(flags_byte(key, kept))?;
    push_sent(key, kept, out)?;
    out.append(&head_image(kept.lsa.head))?;
    out.append(kept.lsa.body.as_slice())
}

/// Appends the LSAs of the database.
fn push_all(db: &Lsdb, out: &mut Bytes) -> Result<(), AllocError>
    ensures ok { OnOk result (out.new ≡ out.old ++ flat_map kept_image db.now) }
    ensures kept { KeepsFront out.old out.new }
{
    for (key, kept) in db.iter() {
        push_kept(key, kept, out)?;
    }
    Ok(())
}

/// Appends the database: the number of LSAs in two bytes, and each.
#[tactic(auto, unfolding(crate::specs::Image::database_image))]
pub fn push_database(db: &Lsdb, out: &mut Bytes) -> Result<(), AllocError>
    ensures ok { OnOk result (out.new ≡ out.old ++ database_image db.now) }
    ensures kept { KeepsFront out.old out.new }
{
    out.append(&two(db.len().min(65_535) as u16))?;
    push_all(db, out)
}
