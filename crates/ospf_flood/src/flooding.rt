//! Flooding an LSA (RFC 2328 section 13.3): what it does to the lists and to the database.

ghost use Rattle.std.specs.Prelude.{◌≡◌, ◌+◌, ◌≤◌, OnOk, OnErr, length, true};
ghost use Rattle.ospf_lsdb.specs.Keys.{key_of};
ghost use Rattle.ospf_lsdb.specs.Kept.{fresh};
ghost use Rattle.ospf_lsdb.specs.Database.{with_kept};
ghost use Rattle.ospf_flood.specs.Retransmission.{without_lsa_anywhere};
ghost use Rattle.ospf_flood.specs.Flooding.{flooded, note_flooded, put_from, state};

use crate::Lists;
use crate::retransmission_list::RetransmissionList;
use dn_guest::is_up;
use ospf_lsdb::{LsaKey, Lsdb, key_of};
use ospf_wire::Lsa;
use std::alloc::AllocError;

/// Takes the old instance off these lists, the first of which is that of this port, installs the LSA as
/// flooded, and puts it on the lists of the ports of this mask. Each list is changed on the way to the
/// last, and the database after that; where memory is short, each change is taken back on the way home.
pub fn install_from(
    lists: &mut [RetransmissionList],
    port: u8,
    ports: u16,
    db: &mut Lsdb,
    lsa: Lsa,
    foreign: bool,
    now: u32,
) -> Result<(), AllocError>
    requires { port + length lists.old ≤ 255 }
    ensures lists { OnOk result (lists.new
        ≡ put_from port ports (key_of lsa.head) now (without_lsa_anywhere (key_of lsa.head) lists.old)) }
    ensures database { OnOk result (db.new ≡ with_kept db.old (key_of lsa.head) (fresh lsa now true foreign)) }
    ensures lists_err { OnErr result (lists.new ≡ lists.old) }
    ensures database_err { OnErr result (db.new ≡ db.old) }
{
    let Some((list, rest)) = lists.split_first_mut() else {
        return db.install(lsa, now, true, foreign);
    };
    let key = key_of(&lsa.head);
    // RFC 2328 section 13, step (5)(c): the old instance leaves the list.
    if !is_up(ports, port) {
        install_from(rest, port + 1, ports, db, lsa, foreign, now)?;
        list.take(&key);
        return Ok(());
    }
    // Section 13.3, step (1)(d): the new instance is on the list of each port that it is flooded on.
    let before = list.put(key, now)?;
    if let Err(error) = install_from(rest, port + 1, ports, db, lsa, foreign, now) {
        list.restore(&key, before);
        return Err(error);
    }
    Ok(())
}

/// Puts the LSA on the lists of the ports of this mask; the first of these lists is that of this port.
/// Where memory is short, each change is taken back on the way home.
pub fn put_each(
    lists: &mut [RetransmissionList],
    port: u8,
    ports: u16,
    key: LsaKey,
    now: u32,
) -> Result<(), AllocError>
    requires { port + length lists.old ≤ 255 }
    ensures ok { OnOk result (lists.new ≡ put_from port ports key now lists.old) }
    ensures err { OnErr result (lists.new ≡ lists.old) }
{
    let Some((list, rest)) = lists.split_first_mut() else {
        return Ok(());
    };
    if !is_up(ports, port) {
        return put_each(rest, port + 1, ports, key, now);
    }
    let before = list.put(key, now)?;
    if let Err(error) = put_each(rest, port + 1, ports, key, now) {
        list.restore(&key, before);
        return Err(error);
    }
    Ok(())
}

/// Notes the LSA as sent where the mask has a port.
pub fn note_flooded(db: &mut Lsdb, ports: u16, key: &LsaKey, now: u32)
    ensures { db.new ≡ note_flooded ports key.now now db.old }
{
    if ports != 0 {
        db.note_sent(key, now);
    }
}

/// Floods an LSA of the database on the ports of this mask (RFC 2328 section 13.3): it is put on their
/// lists, and where there is such a port it is noted as sent at this tick. The caller puts out an Update
/// on each of them. Where memory is short nothing is changed.
pub fn flood(
    db: &mut Lsdb,
    lists: &mut Lists,
    ports: u16,
    key: LsaKey,
    now: u32,
) -> Result<(), AllocError>
    ensures database { OnOk result (db.new ≡ (flooded ports key now (state db.old lists.old)).db) }
    ensures lists { OnOk result (lists.new ≡ (flooded ports key now (state db.old lists.old)).lists) }
    ensures database_err { OnErr result (db.new ≡ db.old) }
    ensures lists_err { OnErr result (lists.new ≡ lists.old) }
    ensures count { length lists.new ≡ length lists.old }
{
    lists.put_on(ports, key, now)?;
    note_flooded(db, ports, &key, now);
    Ok(())
}
