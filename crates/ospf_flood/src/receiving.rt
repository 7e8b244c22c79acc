//! Receiving an LSA (RFC 2328 sections 13 and 13.4): what is done by its verdict.

ghost use Rattle.std.specs.Prelude.{◌≡◌, ◌+◌, ◌<◌, IfOk, OnOk, OnErr, IsTrue, length};
ghost use Rattle.ospf_lsdb.specs.Keys.{key_of};
ghost use Rattle.ospf_flood.specs.Retransmission.{list_of};
ghost use Rattle.ospf_flood.specs.Flooding.{state};
ghost use Rattle.ospf_flood.specs.Verdicts.{verdict_of};
ghost use Rattle.ospf_flood.specs.Receiving.{apply_verdict, flushed, installed, is_own_router_lsa, is_other_self_originated, received, flood_received, step_of, to_install};

use crate::flooding::note_flooded;
use crate::port_masks::without_port;
use crate::verdict::{verdict_of, with_capped_age};
use crate::{Lists, Verdict};
use ospf_lsdb::{Lsdb, key_of};
use ospf_wire::Lsa;
use std::alloc::AllocError;

/// What `receive` answers.
#[derive(Clone, Copy, Debug, PartialEq, Eq)]
pub struct Step {
    /// What was done with the LSA.
    pub verdict: Verdict,
    /// It was installed, has the router as its advertising router and isn't the router's own LSA (RFC 2328
    /// section 13.4): it was set to MaxAge and is on the lists of all ports, on which it is to be sent with
    /// that age.
    pub flush: bool,
    /// It was installed and is an instance of the router's own LSA: the router is to originate it anew.
    pub renew: bool,
}

/// Whether it is an instance of the router's own LSA (RFC 2328 section 13.4).
fn is_own_router_lsa(lsa: &Lsa, own: u32) -> bool
    ensures { result ≡ is_own_router_lsa lsa.now own }
{
    lsa.head.router == own && lsa.head.id == own
}

/// Whether it has the router as its advertising router, and isn't its own LSA: the router doesn't originate
/// such an LSA (RFC 2328 section 13.4).
fn is_other_self_originated(lsa: &Lsa, own: u32) -> bool
    ensures { result ≡ is_other_self_originated lsa.now own }
{
    lsa.head.router == own && lsa.head.id != own
}

/// The LSA as it is installed: with an age of at most MaxAge.
fn to_install(lsa: &Lsa) -> Result<Lsa, AllocError>
    ensures { IfOk result (λ new. new ≡ to_install lsa.now) }
{
    Ok(Lsa {
        head: with_capped_age(lsa.head),
        body: lsa.body.clone()?,
    })
}

/// Installs the LSA and floods it on all ports but the one on which it came (RFC 2328 section 13, steps
/// (5)(b) to (5)(d), and section 13.3).
fn flood_received(
    db: &mut Lsdb,
    lists: &mut Lists,
    full: u16,
    from: u8,
    lsa: &Lsa,
    own: u32,
    now: u32,
) -> Result<(), AllocError>
    ensures database { OnOk result (db.new ≡ (flood_received (state db.old lists.old) full from lsa.now own now).db) }
    ensures lists { OnOk result (lists.new
        ≡ (flood_received (state db.old lists.old) full from lsa.now own now).lists) }
    ensures database_err { OnErr result (db.new ≡ db.old) }
    ensures lists_err { OnErr result (lists.new ≡ lists.old) }
    ensures count { length lists.new ≡ length lists.old }
{
    let key = key_of(&lsa.head);
    // RFC 2328 section 13.3, step (1)(c): not back on the port on which it came.
    let ports = without_port(full, from);
    // Section 13, steps (5)(c), (5)(d) and (5)(b), in this order in this profile.
    lists.install(
        ports,
        db,
        to_install(lsa)?,
        is_own_router_lsa(lsa, own),
        now,
    )?;
    note_flooded(db, ports, &key, now);
    Ok(())
}

/// Installs the LSA, floods it on all ports but the one on which it came, sets it to MaxAge, and floods it on
/// all ports (RFC 2328 sections 13.4 and 14.1). All of its memory is taken by the installation.
fn flood_received_and_flush(
    db: &mut Lsdb,
    lists: &mut Lists,
    full: u16,
    from: u8,
    lsa: &Lsa,
    own: u32,
    now: u32,
) -> Result<(), AllocError>
    ensures database { OnOk result (db.new
        ≡ (flushed (flood_received (state db.old lists.old) full from lsa.now own now) full
        (key_of lsa.now.head) now).db) }
    ensures lists { OnOk result (lists.new
        ≡ (flushed (flood_received (state db.old lists.old) full from lsa.now own now) full
        (key_of lsa.now.head) now).lists) }
    ensures database_err { OnErr result (db.new ≡ db.old) }
    ensures lists_err { OnErr result (lists.new ≡ lists.old) }
    ensures count { length lists.new ≡ length lists.old }
{
    let key = key_of(&lsa.head);
    lists.install(full, db, to_install(lsa)?, is_own_router_lsa(lsa, own), now)?;
    note_flooded(db, without_port(full, from), &key, now);
    // RFC 2328 section 14.1: premature aging.
    db.flush(&key, now);
    note_flooded(db, full, &key, now);
    Ok(())
}

/// What the verdict Installed does (RFC 2328 section 13, step (5)).
fn install(
    db: &mut Lsdb,
    lists: &mut Lists,
    full: u16,
    from: u8,
    lsa: &Lsa,
    own: u32,
    now: u32,
) -> Result<(), AllocError>
    ensures database { OnOk result (db.new ≡ (installed (state db.old lists.old) full from lsa.now own now).db) }
    ensures lists { OnOk result (lists.new ≡ (installed (state db.old lists.old) full from lsa.now own now).lists) }
    ensures database_err { OnErr result (db.new ≡ db.old) }
    ensures lists_err { OnErr result (lists.new ≡ lists.old) }
    ensures count { length lists.new ≡ length lists.old }
{
    // RFC 2328 section 13, step (5)(f), and section 13.4.
    if is_other_self_originated(lsa, own) {
        flood_received_and_flush(db, lists, full, from, lsa, own, now)
    } else {
        flood_received(db, lists, full, from, lsa, own, now)
    }
}

/// What the verdict does.
fn apply_verdict(
    verdict: Verdict,
    db: &mut Lsdb,
    lists: &mut Lists,
    full: u16,
    from: u8,
    lsa: &Lsa,
    own: u32,
    now: u32,
) -> Result<(), AllocError>
    requires { from < length lists.old }
    ensures database { OnOk result (db.new
        ≡ (apply_verdict verdict (state db.old lists.old) full from lsa.now own now).db) }
    ensures lists { OnOk result (lists.new
        ≡ (apply_verdict verdict (state db.old lists.old) full from lsa.now own now).lists) }
    ensures database_err { OnErr result (db.new ≡ db.old) }
    ensures lists_err { OnErr result (lists.new ≡ lists.old) }
    ensures count { length lists.new ≡ length lists.old }
{
    match verdict {
        // RFC 2328 section 13, steps (1), (2), (4), (7)(b) and (8).
        Verdict::Discarded | Verdict::Acked => Ok(()),
        // Section 13, step (5).
        Verdict::Installed => install(db, lists, full, from, lsa, own, now),
        // Section 13, step (8).
        Verdict::SentBack => {
            db.note_sent(&key_of(&lsa.head), now);
            Ok(())
        }
        // Section 13, step (7)(a): it leaves the port's list.
        Verdict::Implied => {
            lists.take(from, &key_of(&lsa.head));
            Ok(())
        }
    }
}

/// The answer that belongs to the verdict.
fn step_of(verdict: Verdict, lsa: &Lsa, own: u32) -> Step
    ensures { result ≡ step_of verdict lsa.now own }
{
    let installed = verdict == Verdict::Installed;
    Step {
        verdict,
        flush: installed && is_other_self_originated(lsa, own),
        renew: installed && is_own_router_lsa(lsa, own),
    }
}

/// Receives an LSA that came in a Link State Update on the port `from` at the tick `now` (RFC 2328
/// section 13). `full` is the mask of the up ports with a full neighbour, and `own` is the router's id.
/// The database and the lists are changed, and the answer says what is to be sent:
///
/// - `Installed`: the LSA on each other port of the mask, and its acknowledgement;
/// - with `flush`: then the LSA with MaxAge on each port of the mask;
/// - `Acked`: its acknowledgement; `SentBack`: the database's copy on `from`; otherwise nothing.
///
/// Where memory is short nothing is changed.
pub fn receive(
    db: &mut Lsdb,
    lists: &mut Lists,
    full: u16,
    from: u8,
    lsa: &Lsa,
    own: u32,
    now: u32,
) -> Result<Step, AllocError>
    requires port { from < length lists.old }
    requires length { lsa.now.head.length ≡ 20 + length lsa.now.body }
    ensures step { IfOk result (λ step. step
        ≡ step_of (verdict_of db.old (list_of lists.old from) lsa.now now) lsa.now own) }
    ensures database { OnOk result (db.new ≡ (received (state db.old lists.old) full from lsa.now own now).db) }
    ensures lists { OnOk result (lists.new ≡ (received (state db.old lists.old) full from lsa.now own now).lists) }
    ensures database_err { OnErr result (db.new ≡ db.old) }
    ensures lists_err { OnErr result (lists.new ≡ lists.old) }
    ensures count { length lists.new ≡ length lists.old }
{
    let verdict = verdict_of(db, lists, from, lsa, now);
    apply_verdict(verdict, db, lists, full, from, lsa, own, now)?;
    Ok(step_of(verdict, lsa, own))
}
