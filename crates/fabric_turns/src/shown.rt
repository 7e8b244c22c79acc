//! What is told of a fabric.

ghost use Rattle.std.specs.Prelude.{◌<◌, length};

use crate::acts::is_router;
use dn_drive::Ended;
use dn_fabric::{Fabric, Work};
use dn_guest::{Bytes, Flood, Guest, NoMemory, Node};
use dn_journal::Step;
use dn_model::Row;
use std::alloc::Global;
use table_program::{Out, push_key};

/// The three things that are told of all routers together.
#[derive(Clone, Copy)]
enum Field {
    Behind,
    Ready,
    Leased,
}

/// The rows that were committed.
pub(crate) fn committed(fabric: &Fabric<Flood>) -> &[Row] {
    fabric.rows_from(0)
}

/// The steps so far.
pub(crate) fn steps_of_fabric(fabric: &Fabric<Flood>) -> &[Step] {
    fabric.journal()
}

/// The router's node.
fn node(fabric: &Fabric<Flood>, router: u16) -> &Node<Flood>
    requires { router < length fabric.now.live.header.routers }
{
    fabric.node(router)
}

/// The first thing that there is to do.
pub(crate) fn next_work(fabric: &Fabric<Flood>) -> Work {
    fabric.next_work()
}

/// A word and the router's name, or its number where no router has it.
fn push_named(fabric: &Fabric<Flood>, word: &str, router: u16, out: &mut Out) {
    out.text(word);
    match fabric.header().routers.as_slice().get(usize::from(router)) {
        Some(named) => out.append(named.name.as_slice()),
        None => out.number("", u64::from(router)),
    }
}

/// What the steps of a drive came to.
pub(crate) fn push_ended(word: &str, ended: Ended, out: &mut Out) {
    out.text(word);
    match ended {
        Ended::Whole => out.text("whole\n"),
        Ended::Cut => out.text("cut\n"),
        Ended::Open => out.text("open\n"),
        Ended::Illegal(step) => {
            out.number("illegal ", step);
            out.text("\n");
        }
    }
}

/// Whether the router is behind, ready or leased.
fn is_one(fabric: &Fabric<Flood>, field: Field, router: u16) -> bool
    requires { router < length fabric.now.live.header.routers }
{
    match field {
        Field::Behind => fabric.behind(router),
        Field::Ready => fabric.ready(router),
        Field::Leased => fabric.leased(router),
    }
}

/// The names of the routers that are so, or a dash.
fn push_routers(fabric: &Fabric<Flood>, word: &str, field: Field, out: &mut Out) {
    out.text(word);
    let mut none = true;
    for number in 0..64u16 {
        if is_router(fabric, number) && is_one(fabric, field, number) {
            push_named(fabric, " ", number, out);
            none = false;
        }
    }
    out.flag(none, " -");
}

/// How many messages each router has sent.
fn push_sends(fabric: &Fabric<Flood>, out: &mut Out) {
    out.text("; sent");
    for number in 0..64u16 {
        if is_router(fabric, number) {
            out.number(" ", node(fabric, number).sends);
        }
    }
}

/// The next work.
fn push_work(fabric: &Fabric<Flood>, out: &mut Out) {
    match next_work(fabric) {
        Work::Deliver(place) => out.number("; next deliver ", place),
        Work::RollBack(router) => push_named(fabric, "; next rollback ", router, out),
        Work::Handle(router) => push_named(fabric, "; next handle ", router, out),
        Work::Commit => out.text("; next commit"),
        Work::Nothing => out.text("; next nothing"),
        Work::Ended => out.text("; next ended"),
    }
}

/// How the fabric is.
pub(crate) fn push_turn(fabric: &Fabric<Flood>, out: &mut Out) {
    out.number("steps ", steps_of_fabric(fabric).len() as u64);
    out.number("; flying ", fabric.flying());
    push_routers(fabric, "; behind", Field::Behind, out);
    push_routers(fabric, "; ready", Field::Ready, out);
    push_routers(fabric, "; leased", Field::Leased, out);
    out.number("; floor ", u64::from(fabric.floor()));
    push_sends(fabric, out);
    push_key("; horizon ", &fabric.horizon(), out);
    push_key("; boundary ", &fabric.boundary(), out);
    out.number("; rows ", committed(fabric).len() as u64);
    push_work(fabric, out);
    out.flag(fabric.stopped(), "; stopped");
    out.text("\n");
}

/// How many messages the router has sent, and its guest's image.
pub(crate) fn push_state(
    alloc: Global,
    fabric: &Fabric<Flood>,
    router: u16,
    out: &mut Out,
) -> Result<(), NoMemory> {
    if !is_router(fabric, router) {
        out.text("= no router\n");
        return Ok(());
    }
    push_node(alloc, node(fabric, router), out)
}

/// How many messages the node has sent, and its guest's image.
fn push_node(alloc: Global, node: &Node<Flood>, out: &mut Out) -> Result<(), NoMemory> {
    let mut image = Bytes::new(alloc);
    node.guest.image(alloc, &mut image)?;
    out.number("= sent ", node.sends);
    out.hex("; image ", image.as_slice());
    out.text("\n");
    Ok(())
}

/// The key and the router of each committed row.
pub(crate) fn push_rows(fabric: &Fabric<Flood>, out: &mut Out) {
    for row in committed(fabric) {
        push_key("= ", &row.key, out);
        push_named(fabric, " ", row.router, out);
        out.text("\n");
    }
}

/// A step of the journal.
fn push_step(fabric: &Fabric<Flood>, step: &Step, out: &mut Out) {
    match step {
        Step::Beacon => out.text("= beacon"),
        Step::Inject(coming) => push_named(fabric, "= inject ", coming.router, out),
        Step::Close => out.text("= close"),
        Step::Deliver(place) => out.number("= deliver ", *place),
        Step::Handle(router) => push_named(fabric, "= handle ", *router, out),
        Step::RollBack(router) => push_named(fabric, "= rollback ", *router, out),
        Step::Commit => out.text("= commit"),
    }
    out.text("\n");
}

/// The steps of the journal.
pub(crate) fn push_steps(fabric: &Fabric<Flood>, out: &mut Out) {
    for step in steps_of_fabric(fabric) {
        push_step(fabric, step, out);
    }
}

/// Period, groups and the number of routers.
pub(crate) fn push_header(fabric: &Fabric<Flood>, out: &mut Out) {
    let header = fabric.header();
    out.number("= period ", u64::from(header.period));
    out.number("; groups ", u64::from(header.groups));
    out.number("; routers ", header.routers.as_slice().len() as u64);
    out.text("\n");
}

/// Group and router of each accepted external.
pub(crate) fn push_accepted(fabric: &Fabric<Flood>, out: &mut Out) {
    for coming in fabric.accepted() {
        out.number("= @", u64::from(coming.group));
        push_named(fabric, " ", coming.router, out);
        out.text("\n");
    }
}
