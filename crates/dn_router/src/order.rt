//! Orders and their outcomes: what a router's step needs and gives, apart from the router.

ghost use Rattle.std.specs.Prelude.{◌≡◌, [], IfOk, OnOk};
ghost use Rattle.dn_router.specs.Replays.{last_sent, node_over};

use dn_ckpt::SharedNode;
use dn_guest::{Guest, NoMemory, Node, Sent};
use dn_model::Event;
use std::alloc::Global;
use std::marker::Model;

/// What `Router::apply` did.
#[derive(Drop)]
pub enum Applied {
    /// The event was handled, and these events fly.
    Done(Vec<Event>),
    /// The router has moved on since the order was given, and nothing has changed.
    Stale,
}

/// A step that a router would take: a node that it kept, of which the order is another owner, and the events to
/// run it over. The last of them is the one to handle, the others were handled since the node was kept.
#[derive(Drop)]
pub struct Order<G: Guest> {
    pub(crate) alloc: Global,
    pub(crate) router: u16,
    pub(crate) place: u64,
    pub(crate) base: SharedNode<G>,
    pub(crate) inputs: Vec<Event>,
}

impl<G: Guest> Model for Order<G> {
    ghost use Rattle.dn_router.specs.Orders.{Task};

    ghost Value = { Task G };

    ghost view = { λ o. record { router = o.router; place = o.place; base = o.base; inputs = o.inputs.items } };
}

impl<G: Guest> Order<G> {
    /// The number of the router.
    pub fn router(&self) -> u16
        ensures { result ≡ self.now.router }
    {
        self.router
    }

    /// How many events of the router's list led to the base.
    pub fn place(&self) -> u64
        ensures { result ≡ self.now.place }
    {
        self.place
    }

    /// Runs the guest over the inputs, from a copy of the base. The router isn't needed. An outcome is seen as the
    /// order that it is the outcome of.
    pub fn compute(self) -> Result<Outcome<G>, NoMemory>
        ensures { IfOk result (λ outcome. outcome ≡ self) }
    {
        let Order {
            alloc,
            router,
            place,
            base,
            inputs,
        } = self;
        let mut node = base.node().fork(alloc)?;
        let sent = run(alloc, &mut node, inputs.as_slice())?;
        Ok(Outcome {
            router,
            place,
            base,
            inputs,
            node,
            sent,
        })
    }
}

/// What an order led to: the node after its inputs, and the numbered outputs of the last of them. That they
/// are the replay of the inputs on the base is kept with it.
#[derive(Drop)]
pub struct Outcome<G: Guest> {
    pub(crate) router: u16,
    pub(crate) place: u64,
    pub(crate) base: SharedNode<G>,
    pub(crate) inputs: Vec<Event>,
    pub(crate) node: Node<G>,
    pub(crate) sent: Vec<Sent>,
}

impl<G: Guest> Model for Outcome<G> {
    ghost use Rattle.std.specs.Prelude.{◌≡◌, []};
    ghost use Rattle.dn_router.specs.Orders.{Task};
    ghost use Rattle.dn_router.specs.Replays.{last_sent, node_over};

    ghost Value = { Task G };

    ghost view = { λ o. record { router = o.router; place = o.place; base = o.base; inputs = o.inputs.items } };

    ghost invariant = { λ o. (o.node ≡ node_over G.meaning o.base o.inputs.items) × (o.sent.items ≡ last_sent G.meaning o.base [] o.inputs.items) };
}

impl<G: Guest> Outcome<G> {
    /// The number of the router.
    pub fn router(&self) -> u16
        ensures { result ≡ self.now.router }
    {
        self.router
    }

    /// The node after the inputs, and the numbered outputs of the last of them.
    pub(crate) fn into_parts(self) -> (Node<G>, Vec<Sent>)
        ensures node { result.0 ≡ node_over G.meaning self.base self.inputs }
        ensures sent { result.1.items ≡ last_sent G.meaning self.base [] self.inputs }
    {
        let Outcome { node, sent, .. } = self;
        (node, sent)
    }
}

/// Runs the node over the events, and gives the numbered outputs of the last of them.
fn run<G: Guest>(alloc: Global, node: &mut Node<G>, events: &[Event]) -> Result<Vec<Sent>, NoMemory>
    ensures node { OnOk result (node.new ≡ node_over G.meaning node.old events.now) }
    ensures sent { IfOk result (λ sent. sent.items ≡ last_sent G.meaning node.old [] events.now) }
{
    let mut sent = Vec::new(alloc);
    for event in events {
        sent = node.take(alloc, &event.input)?;
    }
    Ok(sent)
}
