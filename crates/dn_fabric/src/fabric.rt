//! The fabric: a world with the journal of the steps that led there.

ghost use Rattle.std.specs.Prelude.{◌≡◌, true, false, length, IfOk};
ghost use Rattle.dn_model.specs.Cases.{IsHeading};
ghost use Rattle.dn_model.specs.Network.{Network};
ghost use Rattle.dn_world.specs.World.{horizon};
ghost use Rattle.dn_world.specs.Runs.{IsLegal};
ghost use Rattle.dn_fabric.specs.Fabrics.{IsNetworkOf, IsReached, opening_fabric};

use crate::world::World;
use dn_guest::{Guest, NoMemory, Node};
use dn_model::{External, Header, Key, Row};
use dn_world::{Kept, Step};
use std::alloc::Global;
use std::marker::Model;

/// Routers that handle what has come, at once, and take back what they handled too early, with what flies
/// between them, the rows that were committed, and the journal of all steps so far.
#[derive(Drop)]
pub struct Fabric<G: Guest> {
    pub(crate) alloc: Global,
    pub(crate) world: World<G>,
    /// By router: whether its order was given out and hasn't come back.
    pub(crate) leased: Vec<bool>,
    pub(crate) journal: Vec<Step>,
}

impl<G: Guest> Model for Fabric<G> {
    ghost use Rattle.dn_fabric.specs.Fabrics.{Fabric};
    ghost use Rattle.dn_fabric.specs.Holds.{IsFabric};

    ghost Value = { Fabric G };

    ghost view = { λ f. record { live = f.world; journal = f.journal.items; leased = f.leased.items } };

    ghost invariant = { λ f. IsFabric G.meaning (record { live = f.world; journal = f.journal.items; leased = f.leased.items }) };
}

impl<G: Guest + Sync> Kept for Fabric<G> {
    ghost use Rattle.std.specs.Prelude.{refl};
    ghost use Rattle.dn_fabric.specs.Fabrics.{log_in};

    type Guest = G;

    ghost header = { λ f. f.live.header };

    ghost opening = { λ f. f.live.openings };

    ghost log = { λ f. log_in f };

    ghost is_log = { λ f. record { steps = f.journal; stopped = f.live.stopped; is = refl } };
}

impl<G: Guest> Fabric<G> {
    /// The fabric before the first step, with these guests at routers 0, 1, .. of the header.
    pub fn new(alloc: Global, header: Header, guests: Vec<G>) -> Result<Fabric<G>, NoMemory>
        requires { length guests.items ≡ length header.routers }
        ensures { IfOk result (λ made. made ≡ opening_fabric header guests.items) }
    {
        dn_world::laws::before_the_first_step::<G>();
        dn_world::laws::equation::<G>();
        dn_world::laws::boundary::<G>();
        let mut leased = Vec::new(alloc);
        leased.resize(header.routers.as_slice().len(), false)?;
        let world = World::new(alloc, header, guests)?;
        Ok(Fabric {
            alloc,
            world,
            leased,
            journal: Vec::new(alloc),
        })
    }

    /// The header.
    pub fn header(&self) -> &Header
        ensures { result.now ≡ self.now.live.header }
    {
        self.world.header()
    }

    /// The steps so far: a legal run, also of a fabric that was stopped. The header meets the rules, there are an
    /// opening guest and a lease for each router, and a network of the fabric exists.
    pub fn journal(&self) -> &[Step]
        ensures journal { result.now ≡ self.now.journal }
        ensures legal { (net : Network G) → IsNetworkOf net G.meaning self.now.live.header self.now.live.openings →
            IsLegal net self.now.journal }
        ensures rules { IsHeading self.now.live.header }
        ensures network { (net : Network G) × IsNetworkOf net G.meaning self.now.live.header self.now.live.openings }
        ensures one_each { length self.now.live.openings ≡ length self.now.live.header.routers }
        ensures leases { length self.now.leased ≡ length self.now.live.header.routers }
        ensures reached { (net : Network G) →
            IsNetworkOf net G.meaning self.now.live.header self.now.live.openings → self.now.live.stopped ≡ false →
            IsReached net self.now }
    {
        self.journal.as_slice()
    }

    /// The externals that were accepted, in order.
    pub fn accepted(&self) -> &[External]
        ensures { result.now ≡ self.now.live.world.accepted }
    {
        self.world.accepted()
    }

    /// How many packets fly.
    pub fn flying(&self) -> u64
        ensures { result ≡ length self.now.live.world.flight }
    {
        self.world.flying()
    }

    /// The group that has begun last.
    pub fn floor(&self) -> u32
        ensures { result ≡ self.now.live.world.floor }
    {
        self.world.floor()
    }

    /// Whether nothing more comes from outside.
    pub fn closed(&self) -> bool
        ensures { result ≡ self.now.live.world.closed }
    {
        self.world.closed()
    }

    /// The least key of all that waits, all that flies and all that may still come from outside.
    pub fn horizon(&self) -> Key
        ensures { result ≡ horizon self.now.live.header self.now.live.world }
    {
        self.world.horizon()
    }

    /// What is handled below it is committed.
    pub fn boundary(&self) -> Key
        ensures { result ≡ self.now.live.world.boundary }
    {
        self.world.boundary()
    }

    /// Nothing more is done. Header and journal stay.
    pub fn stop(&mut self)
        ensures { self.new ≡ record self.old { live = record self.old.live { stopped = true } } }
    {
        self.world.stop();
    }

    /// Whether a call found no memory, or `stop` was called.
    pub fn stopped(&self) -> bool
        ensures { result ≡ self.now.live.stopped }
    {
        self.world.stopped()
    }
}
