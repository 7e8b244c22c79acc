//! Handling in three parts: a router's order is given out (a lease), computed apart from the fabric, and its
//! outcome comes back.

ghost use Rattle.std.specs.Prelude.{◌≡◌, ◌<◌, true, false, length, get_or, OnOk, OnErr, IfOk};
ghost use Rattle.dn_model.specs.Network.{Network};
ghost use Rattle.dn_router.specs.Routers.{order_of};
ghost use Rattle.dn_world.specs.World.{part, is_ready};
ghost use Rattle.dn_fabric.specs.Fabrics.{IsNetworkOf, HasStopped, router_of, with_lease};
ghost use Rattle.dn_fabric.specs.Answers.{HasEnded, HasFinished};

use crate::answer::Finished;
use crate::fabric::Fabric;
use crate::steps::note;
use dn_guest::{Guest, NoMemory};
use dn_router::{Order, Outcome};
use dn_world::Step;

impl<G: Guest> Fabric<G> {
    /// The step that the router would take, to be computed apart. Its lease begins. The caller knows that the
    /// router is ready and not leased.
    pub fn lease(&mut self, router: u16) -> Result<Order<G>, NoMemory>
        requires running { self.old.live.stopped ≡ false }
        requires inside { router < length self.old.live.header.routers }
        requires ready { is_ready (part self.old.live.world router) ≡ true }
        requires free { get_or self.old.leased router false ≡ false }
        ensures order { (net : Network G) → IsNetworkOf net G.meaning self.old.live.header self.old.live.openings →
            IfOk result (λ order. order ≡ order_of G.meaning (router_of net self.old.live.world router)) }
        ensures leased { OnOk result (self.new ≡ with_lease self.old router true) }
        ensures err { OnErr result (HasStopped self.old self.new) }
    {
        let order = self.world.order(router);
        let order = self.world.mark(order)?;
        self.leased[usize::from(router)] = true;
        Ok(order)
    }

    /// The outcome of an order comes back: the lease of its router ends, and where the router would give the
    /// same order now, its least event is handled. The caller knows that the router is leased.
    pub fn finish(&mut self, outcome: Outcome<G>) -> Result<Finished, NoMemory>
        requires running { self.old.live.stopped ≡ false }
        requires leased { get_or self.old.leased outcome.router false ≡ true }
        ensures ok { (net : Network G) → IsNetworkOf net G.meaning self.old.live.header self.old.live.openings →
            IfOk result (λ finished. HasFinished net self.old outcome finished self.new) }
        ensures noted { IfOk result (λ finished. HasEnded self.old outcome finished self.new) }
        ensures err { OnErr result (HasStopped self.old self.new) }
    {
        crate::laws::one_more_step::<G>();
        let router = outcome.router();
        match self.world.apply(outcome)? {
            Finished::Applied => {
                note(&mut self.world, &mut self.journal, Step::Handle(router))?;
                self.leased[usize::from(router)] = false;
                Ok(Finished::Applied)
            }
            Finished::Stale => {
                self.leased[usize::from(router)] = false;
                Ok(Finished::Stale)
            }
        }
    }

    /// Whether the router's order was given out and hasn't come back.
    pub fn leased(&self, router: u16) -> bool
        requires { router < length self.now.live.header.routers }
        ensures { result ≡ get_or self.now.leased router false }
    {
        self.leased[usize::from(router)]
    }
}
