//! What routers do: handling and rolling back (the steps Handle and RollBack of a world).

ghost use Rattle.std.specs.Prelude.{◌≡◌, ◌<◌, true, false, length, IfOk, OnOk, OnErr};
ghost use Rattle.dn_model.specs.Network.{Network};
ghost use Rattle.dn_router.specs.Routers.{order_of};
ghost use Rattle.dn_world.specs.declared.step.Step.TheVariants.{RollBack};
ghost use Rattle.dn_world.specs.World.{part, is_behind, is_ready};
ghost use Rattle.dn_world.specs.Steps.{after};
ghost use Rattle.dn_fabric.specs.Fabrics.{IsNetworkOf, HasHalted, router_of};
ghost use Rattle.dn_fabric.specs.Answers.{HasHandled};

use crate::answer::Finished;
use crate::flight::Sign;
use crate::world::{World, marking};
use dn_guest::{Guest, NoMemory};
use dn_router::{Applied, Order, Outcome};

impl<G: Guest> World<G> {
    /// The step that the router would take.
    pub(crate) fn order(&self, router: u16) -> Result<Order<G>, NoMemory>
        requires inside { router < length self.now.header.routers }
        requires ready { is_ready (part self.now.world router) ≡ true }
        ensures { (net : Network G) → IsNetworkOf net G.meaning self.now.header self.now.openings →
            IfOk result (λ order. order ≡ order_of G.meaning (router_of net self.now.world router)) }
    {
        self.router(router).order()
    }

    /// The outcome comes back to its router. What the handled event emits flies.
    pub(crate) fn apply(&mut self, outcome: Outcome<G>) -> Result<Finished, NoMemory>
        requires running { self.old.stopped ≡ false }
        requires inside { outcome.router < length self.old.header.routers }
        ensures ok { (net : Network G) → IsNetworkOf net G.meaning self.old.header self.old.openings →
            IfOk result (λ finished. HasHandled net self.old outcome finished self.new) }
        ensures err { OnErr result (HasHalted self.old self.new) }
    {
        dn_router::laws::of_a_network::<G>();
        let applied = self.routers.apply(outcome);
        match marking(&mut self.stopped, applied)? {
            Applied::Done(events) => {
                let sent = self.flight.send(Sign::Plus, events);
                marking(&mut self.stopped, sent)?;
                Ok(Finished::Applied)
            }
            Applied::Stale => Ok(Finished::Stale),
        }
    }

    /// The router takes back what it handled too early, and the unsends of what that had emitted fly.
    pub(crate) fn roll_back(&mut self, router: u16) -> Result<(), NoMemory>
        requires running { self.old.stopped ≡ false }
        requires inside { router < length self.old.header.routers }
        requires behind { is_behind (part self.old.world router) ≡ true }
        ensures ok { (net : Network G) → IsNetworkOf net G.meaning self.old.header self.old.openings →
            OnOk result (self.new ≡ record self.old { world = after net self.old.world (RollBack router) }) }
        ensures err { OnErr result (HasHalted self.old self.new) }
    {
        dn_router::laws::of_a_network::<G>();
        dn_world::laws::replays::<G>();
        let unsent = self.routers.roll_back(usize::from(router));
        let unsent = marking(&mut self.stopped, unsent)?;
        let sent = self.flight.send(Sign::Minus, unsent);
        marking(&mut self.stopped, sent)
    }
}
