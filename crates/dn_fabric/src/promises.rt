//! What was committed, and what a fabric promises of it: of every fabric, whatever the steps that led there.

ghost use Rattle.std.specs.Prelude.{◌≡◌, ◌<◌, ◌≤◌, List, true, false, length, drop};
ghost use Rattle.dn_model.specs.declared.feed.External.{External};
ghost use Rattle.dn_model.specs.Network.{Network, state};
ghost use Rattle.dn_model.specs.Settled.{IsFeedOf, lockstep, shown_rows, is_cut};
ghost use Rattle.dn_world.specs.World.{part, is_quiet};
ghost use Rattle.dn_world.specs.Runs.{Continues, committed, is_cut_off};
ghost use Rattle.dn_fabric.specs.Fabrics.{IsNetworkOf};
ghost use Rattle.dn_fabric.specs.Promises.{IsFinal, AreSent, IsAtRest};

use crate::fabric::Fabric;
use dn_guest::{Guest, Node};
use dn_model::Row;

impl<G: Guest> Fabric<G> {
    /// The rows that were committed, in order, from this place on; as many as a trace shows. Of every case
    /// that goes on where the fabric's world is they are the first lockstep rows, and each message among them
    /// is sent by committed rows of its sender.
    pub fn rows_from(&self, place: u64) -> &[Row]
        requires { place ≤ length self.now.live.rows }
        ensures rows { result.now ≡ drop place self.now.live.rows }
        ensures committed { (net : Network G) →
            IsNetworkOf net G.meaning self.now.live.header self.now.live.openings → self.now.live.stopped ≡ false →
            self.now.live.rows ≡ committed net self.now.live.world }
        ensures prefix { (net : Network G) (feed : List External) →
            IsNetworkOf net G.meaning self.now.live.header self.now.live.openings → self.now.live.stopped ≡ false →
            IsFeedOf net.header feed → Continues feed self.now.live.world → IsFinal net self.now.live feed }
        ensures sent { (net : Network G) → IsNetworkOf net G.meaning self.now.live.header self.now.live.openings →
            self.now.live.stopped ≡ false → AreSent net self.now.live }
    {
        crate::laws::reached_fabrics::<G>();
        &self.world.rows()[place as usize..]
    }

    /// Whether more rows stand below the boundary than a trace shows. The lockstep run of every case that goes
    /// on where the fabric's world is is then cut too, and the committed rows are just those that its trace shows.
    pub fn is_cut(&self) -> bool
        ensures cut { result ≡ self.now.live.cut }
        ensures committed { (net : Network G) →
            IsNetworkOf net G.meaning self.now.live.header self.now.live.openings → self.now.live.stopped ≡ false →
            result ≡ is_cut_off net self.now.live.world }
        ensures prefix { (net : Network G) (feed : List External) →
            IsNetworkOf net G.meaning self.now.live.header self.now.live.openings → self.now.live.stopped ≡ false →
            IsFeedOf net.header feed → Continues feed self.now.live.world → result ≡ true → is_cut net feed ≡ true }
        ensures shown { (net : Network G) (feed : List External) →
            IsNetworkOf net G.meaning self.now.live.header self.now.live.openings → self.now.live.stopped ≡ false →
            IsFeedOf net.header feed → Continues feed self.now.live.world → result ≡ true →
            self.now.live.rows ≡ shown_rows net feed }
    {
        crate::laws::reached_fabrics::<G>();
        self.world.is_cut()
    }

    /// Whether nothing comes from outside, nothing flies, and no router has anything to do. Each router has
    /// then handled its whole lockstep list.
    pub fn quiet(&self) -> bool
        ensures quiet { result ≡ is_quiet self.now.live.world }
        ensures at_rest { (net : Network G) →
            IsNetworkOf net G.meaning self.now.live.header self.now.live.openings → self.now.live.stopped ≡ false →
            result ≡ true → IsAtRest net self.now.live }
    {
        crate::laws::reached_fabrics::<G>();
        if !self.closed() || self.flying() > 0 {
            return false;
        }
        self.world.are_quiet()
    }

    /// The router's node after all that it has handled: in a quiet fabric the one after its whole lockstep list.
    pub fn node(&self, router: u16) -> &Node<G>
        requires { router < length self.now.live.header.routers }
        ensures handled { (net : Network G) →
            IsNetworkOf net G.meaning self.now.live.header self.now.live.openings →
            result.now ≡ state net router (part self.now.live.world router).done }
        ensures end { (net : Network G) → IsNetworkOf net G.meaning self.now.live.header self.now.live.openings →
            self.now.live.stopped ≡ false → is_quiet self.now.live.world ≡ true →
            result.now ≡ state net router (lockstep net self.now.live.world.accepted router) }
    {
        dn_router::laws::of_a_network::<G>();
        crate::laws::reached_fabrics::<G>();
        self.world.router(router).node()
    }
}
