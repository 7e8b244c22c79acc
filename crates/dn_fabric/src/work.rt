//! What there is to do.

ghost use Rattle.std.specs.Prelude.{◌≡◌, ◌<◌, length};
ghost use Rattle.dn_world.specs.World.{part, is_behind, is_ready};
ghost use Rattle.dn_fabric.specs.Work.{next_work, committing, HasWork};

use crate::asking::Asked;
use crate::fabric::Fabric;
use dn_guest::Guest;

/// What `Fabric::next_work` answers.
#[derive(Clone, Copy, Debug)]
pub enum Work {
    /// The packet at this place may be delivered.
    Deliver(u64),
    /// This router is behind.
    RollBack(u16),
    /// This router may handle its least event.
    Handle(u16),
    /// The horizon is above the boundary.
    Commit,
    /// Nothing until something comes from outside or a lease ends.
    Nothing,
    /// The world is quiet, and all is committed.
    Ended,
}

impl<G: Guest> Fabric<G> {
    /// Whether an event to handle is less than the last one handled, or an unsend waits whose event was
    /// handled.
    pub fn behind(&self, router: u16) -> bool
        requires { router < length self.now.live.header.routers }
        ensures { result ≡ is_behind (part self.now.live.world router) }
    {
        self.world.errand(router).behind
    }

    /// Whether the router isn't behind and has an event to handle.
    pub fn ready(&self, router: u16) -> bool
        requires { router < length self.now.live.header.routers }
        ensures { result ≡ is_ready (part self.now.live.world router) }
    {
        self.world.errand(router).is_ready()
    }

    /// The first that there is to do: to deliver the first packet, to roll back the first router that is
    /// behind, to let that router handle its least event, of those that are ready and not leased, whose least
    /// event is the least of all, to commit. Ended where nothing is to be done ever again, otherwise Nothing.
    /// Each answer comes where its condition holds (`HasWork`), and nowhere else.
    pub fn next_work(&self) -> Work
        ensures work { result ≡ next_work self.now }
        ensures has { HasWork self.now result }
        ensures only { (work : Work) → HasWork self.now work → work ≡ result }
    {
        crate::laws::reached_fabrics::<G>();
        dn_world::laws::horizon::<G>();
        if self.flying() > 0 {
            return Work::Deliver(0);
        }
        match self.world.asked(self.leased.as_slice()) {
            Asked::RollBack(router) => Work::RollBack(router),
            Asked::Handle(router) => Work::Handle(router),
            Asked::Nothing => self.committing(),
        }
    }

    /// Whether there is something to commit, where there is nothing else to do; and if not, whether there ever will
    /// be.
    fn committing(&self) -> Work
        ensures { result ≡ committing self.now }
    {
        if self.horizon() > self.boundary() {
            return Work::Commit;
        }
        if self.quiet() {
            Work::Ended
        } else {
            Work::Nothing
        }
    }
}
