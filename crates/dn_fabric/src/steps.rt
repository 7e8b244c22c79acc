//! The steps of a fabric: each is the step of its world, and stands last in the journal.

ghost use Rattle.std.specs.Prelude.{◌≡◌, ◌<◌, ◌+◌, ◌++◌, ◌∷◌, [], true, false, length, OnOk, OnErr, IfOk};
ghost use Rattle.std.specs.List.{AllByRecursion};
ghost use Rattle.dn_model.specs.Network.{Network};
ghost use Rattle.dn_world.specs.declared.step.Step.TheVariants.{Beacon, Inject, Close, Deliver, RollBack, Commit};
ghost use Rattle.dn_world.specs.World.{part, is_behind};
ghost use Rattle.dn_world.specs.Steps.{is_injectable, taken_off};
ghost use Rattle.dn_world.specs.Runs.{IsPast};
ghost use Rattle.dn_fabric.specs.Fabrics.{IsNetworkOf, HasStepped, HasNoted, HasStopped};
ghost use Rattle.dn_fabric.specs.Answers.{HasMoved};

use crate::answer::Moved;
use crate::fabric::Fabric;
use crate::world::World;
use dn_guest::{Guest, Input, NoMemory};
use dn_model::External;
use dn_world::Step;

impl<G: Guest> Fabric<G> {
    /// The next group begins: its tick comes to each router. The caller knows that there is one.
    pub fn beacon(&mut self) -> Result<(), NoMemory>
        requires running { self.old.live.stopped ≡ false }
        requires unclosed { self.old.live.world.closed ≡ false }
        requires left { self.old.live.world.floor + 1 < self.old.live.header.groups }
        ensures ok { (net : Network G) → IsNetworkOf net G.meaning self.old.live.header self.old.live.openings →
            OnOk result (HasStepped net self.old Beacon self.new) }
        ensures noted { OnOk result (HasNoted self.old Beacon self.new) }
        ensures err { OnErr result (HasStopped self.old self.new) }
    {
        crate::laws::one_more_step::<G>();
        self.world.beacon()?;
        note(&mut self.world, &mut self.journal, Step::Beacon)?;
        Ok(())
    }

    /// An input from outside comes to a router, stamped with the group that has begun last. The caller knows
    /// that it is one that may come from outside: a command of 1 to 255 bytes, or Down or Up of a port of that
    /// router.
    pub fn inject(&mut self, router: u16, input: Input) -> Result<(), NoMemory>
        requires running { self.old.live.stopped ≡ false }
        requires unclosed { self.old.live.world.closed ≡ false }
        requires inside { router < length self.old.live.header.routers }
        requires asked { is_injectable self.old.live.header router input ≡ true }
        ensures ok { (net : Network G) → IsNetworkOf net G.meaning self.old.live.header self.old.live.openings →
            OnOk result (HasStepped net self.old (Inject (record {
              group = self.old.live.world.floor;
              router = router;
              input = input;
            })) self.new) }
        ensures noted { OnOk result (HasNoted self.old (Inject (record {
          group = self.old.live.world.floor;
          router = router;
          input = input;
        })) self.new) }
        ensures err { OnErr result (HasStopped self.old self.new) }
    {
        crate::laws::one_more_step::<G>();
        let external = External {
            group: self.world.floor(),
            router,
            input,
        };
        let copy = external.copy(self.alloc);
        let copy = self.world.mark(copy)?;
        self.world.inject(external)?;
        note(&mut self.world, &mut self.journal, Step::Inject(copy))?;
        Ok(())
    }

    /// Nothing more comes from outside. The caller knows that the last group has begun.
    pub fn close(&mut self) -> Result<(), NoMemory>
        requires running { self.old.live.stopped ≡ false }
        requires unclosed { self.old.live.world.closed ≡ false }
        requires last { self.old.live.world.floor + 1 ≡ self.old.live.header.groups }
        ensures ok { (net : Network G) → IsNetworkOf net G.meaning self.old.live.header self.old.live.openings →
            OnOk result (HasStepped net self.old Close self.new) }
        ensures noted { OnOk result (HasNoted self.old Close self.new) }
        ensures err { OnErr result (HasStopped self.old self.new) }
    {
        crate::laws::one_more_step::<G>();
        self.world.close();
        note(&mut self.world, &mut self.journal, Step::Close)?;
        Ok(())
    }

    /// The packet at this place of the flight arrives: a message, or an unsend.
    pub fn deliver(&mut self, place: u64) -> Result<(), NoMemory>
        requires running { self.old.live.stopped ≡ false }
        requires there { place < length self.old.live.world.flight }
        ensures ok { (net : Network G) → IsNetworkOf net G.meaning self.old.live.header self.old.live.openings →
            OnOk result (HasStepped net self.old (Deliver place) self.new) }
        ensures noted { OnOk result (HasNoted self.old (Deliver place) self.new) }
        ensures err { OnErr result (HasStopped self.old self.new) }
    {
        crate::laws::one_more_step::<G>();
        self.world.deliver(place)?;
        note(&mut self.world, &mut self.journal, Step::Deliver(place))?;
        Ok(())
    }

    /// The router takes back what it handled too early or ought not to have handled, and the unsends of what
    /// that had emitted fly. Nothing that was committed is among it. The caller knows that it is behind.
    pub fn roll_back(&mut self, router: u16) -> Result<(), NoMemory>
        requires running { self.old.live.stopped ≡ false }
        requires inside { router < length self.old.live.header.routers }
        requires behind { is_behind (part self.old.live.world router) ≡ true }
        ensures ok { (net : Network G) → IsNetworkOf net G.meaning self.old.live.header self.old.live.openings →
            OnOk result (HasStepped net self.old (RollBack router) self.new) }
        ensures noted { OnOk result (HasNoted self.old (RollBack router) self.new) }
        ensures late { (net : Network G) → IsNetworkOf net G.meaning self.old.live.header self.old.live.openings →
            AllByRecursion (λ e. IsPast self.old.live.world.boundary e.key) (taken_off net (part self.old.live.world router)) }
        ensures err { OnErr result (HasStopped self.old self.new) }
    {
        crate::laws::one_more_step::<G>();
        self.world.roll_back(router)?;
        note(&mut self.world, &mut self.journal, Step::RollBack(router))?;
        Ok(())
    }

    /// What is handled below the horizon is committed: it can't change any more.
    pub fn commit(&mut self) -> Result<Moved, NoMemory>
        requires running { self.old.live.stopped ≡ false }
        ensures ok { (net : Network G) → IsNetworkOf net G.meaning self.old.live.header self.old.live.openings →
            OnOk result (HasStepped net self.old Commit self.new) }
        ensures noted { OnOk result (HasNoted self.old Commit self.new) }
        ensures answer { IfOk result (λ moved. HasMoved self.old moved self.new) }
        ensures err { OnErr result (HasStopped self.old self.new) }
    {
        crate::laws::reached_fabrics::<G>();
        crate::laws::one_more_step::<G>();
        let before = self.world.rows().len() as u64;
        self.world.commit()?;
        note(&mut self.world, &mut self.journal, Step::Commit)?;
        if self.world.is_cut() {
            return Ok(Moved::Cut);
        }
        Ok(Moved::Moved(self.world.rows().len() as u64 - before))
    }
}

/// The step that was taken stands last in the journal. Where there is no memory for it, nothing more is done.
pub(crate) fn note<G: Guest>(
    world: &mut World<G>,
    journal: &mut Vec<Step>,
    step: Step,
) -> Result<(), NoMemory>
    ensures world { OnOk result (world.new ≡ world.old) }
    ensures journal { OnOk result (journal.new.items ≡ journal.old.items ++ step ∷ []) }
    ensures stopped { OnErr result (world.new ≡ record world.old { stopped = true }) }
    ensures same { OnErr result (journal.new.items ≡ journal.old.items) }
{
    let noted = push_step(journal, step);
    world.mark(noted)
}

/// One step more.
fn push_step(journal: &mut Vec<Step>, step: Step) -> Result<(), NoMemory>
    ensures ok { OnOk result (journal.new.items ≡ journal.old.items ++ step ∷ []) }
    ensures err { OnErr result (journal.new.items ≡ journal.old.items) }
{
    journal.push(step)?;
    Ok(())
}
