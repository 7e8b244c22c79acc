//! The routers of a world, and beside each what is asked of all of them between two steps.

ghost use Rattle.std.specs.Prelude.{ℕ, ◌≡◌, ◌<◌, ◌++◌, Some, true, length, map, set, slice_get, IfOk, OnOk, OnErr};
ghost use Rattle.std.specs.List.{AllByRecursion};
ghost use Rattle.dn_router.specs.Answers.{HasApplied, HasLost};
ghost use Rattle.dn_router.specs.Routers.{Speculation, rolled_back, unsent};
ghost use Rattle.dn_world.specs.World.{is_behind};
ghost use Rattle.dn_world.specs.Steps.{arrived};
ghost use Rattle.dn_world.specs.Runs.{IsPast};
ghost use Rattle.dn_fabric.specs.Commits.{committed_to, fresh_of, AreAsHandled};
ghost use Rattle.dn_fabric.specs.Rosters.{errand_of, errands_of, IsChanged};

use crate::committing::commit_all;
use dn_guest::{Guest, NoMemory};
use dn_model::{Event, Key, Row};
use dn_router::{Applied, Outcome, Router};
use std::alloc::Global;
use std::marker::Model;

/// What there is to do at a router.
#[derive(Clone, Copy, Debug)]
pub(crate) struct Errand {
    /// Whether it is behind.
    pub(crate) behind: bool,
    /// The key of its least event to handle.
    pub(crate) least: Option<Key>,
}

/// The routers, in the order of their numbers. What there is to do at each is kept beside them, so that nobody
/// has to look for it router by router: it is looked at again whenever the router has changed.
#[derive(Drop)]
pub(crate) struct Roster<G: Guest> {
    routers: Vec<Router<G>>,
    errands: Vec<Errand>,
}

impl<G: Guest> Model for Roster<G> {
    ghost use Rattle.std.specs.Prelude.{List, ◌≡◌};
    ghost use Rattle.dn_router.specs.Routers.{Speculation};
    ghost use Rattle.dn_fabric.specs.Rosters.{errands_of};

    ghost Value = { List (Speculation G) };

    ghost view = { λ r. r.routers.items };

    ghost invariant = { λ r. r.errands.items ≡ errands_of r.routers.items };
}

impl<G: Guest> Roster<G> {
    /// These routers.
    pub(crate) fn of(alloc: Global, routers: Vec<Router<G>>) -> Result<Roster<G>, NoMemory>
        ensures { IfOk result (λ made. made ≡ routers.items) }
    {
        let errands = errands_of(alloc, routers.as_slice())?;
        Ok(Roster { routers, errands })
    }

    /// How many routers there are.
    pub(crate) fn len(&self) -> usize
        ensures { result ≡ length self.now }
    {
        self.routers.len()
    }

    /// The router with the number.
    pub(crate) fn router(&self, number: usize) -> &Router<G>
        requires { number < length self.now }
        ensures { slice_get self.now number ≡ Some result.now }
    {
        &self.routers[number]
    }

    /// What there is to do at the router with the number.
    pub(crate) fn errand(&self, number: usize) -> &Errand
        requires { number < length self.now }
        ensures { (s : Speculation G) → slice_get self.now number ≡ Some s → result.now ≡ errand_of s.part }
    {
        &self.errands[number]
    }

    /// An event or an unsend comes to the router with the number, as by `Router::arrive`.
    pub(crate) fn arrive(&mut self, number: usize, plus: bool, event: Event) -> Result<(), NoMemory>
        requires inside { number < length self.old }
        requires own { (s : Speculation G) → slice_get self.old number ≡ Some s → event.router ≡ s.number }
        requires past { (s : Speculation G) → slice_get self.old number ≡ Some s → IsPast s.bound event.key }
        ensures ok { (s : Speculation G) → slice_get self.old number ≡ Some s → OnOk result (self.new ≡
            set self.old number (record s { part = arrived (record { plus = plus; event = event }) s.part })) }
        ensures err { OnErr result (self.new ≡ self.old) }
    {
        let arrived = self.routers[number].arrive(plus, event);
        look_again(&mut self.errands, self.routers.as_slice(), number);
        arrived
    }

    /// The outcome comes back to its router, as by `Router::apply`.
    pub(crate) fn apply(&mut self, outcome: Outcome<G>) -> Result<Applied, NoMemory>
        requires inside { outcome.router < length self.old }
        requires own { (s : Speculation G) → slice_get self.old outcome.router ≡ Some s → s.number ≡ outcome.router }
        ensures { (s : Speculation G) × (new : Speculation G) × IsChanged self.old outcome.router s new self.new ×
            IfOk result (λ answer. HasApplied G.meaning s outcome answer new) × OnErr result (new ≡ s) }
    {
        let number = usize::from(outcome.router());
        let applied = self.routers[number].apply(outcome);
        look_again(&mut self.errands, self.routers.as_slice(), number);
        applied
    }

    /// The router with the number takes back what it handled too early, as by `Router::roll_back`.
    pub(crate) fn roll_back(&mut self, number: usize) -> Result<Vec<Event>, NoMemory>
        requires inside { number < length self.old }
        requires behind { (s : Speculation G) → slice_get self.old number ≡ Some s → is_behind s.part ≡ true }
        ensures { (s : Speculation G) × (new : Speculation G) × IsChanged self.old number s new self.new ×
            OnOk result (new ≡ record s { part = rolled_back s.part }) ×
            IfOk result (λ events. events.items ≡ unsent G.meaning s) × OnErr result (HasLost s new) ×
            AllByRecursion (λ e. e.router ≡ s.number) s.part.done }
    {
        let unsent = self.routers[number].roll_back();
        look_again(&mut self.errands, self.routers.as_slice(), number);
        unsent
    }

    /// What each router has handled below the key and wasn't committed before, as by `commit_all`.
    pub(crate) fn commit_below(&mut self, alloc: Global, key: &Key) -> Result<Vec<Row>, NoMemory>
        requires waiting { (r : ℕ) (router : Speculation G) → slice_get self.old r ≡ Some router →
            AllByRecursion (λ e. IsPast key.now e.key) (router.part.todo ++ router.part.voids) }
        requires rising { (r : ℕ) (router : Speculation G) → slice_get self.old r ≡ Some router →
            IsPast router.bound key.now }
        ensures routers { OnOk result (self.new ≡ map (committed_to key.now) self.old) }
        ensures rows { IfOk result (λ rows. rows.items ≡ fresh_of key.now self.old) }
        ensures handled { AreAsHandled self.old self.new }
    {
        commit_all(alloc, self.routers.as_mut_slice(), key)
    }
}

/// The errands of these routers.
fn errands_of<G: Guest>(alloc: Global, routers: &[Router<G>]) -> Result<Vec<Errand>, NoMemory>
    ensures { IfOk result (λ errands. errands.items ≡ errands_of routers.now) }
{
    let mut errands = Vec::new(alloc);
    for router in routers {
        errands.push(errand_of(router))?;
    }
    Ok(errands)
}

/// The router with the number is looked at again.
fn look_again<G: Guest>(errands: &mut Vec<Errand>, routers: &[Router<G>], number: usize)
    requires router { number < length routers.now }
    requires errand { number < length errands.old.items }
    ensures { (s : Speculation G) → slice_get routers.now number ≡ Some s →
        errands.new.items ≡ set errands.old.items number (errand_of s.part) }
{
    errands[number] = errand_of(&routers[number]);
}

/// What there is to do at the router.
fn errand_of<G: Guest>(router: &Router<G>) -> Errand
    ensures { result ≡ errand_of router.now.part }
{
    Errand {
        behind: router.behind(),
        least: match router.least() {
            Some(event) => Some(event.key),
            None => None,
        },
    }
}
