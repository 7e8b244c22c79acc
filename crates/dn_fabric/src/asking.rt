//! What the routers ask for: looks at all of them, by what is kept of each.

ghost use Rattle.std.specs.Prelude.{◌≡◌, ◌<◌, ◌≤◌, ◌++◌, ◌&&◌, if◌then◌else◌, ℕ, Option, Some, is_some, not, length, map, slice_get};
ghost use Rattle.std.specs.Ordering.{is_lt};
ghost use Rattle.dn_model.specs.declared.event.Event.{Event};
ghost use Rattle.dn_model.specs.Order.{event_cmp, key_cmp};
ghost use Rattle.dn_router.specs.Routers.{Speculation};
ghost use Rattle.dn_world.specs.World.{are_quiet, least_key, waiting_at};
ghost use Rattle.dn_fabric.specs.Work.{earlier_of};
ghost use Rattle.dn_fabric.specs.Rosters.{asked_by, IsFound};

use crate::roster::{Errand, Roster};
use dn_guest::Guest;
use dn_model::Key;
use dn_router::Router;
use std::cmp::Ordering;

/// What the routers ask for first.
#[derive(Clone, Copy, Debug)]
pub(crate) enum Asked {
    /// This router is behind.
    RollBack(u16),
    /// This router may handle its least event.
    Handle(u16),
    /// None is behind, and none that isn't leased has something to handle.
    Nothing,
}

impl Errand {
    /// Whether the router isn't behind and has an event to handle.
    pub(crate) fn is_ready(&self) -> bool
        ensures { result ≡ (not self.now.behind && is_some self.now.least) }
    {
        !self.behind && self.least.is_some()
    }

    /// Whether the router isn't behind and has nothing to handle.
    fn is_calm(&self) -> bool
        ensures { result ≡ (not (is_some self.now.least) && not self.now.behind) }
    {
        self.least.is_none() && !self.behind
    }
}

impl<G: Guest> Roster<G> {
    /// What the routers ask for first: the first that is behind, or else, of those that are ready and not leased,
    /// the one whose least event is the least of all.
    pub(crate) fn asked(&self, leased: &[bool]) -> Asked
        requires few { length self.now ≤ 64 }
        requires leases { length leased.now ≡ length self.now }
        ensures { result ≡ asked_by (map (λ r. r.part) self.now) leased.now }
    {
        let mut found: Option<usize> = None;
        for number in 0..self.len() {
            if self.errand(number).behind {
                return Asked::RollBack(number as u16);
            }
            if !leased[number] {
                found = self.earlier_of(number, found);
            }
        }
        match found {
            Some(number) => Asked::Handle(number as u16),
            None => Asked::Nothing,
        }
    }

    /// This router, where it has an event to handle that is earlier than the least of the one found.
    fn earlier_of(&self, number: usize, found: Option<usize>) -> Option<usize>
        requires inside { number < length self.now }
        requires found { (o : Option (ℕ × Event)) × IsFound self.now o found }
        ensures { (o : Option (ℕ × Event)) (s : Speculation G) → IsFound self.now o found →
            slice_get self.now number ≡ Some s → IsFound self.now (earlier_of number s.part.todo o) result }
    {
        match (self.errand(number).least, found) {
            (None, found) => found,
            (Some(_), None) => Some(number),
            (Some(key), Some(other)) => {
                if self.is_earlier(number, &key, other) {
                    Some(number)
                } else {
                    Some(other)
                }
            }
        }
    }

    /// Whether the router's least event, which has this key, is less than the other router's.
    fn is_earlier(&self, number: usize, key: &Key, other: usize) -> bool
        requires one { number < length self.now }
        requires two { other < length self.now }
        ensures { (s t : Speculation G) (e x : Event) → slice_get self.now number ≡ Some s →
            slice_get self.now other ≡ Some t → slice_get s.part.todo 0 ≡ Some e →
            slice_get t.part.todo 0 ≡ Some x → key.now ≡ e.key → result ≡ is_lt (event_cmp e x) }
    {
        dn_model::laws::order_of_events();
        match self.errand(other).least {
            None => false,
            Some(than) => match key.cmp(&than) {
                Ordering::Less => true,
                Ordering::Equal => self.is_event_earlier(number, other),
                Ordering::Greater => false,
            },
        }
    }

    /// The same where both have the same key: the whole events are compared.
    fn is_event_earlier(&self, number: usize, other: usize) -> bool
        requires one { number < length self.now }
        requires two { other < length self.now }
        ensures { (s t : Speculation G) (e x : Event) → slice_get self.now number ≡ Some s →
            slice_get self.now other ≡ Some t → slice_get s.part.todo 0 ≡ Some e →
            slice_get t.part.todo 0 ≡ Some x → result ≡ is_lt (event_cmp e x) }
    {
        match (self.router(number).least(), self.router(other).least()) {
            (Some(event), Some(than)) => event < than,
            _ => false,
        }
    }

    /// Whether none of the routers is behind or has something to handle.
    pub(crate) fn are_quiet(&self) -> bool
        ensures { result ≡ are_quiet (map (λ r. r.part) self.now) }
    {
        for number in 0..self.len() {
            if !self.errand(number).is_calm() {
                return false;
            }
        }
        true
    }

    /// The least of the key and those of what waits at the routers.
    pub(crate) fn least_key(&self, key: Key) -> Key
        ensures { result ≡ least_key key (waiting_at (map (λ r. r.part) self.now)) }
    {
        let mut least = key;
        for number in 0..self.len() {
            least = least_at(self.router(number), least);
        }
        least
    }
}

/// The least of the key and those of what waits at the router.
fn least_at<G: Guest>(router: &Router<G>, key: Key) -> Key
    ensures { result ≡ least_key key (router.now.part.todo ++ router.now.part.voids) }
{
    dn_world::laws::keys_past();
    let least = match router.least() {
        Some(event) => earlier(event.key, key),
        None => key,
    };
    match router.voids().first() {
        Some(event) => earlier(event.key, least),
        None => least,
    }
}

/// The lesser of two keys.
fn earlier(key: Key, than: Key) -> Key
    ensures { result ≡ (if is_lt (key_cmp key than) then key else than) }
{
    if key < than { key } else { than }
}
