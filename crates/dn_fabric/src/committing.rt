//! The horizon, and what is committed below it (the step Commit of a world).

ghost use Rattle.std.specs.Prelude.{ℕ, ◌≡◌, ◌+◌, ◌<◌, ◌≤◌, ◌++◌, ◌||◌, if◌then◌else◌, false, length, take, map, slice_get, Some, nat_lt, IfOk, OnOk, OnErr};
ghost use Rattle.std.specs.List.{AllByRecursion};
ghost use Rattle.dn_model.specs.Network.{Network};
ghost use Rattle.dn_model.specs.Order.{key_cmp, sorted};
ghost use Rattle.std.specs.Ordering.{is_lt};
ghost use Rattle.dn_model.specs.Settled.{row_limit};
ghost use Rattle.dn_router.specs.Routers.{Speculation};
ghost use Rattle.dn_world.specs.declared.step.Step.TheVariants.{Commit};
ghost use Rattle.dn_world.specs.World.{horizon, floor_bound, least_key, waiting_at};
ghost use Rattle.dn_world.specs.Steps.{after};
ghost use Rattle.dn_world.specs.Runs.{IsPast, fresh_rows};
ghost use Rattle.dn_fabric.specs.Commits.{committed_to, fresh_of, AreAsHandled};
ghost use Rattle.dn_fabric.specs.Fabrics.{IsNetworkOf, HasHalted};

use crate::world::{World, marking};
use dn_guest::{Guest, NoMemory};
use dn_model::{Key, Row, row_limit};
use dn_router::Router;
use std::alloc::Global;

impl<G: Guest> World<G> {
    /// The least key of all that waits, all that flies and all that may still come from outside.
    pub(crate) fn horizon(&self) -> Key
        ensures { result ≡ horizon self.now.header self.now.world }
    {
        let least = self.routers.least_key(self.floor_bound());
        self.flight.least_key(least)
    }

    /// What may still come from outside has this key or a later one.
    #[tactic(auto, unfolding(dn_world::specs::World::floor_bound))]
    fn floor_bound(&self) -> Key
        ensures { result ≡ floor_bound self.now.header self.now.world }
    {
        Key {
            group: if self.closed {
                self.header.groups
            } else {
                self.floor
            },
            sum: 0,
            class: if self.closed { 0 } else { 1 },
            tie: 0,
            origin: 0,
            seq: 0,
        }
    }

    /// What is handled below the horizon is committed: its rows are added, as far as a trace shows them.
    pub(crate) fn commit(&mut self) -> Result<(), NoMemory>
        requires running { self.old.stopped ≡ false }
        requires rising { IsPast self.old.world.boundary (horizon self.old.header self.old.world) }
        ensures world { (net : Network G) → IsNetworkOf net G.meaning self.old.header self.old.openings →
            OnOk result (self.new ≡ record self.old {
              world = after net self.old.world Commit;
              rows = take row_limit (self.old.rows ++
                  fresh_rows net self.old.world.boundary (after net self.old.world Commit));
              cut = self.old.cut ||
                  nat_lt row_limit (length self.old.rows + length (fresh_rows net self.old.world.boundary (after net self.old.world Commit)));
            }) }
        ensures err { OnErr result (HasHalted self.old self.new) }
    {
        dn_world::laws::horizon::<G>();
        dn_world::laws::waiting();
        let horizon = self.horizon();
        let fresh = self.routers.commit_below(self.alloc, &horizon);
        let fresh = marking(&mut self.stopped, fresh)?;
        self.boundary = horizon;
        let limit = row_limit(&self.header);
        let added = add_rows(&mut self.rows, in_order(fresh), limit);
        let more = marking(&mut self.stopped, added)?;
        self.cut |= more;
        Ok(())
    }
}

/// What each router has handled below the key and wasn't committed before, router by router. After
/// `NoMemory` some of them have committed.
pub(crate) fn commit_all<G: Guest>(
    alloc: Global,
    routers: &mut [Router<G>],
    key: &Key,
) -> Result<Vec<Row>, NoMemory>
    requires waiting { (r : ℕ) (router : Speculation G) → slice_get routers.old r ≡ Some router →
        AllByRecursion (λ e. IsPast key.now e.key) (router.part.todo ++ router.part.voids) }
    requires rising { (r : ℕ) (router : Speculation G) → slice_get routers.old r ≡ Some router →
        IsPast router.bound key.now }
    ensures routers { OnOk result (routers.new ≡ map (committed_to key.now) routers.old) }
    ensures rows { IfOk result (λ rows. rows.items ≡ fresh_of key.now routers.old) }
    ensures handled { AreAsHandled routers.old routers.new }
{
    let mut fresh = Vec::new(alloc);
    for number in 0..routers.len() {
        let mut rows = routers[number].commit_below(key)?;
        fresh.append(&mut rows)?;
    }
    Ok(fresh)
}

/// The rows in the order of events.
fn in_order(rows: Vec<Row>) -> Vec<Row>
    ensures { result.items ≡ sorted rows.items }
{
    dn_model::laws::order_of_events();
    let mut rows = rows;
    rows.sort_unstable();
    rows
}

/// The fresh rows come behind the rows, as far as the limit; whether there are more.
fn add_rows(rows: &mut Vec<Row>, fresh: Vec<Row>, limit: u64) -> Result<bool, NoMemory>
    requires { length rows.old.items ≤ limit }
    ensures rows { OnOk result (rows.new.items ≡ take limit (rows.old.items ++ fresh.items)) }
    ensures more { IfOk result (λ more. more ≡ nat_lt limit (length rows.old.items + length fresh.items)) }
    ensures err { OnErr result (rows.new.items ≡ rows.old.items) }
{
    let room = limit - rows.len() as u64;
    let more = room < fresh.len() as u64;
    let mut shown = fresh;
    if more {
        shown.truncate(room as usize);
    }
    rows.append(&mut shown)?;
    Ok(more)
}
