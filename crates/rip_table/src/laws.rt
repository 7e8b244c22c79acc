//! Laws of the definitions, each the contract of a function with an empty body.

ghost use Rattle.std.specs.Prelude.{◌≡◌, ◌≢◌, ◌≤◌, ◌<◌, ◌+◌, ◌^◌, ℕ, [], Option, Some, None, IfSome, true};
ghost use Rattle.std.specs.List.Sorted.{IsStrictlySortedBy};
ghost use Rattle.std.specs.Map.{keys_of};
ghost use Rattle.dn_net.specs.Networks.{Network, is_network, network_cmp};
ghost use Rattle.rip_wire.specs.Constants.{infinity, most_own_networks};
ghost use Rattle.rip_wire.specs.declared.entry.Entry.{Entry};
ghost use Rattle.rip_wire.specs.Entries.{FitsEntry};
ghost use Rattle.rip_table.specs.declared.held.Held.{Held};
ghost use Rattle.rip_table.specs.Held.{settled};
ghost use Rattle.rip_table.specs.Own.{own_at, own_count, with_own, without_own};
ghost use Rattle.rip_table.specs.Response.{entry_taken};
ghost use Rattle.rip_table.specs.Routes.{Routes, all_changed, held_at, put};
ghost use Rattle.rip_table.specs.Sound.{IsSoundRoute, IsSoundTable};
ghost use Rattle.rip_table.specs.Timers.{port_lost, ticked};

/// A route that is put is held at its network, and every other network's route is as before.
pub fn a_change_is_at_one_network()
    ensures here { (routes : Routes) (n : Network) (h : Held) → held_at (put routes n (Some h)) n ≡ Some h }
    ensures elsewhere { (routes : Routes) (n other : Network) (route : Option Held) → n ≢ other
        → held_at (put routes n route) other ≡ held_at routes other }
{}

/// A table without routes is sound, and each call leaves a sound table sound: on ports that the router has, with
/// entries that fit their bytes and own networks for which there is room, and at ticks that don't go back. What such a
/// table holds at a network is a sound route.
pub fn sound_tables()
    ensures new { (ports : ℕ) → IsSoundTable ports 0 [] }
    ensures response { (port cost : ℕ) (e : Entry) (ports now : ℕ) (routes : Routes) → port < ports → FitsEntry e
        → IsSoundTable ports now routes → IsSoundTable ports now (entry_taken port cost e now routes) }
    ensures connect { (address len metric ports now : ℕ) (routes : Routes) → address < 2 ^ 32
        → is_network address len ≡ true → 1 ≤ metric → metric ≤ infinity
        → own_count routes < most_own_networks + own_at (held_at routes (address, len))
        → IsSoundTable ports now routes → IsSoundTable ports now (with_own routes address len metric now) }
    ensures lose { (address len ports now : ℕ) (routes : Routes) → IsSoundTable ports now routes
        → IsSoundTable ports now (without_own routes address len now) }
    ensures lose_port { (port ports now : ℕ) (routes : Routes) → IsSoundTable ports now routes
        → IsSoundTable ports now (all_changed (port_lost port now) routes) }
    ensures tick { (ports before now : ℕ) (routes : Routes) → before ≤ now → IsSoundTable ports before routes
        → IsSoundTable ports now (ticked now routes) }
    ensures settle { (ports now : ℕ) (routes : Routes) → IsSoundTable ports now routes
        → IsSoundTable ports now (all_changed settled routes) }
    ensures held { (ports now : ℕ) (routes : Routes) (n : Network) → IsSoundTable ports now routes
        → IfSome (held_at routes n) (λ h. IsSoundRoute ports now (n, h)) }
{}

/// Setting an own network makes at most one more that can be reached, and none more if it was one already.
pub fn one_own_network_more()
    ensures { (address len metric now : ℕ) (routes : Routes) → IsStrictlySortedBy network_cmp (keys_of routes)
        → own_count (with_own routes address len metric now) + own_at (held_at routes (address, len))
        ≤ own_count routes + 1 }
{}
