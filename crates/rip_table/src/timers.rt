//! Timeout and garbage collection (RFC 2453 section 3.8), and a port that went down.

ghost use Rattle.std.specs.Prelude.{◌≡◌, ◌≤◌, not, filter, length};
ghost use Rattle.rip_table.specs.Held.{is_gone};
ghost use Rattle.rip_table.specs.Own.{own_count};
ghost use Rattle.rip_table.specs.Routes.{all_changed};
ghost use Rattle.rip_table.specs.Timers.{port_lost, timed_out};

use crate::table::Routes;

/// Begins the deletion of the routes whose timeout is over (RFC 2453 section 3.8).
pub fn time_out(routes: &mut Routes, now: u32)
    ensures timed { routes.new.entries ≡ all_changed (timed_out now) routes.old.entries }
    ensures own { own_count routes.new.entries ≡ own_count routes.old.entries }
{
    routes.retain(|_network, held| {
        // RFC 2453 section 3.8: the timeout expires, and the deletion begins
        if held.is_timed_out(now) {
            *held = held.lost(now);
        }
        true
    });
}

/// Removes the routes whose garbage collection is over (RFC 2453 section 3.8).
pub fn collect_garbage(routes: &mut Routes, now: u32)
    ensures kept { routes.new.entries ≡ filter (λ e. not (is_gone now e.1)) routes.old.entries }
    ensures no_more { length routes.new.entries ≤ length routes.old.entries }
    ensures own { own_count routes.new.entries ≡ own_count routes.old.entries }
{
    // RFC 2453 section 3.8: the garbage-collection timer expires
    routes.retain(|_network, held| !held.is_gone(now));
}

/// Begins the deletion of the routes by this port that can be reached. RFC 2453 names no such event: this is the
/// profile's own.
pub fn lose_all_via(routes: &mut Routes, port: u8, now: u32)
    ensures lost { routes.new.entries ≡ all_changed (port_lost port now) routes.old.entries }
    ensures own { own_count routes.new.entries ≡ own_count routes.old.entries }
{
    routes.retain(|_network, held| {
        if held.is_lost_via(port) {
            *held = held.lost(now);
        }
        true
    });
}
