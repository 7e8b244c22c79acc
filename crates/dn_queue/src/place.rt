//! Places in a list of events that is in order.

ghost use Rattle.std.specs.Prelude.{◌≡◌, ◌≤◌, false, length, not, IfSome, IfNone};
ghost use Rattle.std.specs.List.Sorted.{IsSorted};
ghost use Rattle.std.specs.Ordering.{is_lt, is_gt};
ghost use Rattle.dn_model.specs.Order.{event_cmp};
ghost use Rattle.dn_queue.specs.Places.{IsSplit, IsFirst};
ghost use Rattle.dn_world.specs.World.{stands};

use dn_model::Event;

/// How many events of the list are less than this one. They stand in front, since the list is in order.
pub fn place_before(events: &[Event], event: &Event) -> usize
    requires { IsSorted event_cmp events.now }
    ensures within { result ≤ length events.now }
    ensures split { IsSplit (λ x. is_lt (event_cmp x event.now)) events.now result }
{
    events.partition_point(|other| other.cmp(event).is_lt())
}

/// How many events of the list are not greater than this one. They stand in front, since the list is in
/// order.
pub fn place_after(events: &[Event], event: &Event) -> usize
    requires { IsSorted event_cmp events.now }
    ensures within { result ≤ length events.now }
    ensures split { IsSplit (λ x. not (is_gt (event_cmp x event.now))) events.now result }
{
    events.partition_point(|other| !other.cmp(event).is_gt())
}

/// Where the event stands first in the list, which is in order. None exactly where it isn't there.
pub fn find(events: &[Event], event: &Event) -> Option<usize>
    requires { IsSorted event_cmp events.now }
    ensures found { IfSome result (λ place. IsFirst event.now events.now place) }
    ensures none { IfNone result (stands event.now events.now ≡ false) }
{
    let place = place_before(events, event);
    if place < events.len() && *event == events[place] {
        return Some(place);
    }
    None
}
