//! A route that is held.

ghost use Rattle.std.specs.Prelude.{◌≡◌};
ghost use Rattle.rip_table.specs.Held.{is_current, is_gone, is_lost_via, is_reachable, is_timed_out, is_via};
ghost use Rattle.rip_table.specs.Held.{learnt, lost, refreshed, settled};
ghost use Rattle.rip_table.specs.Own.{withdrawn};

use rip_wire::{GARBAGE_COLLECTION, INFINITY, TIMEOUT};

/// The route to a network (RFC 2453 section 3.5), with the port in place of the address of the neighbour that told
/// it. Moments are ticks, one a second.
#[derive(Clone, Copy, Debug, PartialEq, Eq)]
pub struct Held {
    /// The route tag, as it was told (RFC 2453 section 4.2).
    pub tag: u16,
    /// 1 to 16; 16 is infinity (RFC 2453 section 3.6).
    pub metric: u8,
    /// The port on which the route was told; `None` for a network of the router's own.
    pub via: Option<u8>,
    /// The tick at which the route was last heard, and if its metric is 16 the one at which its deletion began: both
    /// timers of RFC 2453 section 3.8.
    pub time: u32,
    /// Whether the route changed since the last update: the route change flag (RFC 2453 section 3.10.1).
    pub changed: bool,
}

impl Held {
    /// A route that was just told on a port (RFC 2453 section 3.9.2).
    pub fn learnt(port: u8, tag: u16, metric: u8, now: u32) -> Held
        ensures { result ≡ learnt port tag metric now }
    {
        Held {
            tag,
            metric,
            via: Some(port),
            time: now,
            changed: true,
        }
    }

    /// Whether the network can be reached: the metric is below infinity (RFC 2453 section 3.6).
    pub fn is_reachable(&self) -> bool
        ensures { result ≡ is_reachable self.now }
    {
        self.metric < INFINITY
    }

    /// Whether it is a network of the router's own that can be reached.
    pub fn is_current(&self) -> bool
        ensures { result ≡ is_current self.now }
    {
        self.via.is_none() && self.is_reachable()
    }

    /// Whether it goes by this port.
    pub fn is_via(&self, port: u8) -> bool
        ensures { result ≡ is_via port self.now }
    {
        match self.via {
            Some(via) => via == port,
            None => false,
        }
    }

    /// The route as it is heard again, all else as it was: its timeout begins anew (RFC 2453 section 3.9.2).
    pub fn refreshed(self, now: u32) -> Held
        ensures { result ≡ refreshed now self }
    {
        Held { time: now, ..self }
    }

    /// The route whose deletion begins (RFC 2453 section 3.8).
    pub fn lost(self, now: u32) -> Held
        ensures { result ≡ lost now self }
    {
        Held {
            metric: INFINITY,
            time: now,
            changed: true,
            ..self
        }
    }

    /// The route after a network of the router's own was withdrawn, which is this project's own.
    pub fn withdrawn(self, now: u32) -> Held
        ensures { result ≡ withdrawn now self }
    {
        if self.is_current() {
            self.lost(now)
        } else {
            self
        }
    }

    /// Takes the mark of a change away: clears the route change flag (RFC 2453 section 3.10.1).
    pub fn settle(&mut self)
        ensures { self.new ≡ settled self.old }
    {
        self.changed = false;
    }

    /// Whether it goes by this port and can be reached. Its deletion begins if the port goes down, which is this
    /// project's own.
    pub fn is_lost_via(&self, port: u8) -> bool
        ensures { result ≡ is_lost_via port self.now }
    {
        self.is_via(port) && self.is_reachable()
    }

    /// Whether its timeout is over: it can be reached by a port, and was last heard 180 or more ticks ago (RFC 2453
    /// section 3.8). Own networks have no timeout.
    pub fn is_timed_out(&self, now: u32) -> bool
        ensures { result ≡ is_timed_out now self.now }
    {
        self.via.is_some() && self.is_reachable() && TIMEOUT <= now.saturating_sub(self.time)
    }

    /// Whether its garbage collection is over: it can't be reached, and its deletion began 120 or more ticks ago
    /// (RFC 2453 section 3.8).
    pub fn is_gone(&self, now: u32) -> bool
        ensures { result ≡ is_gone now self.now }
    {
        !self.is_reachable() && GARBAGE_COLLECTION <= now.saturating_sub(self.time)
    }
}
