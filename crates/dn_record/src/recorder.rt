//! Stamps.

ghost use Rattle.std.specs.Prelude.{◌≡◌, ◌<◌, ◌≤◌};
ghost use Rattle.dn_record.specs.Stamps.{Stamping, stamp_of};

use std::marker::Model;

/// Stamps what comes from outside with the group in which it comes. One beat of the metronome is one group; a stamp
/// is below the number of groups, and not below the stamp before it.
#[derive(Drop)]
pub struct Recorder {
    groups: u32,
    last: u32,
}

impl Model for Recorder {
    ghost use Rattle.std.specs.Prelude.{◌<◌};
    ghost use Rattle.dn_record.specs.Stamps.{Stamping};

    ghost Value = { Stamping };

    ghost view = { λ r. record { groups = r.groups; last = r.last } };

    ghost invariant = { λ r. r.last < r.groups };
}

impl Recorder {
    /// A recorder of so many groups, which has stamped nothing yet.
    pub fn new(groups: u32) -> Recorder
        requires { 1 ≤ groups }
        ensures { result ≡ record { groups = groups; last = 0 } }
    {
        Recorder { groups, last: 0 }
    }

    /// The stamp of what comes now, when so many beats have passed.
    pub fn stamp(&mut self, beats: u64) -> u32
        ensures stamp { result ≡ stamp_of self.old.groups self.old.last beats }
        ensures after { self.new ≡ record self.old { last = result } }
        ensures rises { self.old.last ≤ result }
        ensures inside { result < self.old.groups }
    {
        let latest = u64::from(self.groups - 1);
        let stamp = beats.max(u64::from(self.last)).min(latest) as u32;
        self.last = stamp;
        stamp
    }
}
