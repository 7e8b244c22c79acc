//! What the keys of messages hang on.

ghost use Rattle.std.specs.Prelude.{◌≡◌, ◌<◌, ◌≤◌};
ghost use Rattle.dn_model.specs.Keys.{next_key};

use crate::Key;
use crate::ties::tie;

/// The period of a group, the number of groups, and the seed of the ties.
#[derive(Clone, Copy, Debug)]
pub struct Timing {
    pub period: u32,
    pub groups: u32,
    pub seed: u64,
}

impl Timing {
    /// The key of the message that an event with the key of the cause sends over this delay, numbered
    /// `seq` by its sender `origin`. None exactly where its moment is past the last group.
    #[tactic(auto, unfolding(crate::specs::Keys::next_key, crate::specs::Keys::message_key))]
    pub fn next_key(&self, cause: &Key, delay: u32, origin: u16, seq: u64) -> Option<Key>
        requires { 0 < self.now.period }
        ensures { result ≡ next_key self.now cause.now delay origin seq }
    {
        let period = u64::from(self.period);
        let moment = u64::from(cause.group) * period + u64::from(cause.sum) + u64::from(delay);
        if moment < u64::from(self.groups) * period {
            let group = (moment / period) as u32;
            let sum = (moment % period) as u32;
            Some(Key {
                group,
                sum,
                class: 2,
                tie: tie(self.seed, group, sum, origin, seq),
                origin,
                seq,
            })
        } else {
            None
        }
    }
}
