//! What holds of the database between two steps.

ghost use Rattle.ospf_router.specs.State.{OspfState};
ghost use Rattle.ospf_laws.specs.Left.{HasOnlyListedOfMaxAge};
ghost use Rattle.ospf_laws.specs.Reached.{IsReached};

use ospf_router::{sound_parts, sound_states};

/// An LSA whose age is MaxAge is removed as soon as it stands on no link state retransmission list (RFC 2328 section
/// 14): after every step, so after every tick, each LSA of that age stands on the list of some port.
pub fn lsas_of_max_age_leave()
    ensures { (s : OspfState) → IsReached s → HasOnlyListedOfMaxAge s }
{
    sound_states();
    sound_parts();
}
