//! What image and show make of every state that a router reaches.

ghost use Rattle.std.specs.Prelude.{◌≡◌, ◌+◌, ℕ, true, false, length, min, flat_map};
ghost use Rattle.std.specs.List.{AllByRecursion};
ghost use Rattle.ospf_spf.specs.Graph.{graph_of};
ghost use Rattle.ospf_spf.specs.Table.{table_of};
ghost use Rattle.ospf_router.specs.Sound.{IsSoundState};
ghost use Rattle.ospf_router.specs.State.{OspfState};
ghost use Rattle.ospf_guest.specs.PlainImage.{plain_image};
ghost use Rattle.ospf_guest.specs.Image.{is_long, is_plain, is_sound, ospf_image};
ghost use Rattle.ospf_guest.specs.Show.{route_line, route_lines};

/// The image of a sound state is the plain one (specs/PlainImage.antt). That a router reaches sound states alone is
/// the law `sound_states` of `ospf_router`.
pub fn sound_states_have_the_plain_image()
    ensures { (s : OspfState) → IsSoundState s → ospf_image s ≡ plain_image s }
{}

/// What the image marks is in no sound state, and such a state's routes are shown.
pub fn sound_states_are_told_plainly()
    ensures ports { (s : OspfState) → IsSoundState s → is_sound s.interfaces ≡ true }
    ensures lists { (s : OspfState) → IsSoundState s → AllByRecursion (λ l. is_long l ≡ false) s.interfaces.lists }
    ensures lsas { (s : OspfState) → IsSoundState s → AllByRecursion (λ e. is_plain e.0 e.1 ≡ true) s.db }
    ensures count { (s : OspfState) → IsSoundState s → min 65535 (length s.db) ≡ length s.db }
    ensures routes { (s : OspfState) → IsSoundState s
        → route_lines s.number s.tick s.db ≡ flat_map route_line (table_of (graph_of s.tick s.db) (s.number + 1)) }
{}
