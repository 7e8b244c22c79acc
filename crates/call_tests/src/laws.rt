//! Each law of networks at a concrete guest.

use dn_guest::Flood;
use dn_model::Event;

#[test]
fn the_laws_hold_of_flooding_routers() {
    dn_lists::a_sort_is_the_one_rising_list::<Event>();
    dn_model::laws::cases_are_timed::<Flood>();
    dn_model::laws::one_settled_family::<Flood>();
    dn_model::laws::rows_below_a_key::<Flood>();
    dn_model::laws::rows_one_by_one::<Flood>();
    dn_model::laws::messages_were_sent::<Flood>();
    dn_model::laws::same_families::<Flood>();
    dn_world::laws::playable_cases::<Flood>();
    dn_world::laws::before_the_first_step::<Flood>();
    dn_world::laws::equation::<Flood>();
    dn_world::laws::boundary::<Flood>();
    dn_world::laws::prefix::<Flood>();
    dn_world::laws::unsent::<Flood>();
    dn_world::laws::quiet::<Flood>();
    dn_world::laws::growth::<Flood>();
    dn_world::laws::tidy_parts::<Flood>();
    dn_world::laws::horizon::<Flood>();
    dn_world::laws::replays::<Flood>();
    dn_world::laws::runs::<Flood>();
    dn_world::laws::fed_runs::<Flood>();
    dn_world::laws::runs_together::<Flood>();
    dn_world::laws::lasting::<Flood>();
    dn_world::laws::fed_alone::<Flood>();
    dn_router::laws::of_a_network::<Flood>();
    dn_fabric::laws::networks::<Flood>();
    dn_fabric::laws::stops::<Flood>();
    dn_fabric::laws::reached_fabrics::<Flood>();
    dn_fabric::laws::one_more_step::<Flood>();
    dn_journal::laws::legal_steps_may_stand_in_a_journal::<Flood>();
    dn_drive::laws::whole_journals::<Flood>();
    dn_drive::laws::taken_steps::<Flood>();
    dn_drive::laws::illegal_steps::<Flood>();
    dn_drive::laws::open_steps::<Flood>();
    dn_drive::laws::cut_runs::<Flood>();
    dn_drive::laws::schedules_are_taken::<Flood>();
    dn_drive::laws::legal_runs_are_taken::<Flood>();
    dn_drive::laws::only_a_commit_cuts::<Flood>();
}
