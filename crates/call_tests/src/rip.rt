//! Each law of RIP routers, called once.

#[test]
fn the_laws_hold_of_rip_routers() {
    rip_laws::reached_states();
    rip_laws::tables_are_in_order();
    rip_laws::few_own_networks();
    rip_laws::no_mark_between_steps();
    rip_laws::timers_are_kept();
    rip_laws::routes_come_from_messages();
    rip_laws::messages_that_change_nothing();
    rip_laws::no_route_by_a_down_port();
    rip_laws::own_networks_stay();
    rip_laws::timers_never_fire_early();
    rip_laws::updates_have_split_horizon();
}
