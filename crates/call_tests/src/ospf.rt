//! Each law of OSPF routers, called once.

#[test]
fn the_laws_hold_of_ospf_routers() {
    ospf_laws::reached_states();
    ospf_laws::lists_are_of_full_neighbours();
    ospf_laws::lists_are_of_up_ports();
    ospf_laws::lsas_of_max_age_leave();
    ospf_laws::originations_are_spaced();
    ospf_laws::own_lsa_is_current();
    ospf_laws::hellos_go_out();
}
