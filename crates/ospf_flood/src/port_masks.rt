//! Masks of ports: bit p of 16 is port p. A port of 16 or more has no bit.

ghost use Rattle.std.specs.Prelude.{◌≡◌};
ghost use Rattle.dn_guest.specs.Ports.{with_down, with_up};
ghost use Rattle.ospf_flood.specs.PortMasks.{only_port};

/// The mask of a port alone.
pub fn only_port(port: u8) -> u16
    ensures { result ≡ only_port port }
{
    if port < 16 { 1 << port } else { 0 }
}

/// The mask without this port.
pub fn without_port(ports: u16, port: u8) -> u16
    ensures { result ≡ with_down ports port }
{
    if port < 16 {
        ports & !(1 << port)
    } else {
        ports
    }
}

/// The mask with this port.
pub fn with_port(ports: u16, port: u8) -> u16
    ensures { result ≡ with_up ports port }
{
    if port < 16 {
        ports | (1 << port)
    } else {
        ports
    }
}
