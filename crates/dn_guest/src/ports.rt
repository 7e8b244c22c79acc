//! The mask of up ports: bit p of 16 is port p. A port of 16 or more has no bit, and is never up.

ghost use Rattle.std.specs.Prelude.{◌≡◌};
ghost use Rattle.dn_guest.specs.Ports.{is_up, with_down, with_up};

/// Whether the port's bit is set.
pub fn is_up(ports: u16, port: u8) -> bool
    ensures { result ≡ is_up ports port }
{
    port < 16 && (ports >> port) & 1 == 1
}

/// The mask with the port's bit clear.
pub fn with_down(ports: u16, port: u8) -> u16
    ensures { result ≡ with_down ports port }
{
    if port < 16 {
        ports & !(1 << port)
    } else {
        ports
    }
}

/// The mask with the port's bit set.
pub fn with_up(ports: u16, port: u8) -> u16
    ensures { result ≡ with_up ports port }
{
    if port < 16 {
        ports | (1 << port)
    } else {
        ports
    }
}
