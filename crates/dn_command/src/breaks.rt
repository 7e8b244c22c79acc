//! Breaks: the rows at which a run stops.

ghost use Rattle.std.specs.Prelude.{◌≡◌};
ghost use Rattle.dn_command.specs.Breaks.{comes_at, begins_with, matches};

use dn_guest::{Bytes, Input};
use dn_model::Row;

/// The rows at which a run stops.
#[derive(Drop)]
pub enum Break {
    /// Rows of this group and this sum of delays since the group began.
    At(u32, u32),
    /// Rows at the router of this number.
    Router(u16),
    /// Messages that come to the router of this number at this port.
    Port(u16, u8),
    /// Commands and messages whose body begins with these bytes.
    Body(Bytes),
}

impl Break {
    /// Whether the run stops at the row.
    pub fn matches(&self, row: &Row) -> bool
        ensures { result ≡ matches self.now row.now }
    {
        match self {
            Break::At(group, sum) => row.key.group == *group && row.key.sum == *sum,
            Break::Router(router) => row.router == *router,
            Break::Port(router, port) => row.router == *router && comes_at(*port, &row.input),
            Break::Body(bytes) => begins_with(bytes.as_slice(), &row.input),
        }
    }
}

/// Whether it is a message that comes at this port.
fn comes_at(port: u8, input: &Input) -> bool
    ensures { result ≡ comes_at port input.now }
{
    match input {
        Input::Msg(place, _) => *place == port,
        Input::Tick(_) | Input::Cmd(_) | Input::Down(_) | Input::Up(_) => false,
    }
}

/// Whether it has a body, which begins with these bytes.
fn begins_with(bytes: &[u8], input: &Input) -> bool
    ensures { result ≡ begins_with bytes.now input.now }
{
    match input {
        Input::Cmd(body) => body.as_slice().starts_with(bytes),
        Input::Msg(_, body) => body.as_slice().starts_with(bytes),
        Input::Tick(_) | Input::Down(_) | Input::Up(_) => false,
    }
}
