//! The wiring of a network: the far ends of each router's ports, found once.

ghost use Rattle.std.specs.Prelude.{◌≡◌, ◌<◌, Some, length, slice_get, IfOk};
ghost use Rattle.dn_lockstep.specs.Wirings.{all_ends};

use dn_guest::NoMemory;
use dn_model::{End, Header, ends};
use std::alloc::Global;
use std::marker::Model;

/// For each router the far ends of its ports, in the order of the ports.
#[derive(Drop)]
pub(crate) struct Wiring {
    ends: Vec<Vec<End>>,
}

impl Model for Wiring {
    ghost use Rattle.std.specs.Prelude.{List, map};
    ghost use Rattle.dn_model.specs.declared.link.End.{End};

    ghost Value = { List (List End) };

    ghost view = { λ w. map (λ v. v.items) w.ends.items };
}

impl Wiring {
    #[tactic(auto, unfolding(crate::specs::Wirings::all_ends))]
    /// The wiring of a header's links.
    pub(crate) fn new(alloc: Global, header: &Header) -> Result<Wiring, NoMemory>
        ensures { IfOk result (λ made. made ≡ all_ends header.now.links (length header.now.routers)) }
    {
        let mut all = Vec::new(alloc);
        for router in 0..header.routers.as_slice().len() as u16 {
            all.push(ends(alloc, header, router)?)?;
        }
        Ok(Wiring { ends: all })
    }

    /// The far ends of a router's ports.
    pub(crate) fn of(&self, router: u16) -> &[End]
        requires { router < length self.now }
        ensures { slice_get self.now router ≡ Some result.now }
    {
        self.ends[usize::from(router)].as_slice()
    }
}
