//! The guest: the router of `ospf_router` on the trait of guests. That is this project's own.

ghost use Rattle.std.specs.Prelude.{◌≡◌, ◌↔◌, ◌≤◌, ◌++◌, IsTrue, IfOk, OnOk, length, refl};
ghost use Rattle.dn_guest.specs.KeepsFront.{KeepsFront};
ghost use Rattle.ospf_router.specs.State.{opening};
ghost use Rattle.ospf_router.specs.Step.{ospf_after, ospf_outs};
ghost use Rattle.ospf_guest.specs.Ospf.{ospf};
ghost use Rattle.ospf_guest.specs.ImageTells.{same_by_image};

use crate::OspfSettings;
use crate::image::push_image;
use crate::show::push_show;
use dn_guest::{Bytes, Guest, Input, Outbox, Output};
use ospf_router::Router;
use std::alloc::{AllocError, Global};
use std::marker::Model;

/// An OSPF router. Contracts see its state.
#[derive(Drop)]
pub struct Ospf {
    router: Router,
}

impl Model for Ospf {
    ghost use Rattle.ospf_router.specs.State.{OspfState, state_of};

    ghost Value = { OspfState };

    ghost view = { λ o. state_of o.router };
}

impl Ospf {
    /// A router that begins with these settings, which have at most 16 ports.
    pub fn new(alloc: Global, settings: &OspfSettings) -> Result<Ospf, AllocError>
        requires { length settings.now.costs ≤ 16 }
        ensures { IfOk result (λ made. made ≡ opening settings.now.number settings.now.costs settings.now.prefixes) }
    {
        Ok(Ospf {
            router: Router::new(alloc, settings)?,
        })
    }
}

/// Puts out what a router put out.
fn hand_over(outputs: Vec<Output>, out: &mut Outbox) -> Result<(), AllocError>
    ensures { OnOk result (out.new ≡ out.old ++ outputs.items) }
{
    for output in outputs {
        out.put(output.port, output.body)?;
    }
    Ok(())
}

impl Guest for Ospf {
    ghost meaning = { ospf };

    ghost sort_stays = { λ _ _ _. refl };

    ghost image_tells = { λ one other _ same. same_by_image one other same };

    #[tactic(auto, unfolding(ospf_router::specs::Step::ospf_after, ospf_router::specs::Step::ospf_outs))]
    fn step(
        &mut self,
        alloc: Global,
        ports: u16,
        input: &Input,
        out: &mut Outbox,
    ) -> Result<(), AllocError> {
        self.router.out = Outbox::new(alloc);
        self.router.step(alloc, ports, input)?;
        let outputs = self.router.take_out(alloc);
        hand_over(outputs, out)
    }

    fn fork(&self, alloc: Global) -> Result<Self, AllocError> {
        Ok(Ospf {
            router: self.router.fork(alloc)?,
        })
    }

    fn same(&self, other: &Self) -> bool {
        self.router.same(&other.router)
    }

    fn sort(&self) -> u8 {
        1
    }

    fn image(&self, alloc: Global, out: &mut Bytes) -> Result<(), AllocError> {
        push_image(alloc, &self.router, out)
    }

    fn show(&self, alloc: Global, out: &mut Bytes) -> Result<(), AllocError> {
        push_show(alloc, &self.router, out)
    }
}
