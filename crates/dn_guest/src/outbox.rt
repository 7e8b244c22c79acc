//! What a step puts out.

ghost use Rattle.std.specs.Prelude.{◌≡◌, [], ◌∷◌, ◌++◌, OnOk, OnErr};

use crate::Bytes;
use std::alloc::{AllocError, Global};
use std::marker::Model;

/// A message that a guest puts out on one of its ports.
#[derive(Drop)]
pub struct Output {
    pub port: u8,
    pub body: Bytes,
}

/// The outputs of a step, in order.
#[derive(Drop)]
pub struct Outbox {
    outputs: Vec<Output>,
}

impl Model for Outbox {
    ghost use Rattle.std.specs.Prelude.{List};
    ghost use Rattle.dn_guest.specs.declared.outbox.Output.{Output};

    ghost Value = { List Output };

    ghost view = { λ o. o.outputs.items };
}

impl Outbox {
    /// No outputs. It takes no memory.
    pub fn new(alloc: Global) -> Outbox
        ensures { result ≡ [] }
    {
        Outbox {
            outputs: Vec::new(alloc),
        }
    }

    /// One output at the end.
    pub fn put(&mut self, port: u8, body: Bytes) -> Result<(), AllocError>
        ensures ok { OnOk result (self.new ≡ self.old ++ record { port = port; body = body } ∷ []) }
        ensures err { OnErr result (self.new ≡ self.old) }
    {
        self.outputs.push(Output { port, body })?;
        Ok(())
    }

    /// The outputs.
    pub fn outputs(&self) -> &[Output]
        ensures { result.now ≡ self.now }
    {
        self.outputs.as_slice()
    }

    /// The same outputs, with no memory taken.
    pub fn into_vec(self) -> Vec<Output>
        ensures { result.items ≡ self }
    {
        self.outputs
    }
}
