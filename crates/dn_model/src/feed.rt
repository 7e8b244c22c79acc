//! What comes from outside.

ghost use Rattle.std.specs.Prelude.{◌≡◌, ◌++◌, ◌∷◌, [], IfOk, OnOk, OnErr};

use dn_guest::{Input, NoMemory};
use std::alloc::Global;
use std::marker::Model;

/// An input from outside, stamped with the group in which it comes.
#[derive(Drop)]
pub struct External {
    pub group: u32,
    pub router: u16,
    pub input: Input,
}

impl External {
    /// A copy.
    pub fn copy(&self, alloc: Global) -> Result<External, NoMemory>
        ensures { IfOk result (λ made. made ≡ self.now) }
    {
        Ok(External {
            group: self.group,
            router: self.router,
            input: self.input.copy(alloc)?,
        })
    }
}

/// The externals of a case, in the order in which they come.
#[derive(Drop)]
pub struct Feed {
    items: Vec<External>,
}

impl Model for Feed {
    ghost use Rattle.std.specs.Prelude.{List};
    ghost use Rattle.dn_model.specs.declared.feed.External.{External};

    ghost Value = { List External };

    ghost view = { λ l. l.items.items };
}

impl Feed {
    /// The same externals, with no memory taken.
    pub fn from_vec(items: Vec<External>) -> Self
        ensures { result ≡ items.items }
    {
        Feed { items }
    }

    /// The same externals, with no memory taken.
    pub fn into_vec(self) -> Vec<External>
        ensures { result.items ≡ self }
    {
        self.items
    }

    /// The externals as a slice.
    pub fn as_slice(&self) -> &[External]
        ensures { result.now ≡ self.now }
    {
        self.items.as_slice()
    }

    /// One external at the end.
    pub fn push(&mut self, external: External) -> Result<(), NoMemory>
        ensures ok { OnOk result (self.new ≡ self.old ++ external ∷ []) }
        ensures err { OnErr result (self.new ≡ self.old) }
    {
        self.items.push(external)?;
        Ok(())
    }

    /// A copy.
    pub fn copy(&self, alloc: Global) -> Result<Feed, NoMemory>
        ensures { IfOk result (λ made. made ≡ self.now) }
    {
        let mut items = Vec::new(alloc);
        for external in &self.items {
            items.push(external.copy(alloc)?)?;
        }
        Ok(Feed { items })
    }
}
