//! The routers of a table, and what each line does with them.

use crate::settings::guest_of;
use crate::turns::Router;
use dn_guest::{Bytes, Guest, NoMemory};
use guest_any::AnyGuest;
use std::alloc::Global;
use table_program::{Bench, Fields, Out};

/// The routers of a table. Lines speak of the one at `at`.
#[derive(Drop)]
pub(crate) struct Routers {
    routers: Vec<Router>,
    at: usize,
}

impl Bench for Routers {
    fn take(&mut self, alloc: Global, text: &[u8], out: &mut Out) -> Result<bool, NoMemory> {
        let mut fields = Fields::new(alloc, text)?;
        self.take_line(alloc, &mut fields, out)?;
        Ok(fields.is_read())
    }
}

impl Routers {
    pub(crate) fn new(alloc: Global) -> Routers {
        Routers {
            routers: Vec::new(alloc),
            at: 0,
        }
    }

    /// Takes a line, and appends what happened.
    fn take_line(
        &mut self,
        alloc: Global,
        fields: &mut Fields<'_>,
        out: &mut Out,
    ) -> Result<(), NoMemory> {
        if fields.takes(b"router") {
            return self.add_router(alloc, fields);
        }
        if fields.takes(b"fork") {
            return self.add_fork(alloc, fields);
        }
        if fields.takes(b"at") {
            self.at = self.place(fields);
            return Ok(());
        }
        if fields.takes(b"same") {
            self.compare(fields, out);
            return Ok(());
        }
        match self.routers.get_mut(self.at) {
            Some(router) => router.take_line(alloc, fields, out),
            None => Ok(()),
        }
    }

    /// A router more, of which the next lines speak.
    fn add_router(&mut self, alloc: Global, fields: &mut Fields<'_>) -> Result<(), NoMemory> {
        let name = fields.word();
        let guest = guest_of(alloc, fields)?;
        self.add(alloc, name, guest, u16::MAX)
    }

    /// A fork of the router, of which the next lines speak.
    fn add_fork(&mut self, alloc: Global, fields: &mut Fields<'_>) -> Result<(), NoMemory> {
        let name = fields.word();
        let Some(router) = self.routers.get(self.at) else {
            fields.refuse();
            return Ok(());
        };
        let ports = router.ports;
        let guest = router.guest.fork(alloc)?;
        self.add(alloc, name, guest, ports)
    }

    fn add(
        &mut self,
        alloc: Global,
        name: &[u8],
        guest: AnyGuest,
        ports: u16,
    ) -> Result<(), NoMemory> {
        self.at = self.routers.len();
        let name = Bytes::from_slice(alloc, name)?;
        self.routers.push(Router { name, guest, ports })?;
        Ok(())
    }

    /// Whether the router has the same state as another.
    fn compare(&self, fields: &mut Fields<'_>, out: &mut Out) {
        let other = self.place(fields);
        let (Some(one), Some(two)) = (self.routers.get(self.at), self.routers.get(other)) else {
            return;
        };
        out.text(match (one.is_same(two), two.is_same(one)) {
            (true, true) => "= same\n",
            (false, false) => "= different\n",
            _ => "= same one way\n",
        });
    }

    /// The place of the last router of the name in the next field.
    fn place(&self, fields: &mut Fields<'_>) -> usize {
        let name = fields.word();
        let mut found = self.routers.len();
        for (place, router) in self.routers.iter().enumerate() {
            if router.name.as_slice() == name {
                found = place;
            }
        }
        if found == self.routers.len() {
            fields.refuse();
        }
        found
    }
}
