//! What the lines work on.

use crate::flooding::{copy, receive};
use crate::ospf_routes::{lsa, router, routes};
use crate::packets::{body, message, packet};
use crate::rip_routes::turn;
use dn_guest::NoMemory;
use ospf_lsdb::Lsdb;
use rip_table::Table;
use std::alloc::Global;
use table_program::{Bench, Fields, Out};

/// An OSPF database, and a RIP routing table.
#[derive(Drop)]
pub(crate) struct Parts {
    database: Lsdb,
    table: Table,
}

impl Bench for Parts {
    fn take(&mut self, alloc: Global, text: &[u8], out: &mut Out) -> Result<bool, NoMemory> {
        if text == b"start\n".as_slice() {
            *self = Parts::new(alloc);
            return Ok(true);
        }
        if text.starts_with(b"router ") {
            return router(alloc, &mut self.database, text);
        }
        let mut fields = Fields::new(alloc, text)?;
        let word = fields.word();
        self.turn(alloc, word, &mut fields, out)?;
        Ok(fields.is_read())
    }
}

impl Parts {
    /// Both are empty.
    pub(crate) fn new(alloc: Global) -> Parts {
        Parts {
            database: Lsdb::new(alloc),
            table: Table::new(alloc),
        }
    }

    /// Does what the word and the fields behind it say, and appends what happened.
    fn turn(
        &mut self,
        alloc: Global,
        word: &[u8],
        fields: &mut Fields<'_>,
        out: &mut Out,
    ) -> Result<(), NoMemory> {
        match word {
            b"packet" => packet(alloc, fields, out),
            b"body" => body(alloc, fields, out),
            b"message" => message(alloc, fields, out),
            b"copy" => copy(alloc, &mut self.database, fields),
            b"receive" => receive(alloc, &mut self.database, fields, out),
            b"lsa" => lsa(alloc, &mut self.database, fields),
            b"routes" => routes(alloc, &self.database, fields, out),
            _ => turn(&mut self.table, word, fields, out),
        }
    }
}
