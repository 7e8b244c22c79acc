//! What each line does with the case that came last.

use crate::beside::rows_of_both;
use crate::shown::{push_after, push_rows};
use dn_case::read_case;
use dn_guest::NoMemory;
use dn_model::Case;
use std::alloc::Global;
use table_program::{Bench, Fields, Out};

/// The case that came last.
#[derive(Drop)]
pub(crate) struct Cases {
    case: Option<Case>,
}

impl Bench for Cases {
    fn take(&mut self, alloc: Global, text: &[u8], out: &mut Out) -> Result<bool, NoMemory> {
        if text.starts_with(b"defined ") {
            self.case = case_of(alloc, text);
            return Ok(self.case.is_some());
        }
        let mut fields = Fields::new(alloc, text)?;
        if let Some(case) = self.case.as_ref() {
            tell(alloc, case, &mut fields, out)?;
        }
        Ok(fields.is_read())
    }
}

impl Cases {
    pub(crate) fn new() -> Cases {
        Cases { case: None }
    }
}

/// The case of a text; None where it can't be read.
fn case_of(alloc: Global, text: &[u8]) -> Option<Case> {
    match read_case(alloc, text) {
        Ok((case, _size)) => Some(case),
        Err(_) => None,
    }
}

/// Tells what the line asks for of the case.
fn tell(
    alloc: Global,
    case: &Case,
    fields: &mut Fields<'_>,
    out: &mut Out,
) -> Result<(), NoMemory> {
    match fields.word() {
        b"beside" => push_beside(alloc, case, out),
        b"rows" => push_rows(alloc, case, out),
        b"after" => push_after(alloc, case, fields.number(200_000), out),
        _ => {
            fields.refuse();
            Ok(())
        }
    }
}

/// Runs both engines on the case, and tells whether they do the same.
fn push_beside(alloc: Global, case: &Case, out: &mut Out) -> Result<(), NoMemory> {
    match rows_of_both(alloc, case)? {
        Some(rows) => {
            out.number("= alike; rows ", rows);
            out.text("\n");
        }
        None => out.text("= they differ\n"),
    }
    Ok(())
}
