//! Reading a journal.

ghost use Rattle.std.specs.Prelude.{◌≡◌, ◌∷◌, codes, IfOk, IsTrue, ◌↔◌};
ghost use Rattle.dn_model.specs.Cases.{IsHeading};
ghost use Rattle.dn_text.specs.Lines.{lines};
ghost use Rattle.dn_case.specs.declared.cause.CaseError.TheVariants as errors;
ghost use Rattle.dn_case.specs.declared.cause.Cause.TheVariants as causes;
ghost use Rattle.dn_case.specs.Reading.{OnFault};
ghost use Rattle.dn_journal.specs.Spelling.{journal_text, end_line};
ghost use Rattle.dn_journal.specs.Reading.{IsJournal, IsFirstBad, IsNoJournal};

use crate::step_lines::step_of;
use dn_case::{CaseError, CaseFault, Cause, KnownHeader};
use dn_model::Header;
use dn_text::{decimal, first_line};
use dn_world::Step;
use std::alloc::Global;

/// The steps of a journal of this header; or the first bad line, counted from 1 within the text, with the
/// cause Journal. The text is gone over once.
pub fn read_journal(alloc: Global, header: &Header, text: &[u8]) -> Result<Vec<Step>, CaseError>
    // The text is the journal of those steps, in their one spelling.
    ensures found { IfOk result (λ steps. IsJournal header.now (lines text.now) steps.items) }
    ensures spelled { IfOk result (λ steps. text.now ≡ journal_text header.now steps.items) }
    // The fault is at the first bad line, and its cause is always the same.
    ensures fault { OnFault result (λ f. IsFirstBad header.now (lines text.now) f.line) }
    ensures cause { OnFault result (λ f. f.cause ≡ causes.Journal) }
    // There is a fault only where the text is no journal.
    ensures none { OnFault result (λ f. IsNoJournal header.now (lines text.now)) }
{
    if text.is_empty() {
        return Err(fault(1));
    }
    let (first, rest) = first_line(text);
    if first != b"journal\n".as_slice() {
        return Err(fault(1));
    }
    read_steps(alloc, &KnownHeader::new(alloc, header)?, rest)
}

/// The steps of a journal, from its second line on.
fn read_steps(alloc: Global, known: &KnownHeader, text: &[u8]) -> Result<Vec<Step>, CaseError>
    requires { IsHeading known.now }
    ensures found { IfOk result (λ steps. IsJournal known.now (codes "journal\n" ∷ lines text.now) steps.items) }
    ensures fault { OnFault result (λ f. IsFirstBad known.now (codes "journal\n" ∷ lines text.now) f.line) }
    ensures cause { OnFault result (λ f. f.cause ≡ causes.Journal) }
    ensures none { OnFault result (λ f. IsNoJournal known.now (codes "journal\n" ∷ lines text.now)) }
{
    let mut steps = Vec::new(alloc);
    let mut number: u64 = 2;
    let mut rest = text;
    'lines: while !rest.is_empty() {
        let (line, behind) = first_line(rest);
        if is_end(line, steps.len() as u64) {
            return if behind.is_empty() {
                Ok(steps)
            } else {
                Err(fault(number + 1))
            };
        }
        let Some(step) = step_of(alloc, known, line)? else {
            return Err(fault(number));
        };
        if let Err(_) = steps.push(step) {
            return Err(CaseError::NoMemory);
        }
        rest = behind;
        number += 1;
    }
    Err(fault(number))
}

fn fault(line: u64) -> CaseError
    ensures { result ≡ errors.Fault (record { line = line; cause = causes.Journal }) }
{
    CaseError::Fault(CaseFault {
        line,
        cause: Cause::Journal,
    })
}

/// Whether the line is the last one of a journal of so many steps.
fn is_end(line: &[u8], count: u64) -> bool
    ensures { IsTrue result ↔ (line.now ≡ end_line count) }
{
    match line.strip_prefix(b"end journal ") {
        None => false,
        Some(rest) => match rest.strip_suffix(b"\n") {
            None => false,
            Some(field) => decimal(field) == Some(count),
        },
    }
}
