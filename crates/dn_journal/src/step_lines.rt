//! The step of one line.

ghost use Rattle.std.specs.Prelude.{◌≡◌, IfOk};
ghost use Rattle.std.specs.Option.{option_and_then, option_copied};
ghost use Rattle.dn_model.specs.Cases.{IsHeading};
ghost use Rattle.dn_case.specs.Externals.{Finds};
ghost use Rattle.dn_case.specs.Shapes.{before_newline};
ghost use Rattle.dn_journal.specs.Fields.{behind, field_step, plain_step};
ghost use Rattle.dn_journal.specs.Reading.{IsStepLine};

use dn_case::KnownHeader;
use dn_guest::NoMemory;
use dn_text::decimal;
use dn_world::Step;
use std::alloc::Global;

/// The step of a line with its newline; None where the line is of no step that a journal of the header
/// may have.
pub fn step_of(alloc: Global, known: &KnownHeader, line: &[u8]) -> Result<Option<Step>, NoMemory>
    requires { IsHeading known.now }
    ensures { IfOk result (λ found. Finds (λ s. IsStepLine known.now s line.now) found) }
{
    let Some(external) = behind(b"inject ", line) else {
        return Ok(whole_step(known, line));
    };
    match known.external(alloc, external)? {
        None => Ok(None),
        Some(external) => Ok(Some(Step::Inject(external))),
    }
}

/// The step of a line that injects nothing.
#[tactic(auto, unfolding(dn_case::specs::Shapes::before_newline))]
fn whole_step(known: &KnownHeader, line: &[u8]) -> Option<Step>
    ensures { result ≡ option_and_then (plain_step known.now.routers) (before_newline line.now) }
{
    plain_step(known, line.strip_suffix(b"\n")?)
}

#[tactic(auto, unfolding(crate::specs::Fields::plain_step))]
fn plain_step(known: &KnownHeader, text: &[u8]) -> Option<Step>
    ensures { result ≡ plain_step known.now.routers text.now }
{
    if text == b"beacon".as_slice() {
        Some(Step::Beacon)
    } else if text == b"close".as_slice() {
        Some(Step::Close)
    } else if text == b"commit".as_slice() {
        Some(Step::Commit)
    } else {
        field_step(known, text)
    }
}

#[tactic(auto, unfolding(crate::specs::Fields::field_step))]
fn field_step(known: &KnownHeader, text: &[u8]) -> Option<Step>
    ensures { result ≡ field_step known.now.routers text.now }
{
    if let Some(place) = behind(b"deliver ", text) {
        Some(Step::Deliver(decimal(place)?))
    } else if let Some(name) = behind(b"handle ", text) {
        Some(Step::Handle(known.number_of(name)?))
    } else if let Some(name) = behind(b"rollback ", text) {
        Some(Step::RollBack(known.number_of(name)?))
    } else {
        None
    }
}

/// What stands behind the word, where the text begins with it.
fn behind<'a>(word: &[u8], text: &'a [u8]) -> Option<&'a [u8]>
    ensures { option_copied result ≡ behind word.now text.now }
{
    text.strip_prefix(word)
}
