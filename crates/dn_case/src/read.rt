//! Reading a case.

ghost use Rattle.std.specs.Prelude.{◌≡◌, ◌≤◌, length, IfOk};
ghost use Rattle.dn_model.specs.Cases.{IsRecording};
ghost use Rattle.dn_text.specs.Lines.{lines};
ghost use Rattle.dn_case.specs.Standings.{start};
ghost use Rattle.dn_case.specs.Reading.{case_of, reads, Gives, OnFault, IsFirstBad, IsCaseFront, HasNoCase};

use crate::cause::{CaseError, CaseFault, Cause, LineError};
use crate::standing::Standing;
use dn_model::{Case, Header};
use dn_text::first_line;
use std::alloc::Global;

/// The case at the front of the text, and how many bytes it has up to and with its line `end`; or the
/// first bad line with its cause. The text is gone over once.
pub fn read_case(alloc: Global, text: &[u8]) -> Result<(Case, u64), CaseError>
    // A front of the text, of that length, is a case text of that case.
    ensures found { IfOk result (λ x. IsCaseFront text.now x.0 x.1) }
    ensures within { IfOk result (λ x. x.1 ≤ length text.now) }
    // The fault is at the first bad line, with its cause.
    ensures fault { OnFault result (λ f. IsFirstBad (lines text.now) f.line f.cause) }
    // There is a fault only where no front of the text is a case text.
    ensures none { OnFault result (λ f. HasNoCase text.now) }
{
    match standing_of(alloc, text) {
        Ok((standing, size)) => Ok((case_of(standing), size as u64)),
        Err(error) => Err(error),
    }
}

/// What stands where the case ends, and how many bytes it has.
fn standing_of(alloc: Global, text: &[u8]) -> Result<(Standing, usize), CaseError>
    ensures reading { Gives (λ x. x) result (reads start 1 0 (lines text.now)) }
    ensures within { IfOk result (λ x. x.1 ≤ length text.now) }
{
    let mut standing = Standing::new(alloc);
    let mut number: u64 = 1;
    let mut rest = text;
    'lines: while !rest.is_empty() {
        let (line, behind) = first_line(rest);
        match standing.take_line(alloc, line) {
            Ok(()) => {}
            Err(LineError::Bad(cause)) => {
                return Err(CaseError::Fault(CaseFault {
                    line: number,
                    cause,
                }));
            }
            Err(LineError::NoMemory) => return Err(CaseError::NoMemory),
        }
        rest = behind;
        if standing.place.is_end() {
            return Ok((standing, text.len() - rest.len()));
        }
        number += 1;
    }
    Err(CaseError::Fault(CaseFault {
        line: number,
        cause: Cause::Ended,
    }))
}

/// The case of what stands where it ends.
fn case_of(standing: Standing) -> Case
    requires { IsRecording (case_of standing) }
    ensures { result ≡ case_of standing }
{
    Case {
        header: Header {
            period: standing.period,
            groups: standing.groups,
            seed: standing.seed,
            routers: standing.routers.into_routers(),
            links: standing.links.into_links(),
        },
        feed: standing.feed,
    }
}
