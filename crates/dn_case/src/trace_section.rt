//! The trace section that may follow a case.

ghost use Rattle.std.specs.Prelude.{◌≡◌};
ghost use Rattle.dn_case.specs.TraceSections.{closes, section_len};

use dn_text::first_line;

/// The length of the trace section at the front of the bytes, or 0 where there is none. A section begins
/// with the line `trace` and its newline, and goes to the end of the first line that begins with
/// `end trace ` or `cut `, or to the end of the bytes where there is no such line.
pub fn split_trace(rest: &[u8]) -> u64
    ensures { result ≡ section_len rest.now }
{
    if rest.is_empty() {
        return 0;
    }
    let (line, _) = first_line(rest);
    if line != b"trace\n".as_slice() {
        return 0;
    }
    let mut left = rest;
    'lines: while !left.is_empty() {
        let (line, behind) = first_line(left);
        if closes(line) {
            return (rest.len() - behind.len()) as u64;
        }
        left = behind;
    }
    rest.len() as u64
}

/// Whether the line closes a section.
#[tactic(auto, unfolding(crate::specs::TraceSections::closes))]
fn closes(line: &[u8]) -> bool
    ensures { result ≡ closes line.now }
{
    line.starts_with(b"end trace ") || line.starts_with(b"cut ")
}
