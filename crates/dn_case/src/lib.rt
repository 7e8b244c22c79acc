//! Cases as text, both ways, with the first fault of a text that is no case.
//!
//! A case is written line by line, as docs/FORMATS.md says. Reading goes over the bytes once: each line
//! is split at its spaces and gets a shape by its words alone; then it is judged by what the lines before
//! it say.
//!
//! | File | What it has |
//! |---|---|
//! | `shape.rt` | what a line says by its words, the number of its fields and their spelling |
//! | `place.rt` | which line may stand behind which |
//! | `cause.rt` | what is wrong with a line |
//! | `number.rt` | numbers within their ranges |
//! | `known_routers.rt` | the routers so far, looked up by name |
//! | `counted_links.rt` | the links so far, with each router's count of ports |
//! | `standing.rt` | what the lines so far say; the numbers and the routers |
//! | `link_lines.rt`, `prefix_lines.rt`, `external_lines.rt` | the further lines of the three sections behind the routers |
//! | `read.rt` | `read_case` |
//! | `known_header.rt` | a header whose routers are looked up by name, and lines that speak of them |
//! | `live_lines.rt` | `read_live`, a line of an external without its group |
//! | `write.rt` | `write_case` |
//! | `trace_section.rt` | `split_trace` |
//! | `laws.rt` | laws over all texts |
//!
//! The contracts upwards: `read_case` answers a case exactly where a front of the text is a case text of
//! that case (`specs/Reading.antt`), and else the first bad line with its cause (`specs/Standings.antt`
//! has a test for each cause, and the table of their order). `write_case` writes `case_text` of
//! `specs/Spelling.antt`, and that text is read as the same case, whatever follows it. What a case text is
//! without the steps of reading says `specs/CaseTexts.antt`; `laws.rt` has that it is the same. Other texts
//! that have externals of a header read them by `KnownHeader::external` and write them by `push_external`; a
//! line that has none of a group yet is read by `read_live` (`specs/LiveLines.antt`).
#![tactic(auto)]

mod cause;
mod counted_links;
mod external_lines;
mod known_header;
mod known_routers;
mod laws;
mod link_lines;
mod live_lines;
mod number;
mod place;
mod prefix_lines;
mod read;
mod shape;
mod standing;
mod trace_section;
mod write;

pub use cause::{CaseError, CaseFault, Cause, LiveError};
pub use known_header::KnownHeader;
pub use laws::{
    a_case_has_one_spelling, a_case_text_spells_its_case, a_line_has_one_external,
    a_read_line_is_spelled, a_spelled_line_is_read, a_text_has_one_case,
    a_text_has_one_first_bad_line, a_written_case_is_read, prefix_lines_may_be_interleaved,
};
pub use live_lines::{number_of, read_live};
pub use read::read_case;
pub use trace_section::split_trace;
pub use write::{push_external, write_case};
