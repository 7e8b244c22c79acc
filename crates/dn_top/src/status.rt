//! How a command ended.

ghost use Rattle.std.specs.Prelude.{◌≡◌, ◌++◌, IfOk, OnOk};
ghost use Rattle.dn_top.specs.Lines.{cause_word, fault_words, status_words, status_line, status_number};

use dn_case::{CaseFault, Cause};
use dn_guest::{Bytes, NoMemory};
use dn_text::push_decimal;
use std::alloc::Global;

/// How a command ended. The order of refusals is: words; reading; the case and the journal; rows. A write fault
/// ends the command at once, and want of memory may come in the place of any other answer.
#[derive(Clone, Copy, Debug)]
pub enum Status {
    /// All was written.
    Ok,
    /// `check`: the first place, from 0 in the whole input, where it isn't the trace.
    Differs(u64),
    /// The words are no command.
    Usage,
    /// No case stands at the front of the input, or for `rerun` no journal behind it: the first bad line and
    /// its cause.
    BadCase(CaseFault),
    /// The run has more rows than a trace shows, and all that it shows was written.
    Cut,
    /// The source failed.
    ReadFault,
    /// The sink failed; a front of the text was written.
    WriteFault,
    /// There was no memory; a front of the text was written, or nothing.
    NoMemory,
    /// The source gave more than 16,777,216 bytes.
    TooBig,
    /// `rerun`: the number, from 1, of the first step that isn't allowed where it comes.
    Illegal(u64),
    /// `rerun`, `shake`: all steps were taken, and something is left to do.
    Open,
}

/// The exit status of the program.
pub fn status_number(status: &Status) -> u8
    ensures { result ≡ status_number status.now }
{
    match status {
        Status::Ok => 0,
        Status::Differs(_) => 1,
        Status::Usage => 2,
        Status::BadCase(_) => 3,
        Status::Cut => 4,
        Status::ReadFault => 5,
        Status::WriteFault => 6,
        Status::NoMemory => 7,
        Status::TooBig => 8,
        Status::Illegal(_) => 9,
        Status::Open => 10,
    }
}

/// The line for standard error, with its newline; empty for Ok.
#[tactic(auto, unfolding(crate::specs::Lines::status_line))]
pub fn status_line(alloc: Global, status: &Status) -> Result<Bytes, NoMemory>
    ensures { IfOk result (λ line. line ≡ status_line status.now) }
{
    let mut line = Bytes::new(alloc);
    if let Status::Ok = status {
        return Ok(line);
    }
    line.append(b"defined: ")?;
    push_words(&mut line, status)?;
    line.append(b"\n")?;
    Ok(line)
}

/// What the status says.
#[tactic(auto, unfolding(crate::specs::Lines::status_words))]
fn push_words(out: &mut Bytes, status: &Status) -> Result<(), NoMemory>
    ensures { OnOk result (out.new ≡ out.old ++ status_words status.now) }
{
    match status {
        Status::Ok => Ok(()),
        Status::Differs(at) => {
            out.append(b"differs at ")?;
            push_decimal(out, *at)
        }
        Status::Usage => out.append(b"usage"),
        Status::BadCase(fault) => push_fault(out, fault),
        Status::Cut => out.append(b"cut"),
        Status::ReadFault => out.append(b"read fault"),
        Status::WriteFault => out.append(b"write fault"),
        Status::NoMemory => out.append(b"no memory"),
        Status::TooBig => out.append(b"too big"),
        Status::Illegal(number) => {
            out.append(b"illegal step ")?;
            push_decimal(out, *number)
        }
        Status::Open => out.append(b"open"),
    }
}

/// The line and the cause of a fault.
fn push_fault(out: &mut Bytes, fault: &CaseFault) -> Result<(), NoMemory>
    ensures { OnOk result (out.new ≡ out.old ++ fault_words fault.now) }
{
    out.append(b"line ")?;
    push_decimal(out, fault.line)?;
    out.append(b": ")?;
    out.append(cause_word(&fault.cause))?;
    Ok(())
}

/// A cause in lower case.
#[tactic(auto, unfolding(crate::specs::Lines::cause_word))]
fn cause_word(cause: &Cause) -> &'static [u8]
    ensures { result.now ≡ cause_word cause.now }
{
    match cause {
        Cause::Ended => b"ended",
        Cause::Syntax => b"syntax",
        Cause::Version => b"version",
        Cause::Range => b"range",
        Cause::Name => b"name",
        Cause::Same => b"same",
        Cause::Twice => b"twice",
        Cause::Kind => b"kind",
        Cause::Host => b"host",
        Cause::Many => b"many",
        Cause::Order => b"order",
        Cause::Port => b"port",
        Cause::Journal => b"journal",
    }
}
