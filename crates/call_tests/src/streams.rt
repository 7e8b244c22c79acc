//! The words of errors, and what may go to another thread.

use dn_case::{CaseError, CaseFault, Cause, LiveError};
use dn_io::{
    ClockBeats, Metronome, NoMemory, ReadError, Sink, Source, StdSink, StdSource, WriteFault,
};

/// All can be handed to another thread.
fn can_be_sent<S: Source + Send, K: Sink + Send, M: Metronome + Send>(
    _source: &S,
    _sink: &K,
    _beats: &M,
) {}

#[test]
fn errors_say_what_failed(rt: HostRuntime) -> Result<(), NoMemory> {
    can_be_sent(
        &StdSource::new(rt.stdin()),
        &StdSink::new(rt.stdout()),
        &ClockBeats::new(&rt),
    );
    let fault = CaseFault {
        line: 7,
        cause: Cause::Range,
    };
    let text = format!(in rt.alloc();
        "{}, {}, {}, {}",
        WriteFault,
        ReadError::TooBig,
        CaseError::Fault(fault),
        LiveError::Bad(Cause::Port)
    )?;
    assert!(rt;
        text.as_str() == "the sink failed, more bytes came than are allowed, line 7: Range, Port"
    );
    Ok(())
}
