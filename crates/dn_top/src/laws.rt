//! Laws over what is written and read again. Each is the contract of a function that does nothing but call others;
//! whoever needs one calls it.

ghost use Rattle.std.specs.Prelude.{◌≡◌, ◌<◌, ◌≤◌, ◌^◌, ◌++◌, ℕ, Bool, List, length};
ghost use Rattle.std.specs.List.{AllByRecursion};
ghost use Rattle.dn_model.specs.Cases.{IsHeading, Recording, IsRecording};
ghost use Rattle.dn_model.specs.Network.{Network};
ghost use Rattle.dn_model.specs.declared.feed.External.{External};
ghost use Rattle.dn_world.specs.declared.step.Step.{Step};
ghost use Rattle.dn_case.specs.Spelling.{case_text};
ghost use Rattle.dn_case.specs.TraceSections.{section_len};
ghost use Rattle.dn_journal.specs.Spelling.{Fits, IsStep};
ghost use Rattle.dn_trace.specs.Trace.{trace_text};
ghost use Rattle.dn_top.specs.Promises.{HasJournal, HasRerun, IsCaseRun, end_of_run, input_limit, shaken};

use guest_any::AnyGuest;

/// A trace at the front of a text is its trace section, whatever follows.
pub fn a_trace_is_its_section<S>()
    ensures { (net : Network S) (feed : List External) (more : List ℕ) → IsHeading net.header →
        section_len (trace_text net feed ++ more) ≡ length (trace_text net feed) }
{}

/// What `run --journal` and `shake` write is read by `rerun` as the case and the journal that were written, if it is
/// within the limit of an input. The numbers of each step are within their types.
pub fn a_written_journal_is_read_again()
    ensures journal { (c : Recording) (steps : List Step) → IsRecording c → AllByRecursion (IsStep c.header) steps →
        length steps < 2 ^ 64 → length (shaken c steps) ≤ input_limit →
        HasJournal (shaken c steps) c (length (case_text c)) steps }
    // By the journal of a run `rerun` comes to the end that the run came to.
    ensures run { (c : Recording) (cut : Bool) (steps : List Step) → IsRecording c → IsCaseRun c cut steps →
        AllByRecursion Fits steps → length steps < 2 ^ 64 → length (shaken c steps) ≤ input_limit →
        HasRerun (shaken c steps) (end_of_run cut) }
{
    dn_case::a_written_case_is_read();
    dn_journal::laws::a_written_journal_is_read();
    dn_journal::laws::legal_steps_may_stand_in_a_journal::<AnyGuest>();
    a_trace_is_its_section::<AnyGuest>();
}
