//! Laws over all journals. Each is the contract of a function that does nothing; whoever needs one calls it.

ghost use Rattle.std.specs.Prelude.{◌≡◌, ◌<◌, ◌^◌, ℕ, List, length};
ghost use Rattle.std.specs.List.{AllByRecursion, concat};
ghost use Rattle.dn_model.specs.Cases.{Heading, IsHeading};
ghost use Rattle.dn_model.specs.Network.{Network};
ghost use Rattle.dn_text.specs.Lines.{lines};
ghost use Rattle.dn_world.specs.declared.step.Step.{Step};
ghost use Rattle.dn_world.specs.Runs.{IsLegal};
ghost use Rattle.dn_journal.specs.Spelling.{IsOf, IsStep, journal_text};
ghost use Rattle.dn_journal.specs.Reading.{IsJournal, IsFirstBad};

/// What is written of steps that a journal may have is the journal of those steps.
pub fn a_written_journal_is_read()
    ensures { (h : Heading) (steps : List Step) → IsHeading h → AllByRecursion (IsStep h) steps →
        length steps < 2 ^ 64 → IsJournal h (lines (journal_text h steps)) steps }
{}

/// A text is the journal of one list of steps at most.
pub fn a_text_has_one_journal()
    ensures { (h : Heading) (ls : List (List ℕ)) (a b : List Step) → IsHeading h → IsJournal h ls a →
        IsJournal h ls b → a ≡ b }
{}

/// A list of steps is the journal of one text at most: its spelling.
pub fn steps_have_one_text()
    ensures { (h : Heading) (text : List ℕ) (steps : List Step) → IsJournal h (lines text) steps →
        text ≡ journal_text h steps }
{}

/// A text that is no journal has one first bad line.
pub fn a_text_has_one_first_bad_line()
    ensures { (h : Heading) (ls : List (List ℕ)) (m n : ℕ) → IsFirstBad h ls m → IsFirstBad h ls n → m ≡ n }
{}

/// The lines of a text, one behind the other, are the text.
pub fn lines_are_the_text()
    ensures { (text : List ℕ) → concat (lines text) ≡ text }
{}

/// The steps of a legal run of a network are steps that a journal of its header may have: their routers are
/// routers of the header, and what they inject is of a group of the header and may be injected.
pub fn legal_steps_may_stand_in_a_journal<S>()
    ensures { (net : Network S) (steps : List Step) → IsHeading net.header → IsLegal net steps
        → AllByRecursion (IsOf net.header) steps }
{}
