//! Laws over all texts and cases.

ghost use Rattle.std.specs.Prelude.{◌≡◌, ◌↔◌, ◌++◌, ℕ, List, [], Some, length, map, take};
ghost use Rattle.std.specs.List.{AllByRecursion, flat_map};
ghost use Rattle.dn_model.specs.declared.feed.External.{External};
ghost use Rattle.dn_model.specs.declared.router.Prefix.{Prefix};
ghost use Rattle.dn_model.specs.Cases.{Heading, IsHeading, Recording, IsRecording};
ghost use Rattle.dn_case.specs.declared.cause.Cause.{Cause};
ghost use Rattle.dn_case.specs.Shapes.{Line, line_of};
ghost use Rattle.dn_case.specs.Spelling.{IsSpellable, IsWithin, spelled, lines_of, case_text};
ghost use Rattle.dn_case.specs.Orders.{other_lines, prefix_lines_of, StandTogether};
ghost use Rattle.dn_case.specs.CaseTexts.{KeepsOrder, case_lines, Spells, BeginsWith};
ghost use Rattle.dn_case.specs.Externals.{IsExternalLine};
ghost use Rattle.dn_case.specs.Reading.{IsCaseText, IsCaseFront, IsFirstBad};

/// At most one front of a text is a case text, and it is the text of one case.
pub fn a_text_has_one_case()
    ensures { (ls : List (List ℕ)) (j k : ℕ) (c d : Recording) → IsCaseText (take j ls) c →
        IsCaseText (take k ls) d → (take j ls ≡ take k ls) × (c ≡ d) }
{}

/// A text has at most one first bad line, with one cause.
pub fn a_text_has_one_first_bad_line()
    ensures { (ls : List (List ℕ)) (m n : ℕ) (c d : Cause) → IsFirstBad ls m c → IsFirstBad ls n d → (m ≡ n) × (c ≡ d) }
{}

/// A line that is spelled is read as that line.
pub fn a_spelled_line_is_read()
    ensures { (l : Line) → IsSpellable l → line_of (spelled l) ≡ Some l }
{}

/// A line that is read is the spelling of what it says, and that has a spelling. A number beyond 64 bits
/// has none of its own: many digits say it.
pub fn a_read_line_is_spelled()
    ensures { (text : List ℕ) (l : Line) → line_of text ≡ Some l → IsWithin l → (text ≡ spelled l) × IsSpellable l }
{}

/// The text of a case is read as that case, whatever follows it.
pub fn a_written_case_is_read()
    // Its lines are a case text of the case.
    ensures lines { (c : Recording) → IsRecording c → IsCaseText (map spelled (lines_of c)) c }
    // Its text is a front of any text that begins with it.
    ensures front { (c : Recording) (rest : List ℕ) → IsRecording c →
        IsCaseFront (case_text c ++ rest) c (length (case_text c)) }
{}

/// What is read as a case is what spells it (`specs/CaseTexts.antt`).
pub fn a_case_text_spells_its_case()
    ensures lines { (ls : List (List ℕ)) (c : Recording) → IsCaseText ls c ↔ Spells ls c }
    // A text has the case at its front exactly if it begins with lines that spell it.
    ensures front { (text : List ℕ) (c : Recording) (n : ℕ) → IsCaseFront text c n ↔ BeginsWith text c n }
{}

/// The prefix lines of different routers may be interleaved: every order of them that keeps each router's
/// own is read as the same case.
pub fn prefix_lines_may_be_interleaved()
    ensures lines { (c : Recording) (ps : List (ℕ × Prefix)) → IsRecording c → KeepsOrder c ps →
        IsCaseText (map spelled (case_lines c ps)) c }
    // Anything may follow.
    ensures front { (c : Recording) (ps : List (ℕ × Prefix)) (rest : List ℕ) → IsRecording c → KeepsOrder c ps →
        (let bytes = flat_map spelled (case_lines c ps) in IsCaseFront (bytes ++ rest) c (length bytes)) }
{}

/// A case has one spelling, but that prefix lines of different routers may stand in any order among
/// themselves.
pub fn a_case_has_one_spelling()
    // Two texts of one case have the same lines that aren't prefix lines, in their order.
    ensures others { (ls ms : List (List ℕ)) (c : Recording) → IsCaseText ls c → IsCaseText ms c →
        other_lines ls ≡ other_lines ms }
    // They have the same prefix lines of each router, in their order.
    ensures prefixes { (ls ms : List (List ℕ)) (c : Recording) (name : List ℕ) → IsCaseText ls c → IsCaseText ms c →
        prefix_lines_of name ls ≡ prefix_lines_of name ms }
    // The prefix lines stand together, at one place in both.
    ensures places { (ls ms : List (List ℕ)) (c : Recording) → IsCaseText ls c → IsCaseText ms c → StandTogether ls ms }
    // A case without prefixes has one text.
    ensures without { (ls ms : List (List ℕ)) (c : Recording) →
        AllByRecursion (λ r. r.prefixes ≡ []) c.header.routers → IsCaseText ls c → IsCaseText ms c → ls ≡ ms }
{}

/// A line is that of one external of a header at most.
pub fn a_line_has_one_external()
    ensures { (h : Heading) (x y : External) (line : List ℕ) → IsHeading h → IsExternalLine h x line →
        IsExternalLine h y line → x ≡ y }
{}
