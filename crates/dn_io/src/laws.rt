//! Laws of what is written piece by piece. Each is the contract of a function that does nothing; whoever needs one
//! calls it.

ghost use Rattle.std.specs.Prelude.{◌≡◌, ◌++◌, ℕ, List, Option};
ghost use Rattle.dn_io.specs.Streams.{behind, PutsFront};

/// Two texts that are put one behind the other are put as one.
pub fn one_behind_the_other()
    ensures { (held : Option (List ℕ)) (one two : List ℕ) → behind (behind held one) two ≡ behind held (one ++ two) }
{}

/// Fronts that were put: nothing is a front of every text, a front of one text is a front of each longer one, and
/// all of one text and then a front of another is a front of both.
pub fn fronts()
    ensures nothing { (held : Option (List ℕ)) (text : List ℕ) → PutsFront held held text }
    ensures longer { (old now : Option (List ℕ)) (one two : List ℕ) → PutsFront old now one →
        PutsFront old now (one ++ two) }
    ensures both { (old between now : Option (List ℕ)) (one two : List ℕ) → between ≡ behind old one →
        PutsFront between now two → PutsFront old now (one ++ two) }
{}
