//! Which line may stand behind which.

ghost use Rattle.std.specs.Prelude.{◌≡◌};
ghost use Rattle.dn_case.specs.Shapes.{line};
ghost use Rattle.dn_case.specs.Standings.{is_end, place_of, may_follow};

use crate::shape::Shape;

/// The last line so far.
#[derive(Clone, Copy)]
pub enum Place {
    Start,
    Version,
    Period,
    Groups,
    Seed,
    Router,
    Link,
    Prefix,
    Feed,
    External,
    End,
}

impl Place {
    /// The place of a line of this shape.
    pub fn of(shape: &Shape<'_>) -> Place
        ensures { result ≡ place_of (line shape.now) }
    {
        match shape {
            Shape::Version(_) => Place::Version,
            Shape::Period(_) => Place::Period,
            Shape::Groups(_) => Place::Groups,
            Shape::Seed(_) => Place::Seed,
            Shape::Router(_, _) => Place::Router,
            Shape::Link(_, _, _, _) => Place::Link,
            Shape::Prefix(_, _, _) => Place::Prefix,
            Shape::Feed => Place::Feed,
            Shape::External(_, _, _) => Place::External,
            Shape::End => Place::End,
        }
    }

    /// Whether the line `next` may stand right behind this one.
    #[tactic(auto, unfolding(crate::specs::Standings::may_follow))]
    pub fn may_precede(self, next: Place) -> bool
        ensures { result ≡ may_follow self next }
    {
        match self {
            Place::Start => matches!(next, Place::Version),
            Place::Version => matches!(next, Place::Period),
            Place::Period => matches!(next, Place::Groups),
            Place::Groups => matches!(next, Place::Seed),
            Place::Seed => matches!(next, Place::Router),
            Place::Router => matches!(
                next,
                Place::Router | Place::Link | Place::Prefix | Place::Feed
            ),
            Place::Link => matches!(next, Place::Link | Place::Prefix | Place::Feed),
            Place::Prefix => matches!(next, Place::Prefix | Place::Feed),
            Place::Feed => matches!(next, Place::External | Place::End),
            Place::External => matches!(next, Place::External | Place::End),
            Place::End => false,
        }
    }

    pub fn is_end(self) -> bool
        ensures { result ≡ is_end self }
    {
        matches!(self, Place::End)
    }
}
