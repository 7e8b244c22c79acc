//! What keeps a log.

/// A value that keeps the log of a network. It has meanings alone: the header, the guests' states at the
/// opening by router, and the log of what was done.
pub trait Kept: Drop + Send {
    ghost use Rattle.std.specs.Prelude.{List};
    ghost use Rattle.dn_model.specs.Cases.{Heading};
    ghost use Rattle.dn_world.specs.declared.entry.Entry.{Entry};
    ghost use Rattle.dn_world.specs.Logs.{IsLog};

    /// The guests' states as plain data.
    type Guest;

    ghost header: { Self → Heading };

    ghost opening: { Self → List Self.Guest };

    ghost log: { Self → List Entry };

    ghost is_log: { (x : Self) → IsLog (log x) };
}
