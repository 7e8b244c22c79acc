//! What a seat knows, and the rule of the turn.

use atomic_table::TableRule;
use dn_model::Header;
use dn_world::{Entry, Kept};
use std::collections::LinkedList;
use std::snapshot::Snapshot;

/// What a seat at the table knows. It is a meaning alone: no value of it is ever made.
pub struct View<O> {
    /// False once the seat was joined into another: the rule says nothing of it any more.
    pub live: bool,
    pub header: Header,
    pub opening: LinkedList<O>,
    /// The log as the seat last put it, or knew it when it was split off or joined.
    pub seen: LinkedList<Entry>,
    /// The places of the seat's own entries in the log, rising.
    pub mine: LinkedList<u64>,
    /// The log with which the value was taken, if the seat has the value.
    pub held: Option<LinkedList<Entry>>,
    /// Whether the seat has the right to feed.
    pub feeds: bool,
    /// Whether it is the first seat, and how many seats are split off it.
    pub first: bool,
    pub out: u64,
    /// What the seat that was joined last had seen, until this one has looked again, and whether that seat fed.
    pub ended: LinkedList<Entry>,
    pub ended_fed: bool,
}

/// The rule of a turn, which holds before and after every step on the table.
pub struct InTurn;

impl<V: Kept> TableRule<Option<V>, View<V::Guest>, Snapshot<V>> for InTurn {
    ghost use Rattle.dn_turn.specs.Rule.{Turned, first_view};

    ghost holds = { λ _. Turned V.header V.opening V.log };

    ghost first = { λ key. first_view (V.header key.value) (V.opening key.value) (V.log key.value) };
}
