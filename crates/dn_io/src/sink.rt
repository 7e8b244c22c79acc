// What takes bytes.
ghost use Rattle.std.specs.Prelude.{◌≡◌, ◌≤◌, List, ℕ, Option};
ghost use Rattle.dn_io.specs.Streams.{Writes, Rose};

/// The answer of a write.
#[derive(Clone, Copy, Debug, PartialEq, Eq)]
pub enum Put {
    /// So many bytes of the piece's front were taken, at least one unless the piece is empty.
    Bytes(u64),
    /// The sink failed. No byte was taken.
    Failed,
}

/// What takes bytes, in order and each once.
pub trait Sink {
    /// The bytes that it holds, where it tells them.
    ghost holds: { Self → Option (List ℕ) };

    /// How often it has failed. The count never falls.
    ghost faults: { Self → ℕ };

    /// Puts the front of the piece behind what is held: as much of it as the sink takes at once.
    fn write(&mut self, piece: &[u8]) -> Put
        ensures bytes { Writes result (holds self.old) (holds self.new) piece.now }
        ensures failed { result ≡ Put.Failed → Rose (faults self.old) (faults self.new) }
        ensures later { faults self.old ≤ faults self.new };
}
