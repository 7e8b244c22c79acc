// What gives bytes.
ghost use Rattle.std.specs.Prelude.{◌≡◌, ◌<◌, ◌≤◌, List, ℕ, Option, length};
ghost use Rattle.dn_io.specs.Streams.{Reads, Rose};

/// The answer of a read.
#[derive(Clone, Copy, Debug, PartialEq, Eq)]
pub enum Took {
    /// So many bytes came, at least one. They stand at the front of the buffer.
    Bytes(u64),
    /// No byte is left.
    End,
    /// The source failed. No byte came.
    Failed,
}

/// What gives bytes, in order and each once.
pub trait Source {
    /// The bytes that it has left, where it tells them.
    ghost left: { Self → Option (List ℕ) };

    /// How often it has failed. The count never falls.
    ghost faults: { Self → ℕ };

    /// Takes the next bytes, at most as many as `into` is long. `into` isn't empty.
    fn read(&mut self, into: &mut [u8]) -> Took
        requires { 0 < length into.old }
        ensures bytes { Reads result (left self.old) (left self.new) into.new }
        ensures failed { result ≡ Took.Failed → Rose (faults self.old) (faults self.new) }
        ensures later { faults self.old ≤ faults self.new };
}
