//! Laws of the definitions, each the contract of a function with an empty body.

ghost use Rattle.std.specs.Prelude.{◌≡◌, ◌↔◌, ◌<◌, ◌^◌, ◌++◌, ◌∷◌, ℕ, List, All, Some, take, drop};
ghost use Rattle.rip_wire.specs.declared.message.Message.{Message};
ghost use Rattle.rip_wire.specs.Entries.{FitsEntry};
ghost use Rattle.rip_wire.specs.Messages.{IsEncodable, IsMessage, message_bytes};
ghost use Rattle.rip_wire.specs.Reading.{message_at};

/// What is read from bytes is the message that they are, and the message that they are is read.
pub fn messages_are_read()
    ensures { (bytes : List ℕ) (m : Message) → (message_at bytes ≡ Some m) ↔ IsMessage bytes m }
{}

/// Bytes are one message at most.
pub fn one_message()
    ensures { (bytes : List ℕ) (m n : Message) → IsMessage bytes m → IsMessage bytes n → m ≡ n }
{}

/// The message for which bytes are written is read from them, and each of them is a byte.
pub fn written_messages_are_read()
    ensures read { (m : Message) → IsEncodable m → All FitsEntry m.entries → message_at (message_bytes m) ≡ Some m }
    ensures bytes { (m : Message) → IsEncodable m → All (λ b. b < 2 ^ 8) (message_bytes m) }
{}

/// The bytes from which a message is read are written for it again, but that the two behind the version are zero.
/// So only these two can differ in two texts of one message.
pub fn read_messages_are_written()
    ensures { (bytes : List ℕ) (m : Message) → All (λ b. b < 2 ^ 8) bytes → message_at bytes ≡ Some m
        → message_bytes m ≡ take 2 bytes ++ 0 ∷ 0 ∷ drop 4 bytes }
{}

/// A message that is read from bytes can be encoded, and each number of it is one of its width.
pub fn read_messages_fit()
    ensures encodable { (bytes : List ℕ) (m : Message) → message_at bytes ≡ Some m → IsEncodable m }
    ensures entries { (bytes : List ℕ) (m : Message) → All (λ b. b < 2 ^ 8) bytes → message_at bytes ≡ Some m
        → All FitsEntry m.entries }
{}
