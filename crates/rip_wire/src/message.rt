//! Whole messages.

ghost use Rattle.std.specs.Prelude.{◌≡◌, ◌-◌, ◌%◌, ◌≤◌, ◌++◌, IsTrue, IfOk, IfSome, IfNone, OnOk, length};
ghost use Rattle.dn_guest.specs.KeepsFront.{KeepsFront};
ghost use Rattle.rip_wire.specs.declared.message.Message.{Message};
ghost use Rattle.rip_wire.specs.Messages.{message_bytes, IsEncodable, IsMessage};
ghost use Rattle.rip_wire.specs.Reading.{has_form, message_at};

use crate::Entries;
use crate::constants::{BYTES_PER_ENTRY, HEADER_BYTES, MOST_ENTRIES, REQUEST, RESPONSE, VERSION};
use crate::entries::{push_entries, read_entries};
use crate::entry::bytes_from;
use dn_guest::Bytes;
use std::alloc::{AllocError, Global};

/// A message without what is the same in all, which is version 2 (RFC 2453 section 4).
#[derive(Drop)]
pub struct Message {
    /// `REQUEST` or `RESPONSE`.
    pub command: u8,
    /// 1 to 25 entries.
    pub entries: Entries,
}

/// Whether the bytes have a command, the version, and 1 to 25 whole entries behind the header (RFC 2453
/// sections 3.6, 3.9 and 4). This profile has version 2 alone.
#[tactic(auto, unfolding(crate::specs::Reading::has_form))]
fn has_form(bytes: &[u8]) -> bool
    ensures test { result ≡ has_form bytes.now }
    ensures long { IsTrue result → 24 ≤ length bytes.now }
    ensures whole { IsTrue result → (length bytes.now - 4) % 20 ≡ 0 }
{
    let length = bytes.len();
    // RFC 2453 section 3.6: 1 to 25 entries of 20 bytes
    HEADER_BYTES + BYTES_PER_ENTRY <= length
        && length <= HEADER_BYTES + BYTES_PER_ENTRY * MOST_ENTRIES
        && (length - HEADER_BYTES) % BYTES_PER_ENTRY == 0
        // sections 3.6 and 3.9: a request or a response; this profile has no other command
        && (bytes[0] == REQUEST || bytes[0] == RESPONSE)
        // section 4: version 2
        && bytes[1] == VERSION
}

/// The message, if the bytes are one.
#[tactic(auto, unfolding(crate::specs::Reading::message_at))]
fn read_message(alloc: Global, bytes: &[u8]) -> Result<Option<Message>, AllocError>
    ensures { IfOk result (λ found. found ≡ message_at bytes.now) }
{
    if !has_form(bytes) {
        return Ok(None);
    }
    let count = (bytes.len() - HEADER_BYTES) / BYTES_PER_ENTRY;
    Ok(Some(Message {
        command: bytes[0],
        entries: read_entries(alloc, count, bytes_from(bytes, HEADER_BYTES))?,
    }))
}

/// The message that these bytes are, the whole of them. `None` comes exactly if they are none: another
/// version or command, a part of an entry, no entry, or more than 25 (RFC 2453 sections 3.6 and 4).
///
/// The two bytes behind the version, which RFC 2453 section 3.6 wants to be zero, are not looked at. It takes
/// memory for the entries alone.
pub fn decode(alloc: Global, bytes: &[u8]) -> Result<Option<Message>, AllocError>
    ensures exact { IfOk result (λ found. found ≡ message_at bytes.now) }
    ensures found { IfOk result (λ found. IfSome found (λ m. IsMessage bytes.now m)) }
    ensures none { IfOk result (λ found. IfNone found ((m : Message) → ¬ IsMessage bytes.now m)) }
    ensures read { IfOk result (λ found. (m : Message) → IsMessage bytes.now m → found ≡ Some m) }
    ensures encodable { IfOk result (λ found. IfSome found IsEncodable) }
{
    read_message(alloc, bytes)
}

/// Appends the bytes of a message, with zeros behind the version (RFC 2453 section 4). It takes memory in `out`
/// alone; after `NoMemory` what was in `out` before is still at its front.
pub fn encode(message: &Message, out: &mut Bytes) -> Result<(), AllocError>
    requires { IsEncodable message.now }
    ensures ok { OnOk result (out.new ≡ out.old ++ message_bytes message.now) }
    ensures back { OnOk result (IsMessage (message_bytes message.now) message.now) }
    ensures kept { KeepsFront out.old out.new }
{
    out.append(&[message.command, VERSION, 0, 0])?;
    push_entries(message.entries.as_slice(), out)
}
