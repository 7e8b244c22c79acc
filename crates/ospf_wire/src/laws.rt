//! Laws of the definitions, each the contract of a function with an empty body.

ghost use Rattle.std.specs.Prelude.{◌≡◌, ◌↔◌, ◌<◌, ◌≤◌, All, Some, ◌++◌, ℕ, List, length, sum};
ghost use Rattle.std.specs.Ordering.{ordering_reverse};
ghost use Rattle.ospf_wire.specs.declared.lsa.Lsa.{Lsa};
ghost use Rattle.ospf_wire.specs.declared.lsa.LsaHeader.{LsaHeader};
ghost use Rattle.ospf_wire.specs.declared.packet.Packet.{Packet};
ghost use Rattle.ospf_wire.specs.Fields.{number};
ghost use Rattle.ospf_wire.specs.Sums.{words, packet_sum, packet_checksum};
ghost use Rattle.ospf_wire.specs.Fletcher.{AreCheckBytes, IsChecked, ls_checksum, with_sum};
ghost use Rattle.ospf_wire.specs.Newer.{newer_of};
ghost use Rattle.ospf_wire.specs.Packets.{IsPacket, IsEncodable, FitsPacket, packet_bytes};
ghost use Rattle.ospf_wire.specs.declared.router_lsa.RouterLink.{RouterLink};
ghost use Rattle.ospf_wire.specs.RouterLsas.{IsRouterBody, FitsLink, router_body_bytes};
ghost use Rattle.ospf_wire.specs.Reading.{packet_at, router_links_at};

/// What is read from bytes is the packet that they are, and the packet that they are is read.
pub fn packets_are_read()
    ensures { (bytes : List ℕ) (p : Packet) → (packet_at bytes ≡ Some p) ↔ IsPacket bytes p }
{}

/// Bytes are one packet at most.
pub fn one_packet()
    ensures { (bytes : List ℕ) (p q : Packet) → IsPacket bytes p → IsPacket bytes q → p ≡ q }
{}

/// The bytes that are written for a packet are that packet, and it is read from them: each packet that has
/// bytes, and whose numbers fit theirs, decodes from its encoding.
pub fn written_packets_are_read()
    ensures packet { (p : Packet) → FitsPacket p → IsEncodable p → IsPacket (packet_bytes p) p }
    ensures read { (p : Packet) → FitsPacket p → IsEncodable p → packet_at (packet_bytes p) ≡ Some p }
{}

/// The links that are read from a body are those with which it is the body of a router-LSA.
pub fn router_links_are_read()
    ensures { (body : List ℕ) (ls : List RouterLink) → (router_links_at body ≡ Some ls) ↔ IsRouterBody body ls }
{}

/// The bytes that are written for links are the body of a router-LSA with these, and they are read from it.
pub fn written_router_links_are_read()
    ensures body { (ls : List RouterLink) → length ls ≤ 65535 → All FitsLink ls
        → IsRouterBody (router_body_bytes ls) ls }
    ensures read { (ls : List RouterLink) → length ls ≤ 65535 → All FitsLink ls
        → router_links_at (router_body_bytes ls) ≡ Some ls }
{}

/// The checksum over a packet whose checksum field is zero is right once it is written there. (The words
/// before the field aren't all zero, since the version isn't.)
pub fn written_checksum_is_right()
    ensures { (front rest : List ℕ) (n : ℕ) → length front ≡ 12 → 0 < sum (words front)
        → n ≡ packet_checksum (front ++ number 2 0 ++ rest) → packet_sum (front ++ number 2 n ++ rest) ≡ 65535 }
{}

/// The LS checksum of an LSA is two bytes of 1 to 255, with which both sums are 0 modulo 255.
pub fn ls_checksum_is_right()
    ensures { (l : Lsa) → AreCheckBytes (ls_checksum l) × IsChecked (with_sum l (ls_checksum l)) }
{}

/// No other two bytes of 1 to 255 do it.
pub fn ls_checksum_is_the_only_one()
    ensures { (l : Lsa) (n : ℕ) → AreCheckBytes n → IsChecked (with_sum l n) → n ≡ ls_checksum l }
{}

/// Which of two instances is the newer doesn't depend on which of them is asked first.
pub fn newer_turns_round()
    ensures { (a b : LsaHeader) → newer_of b a ≡ ordering_reverse (newer_of a b) }
{}
