//! Laws of the definitions, each the contract of a function whose body is empty or only names laws of the database.

ghost use Rattle.std.specs.Prelude.{◌≡◌, ◌≢◌, ◌<◌, ℕ, Some, None, if◌then◌else◌, length, slice_set};
ghost use Rattle.std.specs.Map.{keys_of};
ghost use Rattle.std.specs.List.Sorted.{IsStrictlySortedBy};
ghost use Rattle.dn_guest.specs.Ports.{is_up};
ghost use Rattle.ospf_wire.specs.declared.lsa.Lsa.{Lsa};
ghost use Rattle.ospf_lsdb.specs.declared.key.LsaKey.{LsaKey};
ghost use Rattle.ospf_lsdb.specs.Keys.{key_cmp, key_of};
ghost use Rattle.ospf_lsdb.specs.Database.{kept_at};
ghost use Rattle.ospf_flood.specs.Retransmission.{OnPort, OnPorts, last_sent, list_of, with_lsa, without_lsa, without_lsa_anywhere};
ghost use Rattle.ospf_flood.specs.Flooding.{State, put_on};
ghost use Rattle.ospf_flood.specs.Receiving.{received};

/// An LSA that is put on a list is there with its tick, one that is taken off isn't there, and every other LSA
/// is as before.
pub fn a_list_changes_at_one_lsa()
    ensures put { (l : OnPort) (key : LsaKey) (tick : ℕ) → last_sent (with_lsa l key tick) key ≡ Some tick }
    ensures put_elsewhere { (l : OnPort) (key other : LsaKey) (tick : ℕ) → key ≢ other
        → last_sent (with_lsa l key tick) other ≡ last_sent l other }
    ensures taken { (l : OnPort) (key : LsaKey) → IsStrictlySortedBy key_cmp (keys_of l)
        → last_sent (without_lsa key l) key ≡ None }
    ensures taken_elsewhere { (l : OnPort) (key other : LsaKey) → key ≢ other
        → last_sent (without_lsa key l) other ≡ last_sent l other }
{
    ospf_lsdb::a_change_is_at_one_name::<u32>();
}

/// What is done on a port, on the ports of a mask or on all ports is done to the lists of these alone.
pub fn a_change_is_on_its_ports()
    ensures port { (ls : OnPorts) (port : ℕ) (l : OnPort) → port < length ls → list_of (slice_set ls port l) port ≡ l }
    ensures other_ports { (ls : OnPorts) (port other : ℕ) (l : OnPort) → port ≢ other
        → list_of (slice_set ls port l) other ≡ list_of ls other }
    ensures mask { (ls : OnPorts) (mask port tick : ℕ) (key : LsaKey) → port < length ls
        → list_of (put_on mask key tick ls) port
        ≡ (if is_up mask port then with_lsa (list_of ls port) key tick else list_of ls port) }
    ensures all { (ls : OnPorts) (key : LsaKey) (port : ℕ)
        → list_of (without_lsa_anywhere key ls) port ≡ without_lsa key (list_of ls port) }
{}

/// An LSA that comes changes the database and the lists at its own name alone.
pub fn receiving_is_at_one_lsa()
    ensures database { (s : State) (full from : ℕ) (l : Lsa) (own now : ℕ) (other : LsaKey) → key_of l.head ≢ other
        → kept_at (received s full from l own now).db other ≡ kept_at s.db other }
    ensures lists { (s : State) (full from : ℕ) (l : Lsa) (own now port : ℕ) (other : LsaKey) → key_of l.head ≢ other
        → last_sent (list_of (received s full from l own now).lists port) other
        ≡ last_sent (list_of s.lists port) other }
{
    ospf_lsdb::a_change_is_at_one_name::<u32>();
    ospf_lsdb::a_change_is_at_one_lsa();
}
