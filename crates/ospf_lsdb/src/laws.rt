//! Laws of the definitions, each the contract of a function with an empty body.

ghost use Rattle.std.specs.Prelude.{◌≡◌, ◌≢◌, ℕ, List, Some, None, if◌then◌else◌, option_map};
ghost use Rattle.std.specs.Map.{keys_of, lookup, remove_entry};
ghost use Rattle.std.specs.BTreeMap.{insert_entry, is_at};
ghost use Rattle.std.specs.List.Sorted.{IsStrictlySortedBy};
ghost use Rattle.ospf_lsdb.specs.declared.key.LsaKey.{LsaKey};
ghost use Rattle.ospf_lsdb.specs.declared.kept.Kept.{Kept};
ghost use Rattle.ospf_lsdb.specs.Keys.{key_cmp, own_key};
ghost use Rattle.ospf_lsdb.specs.Kept.{reaches_max_age, with_max_age};
ghost use Rattle.ospf_lsdb.specs.Database.{Database, aged, changed, kept_at, originated, with_kept, without};

/// In a map from names of LSAs, what is put is found at its name, what is removed isn't found any more, and at
/// every other name all is as before. The database is such a map, and so is each retransmission list.
pub fn a_change_is_at_one_name<X>()
    ensures put { (es : List (LsaKey × X)) (key : LsaKey) (x : X)
        → lookup (is_at (key_cmp key)) (insert_entry key_cmp es key x) ≡ Some x }
    ensures put_elsewhere { (es : List (LsaKey × X)) (key other : LsaKey) (x : X) → key ≢ other
        → lookup (is_at (key_cmp other)) (insert_entry key_cmp es key x) ≡ lookup (is_at (key_cmp other)) es }
    ensures removed { (es : List (LsaKey × X)) (key : LsaKey) → IsStrictlySortedBy key_cmp (keys_of es)
        → lookup (is_at (key_cmp key)) (remove_entry (is_at (key_cmp key)) es) ≡ None }
    ensures removed_elsewhere { (es : List (LsaKey × X)) (key other : LsaKey) → key ≢ other
        → lookup (is_at (key_cmp other)) (remove_entry (is_at (key_cmp key)) es) ≡ lookup (is_at (key_cmp other)) es }
{}

/// A change of the database is at one LSA alone: it is what was installed, it is changed as was said, or it is
/// gone, and every other LSA is as before. Origination changes the own LSA alone.
pub fn a_change_is_at_one_lsa()
    ensures installed { (db : Database) (key : LsaKey) (k : Kept) → kept_at (with_kept db key k) key ≡ Some k }
    ensures installed_elsewhere { (db : Database) (key other : LsaKey) (k : Kept) → key ≢ other
        → kept_at (with_kept db key k) other ≡ kept_at db other }
    ensures changed { (db : Database) (key : LsaKey) (change : Kept → Kept)
        → kept_at (changed key change db) key ≡ option_map change (kept_at db key) }
    ensures changed_elsewhere { (db : Database) (key other : LsaKey) (change : Kept → Kept) → key ≢ other
        → kept_at (changed key change db) other ≡ kept_at db other }
    ensures removed { (db : Database) (key : LsaKey) → IsStrictlySortedBy key_cmp (keys_of db)
        → kept_at (without db key) key ≡ None }
    ensures removed_elsewhere { (db : Database) (key other : LsaKey) → key ≢ other
        → kept_at (without db key) other ≡ kept_at db other }
    ensures originated_elsewhere { (db : Database) (router : ℕ) (body : List ℕ) (now : ℕ) (other : LsaKey)
        → own_key router ≢ other → kept_at (originated db router body now) other ≡ kept_at db other }
{}

/// Aging looks at each LSA by itself: the ones that reach MaxAge at this tick are set to it, and every other LSA is
/// as before.
pub fn aging_is_at_each_lsa()
    ensures { (db : Database) (now : ℕ) (key : LsaKey) → kept_at (aged now db) key
        ≡ option_map (λ (k : Kept). if reaches_max_age now k then with_max_age now k else k) (kept_at db key) }
{}
