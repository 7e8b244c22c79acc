//! Taking kept nodes off at either end. Only what is dropped is looked at, and one more.

ghost use Rattle.std.specs.Prelude.{ℕ, ◌≡◌, ◌<◌, true, false, List, [], ◌∷◌, ◌++◌, length};
ghost use Rattle.dn_guest.specs.declared.node.Node.{Node};
ghost use Rattle.dn_ckpt.specs.Shelves.{kept_from, kept_up_to};

use crate::shared::SharedNode;
use dn_guest::Guest;
use std::collections::BTreeMap;

/// Drops the nodes past the place.
pub(crate) fn drop_past<G: Guest>(kept: &mut BTreeMap<u64, SharedNode<G>>, place: u64)
    ensures { kept.new.entries ≡ kept_up_to place kept.old.entries }
{
    while is_last_past(kept, place) {
        let _gone = kept.pop_last();
    }
}

/// Drops the nodes before the place.
pub(crate) fn drop_before<G: Guest>(kept: &mut BTreeMap<u64, SharedNode<G>>, place: u64)
    ensures { kept.new.entries ≡ kept_from place kept.old.entries }
{
    while is_first_before(kept, place) {
        let _gone = kept.pop_first();
    }
}

/// Whether the last kept place is past this one.
fn is_last_past<G: Guest>(kept: &BTreeMap<u64, SharedNode<G>>, place: u64) -> bool
    ensures more { result ≡ true → 0 < length kept.now.entries }
    ensures past { result ≡ true → (entry : ℕ × Node G) (others : List (ℕ × Node G)) →
        kept.now.entries ≡ others ++ entry ∷ [] → place < entry.0 }
    ensures none { result ≡ false → kept_up_to place kept.now.entries ≡ kept.now.entries }
{
    match kept.last_key_value() {
        Some((at, _)) => *at > place,
        None => false,
    }
}

/// Whether the first kept place is before this one.
fn is_first_before<G: Guest>(kept: &BTreeMap<u64, SharedNode<G>>, place: u64) -> bool
    ensures more { result ≡ true → 0 < length kept.now.entries }
    ensures before { result ≡ true → (entry : ℕ × Node G) (others : List (ℕ × Node G)) →
        kept.now.entries ≡ entry ∷ others → entry.0 < place }
    ensures none { result ≡ false → kept_from place kept.now.entries ≡ kept.now.entries }
{
    match kept.first_key_value() {
        Some((at, _)) => *at < place,
        None => false,
    }
}
