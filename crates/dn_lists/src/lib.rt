//! Lists in order: what it means to sort a list, and lemmas on filters, rising lists and counts.
//!
//! There is no code to run here. The definitions and lemmas stand at the bottom because the model of a
//! network, the queues of a router and the engines all speak of sorted lists and of lists that are
//! equal up to order.
//!
//! | File | What it has |
//! |---|---|
//! | `specs/InOrder.antt` | `in_order`, the sorted list, as an insertion sort |
//! | `proofs/Lists.antt` | filters of a list, and relations between earlier and later elements |
//! | `proofs/Sorting.antt` | counts, permutations, and the one rising list with given elements |
//!
//! The one contract upwards: `a_sort_is_the_one_rising_list`.
#![tactic(auto)]

ghost use Rattle.std.specs.Prelude.{◌≡◌, List};
ghost use Rattle.std.specs.declared.cmp.Ordering.{Ordering};
ghost use Rattle.std.specs.Cmp.{IsTotalOrder};
ghost use Rattle.std.specs.FinMap.{IsAntisymmetric};
ghost use Rattle.std.specs.List.Sorted.{IsPermutation, IsSorted};
ghost use Rattle.dn_lists.specs.InOrder.{in_order};

/// A total order that tells all elements apart has one rising list for each collection of elements,
/// and sorting gives it.
pub fn a_sort_is_the_one_rising_list<T>()
    ensures sorted { (cmp : T → T → Ordering) → IsTotalOrder cmp → (xs : List T) → IsSorted cmp (in_order cmp xs) }
    ensures same_elements { (cmp : T → T → Ordering) (xs : List T) → IsPermutation xs (in_order cmp xs) }
    ensures no_other { (cmp : T → T → Ordering) → IsTotalOrder cmp → IsAntisymmetric cmp → (xs ys : List T) →
        IsPermutation xs ys → IsSorted cmp ys → ys ≡ in_order cmp xs }
{}
