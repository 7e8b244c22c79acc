//! Laws of the model, each the contract of a function that does nothing. Whoever needs one calls it.

ghost use Rattle.std.specs.Prelude.{ℕ, ◌≡◌, ◌<◌, false, true, List, [], ◌∷◌, ◌++◌, length};
ghost use Rattle.std.specs.List.{AllByRecursion, count_by};
ghost use Rattle.std.specs.List.Sorted.{IsPermutation};
ghost use Rattle.std.specs.Ordering.{is_gt, is_eq, nat_cmp, ordering_then};
ghost use Rattle.std.specs.declared.cmp.Ordering.TheVariants.{Equal};
ghost use Rattle.dn_guest.specs.declared.input.Input.{Input};
ghost use Rattle.dn_guest.specs.declared.node.Sent.{Sent};
ghost use Rattle.dn_guest.specs.InputOrder.{input_cmp};
ghost use Rattle.dn_model.specs.declared.key.Key.{Key};
ghost use Rattle.dn_model.specs.declared.event.Event.{Event};
ghost use Rattle.dn_model.specs.declared.feed.External.{External};
ghost use Rattle.dn_model.specs.Cases.{Heading, Recording, IsHeading, IsRecording};
ghost use Rattle.dn_model.specs.Order.{event_cmp, key_cmp, sorted, is_below};
ghost use Rattle.dn_model.specs.Network.{Network, Family, emitted, injected, joined, routers, sent, sent_to};
ghost use Rattle.dn_model.specs.Settled.{IsTimed, IsFeedOf, IsSettled, IsSettledBelow, IsPrefixOf, AreSame, lockstep, rows, below};
ghost use Rattle.dn_model.specs.SoFar.{IsRunSoFar, IsWired, all_injected, by_router, next_emitted};

/// The rules of a case give the premises of the other laws: times pass, the externals lie in the groups,
/// the links join routers of the network.
pub fn cases_are_timed<S>()
    ensures timed { (net : Network S) (case : Recording) → IsRecording case → net.header ≡ case.header →
        IsTimed net.header }
    ensures fed { (net : Network S) (case : Recording) → IsRecording case → net.header ≡ case.header →
        IsFeedOf net.header case.feed }
    ensures wired { (net : Network S) (case : Recording) → IsRecording case → net.header ≡ case.header → IsWired net }
{}

/// The order of events tells all events apart, and that of inputs all inputs. It goes with the keys: an event
/// that isn't after another has a key that isn't after the other's. The key decides first, then the router, then
/// the input.
pub fn order_of_events()
    ensures apart { (x y : Event) → event_cmp x y ≡ Equal → x ≡ y }
    ensures inputs_apart { (x y : Input) → input_cmp x y ≡ Equal → x ≡ y }
    ensures keys { (x y : Event) → is_gt (event_cmp x y) ≡ false → is_gt (key_cmp x.key y.key) ≡ false }
    ensures parts { (x y : Event) → event_cmp x y ≡ ordering_then (ordering_then (key_cmp x.key y.key)
        (nat_cmp x.router y.router)) (input_cmp x.input y.input) }
{}

/// The lockstep lists are a settled family, and no other is; the same below every key.
pub fn one_settled_family<S>()
    ensures lockstep_is { (net : Network S) (feed : List External) → IsTimed net.header → IsFeedOf net.header feed →
        IsSettled net feed (lockstep net feed) }
    ensures no_other_is { (net : Network S) (feed : List External) → IsTimed net.header → IsFeedOf net.header feed →
        (f : Family) → IsSettled net feed f → AreSame net feed f (lockstep net feed) }
    ensures lockstep_is_below { (net : Network S) (feed : List External) → IsTimed net.header →
        IsFeedOf net.header feed → (bound : Key) → IsSettledBelow net feed bound (lockstep net feed) }
    ensures no_other_is_below { (net : Network S) (feed : List External) → IsTimed net.header →
        IsFeedOf net.header feed → (bound : Key) (f : Family) → IsSettledBelow net feed bound f → (r : ℕ) →
        r < routers net → below bound (f r) ≡ below bound (lockstep net feed r) }
{}

/// What stands in the lists of routers. What is sent to a router are messages, and what is injected are none;
/// what a step emits goes to routers of the header; and a list of events at the first n routers is, up to
/// order, its parts router by router.
pub fn lists_of_routers<S>()
    ensures sent { (net : Network S) (f : Family) (r : ℕ) → AllByRecursion (λ e. e.key.class ≡ 2) (sent_to net f r) }
    ensures injected { (groups : ℕ) (feed : List External) (r : ℕ) →
        AllByRecursion (λ e. e.key.class < 2) (injected groups feed r) }
    ensures inside { (header : Heading) (cause : Event) (sents : List Sent) → IsHeading header →
        AllByRecursion (λ e. e.router < length header.routers) (emitted header cause sents) }
    ensures by_router { (n : ℕ) (es : List Event) → AllByRecursion (λ e. e.router < n) es →
        IsPermutation (joined n (by_router es)) es }
{}

/// What is settled are the histories: a family that has the histories of a settled one is settled too.
pub fn same_families<S>()
    ensures settled { (net : Network S) (feed : List External) (f g : Family) → AreSame net feed f g →
        IsSettled net feed g → IsSettled net feed f }
    ensures settled_below { (net : Network S) (feed : List External) (bound : Key) (f g : Family) →
        AreSame net feed f g → IsSettledBelow net feed bound g → IsSettledBelow net feed bound f }
{}

/// The rows of a family that is settled below a key are the lockstep rows below it, and these begin the
/// lockstep rows.
pub fn rows_below_a_key<S>()
    ensures same { (net : Network S) (feed : List External) → IsTimed net.header → IsFeedOf net.header feed →
        (bound : Key) (f : Family) → IsSettledBelow net feed bound f →
        sorted (joined (routers net) (λ r. below bound (f r))) ≡ below bound (rows net feed) }
    ensures front { (net : Network S) (feed : List External) → IsTimed net.header → IsFeedOf net.header feed →
        (bound : Key) → IsPrefixOf (below bound (rows net feed)) (rows net feed) }
{}

/// Whoever handles the least of what waits, again and again, handles the lockstep rows, one by one.
pub fn rows_one_by_one<S>()
    ensures first { (net : Network S) (feed : List External) → IsRunSoFar net feed [] (all_injected net feed) }
    ensures in_any_order { (net : Network S) (feed : List External) (done waiting other : List Event) →
        IsRunSoFar net feed done waiting → IsPermutation waiting other → IsRunSoFar net feed done other }
    ensures onward { (net : Network S) (feed : List External) → IsTimed net.header → IsWired net →
        IsFeedOf net.header feed → (done waiting rest : List Event) (e : Event) → IsRunSoFar net feed done waiting →
        IsPermutation waiting (e ∷ rest) → AllByRecursion (λ w. is_gt (event_cmp e w) ≡ false) rest →
        IsRunSoFar net feed (done ++ e ∷ []) (rest ++ next_emitted net done e) }
    ensures next { (net : Network S) (feed : List External) → IsTimed net.header → IsFeedOf net.header feed →
        (done waiting rest : List Event) (e : Event) → IsRunSoFar net feed done waiting →
        IsPermutation waiting (e ∷ rest) → AllByRecursion (λ w. is_gt (event_cmp e w) ≡ false) rest →
        IsPrefixOf (done ++ e ∷ []) (rows net feed) }
    ensures last { (net : Network S) (feed : List External) → IsTimed net.header → IsFeedOf net.header feed →
        (done : List Event) → IsRunSoFar net feed done [] → rows net feed ≡ done }
{}

/// Each message below a key was sent, in the part of its origin's history below the key, as often as it
/// stands in its own router's.
pub fn messages_were_sent<S>()
    ensures { (net : Network S) (feed : List External) (bound : Key) (f : Family) →
        IsSettledBelow net feed bound f → ((s : ℕ) → s < routers net → AllByRecursion (λ x. x.router ≡ s) (f s)) →
        (e : Event) → e.key.class ≡ 2 → is_below bound e ≡ true → e.router < routers net →
        e.key.origin < routers net → count_by (λ x. is_eq (event_cmp e x)) (below bound (f e.router)) ≡
        count_by (λ x. is_eq (event_cmp e x)) (sent net e.key.origin (below bound (f e.key.origin))) }
{}
