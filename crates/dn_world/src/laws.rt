//! What holds of every interleaving: of every world that a legal run reaches, whatever the order of its
//! deliveries, handlings, rollbacks and commits. Each law is the contract of a function that does nothing;
//! whoever needs one calls it.

ghost use Rattle.std.specs.Prelude.{ℕ, Bool, if◌then◌else◌, ◌+◌, ◌≡◌, ◌<◌, ◌≤◌, true, false, List, [], ◌∷◌, ◌++◌, Some, length, map, slice_get, take};
ghost use Rattle.std.specs.List.{AllByRecursion, count_by};
ghost use Rattle.std.specs.Ordering.{is_gt};
ghost use Rattle.dn_model.specs.declared.event.Event.{Event};
ghost use Rattle.dn_model.specs.declared.feed.External.{External};
ghost use Rattle.dn_model.specs.declared.key.Key.{Key};
ghost use Rattle.dn_model.specs.Cases.{Recording, IsRecording};
ghost use Rattle.dn_model.specs.Network.{Network, external, routers, sent, sent_from, state, state_from, tick};
ghost use Rattle.dn_guest.specs.Node.{node_after};
ghost use Rattle.dn_model.specs.Settled.{IsTimed, IsFeedOf, IsPrefixOf, lockstep, rows, shown_rows, is_cut};
ghost use Rattle.dn_world.specs.declared.entry.Entry.{Entry};
ghost use Rattle.dn_world.specs.declared.entry.Entry.TheVariants.{Did, Stop};
ghost use Rattle.dn_world.specs.declared.packet.Packet.{Packet};
ghost use Rattle.dn_world.specs.declared.step.Step.{Step};
ghost use Rattle.dn_world.specs.declared.step.Step.TheVariants.{RollBack};
ghost use Rattle.dn_world.specs.World.{Part, World, part, opening, horizon, is_quiet, is_same, key_of, stands, waiting, without, with_todo, with_void};
ghost use Rattle.dn_world.specs.Steps.{is_enabled, after, emits, kept, taken_off};
ghost use Rattle.dn_world.specs.Logs.{log_of, IsLog, is_stopped, feeding, fed};
ghost use Rattle.dn_world.specs.Runs.{IsLegal, IsLegalFrom, IsLegalOf, IsFedFrom, DontFall, run, world, injects, Continues, settled_rows, fresh_rows, committed, committed_at, committed_state, is_cut_off, IsPast, IsAllPast, IsBalanced, IsPlayable, IsTidy};
ghost use Rattle.dn_lists.specs.InOrder.{put_in_order};
ghost use Rattle.dn_model.specs.Order.{event_cmp};

/// The rules of a case give the premises of these laws: times pass, there is a group, and the groups of the
/// feed don't fall. That the externals lie in the groups says `dn_model::laws::cases_are_timed`.
pub fn playable_cases<S>()
    ensures playable { (net : Network S) (case : Recording) → IsRecording case → net.header ≡ case.header →
        IsPlayable net.header }
    ensures dont_fall { (case : Recording) → IsRecording case → DontFall case.feed }
{}

/// Before the first step nothing is committed, so the world isn't cut.
pub fn before_the_first_step<S>()
    ensures rows { (net : Network S) → settled_rows net (opening (routers net)) ≡ [] }
    ensures committed { (net : Network S) → committed net (opening (routers net)) ≡ [] }
    ensures uncut { (net : Network S) → is_cut_off net (opening (routers net)) ≡ false }
{}

/// Nothing is lost and nothing is made. At each router what it has handled, what it has still to handle and
/// what flies to it are, up to order, what came from outside so far, what the replays of all handled
/// histories send to it, and the sendings that are taken back and haven't met their message yet. It holds at
/// the start, each step that is enabled keeps it, and so it holds after every legal run.
pub fn equation<S>()
    ensures opening { (net : Network S) → IsBalanced net (opening (routers net)) }
    ensures step { (net : Network S) (w : World) (s : Step) → is_enabled net w s ≡ true → IsBalanced net w →
        IsBalanced net (after net w s) }
    ensures run { (net : Network S) (steps : List Step) → IsLegal net steps → IsBalanced net (world net steps) }
{}

/// Nothing comes before the boundary. Whatever still waits at a router or flies, and whatever may still come
/// from outside, has a key at the boundary or past it. The horizon never falls, so a later Commit never moves
/// the boundary back, and a rollback takes off nothing that was committed. Links take time: that is all it
/// asks of the network.
pub fn boundary<S>()
    ensures opening { (net : Network S) → IsAllPast net (opening (routers net)).boundary (opening (routers net)) }
    ensures step { (net : Network S) (w : World) (s : Step) → IsTimed net.header → is_enabled net w s ≡ true →
        IsBalanced net w → IsAllPast net w.boundary w → IsAllPast net (after net w s).boundary (after net w s) }
    ensures step_horizon { (net : Network S) (w : World) (s : Step) → IsTimed net.header →
        is_enabled net w s ≡ true → IsBalanced net w →
        IsPast (horizon net.header w) (horizon net.header (after net w s)) }
    ensures step_taken_off { (net : Network S) (w : World) (r : ℕ) → is_enabled net w (RollBack r) ≡ true →
        IsBalanced net w → IsAllPast net w.boundary w →
        AllByRecursion (λ e. IsPast w.boundary e.key) (taken_off net (part w r)) }
    ensures run { (net : Network S) (steps : List Step) → IsTimed net.header → IsLegal net steps →
        IsAllPast net (world net steps).boundary (world net steps) }
    ensures run_horizon { (net : Network S) (steps : List Step) (s : Step) → IsTimed net.header →
        IsLegal net steps → is_enabled net (world net steps) s ≡ true →
        IsPast (horizon net.header (world net steps)) (horizon net.header (after net (world net steps) s)) }
    ensures run_taken_off { (net : Network S) (steps : List Step) (r : ℕ) → IsTimed net.header → IsLegal net steps →
        is_enabled net (world net steps) (RollBack r) ≡ true →
        AllByRecursion (λ e. IsPast (world net steps).boundary e.key) (taken_off net (part (world net steps) r)) }
{}

/// What is committed is final. For every case that goes on where the world is, the committed rows are a
/// prefix of the case's lockstep rows, those of each router are a prefix of its lockstep list, the router's
/// committed state is its lockstep state after as many rows, and a world that has too many rows for a trace
/// is one of a case that has too many: it has committed just the rows that the trace shows.
pub fn prefix<S>()
    ensures rows { (net : Network S) (feed : List External) (steps : List Step) → IsPlayable net.header →
        IsFeedOf net.header feed → IsLegal net steps → Continues feed (world net steps) →
        IsPrefixOf (committed net (world net steps)) (rows net feed) }
    ensures of_router { (net : Network S) (feed : List External) (steps : List Step) (r : ℕ) →
        IsPlayable net.header → IsFeedOf net.header feed → IsLegal net steps → Continues feed (world net steps) →
        r < routers net → IsPrefixOf (committed_at net (world net steps) r) (lockstep net feed r) }
    ensures state { (net : Network S) (feed : List External) (steps : List Step) (r : ℕ) → IsPlayable net.header →
        IsFeedOf net.header feed → IsLegal net steps → Continues feed (world net steps) → r < routers net →
        committed_state net (world net steps) r ≡
        state net r (take (length (committed_at net (world net steps) r)) (lockstep net feed r)) }
    ensures cut { (net : Network S) (feed : List External) (steps : List Step) → IsPlayable net.header →
        IsFeedOf net.header feed → IsLegal net steps → Continues feed (world net steps) →
        is_cut_off net (world net steps) ≡ true → is_cut net feed ≡ true }
    ensures cut_rows { (net : Network S) (feed : List External) (steps : List Step) → IsPlayable net.header →
        IsFeedOf net.header feed → IsLegal net steps → Continues feed (world net steps) →
        is_cut_off net (world net steps) ≡ true → committed net (world net steps) ≡ shown_rows net feed }
{}

/// No unsent message stands in a committed row. Each committed message is sent in the replay of its
/// sender's own committed rows, as often as it is committed: at least as often where the trace is cut,
/// exactly as often where it isn't.
pub fn unsent<S>()
    ensures sent { (net : Network S) (steps : List Step) (e : Event) → IsPlayable net.header → IsLegal net steps →
        e.key.class ≡ 2 → count_by (is_same e) (committed net (world net steps)) ≤
        count_by (is_same e) (sent net e.key.origin (committed_at net (world net steps) e.key.origin)) }
    ensures sent_uncut { (net : Network S) (steps : List Step) (e : Event) → IsPlayable net.header →
        IsLegal net steps → e.key.class ≡ 2 → is_cut_off net (world net steps) ≡ false →
        0 < count_by (is_same e) (committed net (world net steps)) →
        count_by (is_same e) (committed net (world net steps)) ≡
        count_by (is_same e) (sent net e.key.origin (committed_at net (world net steps) e.key.origin)) }
{}

/// A world in which nothing waits or flies is the end of the run. No sending is left to be taken back, each
/// router has handled its whole lockstep list of the externals that were accepted, and once the boundary is
/// at the horizon the committed rows are the rows that the lockstep trace shows, cut exactly where it is cut.
pub fn quiet<S>()
    ensures voids { (net : Network S) (steps : List Step) (r : ℕ) → IsPlayable net.header → IsLegal net steps →
        is_quiet (world net steps) ≡ true → r < routers net → (part (world net steps) r).voids ≡ [] }
    ensures done { (net : Network S) (steps : List Step) (r : ℕ) → IsPlayable net.header → IsLegal net steps →
        is_quiet (world net steps) ≡ true → r < routers net →
        (part (world net steps) r).done ≡ lockstep net (world net steps).accepted r }
    ensures rows { (net : Network S) (steps : List Step) → IsPlayable net.header → IsLegal net steps →
        is_quiet (world net steps) ≡ true → (world net steps).boundary ≡ horizon net.header (world net steps) →
        committed net (world net steps) ≡ shown_rows net (world net steps).accepted }
    ensures cut { (net : Network S) (steps : List Step) → IsPlayable net.header → IsLegal net steps →
        is_quiet (world net steps) ≡ true → (world net steps).boundary ≡ horizon net.header (world net steps) →
        is_cut_off net (world net steps) ≡ is_cut net (world net steps).accepted }
{}

/// Runs, one step after another: a legal run goes on by any step that is enabled in its world. The accepted
/// externals are those that the run injected, they are a feed of the header, and the case of just these goes
/// on where the world is. A legal run of a case that has closed has accepted the whole feed.
pub fn runs<S>()
    ensures accepted { (net : Network S) (steps : List Step) → (world net steps).accepted ≡ injects steps }
    ensures legal { (net : Network S) (steps : List Step) (s : Step) → IsLegal net steps →
        is_enabled net (world net steps) s ≡ true → IsLegal net (steps ++ s ∷ []) }
    ensures world { (net : Network S) (steps : List Step) (s : Step) →
        world net (steps ++ s ∷ []) ≡ after net (world net steps) s }
    ensures accepted_case { (net : Network S) (steps : List Step) → IsPlayable net.header → IsLegal net steps →
        IsFeedOf net.header (world net steps).accepted }
    ensures own_case { (w : World) → Continues w.accepted w }
    ensures whole_case { (net : Network S) (feed : List External) (steps : List Step) → IsLegalOf net feed steps →
        (world net steps).closed ≡ true → (world net steps).accepted ≡ feed }
{}

/// What code may keep of a router: in every world what a router has to handle and what it has to take out
/// are in order, and no event stands in both. Two such parts with one handled list, and with equal counts of
/// each event to handle less those to take out, are one. An event that comes to such a part meets at most one
/// equal event and leaves with it; otherwise it is put in order. Several come as one after another.
pub fn tidy_parts<S>()
    ensures step { (net : Network S) (w : World) (s : Step) → AllByRecursion IsTidy w.parts →
        AllByRecursion IsTidy (after net w s).parts }
    ensures run { (net : Network S) (steps : List Step) → AllByRecursion IsTidy (world net steps).parts }
    ensures same { (p q : Part) → IsTidy p → IsTidy q → p.done ≡ q.done →
        ((e : Event) → count_by (is_same e) p.todo + count_by (is_same e) q.voids ≡
        count_by (is_same e) q.todo + count_by (is_same e) p.voids) → p ≡ q }
    ensures todo { (e : Event) (p : Part) → IsTidy p →
        with_todo (e ∷ []) p ≡ (if stands e p.voids then record p { voids = without e p.voids }
        else record p { todo = put_in_order event_cmp e p.todo }) }
    ensures voids { (e : Event) (p : Part) → IsTidy p →
        with_void e p ≡ (if stands e p.todo then record p { todo = without e p.todo }
        else record p { voids = put_in_order event_cmp e p.voids }) }
    ensures one_by_one { (es fs : List Event) (p : Part) → IsTidy p →
        with_todo (es ++ fs) p ≡ with_todo es (with_todo fs p) }
{}

/// Each step adds the rows that are new below the boundary, in order, and takes none away: where the
/// boundary stays the rows stay, and what is cut stays cut. A quiet world whose boundary is at the horizon
/// stays the same world for ever.
pub fn growth<S>()
    ensures grow { (net : Network S) (w : World) (s : Step) → is_enabled net w s ≡ true → IsBalanced net w →
        IsAllPast net w.boundary w → settled_rows net w ++ fresh_rows net w.boundary (after net w s) ≡
        settled_rows net (after net w s) }
    ensures stay { (net : Network S) (w : World) (s : Step) → is_enabled net w s ≡ true → IsBalanced net w →
        IsAllPast net w.boundary w → (after net w s).boundary ≡ w.boundary →
        settled_rows net (after net w s) ≡ settled_rows net w }
    ensures committed { (net : Network S) (w : World) (s : Step) → is_enabled net w s ≡ true → IsBalanced net w →
        IsAllPast net w.boundary w → IsPrefixOf (committed net w) (committed net (after net w s)) }
    ensures cut { (net : Network S) (w : World) (s : Step) → is_enabled net w s ≡ true → IsBalanced net w →
        IsAllPast net w.boundary w → is_cut_off net w ≡ true → is_cut_off net (after net w s) ≡ true }
    ensures ended { (net : Network S) (w : World) (s : Step) → is_quiet w ≡ true →
        w.boundary ≡ horizon net.header w → is_enabled net w s ≡ true → after net w s ≡ w }
{}

/// The horizon is the one key that is no later than all that waits, all that flies and all that may still
/// come from outside, and than which no such key is later.
pub fn horizon<S>()
    ensures lower { (net : Network S) (w : World) → IsAllPast net (horizon net.header w) w }
    ensures greatest { (net : Network S) (w : World) (b : Key) → IsAllPast net b w → IsPast b (horizon net.header w) }
    ensures only { (a b : Key) → IsPast a b → IsPast b a → a ≡ b }
{}

/// To be a key or a later one is an order of keys, and the order of events goes with it.
pub fn keys_past()
    ensures itself { (a : Key) → IsPast a a }
    ensures onward { (a b c : Key) → IsPast a b → IsPast b c → IsPast a c }
    ensures later { (x y : Event) → is_gt (event_cmp x y) ≡ false → IsPast x.key y.key }
{}

/// What comes anew comes late enough. A bound that isn't later than the begin of a group isn't later than any
/// tick of it. One that isn't later than the first key of a group's externals isn't later than any of these,
/// nor than the begin of a later group.
pub fn new_keys()
    ensures tick { (bound : Key) (group r : ℕ) → IsPast bound (key_of group 0) → IsPast bound (tick group r).key }
    ensures external { (bound : Key) (place : ℕ) (x : External) → IsPast bound (key_of x.group 1) →
        IsPast bound (external place x).key }
    ensures next_group { (bound : Key) (floor group : ℕ) → floor < group → IsPast bound (key_of floor 1) →
        IsPast bound (key_of group 0) }
{}

/// All that waits in a world are what waits at its routers and what flies: where nothing of it is before a
/// bound, nothing that waits at a router is, and no packet that flies.
pub fn waiting()
    ensures at { (bound : Key) (w : World) (r : ℕ) → AllByRecursion (λ e. IsPast bound e.key) (waiting w) →
        AllByRecursion (λ e. IsPast bound e.key) ((part w r).todo ++ (part w r).voids) }
    ensures flying { (bound : Key) (w : World) (place : ℕ) (packet : Packet) →
        AllByRecursion (λ e. IsPast bound e.key) (waiting w) → slice_get w.flight place ≡ Some packet →
        IsPast bound packet.event.key }
{}

/// Replays go on from the node that a prefix of the history leaves, so a kept node at a place serves in place
/// of the whole replay. What a rollback keeps and what it takes off are the handled list, so what is taken off
/// are events of the router where all that it handled are.
pub fn replays<S>()
    ensures state { (net : Network S) (r : ℕ) (xs ys : List Event) →
        state net r (xs ++ ys) ≡ state_from net (state net r xs) ys }
    ensures state_more { (net : Network S) (r : ℕ) (xs : List Event) (e : Event) →
        state net r (xs ++ e ∷ []) ≡ node_after net.guests (state net r xs) e.input }
    ensures sent { (net : Network S) (r : ℕ) (xs ys : List Event) →
        sent net r (xs ++ ys) ≡ sent net r xs ++ sent_from net (state net r xs) ys }
    ensures sent_more { (net : Network S) (r : ℕ) (xs : List Event) (e : Event) →
        sent net r (xs ++ e ∷ []) ≡ sent net r xs ++ emits net r xs e }
    ensures done { (net : Network S) (p : Part) → kept net p ++ taken_off net p ≡ p.done }
    ensures own { (net : Network S) (p : Part) (r : ℕ) → AllByRecursion (λ e. e.router ≡ r) p.done →
        AllByRecursion (λ e. e.router ≡ r) (taken_off net p) }
{}

/// A run that feeds a case as its groups ask is legal, and where the groups of the case don't fall the case
/// goes on where its world is: a Beacon only where the next external, if there is one, is of a later group,
/// an Inject of the next one, a Close after all of them.
pub fn fed_runs<S>()
    ensures legal { (net : Network S) (feed rest : List External) (steps : List Step) →
        IsFedFrom net (opening (routers net)) feed steps rest → IsLegal net steps }
    ensures continues { (net : Network S) (feed rest : List External) (steps : List Step) → DontFall feed →
        IsFedFrom net (opening (routers net)) feed steps rest → Continues feed (world net steps) }
{}

/// Two lists of steps put together: the second runs on from the world of the first, and the whole is legal
/// exactly where both are. A front of a legal run is legal.
pub fn runs_together<S>()
    ensures world { (net : Network S) (xs ys : List Step) → world net (xs ++ ys) ≡ run net (world net xs) ys }
    ensures legal { (net : Network S) (xs ys : List Step) → IsLegal net xs → IsLegalFrom net (world net xs) ys →
        IsLegal net (xs ++ ys) }
    ensures rest { (net : Network S) (xs ys : List Step) → IsLegal net (xs ++ ys) → IsLegalFrom net (world net xs) ys }
    ensures front { (net : Network S) (xs ys : List Step) → IsPrefixOf xs ys → IsLegal net ys → IsLegal net xs }
{}

/// What stays under every further list of steps: closed stays closed, a quiet world whose boundary is at the
/// horizon stays the same world, the committed rows stay at the front, and what is cut stays cut.
pub fn lasting<S>()
    ensures closed { (net : Network S) (w : World) (steps : List Step) → w.closed ≡ true →
        (run net w steps).closed ≡ true }
    ensures ended { (net : Network S) (w : World) (steps : List Step) → is_quiet w ≡ true →
        w.boundary ≡ horizon net.header w → IsLegalFrom net w steps → run net w steps ≡ w }
    ensures rows { (net : Network S) (xs ys : List Step) → IsTimed net.header → IsLegal net (xs ++ ys) →
        IsPrefixOf (committed net (world net xs)) (committed net (world net (xs ++ ys))) }
    ensures cut { (net : Network S) (xs ys : List Step) → IsTimed net.header → IsLegal net (xs ++ ys) →
        is_cut_off net (world net xs) ≡ true → is_cut_off net (world net (xs ++ ys)) ≡ true }
{}

/// How far the feed has come is told by the steps that feed the case alone: Beacon, Inject and Close, in
/// order. All other steps leave floor, closed and the accepted externals as they are.
pub fn fed_alone<S>()
    ensures floor { (net : Network S) (w : World) (steps : List Step) →
        (run net w steps).floor ≡ (run net w (feeding steps)).floor }
    ensures closed { (net : Network S) (w : World) (steps : List Step) →
        (run net w steps).closed ≡ (run net w (feeding steps)).closed }
    ensures accepted { (net : Network S) (w : World) (steps : List Step) →
        (run net w steps).accepted ≡ (run net w (feeding steps)).accepted }
    ensures injects { (steps : List Step) → injects (feeding steps) ≡ injects steps }
{}

/// Logs. One that ends with Stop is a front of no longer one, and the mark stands in no log that doesn't end
/// with it. A step or a stop puts one entry behind a log that isn't stopped.
pub fn logs()
    ensures last { (xs ys : List Entry) → IsLog ys → IsPrefixOf xs ys → is_stopped xs ≡ true → xs ≡ ys }
    ensures stays { (xs ys : List Entry) → IsLog ys → IsPrefixOf xs ys → is_stopped xs ≡ true → is_stopped ys ≡ true }
    ensures within { (log : List Entry) (place : ℕ) → IsLog log → slice_get log place ≡ Some Stop →
        is_stopped log ≡ true }
    ensures stopped { (steps : List Step) (stopped : Bool) → is_stopped (log_of steps stopped) ≡ stopped }
    ensures did { (steps : List Step) (s : Step) → log_of (steps ++ s ∷ []) false ≡ log_of steps false ++ Did s ∷ [] }
    ensures stop { (steps : List Step) → log_of steps true ≡ log_of steps false ++ Stop ∷ [] }
{}

/// Fed lists grow with logs: that of a front is a front, a log between two of one fed list has that one too,
/// and a stop adds nothing. The fed list of a log has the steps of the log that feed a case.
pub fn fed_logs()
    ensures append { (xs ys : List Entry) → fed (xs ++ ys) ≡ fed xs ++ fed ys }
    ensures front { (xs ys : List Entry) → IsPrefixOf xs ys → IsPrefixOf (fed xs) (fed ys) }
    ensures between { (xs ys zs : List Entry) → IsPrefixOf xs ys → IsPrefixOf ys zs → fed zs ≡ fed xs →
        fed ys ≡ fed xs }
    ensures stop { (xs : List Entry) → fed (xs ++ Stop ∷ []) ≡ fed xs }
    ensures steps { (steps : List Step) (stopped : Bool) → fed (log_of steps stopped) ≡ map Did (feeding steps) }
{}
