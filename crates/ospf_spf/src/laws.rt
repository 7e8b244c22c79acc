//! What holds of the definitions alone.

ghost use Rattle.std.specs.Prelude.{◌≡◌, ℕ, ◌^◌, ◌<◌, List};
ghost use Rattle.std.specs.List.{All};
ghost use Rattle.ospf_spf.specs.declared.route.Route.{Route};
ghost use Rattle.ospf_spf.specs.declared.graph.Vertex.{Vertex};
ghost use Rattle.ospf_spf.specs.Routes.{AreRoutes};

/// There is one table: two lists of routes of one root, whose masks have 16 bits, are the same.
pub fn one_table()
    ensures { (g : List Vertex) → (root : ℕ) → (rs ss : List Route) → AreRoutes g root rs → AreRoutes g root ss →
        All (λ r. r.via < 2 ^ 16) rs → All (λ r. r.via < 2 ^ 16) ss → rs ≡ ss }
{}
