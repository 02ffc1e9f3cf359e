//! Laws of the definitions, with `shortest` and without: a pair has at most one route, so two values
//! that are both the routes of a graph for the same hosts agree on each pair that they need; a graph
//! and the nodes of hosts have one table; where hosts have their routes nothing is refused for the
//! lack of one; and at most one pair is refused.

ghost use Rattle.std.specs.Prelude.{◌≡◌, ℕ, Bool, List};
ghost use Rattle.gml_graph.specs.declared.graph.Graph.{Graph};
ghost use Rattle.net_routes.specs.declared.cost.Cost.{Cost};
ghost use Rattle.net_routes.specs.declared.error.RouteError.TheVariants as errors;
ghost use Rattle.net_routes.specs.RouteMap.{RouteMap};
ghost use Rattle.net_routes.specs.Walk.{IsRoute};
ghost use Rattle.net_routes.specs.Needed.{IsNeeded};
ghost use Rattle.net_routes.specs.Routes.{route_in, AreRoutes, LacksRoute, IsRefusal};
ghost use Rattle.net_routes.specs.Table.{IsTable};

/// A pair of nodes has one route at most.
pub fn one_route()
    ensures { (g : Graph) (shortest : Bool) (a b : ℕ) (c d : Cost) → IsRoute g shortest a b c → IsRoute g shortest a b d → c ≡ d }
{}

/// All routes of a graph for the same hosts keep the same for each needed pair.
pub fn same_routes()
    ensures { (g : Graph) (shortest : Bool) (nodes : List ℕ) (r s : RouteMap) → AreRoutes g shortest nodes r → AreRoutes g shortest nodes s → (a b : ℕ) → IsNeeded nodes a b → route_in r a b ≡ route_in s a b }
{}

/// A graph and the nodes of hosts have one table of routes.
pub fn one_table()
    ensures { (g : Graph) (shortest : Bool) (nodes : List ℕ) (r s : RouteMap) → IsTable g shortest nodes r → IsTable g shortest nodes s → r ≡ s }
{}

/// Where hosts have their routes no pair lacks one, so none is refused.
pub fn no_refusal()
    ensures lack { (g : Graph) (shortest : Bool) (nodes : List ℕ) (r : RouteMap) (a b : ℕ) → AreRoutes g shortest nodes r → LacksRoute g shortest nodes a b → ⊥ }
    ensures refusal { (g : Graph) (shortest : Bool) (nodes : List ℕ) (r : RouteMap) (a b : ℕ) → AreRoutes g shortest nodes r → IsRefusal g shortest nodes (errors.NoRoute a b) → ⊥ }
{}

/// One pair at most is refused.
pub fn one_refusal()
    ensures { (g : Graph) (shortest : Bool) (nodes : List ℕ) (a b p q : ℕ) → IsRefusal g shortest nodes (errors.NoRoute a b) → IsRefusal g shortest nodes (errors.NoRoute p q) → (a ≡ p) × (b ≡ q) }
{}
