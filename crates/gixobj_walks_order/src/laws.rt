//! What follows from the definition of the order of a walk, for each numbered graph.
ghost use Rattle.std.specs.Prelude.{◌≡◌, ℕ, Bool, List};
ghost use Rattle.gixobj_walks_graph.specs.Graph.{AreOnce};
ghost use Rattle.gixobj_walks_graph.specs.Listing.{IsListing};
ghost use Rattle.gixobj_walks_graph.specs.Numbered.{IsMarked, Nodes, graph_at};
ghost use Rattle.gixobj_walks_graph.specs.Walks.{FollowsLines, IsNewestFirst};
ghost use Rattle.gixobj_walks_graph.specs.declared.order.Order.{Order};
ghost use Rattle.gixobj_walks_graph.specs.declared.order.Order.TheVariants.{Date, Topological};

/// The graph, the order, the selected commits and the tips determine the list of a walk.
pub fn listing_is_unique()
    ensures { (nodes : Nodes) (order : Order) (selected : List Bool) (tips ids others : List ℕ)
        → IsListing (graph_at nodes) order (IsMarked selected) tips ids
        → IsListing (graph_at nodes) order (IsMarked selected) tips others → ids ≡ others }
{}

/// The list of a walk has each commit once.
pub fn listing_is_once()
    ensures { (nodes : Nodes) (order : Order) (selected : List Bool) (tips ids : List ℕ)
        → IsListing (graph_at nodes) order (IsMarked selected) tips ids → AreOnce ids }
{}

/// Of the commits that are ready when one is listed by date, none is newer than it (git-rev-list, `--date-order`).
pub fn listing_by_date_is_newest_first()
    ensures { (nodes : Nodes) (selected : List Bool) (tips ids : List ℕ)
        → IsListing (graph_at nodes) Date (IsMarked selected) tips ids
        → IsNewestFirst (graph_at nodes) (IsMarked selected) ids }
{}

/// In topological order a commit is followed by a parent of it, if a parent of it is ready then (git-rev-list,
/// `--topo-order`).
pub fn topological_listing_follows_lines()
    ensures { (nodes : Nodes) (selected : List Bool) (tips ids : List ℕ)
        → IsListing (graph_at nodes) Topological (IsMarked selected) tips ids
        → FollowsLines (graph_at nodes) (IsMarked selected) ids }
{}
