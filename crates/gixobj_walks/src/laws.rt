//! What follows from the definition of the order of merge bases.
ghost use Rattle.std.specs.Prelude.{◌≡◌, List, Option};
ghost use Rattle.gixobj_hash.specs.declared.hash.object_id.ObjectId.{ObjectId as Id};
ghost use Rattle.gixobj_walks_graph.specs.Bases.{AreMergeBases};
ghost use Rattle.gixobj_walks_graph.specs.Graph.{NodeView};
ghost use Rattle.gixobj_walks.specs.Named.{graph_of};
ghost use Rattle.gixobj_walks.specs.Newest.{AreNewestFirst};

/// The graph and the two commits determine the list of their merge bases.
pub fn bases_are_unique()
    ensures { (commits : Id → Option (NodeView Id)) (one other : Id) (ids others : List Id)
        → AreMergeBases (graph_of commits) one other ids → AreNewestFirst (graph_of commits) ids
        → AreMergeBases (graph_of commits) one other others
        → AreNewestFirst (graph_of commits) others
        → ids ≡ others }
{}
