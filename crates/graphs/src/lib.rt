// Finite graphs, as mathematics: each function here does nothing and carries one theorem in its contract.
// Walks, cycles and connected graphs are defined over any predicate on edges (specs/Walks.antt); the theorems are for
// graphs whose vertices and edges are listed (specs/Theorems.antt). Proofs of other crates cite the lemmas of proofs/.
#![tactic(auto)]

ghost use Rattle.graphs.specs.Samples.{SmallGraphs};
ghost use Rattle.graphs.specs.Theorems.{OneClassMeansJoined, EachClassHasOneHead, ClassesAndEdgesCoverTheVertices, TreeHasNoCycle, TreeHasOneEdgeLess, ManyEdgesMakeACycle, FewEdgesLeaveAGap, CycleGoesRoundAnEdge, CycleRepeatsNothing, LoopsMakeNoCycle};

// Two vertices are joined by a walk exactly when the labelling by classes gives them one label.
pub fn one_class_means_joined()
    ensures { OneClassMeansJoined }
{}

// Each vertex has one vertex that stands for its class.
pub fn each_class_has_one_head()
    ensures { EachClassHasOneHead }
{}

// The counting theorem, from which the next four follow.
pub fn classes_and_edges_cover_the_vertices()
    ensures { ClassesAndEdgesCoverTheVertices }
{}

// Connected, with one edge less than vertices: free of cycles.
pub fn tree_has_no_cycle()
    ensures { TreeHasNoCycle }
{}

// Connected and free of cycles: one edge less than vertices.
pub fn tree_has_one_edge_less()
    ensures { TreeHasOneEdgeLess }
{}

// As many edges as vertices, or more: a cycle.
pub fn many_edges_make_a_cycle()
    ensures { ManyEdgesMakeACycle }
{}

// More vertices than edges and one: two vertices that no walk joins.
pub fn few_edges_leave_a_gap()
    ensures { FewEdgesLeaveAGap }
{}

// A cycle runs through a vertex exactly when an edge leads from it to another one that the other edges join to it.
pub fn cycle_goes_round_an_edge()
    ensures { CycleGoesRoundAnEdge }
{}

// A cycle has no more steps than there are vertices, and than there are edges.
pub fn cycle_repeats_nothing()
    ensures { CycleRepeatsNothing }
{}

// An edge from a vertex to itself is no cycle.
pub fn loops_make_no_cycle()
    ensures { LoopsMakeNoCycle }
{}

// The definitions hold, and fail to hold, of small graphs that are written out.
pub fn small_graphs()
    ensures { SmallGraphs }
{}
