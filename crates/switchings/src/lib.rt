// Switchings of a structure, as mathematics: each function here does nothing and carries one theorem in its contract.
// The words are in specs/Switchings.antt and specs/Rows.antt; specs/Edges.antt lists the graph of a switching, for
// counting and for code. Proofs of other crates cite the lemmas of proofs/.
#![tactic(auto)]

ghost use Rattle.switchings.specs.Samples.{OneWireIsCorrect, TensorOnOneWireIsCyclic, TwoWiresAreApart, LeftIsTheOnlyBadSide};
ghost use Rattle.switchings.specs.Claims.{PointsAreListed, EdgesAreListed, SwitchingsAreGraphs, SwitchingsHaveTheSameCount, CorrectByCount};

/// The points of every switching's graph are listed: the links that stand.
pub fn points_are_listed()
    ensures { PointsAreListed }
{}

/// The edges of a switching's graph are listed: the kept occurrences.
pub fn edges_are_listed()
    ensures { EdgesAreListed }
{}

/// The two lists are a graph without loops.
pub fn switchings_are_graphs()
    ensures { SwitchingsAreGraphs }
{}

/// However the pars pick, a switching has as many edges, and links, tensors and cuts are as many as edges and axioms.
pub fn switchings_have_the_same_count()
    ensures { SwitchingsHaveTheSameCount }
{}

/// Correct is connected under every switching, with one axiom more than tensors and cuts.
pub fn correct_by_count()
    ensures { CorrectByCount }
{}

/// One wire is a correct structure.
pub fn one_wire_is_correct()
    ensures { OneWireIsCorrect }
{}

/// A wire with a tensor on its two ends is no correct structure: both links are on a cycle, whatever the switching.
pub fn tensor_on_one_wire_is_cyclic()
    ensures { TensorOnOneWireIsCyclic }
{}

/// Two wires are no correct structure: no walk joins them, whatever the switching.
pub fn two_wires_are_apart()
    ensures { TwoWiresAreApart }
{}

/// A structure of two wires, a par and a tensor is bad under left and good under right.
pub fn left_is_the_only_bad_side()
    ensures { LeftIsTheOnlyBadSide }
{}
