// Sequent proofs and structures, as mathematics: each function here does nothing and carries one theorem in its contract.
// What a sequent proof is stands in specs/Sequents.antt. A structure is correct exactly when it has one; the way from
// correctness to a proof goes by unification, whose states and endings are in specs/Unification.antt and
// specs/Soundness.antt, so that code has only to follow them. Proofs of other crates cite the lemmas of proofs/.
#![tactic(auto)]

ghost use Rattle.sequents.specs.Samples.{SmallProofs};
ghost use Rattle.sequents.specs.Claims.{CorrectExactlyWhenProvable, ProofIsAsLongAsItsNet, ProvableOrBad, UnificationStarts, ParPasses, TensorPasses, CutPasses, OneTokenIsJoined, OneTokenLeftIsAProof, TwoTokensLeftAreApart, TangledIsCyclic, CutOffIsApart, CrowdedIsCyclic, StuckIsBad, TreeMeansUnified, CorrectMeansUnified};

/// Every switching is connected and free of cycles exactly when some sequent proof has the structure as its net.
pub fn correct_exactly_when_provable()
    ensures { CorrectExactlyWhenProvable }
{}

/// A sequent proof has as many moves as links stand.
pub fn proof_is_as_long_as_its_net()
    ensures { ProofIsAsLongAsItsNet }
{}

/// A structure with a link has a sequent proof or a bad switching.
pub fn provable_or_bad()
    ensures { ProvableOrBad }
{}

/// Where each axiom has passed with a token of its own, the state is sound.
pub fn unification_starts()
    ensures { UnificationStarts }
{}

/// A par with one token on both premises passes, and the state stays sound.
pub fn par_passes()
    ensures { ParPasses }
{}

/// A tensor with two different tokens passes, and the state stays sound.
pub fn tensor_passes()
    ensures { TensorPasses }
{}

/// A cut with two different tokens passes, and the state stays sound.
pub fn cut_passes()
    ensures { CutPasses }
{}

/// Passed links with one token are joined through passed links, whatever the sides.
pub fn one_token_is_joined()
    ensures { OneTokenIsJoined }
{}

/// All passed with one token left: the marks hold a sequent proof.
pub fn one_token_left_is_a_proof()
    ensures { OneTokenLeftIsAProof }
{}

/// All passed with two tokens left: two links are apart, whatever the sides.
pub fn two_tokens_left_are_apart()
    ensures { TwoTokensLeftAreApart }
{}

/// One token on both premises of an unpassed tensor or cut: a cycle, whatever the sides.
pub fn tangled_is_cyclic()
    ensures { TangledIsCyclic }
{}

/// A token on no unpassed tensor or cut: its links are apart from the others, under sides that avoid it.
pub fn cut_off_is_apart()
    ensures { CutOffIsApart }
{}

/// Stuck with every token on an unpassed tensor or cut: a cycle, whatever the sides.
pub fn crowded_is_cyclic()
    ensures { CrowdedIsCyclic }
{}

/// Stuck with an unpassed link: the sides that are chosen are bad.
pub fn stuck_is_bad()
    ensures { StuckIsBad }
{}

/// Stuck, and the sides that are chosen make a tree: all passed with one token left.
pub fn tree_means_unified()
    ensures { TreeMeansUnified }
{}

/// Of a correct structure unification ends with all passed and one token left.
pub fn correct_means_unified()
    ensures { CorrectMeansUnified }
{}

/// Small proofs that are written out are sequent proofs, and others are none.
pub fn small_proofs()
    ensures { SmallProofs }
{}
