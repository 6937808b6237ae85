// Cut steps, their cost and their labels, as mathematics: each function here does nothing and carries one theorem in
// its contract, for every kind of label. Read specs/Steps, specs/Costs and specs/Chains, then specs/Claims.
#![tactic(auto)]

ghost use Rattle.cuts.specs.Claims.{CutForms, CorrectCutForms, StepKeepsFacts, StepKeepsConclusions, StepKeepsCorrect, OneStep, CutHasStep, OneCost, StepLowersCost, StepsLowerCost, NoCostNoCut, StepsKeep, RunDownCounts, RunDownStands, StepKeepsLabels, LabelsAlongChains, OneChain, FreeWiresStartChains};

/// Every cut is one of a tensor and a par, of two wires, or of a wire against itself.
pub fn cut_forms()
    ensures { CutForms }
{}

/// In a correct structure no wire is cut against itself.
pub fn correct_cut_forms()
    ensures { CorrectCutForms }
{}

/// A cut step keeps the structure facts.
pub fn step_keeps_facts<L>()
    ensures { StepKeepsFacts L }
{}

/// It keeps the conclusions and their formulas.
pub fn step_keeps_conclusions<L>()
    ensures { StepKeepsConclusions L }
{}

/// It keeps a correct structure correct.
pub fn step_keeps_correct<L>()
    ensures { StepKeepsCorrect L }
{}

/// A cut has at most one step.
pub fn cut_has_at_most_one_step<L>()
    ensures { OneStep L }
{}

/// In a correct structure every cut has one.
pub fn cut_of_correct_has_step<L>()
    ensures { CutHasStep L }
{}

/// Every structure with the facts has one cost.
pub fn structure_has_one_cost()
    ensures { OneCost }
{}

/// A step lowers it by exactly one.
pub fn step_lowers_cost_by_one<L>()
    ensures { StepLowersCost L }
{}

/// So many steps lower it by as many.
pub fn steps_lower_cost_by_as_many<L>()
    ensures { StepsLowerCost L }
{}

/// It is 0 exactly when no cut stands.
pub fn no_cost_exactly_when_no_cut()
    ensures { NoCostNoCut }
{}

/// Any number of steps, of any cuts, keeps facts, correctness, conclusions and formulas.
pub fn steps_keep<L>()
    ensures { StepsKeep L }
{}

/// A run-down makes the smaller of budget and cost many steps.
pub fn run_down_counts<L>()
    ensures { RunDownCounts L }
{}

/// A correct structure has a run-down for each budget.
pub fn run_down_exists<L>()
    ensures { RunDownStands L }
{}

/// A chain after a step comes from one before it, with the same label.
pub fn step_keeps_labels<L>()
    ensures { StepKeepsLabels L }
{}

/// Once no cut is left, each wire has the label of the chain that it starts in the first structure.
pub fn labels_follow_chains<L>()
    ensures { LabelsAlongChains L }
{}

/// A wire starts at most one chain.
pub fn wire_starts_at_most_one_chain()
    ensures { OneChain }
{}

/// In a correct structure each wire whose negative end is above no cut starts one.
pub fn free_wires_start_chains()
    ensures { FreeWiresStartChains }
{}
