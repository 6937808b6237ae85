// The plain bench: the abstract specification of the product, as mathematics. Read specs/State, specs/Calls, specs/Fits
// and specs/Step for what one call does, then specs/Turns and specs/Law for what every list of calls obeys.
// Each function here does nothing and carries one theorem in its contract, for every kind of label.
#![tactic(auto)]

ghost use Rattle.plain.specs.Law.{TheLaw};
ghost use Rattle.plain.specs.Claims.{EveryState, NetIsAccepted, OneOutcome, OwnTickets, AnOutcome, ARun, OneEndState};

/// Every run from a new bench is lawful, for every kind of label with an associative composition.
pub fn every_run_is_lawful<L>()
    ensures { TheLaw L }
{}

/// Every state that a run reaches keeps the structure facts; at stage net it is correct, and shut it is empty.
pub fn every_state_is_sound<L>()
    ensures { EveryState L }
{}

/// At stage net there was an acceptance, and no reopening or opening since.
pub fn net_was_accepted<L>()
    ensures { NetIsAccepted L }
{}

/// Two outcomes of one call from one state agree, but for the named freedoms.
pub fn outcomes_agree<L>()
    ensures { OneOutcome L }
{}

/// Each ticket that an unrefused call gives, hands back or was lent is the bench's own just after it.
pub fn tickets_stay_own<L>()
    ensures { OwnTickets L }
{}

/// From every state that a run reaches, every call has an outcome.
pub fn every_call_has_an_outcome<L>()
    ensures { AnOutcome L }
{}

/// Every list of calls has a run.
pub fn every_list_has_a_run<L>()
    ensures { ARun L }
{}

/// All runs of one list of calls end in one state.
pub fn runs_of_one_list_end_alike<L>()
    ensures { OneEndState L }
{}
