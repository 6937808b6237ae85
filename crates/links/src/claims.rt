//! What is proved of formulas, as mathematics: each function does nothing and carries one theorem in its contract.
ghost use Rattle.links.specs.Claims.{FormulasExactlyWhenNotAbove, OneFormula, DualOfDual};

/// Every standing occurrence has a formula exactly when no link is above itself.
pub fn formulas_exactly_when_not_above()
    ensures { FormulasExactlyWhenNotAbove }
{}

/// An occurrence has one formula.
pub fn one_formula()
    ensures { OneFormula }
{}

/// A formula is its dual's dual.
pub fn dual_of_dual()
    ensures { DualOfDual }
{}
