use table::table::Table;

// Wires 1 to 85, the positive ends under 84 tensors and the negative ends under 84 pars, but for the last part of the
// pars, which is given: with two formulas of which each is the other's dual or nearly so the table is full.
fn two_formulas(last: u16) -> Table {
    let mut table = Table::empty();
    for k in 1..86u16 {
        let _ = table.place_axiom(k, 2 * k - 1, 2 * k, 1);
    }
    let _ = table.place_axiom(86, 500, 501, 2);
    let _ = table.place_tensor(87, 1, 3, 202);
    let _ = table.place_par(171, 2, 4, 302);
    for k in 3..85u16 {
        let _ = table.place_tensor(85 + k, 199 + k, 2 * k - 1, 200 + k);
        let _ = table.place_par(169 + k, 299 + k, 2 * k, 300 + k);
    }
    let _ = table.place_tensor(170, 284, 169, 285);
    let _ = table.place_par(254, 384, last, 385);
    table
}

#[test]
fn a_deep_formula_against_its_dual(rt: HostRuntime) {
    let table = two_formulas(170);
    assert!(rt; table.count() == 254 && table.dual(285, 385) && table.dual(385, 285));
}

#[test]
fn a_deep_formula_that_differs_in_its_last_atom(rt: HostRuntime) {
    let table = two_formulas(501);
    assert!(rt; table.count() == 254 && !table.dual(285, 385) && !table.dual(385, 285));
}
