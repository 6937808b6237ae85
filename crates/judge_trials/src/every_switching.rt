use crate::drawings::two_wires;
use judge::judge::judge;
use judge::verdict::Verdict;
use survey::survey::survey;
use table::table::Table;

fn three_wires() -> Table {
    let mut table = two_wires();
    let _ = table.place_axiom(6, 8, 9, 1);
    table
}

fn is_tree(table: &Table, row: &[u8]) -> bool {
    survey(table, row).is_ok()
}

// Whether every switching is a tree. Links 3, 4 and 5 are the only pars.
fn all_trees(table: &Table) -> bool {
    (0..8u8).all(|sides| {
        let row = [0, 0, 1 + sides % 2, 1 + sides / 2 % 2, 1 + sides / 4 % 2];
        is_tree(table, &row)
    })
}

// Whether the judge accepts just where every switching is a tree, and else shows one that is none.
fn holds(table: &Table) -> bool {
    let mut row = [0u8; 256];
    match judge(table, &mut row) {
        Ok(Verdict::Accepted) => all_trees(table),
        Ok(_) => !is_tree(table, &row),
        Err(_) => false,
    }
}

// Places link n with that conclusion, if the kind and the premises that the code means are possible. The calls take
// different numbers, and so a match and no table of calls.
fn place(table: &mut Table, n: u16, conclusion: u16, code: u16) -> bool {
    let left = 1 + code / 3 % 9;
    let right = 1 + code / 27 % 9;
    let placed = match code % 3 {
        0 => table.place_tensor(n, left, right, conclusion),
        1 => table.place_par(n, left, right, conclusion),
        _ => table.place_cut(n, left, right),
    };
    placed.is_ok()
}

// Whether the judge holds on every structure that comes of placing link n, then link n + 1, and so on up to link 5.
fn all_hold(table: &Table, n: u16) -> bool {
    if n > 5 {
        return true;
    }
    // A loop and not `all`: nothing tells a closure that n is at most 5, which its sums and its measure need.
    for code in 0..243u16 {
        let mut next = *table;
        if place(&mut next, n, n + 2, code) && !(holds(&next) && all_hold(&next, n + 1)) {
            return false;
        }
    }
    true
}

#[test]
fn every_structure_on_two_wires(rt: HostRuntime) {
    assert!(rt; all_hold(&two_wires(), 3));
}

#[test]
fn every_structure_on_three_wires_with_up_to_three_more_links(rt: HostRuntime) {
    assert!(rt; all_hold(&three_wires(), 3));
}
