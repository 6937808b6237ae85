use judge::judge::judge;
use table::table::Table;

// The number of the verdict, or of the refusal: these tests fix the kind of an answer, and not which links it names.
fn answer(table: &Table, row: &mut [u8]) -> u8 {
    match judge(table, row) {
        Ok(verdict) => verdict.number(),
        Err(why) => why.number(),
    }
}

const ACCEPTED: u8 = 1;

const CYCLIC: u8 = 2;

const APART: u8 = 3;

fn one_wire() -> Table {
    let mut table = Table::empty();
    let _ = table.place_axiom(1, 1, 2, 1);
    table
}

pub(crate) fn two_wires() -> Table {
    let mut table = one_wire();
    let _ = table.place_axiom(2, 3, 4, 1);
    table
}

// A par over one end of each of two wires, and a tensor of the par with the other end of the first.
fn crossing(left: u16, right: u16) -> Table {
    let mut table = two_wires();
    let _ = table.place_par(3, left, right, 5);
    let _ = table.place_tensor(4, 5, 2, 6);
    table
}

#[test]
fn accepted(rt: HostRuntime) {
    let mut row = [9u8; 256];
    let wire = answer(&one_wire(), &mut row);
    let mut table = one_wire();
    let _ = table.place_par(2, 1, 2, 3);
    let par = answer(&table, &mut row);
    assert!(rt; wire == ACCEPTED && par == ACCEPTED && row[0] == 9 && row[1] == 9);
}

// The reducer's trials draw this too: in a crate for both it would be a public call that owes a contract.
#[test]
fn tensor_against_par(rt: HostRuntime) {
    let mut table = Table::empty();
    let _ = table.place_axiom(1, 1, 2, 1);
    let _ = table.place_axiom(2, 3, 4, 2);
    let _ = table.place_tensor(3, 1, 3, 5);
    let _ = table.place_axiom(4, 6, 7, 1);
    let _ = table.place_axiom(5, 8, 9, 2);
    let _ = table.place_tensor(7, 6, 8, 11);
    let _ = table.place_par(6, 7, 9, 10);
    let _ = table.place_cut(8, 5, 10);
    let mut row = [9u8; 256];
    assert!(rt; table.count() == 8 && answer(&table, &mut row) == ACCEPTED && row[5] == 9);
}

#[test]
fn tensor_on_one_wire(rt: HostRuntime) {
    let mut table = one_wire();
    let _ = table.place_tensor(2, 1, 2, 3);
    let mut row = [9u8; 256];
    assert!(rt; answer(&table, &mut row) == CYCLIC && row[0..3] == [0, 0, 0]);
}

#[test]
fn cut_on_one_wire(rt: HostRuntime) {
    let mut table = one_wire();
    let _ = table.place_cut(2, 1, 2);
    let mut row = [9u8; 256];
    assert!(rt; answer(&table, &mut row) == CYCLIC && row[0..3] == [0, 0, 0]);
}

#[test]
fn wires_apart(rt: HostRuntime) {
    let mut row = [9u8; 258];
    let apart = answer(&two_wires(), &mut row) == APART;
    assert!(rt; apart && row[0] == 0 && row[255] == 0 && row[256] == 9 && row[257] == 9);
}

#[test]
fn only_one_side_is_bad(rt: HostRuntime) {
    let mut left = [9u8; 256];
    let mut right = [9u8; 256];
    let bad_left = answer(&crossing(1, 3), &mut left) != ACCEPTED;
    let bad_right = answer(&crossing(3, 1), &mut right) != ACCEPTED;
    assert!(rt; bad_left && bad_right && left[0..4] == [0, 0, 1, 0] && right[0..4] == [0, 0, 2, 0]);
}

#[test]
fn refused(rt: HostRuntime) {
    let mut short = [9u8; 255];
    let mut row = [9u8; 256];
    let empty = Table::empty();
    let answers = [
        answer(&empty, &mut short),
        answer(&empty, &mut row),
        answer(&one_wire(), &mut short),
    ];
    assert!(rt; answers == [5, 20, 5] && short[254] == 9 && row[0] == 9);
}
