use refusals::refusal::Refusal;
use table::table::Table;

// 0 where the call was done, else the refusal's number, so that the answers of many calls are one row. The
// reducer's trials have one of their own, over its answers.
fn said(answer: Result<(), Refusal>) -> u8 {
    match answer {
        Ok(()) => 0,
        Err(why) => why.number(),
    }
}

// Three wires, two of one atom, and a tensor on the positive ends of these.
fn drawing() -> Table {
    let mut table = Table::empty();
    let _ = table.place_axiom(1, 1, 2, 1);
    let _ = table.place_axiom(2, 3, 4, 1);
    let _ = table.place_axiom(3, 5, 6, 2);
    let _ = table.place_tensor(4, 1, 3, 7);
    table
}

// In each list of answers a call to which two reasons apply is followed, in a comment, by the two.

#[test]
fn ends_of_the_ranges(rt: HostRuntime) {
    let mut table = Table::empty();
    let answers = [
        said(table.place_axiom(0, 1, 2, 1)),
        said(table.place_axiom(257, 1, 2, 1)),
        said(table.place_axiom(256, 0, 2, 1)),
        said(table.place_axiom(256, 1, 513, 1)),
        said(table.place_axiom(256, 1, 512, 0)),
        said(table.place_axiom(256, 1, 512, 1001)),
        said(table.place_axiom(256, 1, 512, 1000)),
    ];
    assert!(rt; answers == [1, 1, 2, 2, 4, 4, 0]);
}

#[test]
fn refusals_of_an_axiom(rt: HostRuntime) {
    let mut table = drawing();
    let answers = [
        said(table.place_axiom(300, 600, 9, 1)), // 1 and 2
        said(table.place_axiom(9, 600, 600, 1)), // 2 and 3
        said(table.place_axiom(9, 20, 20, 0)), // 3 and 4
        said(table.place_axiom(1, 20, 21, 0)), // 4 and 12
        said(table.place_axiom(1, 20, 1, 1)), // 12 and 13
        said(table.place_axiom(9, 20, 1, 1)),
    ];
    assert!(rt; answers == [1, 2, 3, 4, 12, 13] && table.count() == 4);
}

#[test]
fn refusals_of_a_tensor(rt: HostRuntime) {
    let mut table = drawing();
    let answers = [
        said(table.place_tensor(300, 600, 1, 2)), // 1 and 2
        said(table.place_tensor(9, 600, 600, 2)), // 2 and 3
        said(table.place_tensor(4, 20, 21, 21)), // 3 and 12
        said(table.place_tensor(4, 2, 4, 1)), // 12 and 13
        said(table.place_tensor(9, 20, 21, 1)), // 13 and 14
        said(table.place_tensor(9, 1, 20, 30)), // 14 and 15
        said(table.place_tensor(9, 2, 3, 30)),
        said(table.place_tensor(9, 2, 4, 30)),
    ];
    assert!(rt; answers == [1, 2, 3, 12, 13, 14, 15, 0]);
}

#[test]
fn refusals_of_a_par(rt: HostRuntime) {
    let mut table = drawing();
    let answers = [
        said(table.place_par(0, 1, 513, 2)), // 1 and 2
        said(table.place_par(9, 2, 2, 0)), // 2 and 3
        said(table.place_par(4, 2, 20, 2)), // 3 and 12
        said(table.place_par(4, 2, 4, 1)), // 12 and 13
        said(table.place_par(9, 20, 2, 1)), // 13 and 14
        said(table.place_par(9, 20, 1, 30)), // 14 and 15
        said(table.place_par(9, 1, 2, 30)),
        said(table.place_par(9, 2, 4, 30)),
    ];
    assert!(rt; answers == [1, 2, 3, 12, 13, 14, 15, 0]);
}

#[test]
fn refusals_of_a_cut(rt: HostRuntime) {
    let mut table = drawing();
    let answers = [
        said(table.place_cut(257, 0, 2)), // 1 and 2
        said(table.place_cut(4, 513, 513)), // 2 and 3
        said(table.place_cut(4, 20, 20)), // 3 and 12
        said(table.place_cut(4, 20, 2)), // 12 and 14
        said(table.place_cut(9, 1, 20)), // 14 and 15
        said(table.place_cut(9, 1, 5)), // 15 and 16
        said(table.place_cut(9, 2, 3)), // dual, but used
        said(table.place_cut(9, 5, 2)), // two atoms
        said(table.place_cut(9, 2, 4)), // two negative ends
        said(table.place_cut(9, 7, 2)), // a tensor against an atom
        said(table.place_cut(9, 5, 6)), // a wire on itself
    ];
    assert!(rt; answers == [1, 2, 3, 12, 14, 15, 15, 16, 16, 16, 0]);
}

#[test]
fn withdrawing_and_placing_again(rt: HostRuntime) {
    let mut table = drawing();
    let answers = [
        said(table.withdraw(0)),
        said(table.withdraw(257)), // 1 and 17
        said(table.withdraw(9)),
        said(table.withdraw(1)),
        said(table.withdraw(4)),
        said(table.withdraw(4)),
        said(table.place_par(4, 3, 1, 7)), // its number and its conclusion are free
        said(table.withdraw(2)),
        said(table.withdraw(3)),
    ];
    assert!(rt; answers == [1, 1, 17, 18, 0, 17, 0, 18, 0] && table.count() == 3);
}

#[test]
fn conclusions_rise(rt: HostRuntime) {
    let table = drawing();
    let mut row = [9u16; 513];
    let mut short = [9u16; 511];
    let listed = table.conclusions(&mut row).is_ok();
    let refused = table.conclusions(&mut short).is_err();
    assert!(rt; listed && refused && row[0..6] == [2, 4, 5, 6, 7, 9] && short[0] == 9);
}
