use crate::tensor_against_par::wire;
use labels::delay::Delay;
use links::link::Link;
use reducer::reduce::reduce;
use reducer::reduction::Reduction;
use refusals::refusal::Refusal;
use table::table::Table;

// Wires 1 and 2 with delays 5 and 7 and a cut of these two ends; then the wire that one step leaves, and its delay.
fn step(left: u16, right: u16, wire: u16) -> (Link, u32) {
    let mut table = Table::empty();
    let _ = table.place_axiom(1, 1, 2, 1);
    let _ = table.place_axiom(2, 3, 4, 1);
    let _ = table.place_cut(3, left, right);
    let mut board = [Delay { nanos: 0 }; 256];
    board[0] = Delay { nanos: 5 };
    board[1] = Delay { nanos: 7 };
    let _ = reduce(&mut table, &mut board, 3);
    let delay = match wire {
        1 => board[0],
        _ => board[1],
    };
    (table.link(wire), delay.nanos)
}

// 0 where the call was not refused, else the refusal's number, so that the answers of many calls are one row.
// The table's trials have one of their own, over its answers.
fn said(answer: Result<Reduction, Refusal>) -> u8 {
    match answer {
        Ok(_) => 0,
        Err(why) => why.number(),
    }
}

#[test]
fn one_wire_is_left_whatever_the_sides(rt: HostRuntime) {
    let (one, delay) = step(1, 4, 1);
    assert!(rt; one == wire(3, 2, 1) && delay == 12);
    let (turned, delay) = step(4, 1, 1);
    assert!(rt; turned == wire(3, 2, 1) && delay == 12);
    let (other, delay) = step(2, 3, 2);
    assert!(rt; other == wire(1, 4, 1) && delay == 12);
}

#[test]
fn refusals_and_a_wire_on_itself(rt: HostRuntime) {
    let mut table = Table::empty();
    let _ = table.place_axiom(1, 1, 2, 1);
    let _ = table.place_cut(2, 1, 2);
    let mut board = [Delay { nanos: 0 }; 256];
    let mut short = [Delay { nanos: 0 }; 255];
    let answers = [
        said(reduce(&mut table, &mut short, 257)), // 1 and 5
        said(reduce(&mut table, &mut short, 9)), // 5 and 17
        said(reduce(&mut table, &mut board, 9)),
        said(reduce(&mut table, &mut board, 1)),
        said(reduce(&mut table, &mut board, 2)), // no step, but no refusal
    ];
    assert!(rt; answers == [1, 5, 17, 19, 0] && table.count() == 2);
}
