use labels::delay::Delay;
use links::link::Link;
use reducer::run_down::run_down;
use table::table::Table;

// 101 wires in a row, each cut against the next. In a crate for this and `laps` it would be a public call that owes a
// contract.
fn ladder() -> Table {
    let mut table = Table::empty();
    for k in 1..102u16 {
        let _ = table.place_axiom(k, 2 * k - 1, 2 * k, 1);
    }
    for k in 1..101u16 {
        let _ = table.place_cut(101 + k, 2 * k - 1, 2 * k + 2);
    }
    table
}

#[test]
fn a_hundred_cuts_in_a_row(rt: HostRuntime) {
    let mut table = ladder();
    let placed = table.count();
    let mut board = [Delay { nanos: 3 }; 256];
    let _ = run_down(&mut table, &mut board, 65535);
    let end = Link::Axiom {
        positive: 201,
        negative: 2,
        atom: 1,
    };
    assert!(rt;
        placed == 201 && table.count() == 1 && table.link(1) == end && board[0].nanos == 303
    );
}
