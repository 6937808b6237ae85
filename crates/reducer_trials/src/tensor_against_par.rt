use labels::delay::Delay;
use labels::route::Route;
use links::link::Link;
use reducer::reduce::reduce;
use reducer::run_down::{Ran, run_down};
use refusals::refusal::Refusal;
use std::test::Fail;
use table::table::Table;

// A tensor cut against a par, between four wires: three steps. The judge's trials draw it too: in a crate for both it
// would be a public call that owes a contract.
fn drawing() -> Table {
    let mut table = Table::empty();
    let _ = table.place_axiom(1, 1, 2, 1);
    let _ = table.place_axiom(2, 3, 4, 2);
    let _ = table.place_tensor(3, 1, 3, 5);
    let _ = table.place_axiom(4, 6, 7, 1);
    let _ = table.place_axiom(5, 8, 9, 2);
    let _ = table.place_tensor(7, 6, 8, 11);
    let _ = table.place_par(6, 7, 9, 10);
    let _ = table.place_cut(8, 5, 10);
    table
}

fn delays() -> [Delay; 256] {
    let mut board = [Delay { nanos: 0 }; 256];
    board[0] = Delay { nanos: 5 };
    board[1] = Delay { nanos: 7 };
    board[3] = Delay { nanos: 11 };
    board[4] = Delay { nanos: 13 };
    board
}

pub(crate) fn wire(positive: u16, negative: u16, atom: u16) -> Link {
    Link::Axiom {
        positive,
        negative,
        atom,
    }
}

// Whether just the two wires and the tensor are left, with these conclusions.
fn is_reduced(table: &Table) -> bool {
    let mut row = [0u16; 512];
    let _ = table.conclusions(&mut row);
    table.link(1) == wire(6, 2, 1)
        && table.link(2) == wire(8, 4, 2)
        && table.count() == 3
        && row[0..4] == [2, 4, 11, 0]
}

fn ran(budget: u16) -> Result<Ran, Refusal> {
    let mut table = drawing();
    let mut board = delays();
    run_down(&mut table, &mut board, budget)
}

#[test]
fn delays_after_the_run_down(rt: HostRuntime) {
    let mut table = drawing();
    let mut board = delays();
    let _ = run_down(&mut table, &mut board, 65535);
    assert!(rt; is_reduced(&table) && board[0].nanos == 16 && board[1].nanos == 20);
}

#[test]
fn budgets(rt: HostRuntime) {
    assert_eq!(rt; ran(0), Ok(Ran { made: 0, left: 1 }));
    assert_eq!(rt; ran(1), Ok(Ran { made: 1, left: 2 }));
    assert_eq!(rt; ran(2), Ok(Ran { made: 2, left: 1 }));
    assert_eq!(rt; ran(3), Ok(Ran { made: 3, left: 0 }));
    assert_eq!(rt; ran(65535), Ok(Ran { made: 3, left: 0 }));
}

#[test]
fn cuts_in_another_order(rt: HostRuntime) {
    let mut table = drawing();
    let mut board = delays();
    let _ = reduce(&mut table, &mut board, 8);
    let _ = reduce(&mut table, &mut board, 6);
    let _ = reduce(&mut table, &mut board, 3);
    assert!(rt; is_reduced(&table) && board[0].nanos == 16 && board[1].nanos == 20);
}

#[test]
fn routes_that_do_not_commute(rt: HostRuntime) -> Result<(), Fail> {
    let (Some(same), Some(first), Some(second)) = (
        Route::from_lanes([1, 2, 3, 4]),
        Route::from_lanes([2, 1, 3, 4]),
        Route::from_lanes([1, 3, 2, 4]),
    ) else {
        assert!(rt; false);
        return Ok(());
    };
    let mut board = [same; 256];
    board[0] = first;
    board[3] = second;
    board[1] = second;
    board[4] = first;
    let mut table = drawing();
    let _ = run_down(&mut table, &mut board, 65535);
    assert!(rt;
        is_reduced(&table) && board[0].lanes() == [3, 1, 2, 4] && board[1].lanes() == [2, 3, 1, 4]
    );
    Ok(())
}
