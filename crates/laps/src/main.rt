// Rounds of work for a clock that stands outside: `./run laps < FILE`, where the file's first byte picks the work.
// `t` places 256 links and withdraws them again, a thousand times; `l` runs a ladder of 256 links down, a thousand times;
// with anything else each is done once. What is printed is a sum, so that no round can be left out.
#![tactic(auto)]

use labels::delay::Delay;
use line::Line;
use reducer::run_down::{Ran, run_down};
use std::io::{Read, Write};
use table::table::Table;

const ROUNDS: u32 = 1000;

fn main(rt: HostRuntime) -> anyhow::Result<()> {
    run(&rt)
}

fn run(rt: &HostRuntime) -> anyhow::Result<()> {
    let mut word = Vec::new(rt.alloc());
    rt.stdin().take(1).read_to_end(&mut word)?;
    // One choice at the start, and so a match and no closures.
    let sum = match word.as_slice() {
        [b't'] => table_laps(ROUNDS),
        [b'l'] => ladder_laps(ROUNDS),
        _ => table_laps(1).wrapping_add(ladder_laps(1)),
    };
    let mut line = Line::<64>::new();
    let _ = line.word(b"sum");
    let _ = line.field(u64::from(sum));
    let _ = line.word(b"\n");
    rt.stdout().write_all(line.text())?;
    Ok(())
}

fn table_laps(rounds: u32) -> u32 {
    let mut table = Table::empty();
    let mut sum = 0u32;
    for _ in 0..rounds {
        place_all(&mut table);
        sum = sum.wrapping_add(u32::from(table.count()));
        withdraw_all(&mut table);
    }
    sum
}

fn place_all(table: &mut Table) {
    for n in 1..257u16 {
        let _ = table.place_axiom(n, 2 * n - 1, 2 * n, 1);
    }
}

fn withdraw_all(table: &mut Table) {
    for n in 1..257u16 {
        let _ = table.withdraw(n);
    }
}

fn ladder_laps(rounds: u32) -> u32 {
    let drawn = ladder();
    let mut sum = 0u32;
    for _ in 0..rounds {
        let mut table = drawn;
        let mut board = [Delay { nanos: 1 }; 256];
        if let Ok(Ran { made, .. }) = run_down(&mut table, &mut board, 65535) {
            sum = sum.wrapping_add(u32::from(made));
        }
    }
    sum
}

// 128 wires in a row, each cut against the next, and a par over the two ends that are left: 256 links. The reducer's
// trials draw one of their own: in a crate for both it would be a public call that owes a contract.
fn ladder() -> Table {
    let mut table = Table::empty();
    for k in 1..129u16 {
        let _ = table.place_axiom(k, 2 * k - 1, 2 * k, 1);
    }
    for k in 1..128u16 {
        let _ = table.place_cut(128 + k, 2 * k - 1, 2 * k + 2);
    }
    let _ = table.place_par(256, 2, 255, 257);
    table
}
