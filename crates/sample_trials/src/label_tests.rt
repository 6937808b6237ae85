use labels::delay::Delay;
use labels::label::Label;
use labels::route::Route;

#[test]
fn delays_are_held_at_the_longest(rt: HostRuntime) {
    let rows = [
        [0, 0, 0],
        [5, 7, 12],
        [4_294_967_294, 1, 4_294_967_295],
        [4_294_967_295, 1, 4_294_967_295],
    ];
    for [first, second, both] in rows {
        let sum = Delay { nanos: first }.compose(Delay { nanos: second });
        assert_eq!(rt; sum.nanos, both);
    }
}

// Where `second` sends what `first` reaches, by the rows alone.
fn sent_on(first: [u8; 4], second: [u8; 4]) -> [u8; 4] {
    first.map(|lane| match lane {
        1..=4 => second[lane as usize - 1],
        _ => 0,
    })
}

#[test]
fn each_two_routes_send_lanes_in_turn(rt: HostRuntime) {
    for m in 0..24u8 {
        for n in 0..24u8 {
            let first = Route { code: m };
            let second = Route { code: n };
            let both = first.compose(second);
            assert_eq!(rt; both.lanes(), sent_on(first.lanes(), second.lanes()));
        }
    }
}

// All rows of four numbers 0 to 5, in the order of a dictionary: the routes among them are numbered from 0.
#[test]
fn just_24_rows_are_routes(rt: HostRuntime) {
    // Counted by hand: the count is what the codes are held against.
    let mut routes = 0u8;
    for n in 0..1296u16 {
        let lanes = [
            (n / 216) as u8,
            (n / 36 % 6) as u8,
            (n / 6 % 6) as u8,
            (n % 6) as u8,
        ];
        if let Some(route) = Route::from_lanes(lanes) {
            assert_eq!(rt; route.lanes(), lanes);
            assert_eq!(rt; route.code, routes);
            routes = routes.saturating_add(1);
        }
    }
    assert_eq!(rt; routes, 24);
}

// 255 means what 15 means.
#[test]
fn there_are_four_lanes(rt: HostRuntime) {
    let route = Route { code: 255 };
    let lanes = [None, Some(3), Some(2), Some(4), Some(1), None];
    for (lane, sent) in (0..6u8).zip(lanes) {
        assert_eq!(rt; route.lane(lane), sent);
    }
    assert!(rt; route == Route { code: 15 } && route != Route { code: 254 });
}
