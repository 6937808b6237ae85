ghost use Rattle.std.specs.Prelude.{◌≡◌, [], ◌∷◌, Some};

use labels::delay::Delay;
use labels::label::Label;
use labels::route::Route;

// The longest delay with 1 more is the longest delay.
pub fn held_delay() -> u32
    ensures { result ≡ 4294967295 }
{
    let longest = Delay {
        nanos: 4_294_967_295,
    };
    longest.compose(Delay { nanos: 1 }).nanos
}

// The route 2 1 3 4, and after it 1 3 2 4, is 3 1 2 4.
pub fn two_swaps() -> Option<[u8; 4]>
    ensures { result ≡ Some (3 ∷ 1 ∷ 2 ∷ 4 ∷ []) }
{
    let first = Route::from_lanes([2, 1, 3, 4])?;
    let second = Route::from_lanes([1, 3, 2, 4])?;
    Some(first.compose(second).lanes())
}
