// A line of program output, built piece by piece in a fixed place. Start at `Line::new`.
// A number is written in decimal digits, as the standard library would show it.
#![tactic(auto)]

ghost use Rattle.std.specs.Prelude.{◌≡◌, ◌≤◌, length};

mod build;
mod full;

pub use full::Full;

// A line of at most `N` bytes: the first `len` of these are the line so far. The length stands beside the bytes since
// the device has no heap, and a line stays a plain value that is copied. Lines are not compared: bytes past the length
// would count too.
#[derive(Clone, Copy, Debug)]
pub struct Line<const N: usize> {
    bytes: [u8; N],
    len: usize,
    ghost long: { length bytes ≡ N },
    ghost inside: { len ≤ N },
}
