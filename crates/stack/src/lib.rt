// A stack over lent places, for entries of any plain type. `calls` has what is done with it.
#![tactic(auto)]

ghost use Rattle.std.specs.Prelude.{◌≤◌, length};

// The calls stand apart from the struct, since their contracts cite its meaning in `specs/`, which names it.
pub mod calls;

// The entries are in the first `len` places, the top in the last of these. The length stands beside the places since
// they are lent: the device has no heap.
#[derive(Drop)]
pub struct Stack<'a, T> {
    places: &'a mut [T],
    len: usize,
    ghost inside: { len ≤ length places.now },
}
