ghost use Rattle.std.specs.Prelude.{◌≡◌, Some, Err};

use stack::Stack;

// A branch of a tree: shut once its own branches lie above it on the stack.
#[derive(Clone, Copy, PartialEq, Eq, Debug)]
pub struct Branch {
    pub link: u16,
    pub shut: bool,
}

// Two uses that differ in the entry type, since the stack is for any plain entry.

// Two ready links come back last first.
pub fn links_in_turn(first: u16, second: u16) -> (Option<u16>, Option<u16>)
    ensures { (result.0 ≡ Some second) × (result.1 ≡ Some first) }
{
    let mut places = [0; 2];
    let mut ready = Stack::new(&mut places);
    let _ = ready.push(first);
    let _ = ready.push(second);
    let top = ready.pop();
    let next = ready.pop();
    (top, next)
}

// Where there is one place, a second branch is handed back, and the first one stays.
pub fn second_branch_refused(kept: Branch, refused: Branch) -> (Result<(), Branch>, Option<Branch>)
    ensures { (result.0 ≡ Err refused) × (result.1 ≡ Some kept) }
{
    let mut places = [refused; 1];
    let mut open = Stack::new(&mut places);
    let _ = open.push(kept);
    let answer = open.push(refused);
    let top = open.pop();
    (answer, top)
}
