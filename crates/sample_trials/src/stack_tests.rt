use samples::stack_uses::Branch;
use stack::Stack;

#[test]
fn links_fill_the_places(rt: HostRuntime) {
    let mut places = [0; 3];
    let mut ready = Stack::new(&mut places);
    let mut refused = 0u16;
    for link in 7..12u16 {
        if let Err(link) = ready.push(link) {
            refused = link;
        }
    }
    assert_eq!(rt; (ready.len(), refused), (3, 11));
    let mut popped = [0; 4];
    for link in &mut popped {
        *link = ready.pop().unwrap_or(0);
    }
    assert_eq!(rt; popped, [9, 8, 7, 0]);
}

#[test]
fn a_branch_lies_under_the_next(rt: HostRuntime) {
    let first = Branch {
        link: 1,
        shut: true,
    };
    let mut places = [first; 2];
    let mut open = Stack::new(&mut places);
    let _ = open.push(first);
    let _ = open.push(Branch {
        link: 2,
        shut: false,
    });
    let mut popped = [(0, false); 2];
    for entry in &mut popped {
        if let Some(branch) = open.pop() {
            *entry = (branch.link, branch.shut);
        }
    }
    assert_eq!(rt; popped, [(2, false), (1, true)]);
}
