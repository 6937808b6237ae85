ghost use Rattle.sinks.specs.Links.{IsLink};

use page::{Page, text};
use samples::sink_uses::{on_page, on_tape};
use sinks::sink::{Full, Sink};
use sinks::step::{Rule, Step};
use tape::{Tape, records};

fn step(rule: Rule, link: u16) -> Step
    requires { IsLink link }
{
    Step { rule, link }
}

fn steps() -> [Step; 4] {
    [
        step(Rule::Axiom, 1),
        step(Rule::Tensor, 256),
        step(Rule::Par, 17),
        step(Rule::Cut, 100),
    ]
}

#[test]
fn a_page_is_lines(rt: HostRuntime) {
    let mut bytes = *b"................................";
    assert_eq!(rt; on_page(&mut bytes, &steps()), 4);
    assert_eq!(rt; bytes, *b"ax 1\nten 256\npar 17\ncut 100\n....");
}

#[test]
fn a_full_page_refuses(rt: HostRuntime) {
    let mut bytes = *b"....................";
    assert_eq!(rt; on_page(&mut bytes, &steps()), 2);
    assert_eq!(rt; bytes, *b"ax 1\nten 256\n.......");
}

#[test]
fn a_tape_is_records(rt: HostRuntime) {
    let mut bytes = [0xee; 20];
    assert_eq!(rt; on_tape(&mut bytes, &steps()), 3);
    let records =
        *b"\x02\x00\x11\x00\x01\x00\x02\x00\x12\x00\x00\x01\x02\x00\x13\x00\x11\x00\xee\xee";
    assert_eq!(rt; bytes, records);
}

#[test]
fn a_page_is_full_after_a_line(rt: HostRuntime) {
    let mut bytes = [0; 11];
    let mut page = Page::new(&mut bytes);
    let answers = [
        page.step(step(Rule::Tensor, 7)),
        page.step(step(Rule::Par, 9)),
    ];
    assert_eq!(rt; answers, [Ok(()), Err(Full)]);
    assert!(rt; text(&page) == b"ten 7\n".as_slice());
}

#[test]
fn a_tape_is_full_after_a_record(rt: HostRuntime) {
    let mut bytes = [0; 11];
    let mut tape = Tape::new(&mut bytes);
    let answers = [
        tape.step(step(Rule::Tensor, 7)),
        tape.step(step(Rule::Par, 9)),
    ];
    assert_eq!(rt; answers, [Ok(()), Err(Full)]);
    assert!(rt; records(&tape) == b"\x02\x00\x12\x00\x07\x00".as_slice());
}

// Whether pages and tapes over the first bytes, of each number below all, have an eighth and a sixth of them as room.
// A loop and no `all`, since pages and tapes borrow the bytes.
fn rooms_are_right(bytes: &mut [u8]) -> bool {
    let len = bytes.len();
    for n in 0..len {
        let used = n.min(4096);
        let page = Page::new(&mut bytes[0..n]).room();
        let tape = Tape::new(&mut bytes[0..n]).room();
        if page != used / 8 || tape != used / 6 {
            return false;
        }
    }
    true
}

#[test]
fn room_is_told_by_the_length(rt: HostRuntime) {
    assert!(rt; rooms_are_right(&mut [0; 5000]));
}

#[test]
fn links_are_1_to_256(rt: HostRuntime) {
    for link in 0..300u16 {
        let made = Step::new(Rule::Par, link).is_some();
        assert_eq!(rt; made, 1 <= link && link <= 256);
    }
}
