// Writes records as the bytes that a drawing file has for them.
ghost use Rattle.std.specs.Prelude.{◌≡◌, ◌∷◌};
ghost use Rattle.records.specs.Format.{body_of, bytes_of};
ghost use Rattle.records.specs.Kinds.{code_of};
ghost use Rattle.records.specs.declared.record.Record.TheVariants.{Axiom, Tensor, Cut};
ghost use Rattle.record_writer.specs.Writing.{Puts, ReadBack};

use records::{Kind, Record};

// Writes the record at the start of `out` and tells how many bytes it took.
// An `out` that is too short stays as it was.
pub fn write(given: Record, out: &mut [u8]) -> Option<usize>
    ensures answer { Puts (bytes_of given) out.old out.new result }
    ensures law { ReadBack given out.new result }
{
    match given {
        Record::Axiom {
            link,
            positive,
            negative,
            atom,
            delay,
        } => put(out, &axiom(link, positive, negative, atom, delay)),
        Record::Tensor {
            link,
            left,
            right,
            conclusion,
        } => put(
            out,
            &connective(Kind::Tensor, link, left, right, conclusion),
        ),
        Record::Par {
            link,
            left,
            right,
            conclusion,
        } => put(out, &connective(Kind::Par, link, left, right, conclusion)),
        Record::Cut { link, left, right } => put(out, &cut(link, left, right)),
    }
}

// One function for each length: an array's length cannot be computed from a const parameter.
fn axiom(link: u16, positive: u16, negative: u16, atom: u16, delay: u32) -> [u8; 16]
    ensures { result ≡ 12 ∷ 0 ∷ 1 ∷ 0 ∷ body_of (Axiom link positive negative atom delay) }
{
    let [l0, l1] = link.to_le_bytes();
    let [p0, p1] = positive.to_le_bytes();
    let [n0, n1] = negative.to_le_bytes();
    let [a0, a1] = atom.to_le_bytes();
    let [d0, d1, d2, d3] = delay.to_le_bytes();
    [
        12,
        0,
        Kind::Axiom.number(),
        0,
        l0,
        l1,
        p0,
        p1,
        n0,
        n1,
        a0,
        a1,
        d0,
        d1,
        d2,
        d3,
    ]
}

// A tensor and a par differ in their kind only.
fn connective(kind: Kind, link: u16, left: u16, right: u16, conclusion: u16) -> [u8; 12]
    ensures { result ≡ 8 ∷ 0 ∷ code_of kind ∷ 0 ∷ body_of (Tensor link left right conclusion) }
{
    let [n0, n1] = link.to_le_bytes();
    let [l0, l1] = left.to_le_bytes();
    let [r0, r1] = right.to_le_bytes();
    let [c0, c1] = conclusion.to_le_bytes();
    [8, 0, kind.number(), 0, n0, n1, l0, l1, r0, r1, c0, c1]
}

fn cut(link: u16, left: u16, right: u16) -> [u8; 10]
    ensures { result ≡ 6 ∷ 0 ∷ 4 ∷ 0 ∷ body_of (Cut link left right) }
{
    let [n0, n1] = link.to_le_bytes();
    let [l0, l1] = left.to_le_bytes();
    let [r0, r1] = right.to_le_bytes();
    [6, 0, Kind::Cut.number(), 0, n0, n1, l0, l1, r0, r1]
}

// Puts the bytes at the start of `out`, if there is room for them all.
fn put(out: &mut [u8], bytes: &[u8]) -> Option<usize>
    ensures { Puts bytes.now out.old out.new result }
{
    let size = bytes.len();
    if out.len() < size {
        return None;
    }
    out[..size].copy_from_slice(bytes);
    Some(size)
}
