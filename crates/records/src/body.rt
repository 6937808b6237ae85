// Reads the body of a record whose kind is known from its header.
ghost use Rattle.std.specs.Prelude.{◌≡◌, ◌+◌, ◌*◌, [], ◌∷◌};
ghost use Rattle.records.specs.Format.{le2, le4};
ghost use Rattle.records.specs.Fronts.{HasBody, HasConnective, ReadsBody};
ghost use Rattle.records.specs.Kinds.{code_of};

use crate::fault::Fault;
use crate::kind::Kind;
use crate::record::Record;

/// The record of this kind with this body.
pub fn with_body(kind: Kind, body: &[u8]) -> Result<Record, Fault>
    ensures { ReadsBody (code_of kind) body.now result }
{
    let record = match kind {
        Kind::Axiom => axiom(body),
        Kind::Tensor => tensor(body),
        Kind::Par => par(body),
        Kind::Cut => cut(body),
    };
    record.ok_or(Fault::WrongLength)
}

// Two bytes as a number, the low one first.
pub fn number(low: u8, high: u8) -> u16
    ensures bytes { le2 result ≡ low ∷ high ∷ [] }
    ensures value { result ≡ low + high * 256 }
{
    u16::from_le_bytes([low, high])
}

// Four bytes as a number, the lowest first.
fn wide(b0: u8, b1: u8, b2: u8, b3: u8) -> u32
    ensures { le4 result ≡ b0 ∷ b1 ∷ b2 ∷ b3 ∷ [] }
{
    u32::from_le_bytes([b0, b1, b2, b3])
}

// One slice pattern for each length of a body.
fn axiom(body: &[u8]) -> Option<Record>
    ensures { HasBody 1 body.now result }
{
    let [l0, l1, p0, p1, n0, n1, a0, a1, d0, d1, d2, d3] = body else {
        return None;
    };
    Some(Record::Axiom {
        link: number(*l0, *l1),
        positive: number(*p0, *p1),
        negative: number(*n0, *n1),
        atom: number(*a0, *a1),
        delay: wide(*d0, *d1, *d2, *d3),
    })
}

// A tensor and a par have the same body, and differ in the record that is made of it: a constructor handed to `map` as a
// closure leaves the proof open.
fn tensor(body: &[u8]) -> Option<Record>
    ensures { HasBody 2 body.now result }
{
    let (link, left, right, conclusion) = connective(body)?;
    Some(Record::Tensor {
        link,
        left,
        right,
        conclusion,
    })
}

fn par(body: &[u8]) -> Option<Record>
    ensures { HasBody 3 body.now result }
{
    let (link, left, right, conclusion) = connective(body)?;
    Some(Record::Par {
        link,
        left,
        right,
        conclusion,
    })
}

// The four numbers of a tensor or a par.
fn connective(body: &[u8]) -> Option<(u16, u16, u16, u16)>
    ensures { HasConnective body.now result }
{
    let [n0, n1, l0, l1, r0, r1, c0, c1] = body else {
        return None;
    };
    Some((
        number(*n0, *n1),
        number(*l0, *l1),
        number(*r0, *r1),
        number(*c0, *c1),
    ))
}

fn cut(body: &[u8]) -> Option<Record>
    ensures { HasBody 4 body.now result }
{
    let [n0, n1, l0, l1, r0, r1] = body else {
        return None;
    };
    Some(Record::Cut {
        link: number(*n0, *n1),
        left: number(*l0, *l1),
        right: number(*r0, *r1),
    })
}
