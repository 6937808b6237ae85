/// The rule of a proof that a link stands for.
#[derive(Clone, Copy, PartialEq, Eq, Debug)]
pub enum Rule {
    Axiom,
    Tensor,
    Par,
    Cut,
}
