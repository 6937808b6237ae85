ghost use Rattle.std.specs.Prelude.{◌≡◌, Some, None};
ghost use Rattle.sinks.specs.Links.{IsLink};

pub use links::rule::Rule;

// One step of a proof: a rule, and the link that it puts in, 1 to 256.
#[derive(Clone, Copy, PartialEq, Eq, Debug)]
pub struct Step {
    pub rule: Rule,
    pub link: u16,
    ghost numbered: { IsLink link },
}

impl Step {
    // None where there is no link of that number.
    pub fn new(rule: Rule, link: u16) -> Option<Step>
        ensures answer { elim result [ Some step ↦ (step.rule ≡ rule) × (step.link ≡ link) | None ↦ (IsLink link → ⊥) ] }
    {
        match link {
            1..=256 => Some(Step { rule, link }),
            _ => None,
        }
    }
}
