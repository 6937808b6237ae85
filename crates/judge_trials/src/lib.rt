// Tests of the judge: small drawings with their verdicts and sides, refusals, and every structure on two wires held
// against a survey of all its switchings.
#![tactic(auto)]

#[cfg(test)]
mod drawings;
#[cfg(test)]
mod every_switching;
