// Labels that wires carry. `label` has the one trait of label kinds: two labels compose into one, and the
// composition is associative. `delay` and `route` are the kinds, each a plain record of which every value
// means one label.
#![tactic(auto)]

pub mod delay;
pub mod label;
pub mod route;
