// The tests that an event makes before it is done: soundness (W1 to W13) and the rows of the refusals (R1), over small values.
#![tactic(auto)]

pub mod rows;
pub mod sound;
