// The vocabulary that all definitions share, the laws about it, and the small functions that many crates need.
#![tactic(auto)]

pub mod numbers;
pub mod places;
pub mod tests;

// What stands for none throughout: nobody runs, a slot names nobody, nobody is queued, nothing was delivered.
pub const NOBODY: u8 = 255;
