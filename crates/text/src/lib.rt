// Numbers and words put into a lent byte buffer, for the programs that print runs (N3 to N7).
// Each method of a page puts its text behind what stands there. They are building blocks of other crates, not entry
// points: each requires room on the page for what it puts, and nothing else.
#![tactic(auto)]

mod number;
mod page;
mod pair;

pub use page::Page;
pub use pair::table;
