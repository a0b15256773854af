// What is printed of a run, piece by piece: an event's line, what is said of an image and of a log (N3 to N7).
// Each function puts its text on a page, behind what stands there. They are building blocks of other crates, not entry
// points: each requires room on the page for what it puts.
#![tactic(auto)]

mod hex;
mod line;

pub use hex::{put_bytes, put_image};
pub use line::{put_choice, put_cut, put_line, put_refused, put_two};
