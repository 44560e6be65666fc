// The answer desk: one access answered by value, and which timer lines are raised.
#![tactic(auto)]

mod answers;
mod context;
mod line;
mod one_access;

pub use answers::{as_before, refused};
pub use line::lines;
pub use one_access::access;
