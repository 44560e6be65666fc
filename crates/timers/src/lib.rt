// What happens to a register that was reached: the counts, a timer read and written, and whether it is met. Nothing here
// knows of gates.
#![tactic(auto)]

mod counts;
mod moment;
mod six;
mod timer;

pub use counts::count_of;
pub use moment::Moment;
pub use six::get;
pub use timer::raised;
