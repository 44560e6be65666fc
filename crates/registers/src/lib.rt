// From an instruction word to the name of a timer register, its direction and its Rt; and from a syndrome to the word.
#![tactic(auto)]

mod bits;
mod encoding;
mod lookup;
mod register;
mod syndrome;
mod word;

pub use encoding::Encoding;
pub use register::Register;
pub use syndrome::word_of;
pub use word::{is_mrs, rt};
