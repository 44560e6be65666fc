// Who may touch what: the facts of a state at a level, and the verdict on an access to each register.
#![tactic(auto)]

mod checks;
mod cntp;
mod cntv;
mod control;
mod counters;
mod el2;
mod facts_of;
mod family;
mod verdict_of;

pub use facts_of::{cnthctl, el2_on, facts, offset_on};
pub use verdict_of::verdict;
