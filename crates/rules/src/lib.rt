// The types of the answer desk, by value. What they mean, the rulebook of docs/RULES.md, stands in specs/.
#![tactic(auto)]

mod access;
mod answer;
mod facts;
mod level;
mod name;
mod record;
mod refusal;
mod state;
mod verdict;

pub use access::Access;
pub use answer::{Answer, DONE, Lines, Outcome, Value};
pub use facts::{Cnthctl, Cntkctl, Facts};
pub use level::Level;
pub use name::{Name, Part};
pub use record::{RECORD_BYTES, RECORD_LIMIT, Record, Run};
pub use refusal::Refusal;
pub use state::{Controls, Features, State, Timer, TimerName, Timers};
pub use verdict::{Stop, Target, Verdict};
