// The access journal: records read, answers packed, and the run over one state with a lent answer buffer.
#![tactic(auto)]

mod record;
mod whole_run;

pub use record::last_count;
pub use whole_run::run;
