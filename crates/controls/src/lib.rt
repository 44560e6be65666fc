// What a write of a control register stores (RULES, 'Stored bits').
#![tactic(auto)]

mod stored;

pub use stored::{stored_cnthctl, stored_cntkctl};
