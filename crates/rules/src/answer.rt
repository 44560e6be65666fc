// The answers (RULES, 'What the desk answers').
use crate::state::State;

// The number of an answer that is no stop and no refusal: one number, and so no enum.
pub const DONE: u8 = 0;

// What a register reads as: its bits, those that are unknown given as 0, and the mask that names the unknown ones.
#[derive(Clone, Copy, Debug, PartialEq, Eq)]
pub struct Value {
    pub value: u64,
    pub mask: u64,
}

// The number is a byte and no enum, here and in `Lines`: C reads it.
#[repr(C)]
#[derive(Clone, Copy, Debug, PartialEq, Eq)]
pub struct Answer {
    pub number: u8,
    pub rt: u8,
    pub value: u64,
    pub mask: u64,
}

// An answer, and the state that the access leaves.
#[repr(C)]
#[derive(Clone, Copy, Debug, PartialEq, Eq)]
pub struct Outcome {
    pub answer: Answer,
    pub next: State,
}

// The answer to the lines question: its number, and which of the six lines are raised.
#[repr(C)]
#[derive(Clone, Copy, Debug, PartialEq, Eq)]
pub struct Lines {
    pub number: u8,
    pub cntp: bool,
    pub cntv: bool,
    pub cnthp: bool,
    pub cnthv: bool,
    pub cnthps: bool,
    pub cnthvs: bool,
}
