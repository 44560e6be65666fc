// One trapped access as it comes in: the instruction word, the exception level, what register Rt holds, and the physical count
// (RULES, 'The machine we model' and 'Instruction words and register names'). The level is a number, since C may hand in any.
#[repr(C)]
#[derive(Clone, Copy, Debug, PartialEq, Eq)]
pub struct Access {
    pub word: u32,
    pub level: u8,
    pub operand: u64,
    pub count: u64,
}
