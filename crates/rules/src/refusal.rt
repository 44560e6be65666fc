// Why an access (4, 5), a record (6) or a run (7, 8) is refused, each with its number among the answers (RULES, 'What the desk
// answers' and 'The access journal').
#[derive(Clone, Copy, Debug, PartialEq, Eq)]
pub enum Refusal {
    NotATimerAccess = 4,
    ImpossibleContext = 5,
    ReservedBitSet = 6,
    BadJournal = 7,
    BufferTooShort = 8,
}
