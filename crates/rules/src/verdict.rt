// What a gate says of an access: the one register that it reaches, or what stops it.
use crate::name::Part;
use crate::state::TimerName;

#[derive(Clone, Copy, Debug, PartialEq, Eq)]
pub enum Target {
    Cntpct,
    Cntvct,
    Cntvoff,
    Timer(TimerName, Part),
    Cntkctl,
    Cnthctl,
    Cntpoff,
}

// It is Undefined, or traps to a level; each with its number among the answers.
#[derive(Clone, Copy, Debug, PartialEq, Eq)]
pub enum Stop {
    Undefined = 1,
    ToEl1 = 2,
    ToEl2 = 3,
    ToEl3 = 10,
}

pub type Verdict = Result<Target, Stop>;
