// What the rules ask of a state at a level (RULES, 'Who may touch what'): its words and bits, each by its name.
use crate::level::Level;

// The bits of CNTKCTL_EL1.
#[derive(Clone, Copy, Debug, PartialEq, Eq)]
pub struct Cntkctl {
    pub el0pcten: bool,
    pub el0vcten: bool,
    pub el0vten: bool,
    pub el0pten: bool,
}

// The bits of CNTHCTL_EL2, each from its own place; `el1pcten` has two, of which E2H picks one. A bit that only one layout has is read
// by rules of that E2H alone. Four are named as CNTKCTL's are, and are others: the paper lists each register's.
#[derive(Clone, Copy, Debug, PartialEq, Eq)]
pub struct Cnthctl {
    pub el0pcten: bool,
    pub el0vcten: bool,
    pub el0vten: bool,
    pub el0pten: bool,
    pub el1pcten: bool,
    pub el1pcen: bool,
    pub el1pten: bool,
    pub ecv: bool,
    pub el1tvt: bool,
    pub el1tvct: bool,
}

// The level is a number: `gates::facts` and `gates::verdict` promise an answer for each, above 3 too.
#[derive(Clone, Copy, Debug, PartialEq, Eq)]
pub struct Facts {
    pub level: u8,
    pub vhe: bool,
    pub sel2: bool,
    pub ecv: bool,
    pub eel2: bool,
    pub ecven: bool,
    pub e2h: bool,
    pub tge: bool,
    pub on: bool,
    pub host: bool,
    pub secure: bool,
    pub offset: bool, // offset on
    pub cntkctl: Cntkctl,
    pub cnthctl: Cnthctl,
}

impl Facts {
    ghost use Rattle.std.specs.Prelude.{◌≡◌};
    ghost use Rattle.rules.specs.Levels.{level_of};

    // Above 3 it is EL3, as the rules have it; such a level has got 5 before.
    pub fn exception_level(self) -> Level
        ensures { result ≡ level_of self.level }
    {
        Level::try_from(self.level).unwrap_or(Level::El3)
    }
}
