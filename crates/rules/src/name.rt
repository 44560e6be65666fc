// The names by which registers are known (RULES, 'Instruction words and register names').

// The three registers of a timer.
#[derive(Clone, Copy, Debug, PartialEq, Eq)]
pub enum Part {
    Tval,
    Ctl,
    Cval,
}

#[derive(Clone, Copy, Debug, PartialEq, Eq)]
pub enum Name {
    Cntpct,
    Cntvct,
    Cntpctss,
    Cntvctss,
    Cntp(Part),
    Cntv(Part),
    Cntvoff,
    Cnthp(Part),
    Cnthvs(Part),
    Cntkctl,
    Cnthctl,
    Cntpoff,
}
