// Who may touch what, for every register: the gate that its name goes through.
ghost use Rattle.std.specs.Prelude.{◌≡◌};
ghost use Rattle.rules.specs.Verdicts.{verdict_of};

use crate::cntp::cntp;
use crate::cntv::cntv;
use crate::control::{cntkctl, cntpoff};
use crate::counters::{cntpct, cntvct};
use crate::el2::{at_el2_and_above, cnthvs};
use rules::{Facts, Name, Stop, Target, TimerName, Verdict};

#[tactic(auto, unfolding(rules::specs::Verdicts::verdict_of, rules::specs::El2::cntvoff, rules::specs::El2::cnthp, rules::specs::Control::cnthctl))]
pub fn verdict(f: Facts, name: Name, mrs: bool) -> Verdict
    ensures { result ≡ verdict_of f name mrs }
{
    match name {
        Name::Cntpct | Name::Cntvct if !mrs => Err(Stop::Undefined),
        Name::Cntpctss | Name::Cntvctss if !mrs || !f.ecv => Err(Stop::Undefined),
        Name::Cntpct | Name::Cntpctss => cntpct(f),
        Name::Cntvct | Name::Cntvctss => cntvct(f),
        Name::Cntp(p) => cntp(f, p),
        Name::Cntv(p) => cntv(f, p),
        Name::Cntvoff => at_el2_and_above(f, Target::Cntvoff),
        Name::Cnthp(p) => at_el2_and_above(f, Target::Timer(TimerName::Cnthp, p)),
        Name::Cnthvs(p) => cnthvs(f, p),
        Name::Cntkctl => cntkctl(f),
        Name::Cnthctl => at_el2_and_above(f, Target::Cnthctl),
        Name::Cntpoff => cntpoff(f),
    }
}
