// The gates of CNTKCTL and CNTPOFF (RULES, 'Who may touch what').
ghost use Rattle.std.specs.Prelude.{◌≡◌};
ghost use Rattle.rules.specs.Control as gate;

use crate::checks::stop_if;
use rules::{Facts, Level, Stop, Target, Verdict};

// At EL2 with E2H 1 its name reaches CNTHCTL.
#[tactic(auto, unfolding(rules::specs::Control::cntkctl))]
pub fn cntkctl(f: Facts) -> Verdict
    ensures { result ≡ gate.cntkctl f }
{
    match f.exception_level() {
        Level::El0 => Err(Stop::Undefined),
        Level::El2 if f.e2h => Ok(Target::Cnthctl),
        Level::El1 | Level::El2 | Level::El3 => Ok(Target::Cntkctl),
    }
}

#[tactic(auto, unfolding(rules::specs::Control::cntpoff))]
pub fn cntpoff(f: Facts) -> Verdict
    ensures { result ≡ gate.cntpoff f }
{
    stop_if(!f.ecv, Stop::Undefined)?;
    match f.exception_level() {
        Level::El0 | Level::El1 => Err(Stop::Undefined),
        Level::El2 if !f.ecven => Err(Stop::ToEl3),
        Level::El2 | Level::El3 => Ok(Target::Cntpoff),
    }
}
