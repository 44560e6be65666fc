// The rules that stop an access, as checks for `?` (RULES, 'Who may touch what').
ghost use Rattle.std.specs.Prelude.{List, ◌∷◌, [], Err};
ghost use Rattle.rules.specs.declared.facts.Facts.{Facts};
ghost use Rattle.rules.specs.Rules.{Rule, ◌⇒◌};
ghost use Rattle.gates.specs.Checks.{Checks, ChecksByLevel};

use rules::{Facts, Level, Stop};

pub fn stop_if(fits: bool, stop: Stop) -> Result<(), Stop>
    ensures { Checks (fits ⇒ Err stop ∷ []) result }
{
    if fits { Err(stop) } else { Ok(()) }
}

// The control bits that a register's rules read. At EL2 and EL3 they stop no access.
pub trait Bits: Copy {
    ghost el0_rules: { Self → Facts → List Rule };

    ghost el1_rules: { Self → Facts → List Rule };

    fn check_at_el0(self, f: Facts) -> Result<(), Stop>
        ensures { Checks (el0_rules self f) result };

    fn check_at_el1(self, f: Facts) -> Result<(), Stop>
        ensures { Checks (el1_rules self f) result };

    fn check(self, f: Facts) -> Result<(), Stop>
        ensures { ChecksByLevel f.level (el0_rules self f) (el1_rules self f) result }
    {
        match f.exception_level() {
            Level::El0 => self.check_at_el0(f),
            Level::El1 => self.check_at_el1(f),
            Level::El2 | Level::El3 => Ok(()),
        }
    }
}
