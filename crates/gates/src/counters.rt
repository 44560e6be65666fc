// The gates of CNTPCT and CNTVCT (RULES, 'Who may touch what').
ghost use Rattle.std.specs.Prelude.{◌≡◌};
ghost use Rattle.rules.specs.Counters as gate;

use crate::checks::Bits;
use crate::cntp::PhysicalBits;
use crate::cntv::VirtualBits;
use rules::{Facts, Target, Verdict};

// EL1PCTEN stands for both EL1 bits of CNTP's rules: E2H has already picked its place.
#[tactic(auto, unfolding(rules::specs::Counters::cntpct))]
pub fn cntpct(f: Facts) -> Verdict
    ensures { result ≡ gate.cntpct f }
{
    let k = f.cntkctl;
    let h = f.cnthctl;
    let bits = PhysicalBits {
        k_el0pten: k.el0pcten,
        el1pcen: h.el1pcten,
        el1pten: h.el1pcten,
        h_el0pten: h.el0pcten,
    };
    bits.check(f)?;
    Ok(Target::Cntpct)
}

#[tactic(auto, unfolding(rules::specs::Counters::cntvct))]
pub fn cntvct(f: Facts) -> Verdict
    ensures { result ≡ gate.cntvct f }
{
    let k = f.cntkctl;
    let h = f.cnthctl;
    let bits = VirtualBits {
        k_el0vten: k.el0vcten,
        h_el0vten: h.el0vcten,
        el1tvt: h.el1tvct,
        stops_el1: h.el1tvct,
    };
    bits.check(f)?;
    Ok(Target::Cntvct)
}
