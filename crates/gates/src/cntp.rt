// The gate of the CNTP family (RULES, 'Who may touch what').
ghost use Rattle.std.specs.Prelude.{◌≡◌, Err};
ghost use Rattle.rules.specs.Cntp.{a_to_d, el1_rule};
ghost use Rattle.rules.specs.Cntp as gate;

use crate::checks::{Bits, stop_if};
use crate::family::CNTP;
use rules::{Facts, Part, Stop, Verdict};

// The trap of rule (a).
pub fn denied(f: Facts) -> Stop
    ensures { Err result ≡ gate.denied f }
{
    if f.on && f.tge {
        Stop::ToEl2
    } else {
        Stop::ToEl1
    }
}

// The bits that the rules of a physical register read: `k_` is CNTKCTL's, the others are CNTHCTL's.
#[derive(Clone, Copy, Debug, PartialEq, Eq)]
pub struct PhysicalBits {
    pub k_el0pten: bool,
    pub el1pcen: bool,
    pub el1pten: bool,
    pub h_el0pten: bool,
}

impl Bits for PhysicalBits {
    ghost el0_rules = { λ bits f. a_to_d f bits.k_el0pten bits.el1pcen bits.el1pten bits.h_el0pten };

    ghost el1_rules = { λ bits f. el1_rule f bits.el1pcen bits.el1pten };

    fn check_at_el0(self, f: Facts) -> Result<(), Stop> {
        stop_if(!f.host && !self.k_el0pten, denied(f))?; // (a)
        stop_if(f.on && !f.e2h && !self.el1pcen, Stop::ToEl2)?; // (b)
        stop_if(f.on && f.e2h && !f.tge && !self.el1pten, Stop::ToEl2)?; // (c)
        stop_if(f.host && !self.h_el0pten, Stop::ToEl2) // (d)
    }

    fn check_at_el1(self, f: Facts) -> Result<(), Stop> {
        let allowed = if f.e2h { self.el1pten } else { self.el1pcen };
        stop_if(f.on && !allowed, Stop::ToEl2)
    }
}

#[tactic(auto, unfolding(rules::specs::Cntp::cntp, crate::specs::Redirect::reached_of))]
pub fn cntp(f: Facts, p: Part) -> Verdict
    ensures { result ≡ gate.cntp f p }
{
    // Each gate copies the two out first: with their bits named through `f` every access takes some 8 ns more.
    let k = f.cntkctl;
    let h = f.cnthctl;
    let bits = PhysicalBits {
        k_el0pten: k.el0pten,
        el1pcen: h.el1pcen,
        el1pten: h.el1pten,
        h_el0pten: h.el0pten,
    };
    bits.check(f)?;
    Ok(CNTP.reached(f, p))
}
