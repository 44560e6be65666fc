// The gate of the CNTV family (RULES, 'Who may touch what').
ghost use Rattle.std.specs.Prelude.{◌≡◌, ◌&&◌, ◌∷◌, [], Err};
ghost use Rattle.rules.specs.Cntv.{a_to_c};
ghost use Rattle.rules.specs.Cntv as gate;
ghost use Rattle.rules.specs.Rules.{◌⇒◌};
ghost use Rattle.rules.specs.declared.verdict.Stop.TheVariants.{ToEl2};

use crate::checks::{Bits, stop_if};
use crate::cntp::denied;
use crate::family::CNTV;
use rules::{Facts, Part, Stop, Verdict};

// The bits that the rules of a virtual register read: `k_` is CNTKCTL's, the others are CNTHCTL's. The timer's rule at EL1
// asks ECV beside EL1TVT, and the counter's does not.
#[derive(Clone, Copy, Debug, PartialEq, Eq)]
pub struct VirtualBits {
    pub k_el0vten: bool,
    pub h_el0vten: bool,
    pub el1tvt: bool,
    pub stops_el1: bool,
}

impl Bits for VirtualBits {
    ghost el0_rules = { λ bits f. a_to_c f bits.k_el0vten bits.h_el0vten bits.el1tvt };

    ghost el1_rules = { λ bits f. (f.on && bits.stops_el1) ⇒ Err ToEl2 ∷ [] };

    fn check_at_el0(self, f: Facts) -> Result<(), Stop> {
        stop_if(!f.host && !self.k_el0vten, denied(f))?; // (a)
        stop_if(f.host && !self.h_el0vten, Stop::ToEl2)?; // (b)
        stop_if(f.on && !f.host && f.ecv && self.el1tvt, Stop::ToEl2) // (c)
    }

    fn check_at_el1(self, f: Facts) -> Result<(), Stop> {
        stop_if(f.on && self.stops_el1, Stop::ToEl2)
    }
}

#[tactic(auto, unfolding(rules::specs::Cntv::cntv, crate::specs::Redirect::reached_of))]
pub fn cntv(f: Facts, p: Part) -> Verdict
    ensures { result ≡ gate.cntv f p }
{
    let k = f.cntkctl;
    let h = f.cnthctl;
    let bits = VirtualBits {
        k_el0vten: k.el0vten,
        h_el0vten: h.el0vten,
        el1tvt: h.el1tvt,
        stops_el1: f.ecv && h.el1tvt,
    };
    bits.check(f)?;
    Ok(CNTV.reached(f, p))
}
