// The contexts that cannot be (RULES, 'When 5 holds').
ghost use Rattle.std.specs.Prelude.{◌≡◌};
ghost use Rattle.rules.specs.Context.{impossible_at};
ghost use Rattle.rules.specs.Context as rule;

use gates::{cnthctl, el2_on};
use rules::{Controls, Features, Level, State};

// The grounds that have no level.
#[tactic(auto, unfolding(rules::specs::Context::impossible))]
pub fn impossible(s: State) -> bool
    ensures { result ≡ rule.impossible s }
{
    let Features { vhe, sel2, ecv } = s.features;
    let Controls {
        e2h,
        eel2,
        ecven,
        ..
    } = s.controls;
    let h = cnthctl(s);
    (e2h && !vhe) || (eel2 && !sel2) || ((ecven || h.ecv || h.el1tvt || h.el1tvct) && !ecv)
}

#[tactic(auto, unfolding(rules::specs::Context::impossible_at))]
pub fn impossible_at(s: State, level: u8) -> bool
    ensures { result ≡ impossible_at s level }
{
    let on = el2_on(s);
    let at_this_level = match Level::try_from(level) {
        Ok(Level::El0 | Level::El3) => false,
        Ok(Level::El1) => on && s.controls.tge,
        Ok(Level::El2) => !on,
        Err(_) => true,
    };
    at_this_level || impossible(s)
}
