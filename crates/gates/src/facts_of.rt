// The words and bits of RULES, 'The machine we model', read off a state at a level.
ghost use Rattle.std.specs.Prelude.{◌≡◌, ◌<◌};
ghost use Rattle.rules.specs.Bits.{bit};
ghost use Rattle.rules.specs.Words.{on, offset_on, facts_of};
ghost use Rattle.rules.specs.Words as words;

use rules::{Cnthctl, Cntkctl, Controls, Facts, Features, Level, State};

// As in `registers`; no crate hands it out, since what is handed out asks nothing of its callers.
fn bit(x: u32, k: u32) -> bool
    requires { k < 32 }
    ensures { result ≡ bit k x }
{
    (x >> k) % 2 == 1
}

// Four lines stand in `cnthctl` too: the paper lists the bits of each register in full (`Bits.cntkctl_of`, `cnthctl_of`).
fn cntkctl(s: State) -> Cntkctl
    ensures { result ≡ words.cntkctl s }
{
    let x = s.controls.cntkctl;
    Cntkctl {
        el0pcten: bit(x, 0),
        el0vcten: bit(x, 1),
        el0vten: bit(x, 8),
        el0pten: bit(x, 9),
    }
}

pub fn cnthctl(s: State) -> Cnthctl
    ensures { result ≡ words.cnthctl s }
{
    let x = s.controls.cnthctl;
    Cnthctl {
        el0pcten: bit(x, 0),
        el0vcten: bit(x, 1),
        el0vten: bit(x, 8),
        el0pten: bit(x, 9),
        el1pcten: bit(x, if s.controls.e2h { 10 } else { 0 }),
        el1pcen: bit(x, 1),
        el1pten: bit(x, 11),
        ecv: bit(x, 12),
        el1tvt: bit(x, 13),
        el1tvct: bit(x, 14),
    }
}

pub fn el2_on(s: State) -> bool
    ensures { result ≡ on s }
{
    s.controls.ns || (s.features.sel2 && s.controls.eel2)
}

#[tactic(auto, unfolding(rules::specs::Words::facts_of))]
pub fn facts(s: State, level: u8) -> Facts
    ensures { result ≡ facts_of s level }
{
    let Features { vhe, sel2, ecv } = s.features;
    let Controls {
        ns,
        eel2,
        ecven,
        e2h,
        tge,
        ..
    } = s.controls;
    let cnthctl = cnthctl(s);
    let on = el2_on(s);
    let at_el3 = matches!(Level::try_from(level), Ok(Level::El3));
    let host = on && e2h && tge;
    Facts {
        level,
        vhe,
        sel2,
        ecv,
        eel2,
        ecven,
        e2h,
        tge,
        on,
        host,
        secure: !ns || at_el3,
        offset: ecv && on && ecven && cnthctl.ecv && !host,
        cntkctl: cntkctl(s),
        cnthctl,
    }
}

// It does not depend on the level.
#[tactic(auto, unfolding(rules::specs::Words::facts_of))]
pub fn offset_on(s: State) -> bool
    ensures { result ≡ offset_on s }
{
    facts(s, 0).offset
}
