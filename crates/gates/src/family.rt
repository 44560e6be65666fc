// The timers that one name reaches (RULES, 'Who may touch what').
ghost use Rattle.std.specs.Prelude.{◌≡◌, Ok};

use rules::{Facts, Level, Part, Target, TimerName};

// The timer of the name, and EL2's own two that are reached in its place.
#[derive(Clone, Copy, Debug, PartialEq, Eq)]
pub struct Family {
    itself: TimerName,
    secure: TimerName,
    nonsecure: TimerName,
}

pub const CNTP: Family = Family {
    itself: TimerName::Cntp,
    secure: TimerName::Cnthps,
    nonsecure: TimerName::Cnthp,
};

pub const CNTV: Family = Family {
    itself: TimerName::Cntv,
    secure: TimerName::Cnthvs,
    nonsecure: TimerName::Cnthv,
};

impl Family {
    ghost use Rattle.gates.specs.Redirect.{redirected_of, reached_of};

    // `own`: whether EL2's own is meant.
    fn redirected(self, f: Facts, own: bool, p: Part) -> Target
        ensures { Ok result ≡ redirected_of f own self p }
    {
        let timer = if own && f.secure && f.sel2 {
            self.secure
        } else if own && !f.secure {
            self.nonsecure
        } else {
            self.itself
        };
        Target::Timer(timer, p)
    }

    // Whose timer an access reaches that no rule stops.
    #[tactic(auto, unfolding(crate::specs::Redirect::reached_of))]
    pub(crate) fn reached(self, f: Facts, p: Part) -> Target
        ensures { Ok result ≡ reached_of f self p }
    {
        match f.exception_level() {
            Level::El0 => self.redirected(f, f.host, p),
            Level::El2 => self.redirected(f, f.e2h, p),
            Level::El1 | Level::El3 => Target::Timer(self.itself, p),
        }
    }
}
