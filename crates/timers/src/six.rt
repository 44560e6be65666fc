// One of the six timers, by its name.
ghost use Rattle.std.specs.Prelude.{◌≡◌};
ghost use Rattle.rules.specs.Timers as rule;

use rules::{Timer, TimerName, Timers};

pub fn get(timers: Timers, name: TimerName) -> Timer
    ensures { result ≡ rule.get timers name }
{
    match name {
        TimerName::Cntp => timers.cntp,
        TimerName::Cntv => timers.cntv,
        TimerName::Cnthp => timers.cnthp,
        TimerName::Cnthv => timers.cnthv,
        TimerName::Cnthps => timers.cnthps,
        TimerName::Cnthvs => timers.cnthvs,
    }
}

// By updates: setting a field of a copy took 80 bytes of stack and 5 to 15 ns more.
pub fn put(timers: Timers, name: TimerName, timer: Timer) -> Timers
    ensures { result ≡ rule.put timers name timer }
{
    match name {
        TimerName::Cntp => Timers {
            cntp: timer,
            ..timers
        },
        TimerName::Cntv => Timers {
            cntv: timer,
            ..timers
        },
        TimerName::Cnthp => Timers {
            cnthp: timer,
            ..timers
        },
        TimerName::Cnthv => Timers {
            cnthv: timer,
            ..timers
        },
        TimerName::Cnthps => Timers {
            cnthps: timer,
            ..timers
        },
        TimerName::Cnthvs => Timers {
            cnthvs: timer,
            ..timers
        },
    }
}
