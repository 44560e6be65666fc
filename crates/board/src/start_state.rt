// The start of the readings (RULES, 'Twelve readings from the bench').
ghost use Rattle.std.specs.Prelude.{◌≡◌};
ghost use Rattle.rules.specs.Readings as readings;

use rules::{Controls, Features, State, Timer, Timers};

pub fn start() -> State
    ensures { result ≡ readings.start }
{
    let disabled = Timer {
        cval: 0,
        enable: false,
        imask: false,
    };
    State {
        features: Features {
            vhe: true,
            sel2: true,
            ecv: false,
        },
        controls: Controls {
            ns: true,
            eel2: false,
            ecven: false,
            e2h: false,
            tge: false,
            cntkctl: 0x303,
            cnthctl: 0,
        },
        cntvoff: 400,
        cntpoff: 0,
        timers: Timers {
            cntp: disabled,
            cntv: disabled,
            cnthp: disabled,
            cnthv: disabled,
            cnthps: disabled,
            cnthvs: disabled,
        },
    }
}
