// The machine as one access finds it: what a register that was reached reads as, and what a write of it leaves.
ghost use Rattle.std.specs.Prelude.{◌≡◌};
ghost use Rattle.rules.specs.Values.{read_of, write_of};

use crate::six::{get, put};
use crate::timer::{known, read_timer, write_timer};
use controls::{stored_cnthctl, stored_cntkctl};
use rules::{Controls, Facts, State, Target, Value};

// The facts are those of the state at the access's level. No invariant says so: `read` and `write` promise for any three.
#[derive(Clone, Copy, Debug, PartialEq, Eq)]
pub struct Moment {
    pub facts: Facts,
    pub state: State,
    pub physical: u64,
}

impl Moment {
    #[tactic(auto, unfolding(rules::specs::Values::read_of))]
    pub fn read(self, target: Target) -> Value
        ensures { result ≡ read_of self.facts self.state self.physical target }
    {
        let state = self.state;
        match target {
            Target::Cntpct => known(self.physical_seen()),
            Target::Cntvct => known(self.virtual_seen()),
            Target::Cntvoff => known(state.cntvoff),
            Target::Timer(name, part) => {
                let timer = get(state.timers, name);
                read_timer(
                    timer,
                    part,
                    self.used_count(name),
                    self.condition_count(name),
                )
            }
            Target::Cntkctl => known(u64::from(state.controls.cntkctl)),
            Target::Cnthctl => known(u64::from(state.controls.cnthctl)),
            Target::Cntpoff => known(state.cntpoff),
        }
    }

    // No write reaches a counter: MSR of one is Undefined.
    #[tactic(auto, unfolding(rules::specs::Values::write_of))]
    pub fn write(self, target: Target, operand: u64) -> State
        ensures { result ≡ write_of self.facts self.state self.physical target operand }
    {
        let Moment { facts, state, .. } = self;
        match target {
            Target::Cntpct | Target::Cntvct => state,
            Target::Cntvoff => State {
                cntvoff: operand,
                ..state
            },
            Target::Timer(name, part) => {
                let timer = get(state.timers, name);
                let written = write_timer(timer, part, self.used_count(name), operand);
                State {
                    timers: put(state.timers, name, written),
                    ..state
                }
            }
            Target::Cntkctl => State {
                controls: Controls {
                    cntkctl: stored_cntkctl(facts.ecv, operand),
                    ..state.controls
                },
                ..state
            },
            Target::Cnthctl => State {
                controls: Controls {
                    cnthctl: stored_cnthctl(facts.e2h, facts.ecv, operand),
                    ..state.controls
                },
                ..state
            },
            Target::Cntpoff => State {
                cntpoff: operand,
                ..state
            },
        }
    }
}
