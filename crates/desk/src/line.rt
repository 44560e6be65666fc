// Which timer lines are raised (RULES, 'Timer met').
ghost use Rattle.std.specs.Prelude.{◌≡◌};
ghost use Rattle.rules.specs.Lines.{lines_of};
ghost use Rattle.desk.specs.Lines.{EachLine};

use crate::context::impossible;
use gates::offset_on;
use rules::{DONE, Lines, Refusal, State, TimerName};
use timers::{count_of, get, raised};

// The number is a byte, as `Lines` has it for C.
fn lines_by<F: Fn(TimerName) -> bool>(number: u8, line: F) -> Lines
    requires { F.IsAlwaysCallable line }
    ensures number { result.number ≡ number }
    ensures lines { EachLine (F.post line) result }
{
    Lines {
        number,
        cntp: line(TimerName::Cntp),
        cntv: line(TimerName::Cntv),
        cnthp: line(TimerName::Cnthp),
        cnthv: line(TimerName::Cnthv),
        cnthps: line(TimerName::Cnthps),
        cnthvs: line(TimerName::Cnthvs),
    }
}

// By state and count, since the question has no level, and so no moment.
#[tactic(auto, unfolding(rules::specs::Lines::lines_of, rules::specs::Lines::line_of))]
pub fn lines(s: State, physical: u64) -> Lines
    ensures { result ≡ lines_of s physical }
{
    if impossible(s) {
        return lines_by(Refusal::ImpossibleContext as u8, |_| false);
    }
    let offset_on = offset_on(s);
    lines_by(
        DONE,
        |t| raised(get(s.timers, t), count_of(offset_on, s, physical, t)),
    )
}
