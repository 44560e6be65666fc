// One timer read and written (RULES, 'Values' and 'Timer met'). Sums and differences wrap at 64 bits.
ghost use Rattle.std.specs.Prelude.{◌≡◌};
ghost use Rattle.rules.specs.Arithmetic.{signed32};
ghost use Rattle.rules.specs.Values.{read_timer, write_timer};
ghost use Rattle.rules.specs.Values as rule;

use rules::{Part, Timer, Value};

// A value whose bits are all known; a `From` would not say so.
pub fn known(value: u64) -> Value
    ensures { result ≡ rule.known value }
{
    Value { value, mask: 0 }
}

// Both unsigned.
pub fn met(timer: Timer, condition: u64) -> bool
    ensures { result ≡ rule.met timer condition }
{
    timer.enable && timer.cval <= condition
}

pub fn raised(timer: Timer, condition: u64) -> bool
    ensures { result ≡ rule.raised timer condition }
{
    met(timer, condition) && !timer.imask
}

#[tactic(auto, unfolding(rules::specs::Values::read_timer))]
pub fn read_timer(timer: Timer, part: Part, used: u64, condition: u64) -> Value
    ensures { result ≡ read_timer timer part used condition }
{
    match part {
        Part::Tval if timer.enable => known(timer.cval.wrapping_sub(used)),
        Part::Tval => Value {
            value: 0,
            mask: u64::MAX,
        },
        Part::Ctl => Value {
            value: u64::from(timer.enable)
                | u64::from(timer.imask) << 1
                | u64::from(met(timer, condition)) << 2,
            mask: u64::from(!timer.enable) << 2,
        },
        Part::Cval => known(timer.cval),
    }
}

// The mask has made the cast fit, and `try_from` would be no plainer.
fn signed32(operand: u64) -> u64
    ensures { result ≡ signed32 operand }
{
    let low = (operand & 0xFFFF_FFFF) as u32;
    i64::from(low.cast_signed()).cast_unsigned()
}

#[tactic(auto, unfolding(rules::specs::Values::write_timer))]
pub fn write_timer(timer: Timer, part: Part, used: u64, operand: u64) -> Timer
    ensures { result ≡ write_timer timer part used operand }
{
    match part {
        Part::Tval => Timer {
            cval: used.wrapping_add(signed32(operand)),
            ..timer
        },
        Part::Ctl => Timer {
            enable: operand & 1 == 1,
            imask: (operand >> 1) & 1 == 1,
            ..timer
        },
        Part::Cval => Timer {
            cval: operand,
            ..timer
        },
    }
}
