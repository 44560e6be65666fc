// One access, from word to answer and next state (RULES, 'What the desk answers').
ghost use Rattle.std.specs.Prelude.{◌≡◌};
ghost use Rattle.rules.specs.Names.{name_of, written_operand};
ghost use Rattle.rules.specs.Access.{access_of};
ghost use Rattle.desk.specs.Refused.{by_the_rules, named_or_refused, possible_name};

use crate::answers::{as_before, done_read, done_write, refused, stopped};
use crate::context::impossible_at;
use gates::{facts, verdict};
use registers::{Register, is_mrs, rt};
use rules::{Access, Name, Outcome, Refusal, State};
use timers::Moment;

// Rt 31 is the zero register.
fn written_operand(a: Access) -> u64
    ensures { result ≡ written_operand a }
{
    if rt(a.word) == 31 { 0 } else { a.operand }
}

#[tactic(auto, unfolding(rules::specs::Access::ruled, rules::specs::Access::permitted))]
fn by_the_rules(s: State, a: Access, name: Name) -> Outcome
    ensures { result ≡ by_the_rules s a name }
{
    let moment = Moment {
        facts: facts(s, a.level),
        state: s,
        physical: a.count,
    };
    match verdict(moment.facts, name, is_mrs(a.word)) {
        Err(stop) => as_before(s, stopped(stop, a.word)),
        Ok(target) if is_mrs(a.word) => as_before(s, done_read(a.word, moment.read(target))),
        Ok(target) => Outcome {
            answer: done_write(a.word),
            next: moment.write(target, written_operand(a)),
        },
    }
}

// The register that the word names: 4 and then 5 come before the rules.
#[tactic(auto, unfolding(rules::specs::Access::served, rules::specs::Access::access_of))]
fn named(s: State, a: Access) -> Result<Name, Refusal>
    ensures value { result ≡ possible_name s a (name_of a.word) }
    ensures answer { access_of s a ≡ named_or_refused s a result }
{
    let name = Register::named_by(a.word).ok_or(Refusal::NotATimerAccess)?;
    if impossible_at(s, a.level) {
        return Err(Refusal::ImpossibleContext);
    }
    Ok(name)
}

// Any access is answered, on any state.
pub fn access(s: State, a: Access) -> Outcome
    ensures { result ≡ access_of s a }
{
    match named(s, a) {
        Ok(name) => by_the_rules(s, a, name),
        Err(refusal) => as_before(s, refused(refusal as u8)),
    }
}
