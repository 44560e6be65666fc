// The answers, 0 to 3 and 10 made from the word (RULES, 'What the desk answers').
ghost use Rattle.std.specs.Prelude.{◌≡◌};
ghost use Rattle.rules.specs.Answers.{done_read, done_write, as_before};
ghost use Rattle.rules.specs.Answers as rule;
ghost use Rattle.desk.specs.Numbers.{stop_number};

use registers::rt;
use rules::{Answer, DONE, Outcome, State, Stop, Value};

// 0 to 3 and 10 give the word's Rt. The number is a byte, as `Answer` has it for C.
fn answered(number: u8, word: u32, value: u64, mask: u64) -> Answer
    ensures { result ≡ rule.answered number word value mask }
{
    let rt = rt(word);
    Answer {
        number,
        rt,
        value,
        mask,
    }
}

pub fn done_read(word: u32, v: Value) -> Answer
    ensures { result ≡ done_read word v }
{
    answered(DONE, word, v.value, v.mask)
}

pub fn done_write(word: u32) -> Answer
    ensures { result ≡ done_write word }
{
    answered(DONE, word, 0, 0)
}

// Undefined, or a trap.
pub fn stopped(stop: Stop, word: u32) -> Answer
    ensures { result ≡ rule.answered (stop_number stop) word 0 0 }
{
    answered(stop as u8, word, 0, 0)
}

// By any number and not by `Refusal` alone: that is what it promises.
pub fn refused(number: u8) -> Answer
    ensures { result ≡ rule.refused number }
{
    Answer {
        number,
        rt: 0,
        value: 0,
        mask: 0,
    }
}

pub fn as_before(s: State, answer: Answer) -> Outcome
    ensures { result ≡ as_before s answer }
{
    Outcome { answer, next: s }
}
