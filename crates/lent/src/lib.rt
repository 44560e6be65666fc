// The library that a hypervisor links: the desk, the run and the lines question over memory that the trap handler lends and finds
// changed in place. Each parameter is a pointer or a number (a slice is one of each), and each result a number or nothing. Their
// names are those that C sees, so they begin with the library's; the crate lent_c exports them.
#![tactic(auto)]

ghost use Rattle.std.specs.Prelude.{◌≡◌};
ghost use Rattle.rules.specs.Access.{access_of};
ghost use Rattle.rules.specs.Journal.{run_of, buffer_after};
ghost use Rattle.rules.specs.Lines.{lines_of};
ghost use Rattle.rules.specs.Syndromes.{word_of};

use rules::{Access, Answer, Lines, State};

// Which interface this is: a host holds it against the one that it was written for.
const VERSION: u32 = 1;

// One access: the state and the answer as the by-value access gives them.
pub fn elsterkabel_access_in(s: &mut State, access: &Access, answer: &mut Answer)
    ensures s_after { s.new ≡ (access_of s.old access.now).next }
    ensures answer_after { answer.new ≡ (access_of s.old access.now).answer }
{
    let outcome = desk::access(*s, *access);
    *s = outcome.next;
    *answer = outcome.answer;
}

// The run of a journal, likewise.
pub fn elsterkabel_run_in(s: &mut State, journal: &[u8], answers: &mut [u8]) -> u8
    ensures value { result ≡ (run_of s.old journal.now answers.old).number }
    ensures s_after { s.new ≡ (run_of s.old journal.now answers.old).next }
    ensures answers_after { answers.new ≡ buffer_after s.old journal.now answers.old }
{
    let ran = journal::run(*s, journal, answers);
    *s = ran.next;
    ran.number
}

// Which lines are raised. It changes nothing of the state, so the state is lent to be read.
pub fn elsterkabel_lines(s: &State, count: u64, lines: &mut Lines)
    ensures { lines.new ≡ lines_of s.now count }
{
    *lines = desk::lines(*s, count);
}

// The word for an access, where a handler has the syndrome of its trap.
pub fn elsterkabel_word_of(iss: u32) -> u32
    ensures { result ≡ word_of iss }
{
    registers::word_of(iss)
}

pub fn elsterkabel_version() -> u32
    ensures { result ≡ 1 }
{
    VERSION
}
