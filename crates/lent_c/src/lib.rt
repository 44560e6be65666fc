// What the archive for C exports: each function of the crate lent, under its own name and with its own promise, by C's calling
// convention. Each parameter is a pointer or a number (a slice is a pointer and then a length), and each result a number or
// nothing, which every calling convention passes in one way. They stand twice, since a crate is a library, of which theorems may
// speak, or what an archive is made of.
#![tactic(auto)]

ghost use Rattle.std.specs.Prelude.{◌≡◌};
ghost use Rattle.rules.specs.Access.{access_of};
ghost use Rattle.rules.specs.Journal.{run_of, buffer_after};
ghost use Rattle.rules.specs.Lines.{lines_of};
ghost use Rattle.rules.specs.Syndromes.{word_of};

pub mod pinned;

use rules::{Access, Answer, Lines, State};

#[unsafe(no_mangle)]
pub extern "C" fn elsterkabel_access_in(s: &mut State, access: &Access, answer: &mut Answer)
    ensures s_after { s.new ≡ (access_of s.old access.now).next }
    ensures answer_after { answer.new ≡ (access_of s.old access.now).answer }
{
    lent::elsterkabel_access_in(s, access, answer)
}

#[unsafe(no_mangle)]
pub extern "C" fn elsterkabel_run_in(s: &mut State, journal: &[u8], answers: &mut [u8]) -> u8
    ensures value { result ≡ (run_of s.old journal.now answers.old).number }
    ensures s_after { s.new ≡ (run_of s.old journal.now answers.old).next }
    ensures answers_after { answers.new ≡ buffer_after s.old journal.now answers.old }
{
    lent::elsterkabel_run_in(s, journal, answers)
}

#[unsafe(no_mangle)]
pub extern "C" fn elsterkabel_lines(s: &State, count: u64, lines: &mut Lines)
    ensures { lines.new ≡ lines_of s.now count }
{
    lent::elsterkabel_lines(s, count, lines)
}

#[unsafe(no_mangle)]
pub extern "C" fn elsterkabel_word_of(iss: u32) -> u32
    ensures { result ≡ word_of iss }
{
    lent::elsterkabel_word_of(iss)
}

#[unsafe(no_mangle)]
pub extern "C" fn elsterkabel_version() -> u32
    ensures { result ≡ 1 }
{
    lent::elsterkabel_version()
}
