// Runs a journal from standard input, from the start of the readings (RULES, 'Twelve readings from the bench'), and writes
// the answers to standard output; a journal that is refused gets none.
#![tactic(auto)]

mod start_state;

use rules::{DONE, RECORD_BYTES, RECORD_LIMIT};
use start_state::start;
use std::io;
use std::io::{Read, Write};

// Twice the longest journal, so that it is the run that refuses a longer one, and not the end of a buffer.
const ROOM: usize = 2 * RECORD_LIMIT * RECORD_BYTES;

fn main(rt: HostRuntime) -> io::Result<()> {
    // Arrays and no Vec, so that the contracts of the heap are not assumed. Their length is cast: u64 has no `From<usize>`.
    let mut input = [0; ROOM];
    let mut answers = [0; ROOM];
    // `probe` reads its input in the same two lines: a crate for them would be no plainer, and the libraries read no input.
    let copied = io::copy(&mut rt.stdin().take(ROOM as u64), &mut &mut input[..])?;
    // No clause of std says that no more is copied than there is room for.
    let journal = &input[..(copied as usize).min(ROOM)];
    let answers = &mut answers[..journal.len()];
    let ran = journal::run(start(), journal, answers);
    if ran.number == DONE {
        rt.stdout().write_all(answers)?;
    }
    Ok(())
}
