// The test bench: any state and a journal in; answers, final state and lines out (docs/FORMATS.md).
#![tactic(auto)]

mod bits;
mod image;

use image::{IMAGE_BYTES, image_of, read_state};
use rules::{DONE, Lines, RECORD_BYTES, RECORD_LIMIT, State};
use std::io;
use std::io::{Read, Write};

// An image and twice the longest journal, so that it is the run that refuses a longer one, and not the end of a buffer.
const ROOM: usize = IMAGE_BYTES + 2 * RECORD_LIMIT * RECORD_BYTES;

// The lines question as two bytes: its number, and the lines from bit 0 in the order of RULES, 'The state'.
fn lines_bytes(lines: Lines) -> [u8; 2] {
    let raised = [
        lines.cntp,
        lines.cntv,
        lines.cnthp,
        lines.cnthv,
        lines.cnthps,
        lines.cnthvs,
    ];
    let bits = raised
        .iter()
        .rev()
        .fold(0, |bits, &line| (bits << 1) | u8::from(line));
    [lines.number, bits]
}

fn report(out: &mut impl Write, next: State, count: u64) -> io::Result<()> {
    out.write_all(&image_of(next))?;
    out.write_all(&lines_bytes(desk::lines(next, count)))
}

// `answers` has as many bytes as the journal.
fn answer(
    out: &mut impl Write,
    state: State,
    journal: &[u8],
    answers: &mut [u8],
) -> io::Result<()> {
    let ran = journal::run(state, journal, answers);
    if ran.number == DONE {
        out.write_all(answers)?;
        report(out, ran.next, journal::last_count(journal))
    } else {
        report(out, ran.next, 0)
    }
}

fn main(rt: HostRuntime) -> io::Result<()> {
    // Arrays and no Vec, so that the contracts of the heap are not assumed. Their length is cast: u64 has no `From<usize>`.
    let mut input = [0; ROOM];
    let mut answers = [0; ROOM];
    // `board` reads its input in the same two lines: a crate for them would be no plainer, and the libraries read no input.
    let copied = io::copy(&mut rt.stdin().take(ROOM as u64), &mut &mut input[..])?;
    // No clause of std says that no more is copied than there is room for.
    let input = &input[..(copied as usize).min(ROOM)];
    let Some((image, journal)) = input.split_first_chunk::<IMAGE_BYTES>() else {
        return Ok(());
    };
    let answers = &mut answers[..journal.len()];
    answer(&mut rt.stdout(), read_state(image), journal, answers)
}
