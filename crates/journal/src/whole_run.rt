// The run of a journal over one state, with a lent answer buffer (RULES, 'The access journal').
ghost use Rattle.std.specs.Prelude.{◌≡◌, MatchResult};
ghost use Rattle.rules.specs.Journal.{run_of, buffer_after};
ghost use Rattle.journal.specs.Runs.{IsRun, IsRefused, run_done, run_refused};

use crate::record::{pack, read_record, serve};
use rules::{DONE, RECORD_BYTES, RECORD_LIMIT, Refusal, Run, State};

// A journal's records, where it may be run with such a buffer: 7 comes before 8.
fn records_of<'a>(journal: &'a [u8], answers: &[u8]) -> Result<&'a [[u8; RECORD_BYTES]], Refusal>
    ensures { MatchResult result (λ records. IsRun journal.now answers.now records.now) (IsRefused journal.now answers.now) }
{
    let (records, rest) = journal.as_chunks();
    if !rest.is_empty() || RECORD_LIMIT < records.len() {
        return Err(Refusal::BadJournal);
    }
    if answers.len() < journal.len() {
        return Err(Refusal::BufferTooShort);
    }
    Ok(records)
}

// The state after the last record. The part of each answer is lent by its place, as the paper asks (RULES, 'Expected forms by
// place'); of a buffer that `chunks_exact_mut` lent out a proof knows no more than its length.
#[tactic(auto, unfolding(rules::specs::Journal::run_of, rules::specs::Journal::buffer_after, rules::specs::Journal::state_after, rules::specs::Journal::answers_of))]
fn serve_all(s: State, journal: &[u8], answers: &mut [u8]) -> Result<State, Refusal>
    ensures value { MatchResult result (λ next. run_of s journal.now answers.old ≡ run_done next) (λ refusal. run_of s journal.now answers.old ≡ run_refused s refusal) }
    ensures answers_after { answers.new ≡ buffer_after s journal.now answers.old }
{
    let records = records_of(journal, answers)?;
    let mut state = s;
    for (i, record) in records.iter().enumerate() {
        let outcome = serve(state, read_record(record));
        state = outcome.next;
        let at = i * RECORD_BYTES;
        pack(&mut answers[at..at + RECORD_BYTES], outcome.answer);
    }
    Ok(state)
}

// Any journal and any buffer is answered. With 7 or 8 nothing is written and the state is as before.
pub fn run(s: State, journal: &[u8], answers: &mut [u8]) -> Run
    ensures value { result ≡ run_of s journal.now answers.old }
    ensures answers_after { answers.new ≡ buffer_after s journal.now answers.old }
{
    match serve_all(s, journal, answers) {
        Ok(next) => Run { number: DONE, next },
        Err(refusal) => Run {
            number: refusal as u8,
            next: s,
        },
    }
}
