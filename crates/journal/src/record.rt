// One record read and served, and one answer packed (RULES, 'The access journal').
ghost use Rattle.std.specs.Prelude.{◌≡◌, [], ◌∷◌, length};
ghost use Rattle.rules.specs.Journal.{record_at, record_served, record_bytes, answer_bytes};
ghost use Rattle.rules.specs.Packing.{field, packed};
ghost use Rattle.journal.specs.Last.{last_count};

use desk::{access, as_before, refused};
use rules::{Access, Answer, Outcome, RECORD_BYTES, Record, Refusal, State};

// No `From`: the type is of `rules`, which knows no bytes. A shift or a remainder has made each cast fit, and `try_from` would be no
// plainer.
#[tactic(auto, unfolding(rules::specs::Journal::record_at))]
pub(crate) fn read_record(bytes: &[u8; RECORD_BYTES]) -> Record
    ensures { result ≡ record_at bytes.now 0 }
{
    let (words, _) = bytes.as_chunks();
    let head = u64::from_be_bytes(words[0]);
    Record {
        access: Access {
            word: (head >> 32) as u32,
            level: ((head >> 30) % 4) as u8,
            operand: u64::from_be_bytes(words[1]),
            count: u64::from_be_bytes(words[2]),
        },
        reserved: (head % 0x4000_0000) as u32,
    }
}

// One expression: returning early from the refusal costs another copy of the state, 5 ns a record.
#[tactic(auto, unfolding(rules::specs::Journal::record_served))]
pub(crate) fn serve(s: State, r: Record) -> Outcome
    ensures { result ≡ record_served s r }
{
    if r.reserved == 0 {
        access(s, r.access)
    } else {
        as_before(s, refused(Refusal::ReservedBitSet as u8))
    }
}

// The first word of an answer; its number is a byte, as `Answer` has it for C.
fn head_of(number: u8, rt: u8) -> u64
    ensures { result ≡ packed (field 4 number ∷ field 5 rt ∷ field 55 0 ∷ []) }
{
    (u64::from(number) % 16 * 32 + u64::from(rt) % 32) << 55
}

// A slice and no array: in the run's loop the search finds no proof through the loan of `as_mut_array`, nor of `first_chunk_mut`.
#[tactic(auto, unfolding(rules::specs::Journal::answer_bytes), using(crate::proofs::Words::word_written, crate::proofs::Words::field_written))]
pub(crate) fn pack(part: &mut [u8], a: Answer)
    requires { length part.old ≡ record_bytes }
    ensures { part.new ≡ answer_bytes a }
{
    let words = [
        head_of(a.number, a.rt).to_be_bytes(),
        a.value.to_be_bytes(),
        a.mask.to_be_bytes(),
    ];
    part.copy_from_slice(words.as_flattened());
}

// A record ends with its count.
#[tactic(auto, using(crate::proofs::Records::last_word))]
pub fn last_count(journal: &[u8]) -> u64
    ensures { result ≡ last_count journal.now }
{
    journal
        .last_chunk()
        .map_or(0, |record| read_record(record).access.count)
}
