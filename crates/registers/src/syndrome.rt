// From the syndrome that a trap handler has to the instruction word that it tells of (RULES, 'Syndromes').
ghost use Rattle.std.specs.Prelude.{◌≡◌};
ghost use Rattle.rules.specs.Syndromes.{word_of};

use crate::bits::{bit, bits};
use crate::encoding::Encoding;

// Bits above 21 do not count, so that the whole ESR_ELx may be handed in.
pub fn word_of(iss: u32) -> u32
    ensures { result ≡ word_of iss }
{
    let mrs = bit(iss, 0);
    let rt = bits(iss, 9, 5);
    Encoding::from_syndrome(iss).to_word(mrs, rt)
}
