// The five numbers that a register is known by: out of an instruction word (RULES, 'Instruction words and register names') or a
// syndrome (RULES, 'Syndromes'), and into a word.
ghost use Rattle.std.specs.Prelude.{◌≡◌, if◌then◌else◌, None, Some};
ghost use Rattle.registers.specs.Encodings.{FitsWord, encoding_of, encoding_of_syndrome, word_with};
ghost use Rattle.rules.specs.Names.{is_mrs_or_msr};

use crate::bits::bits;
use crate::word::is_mrs_or_msr;

// As wide as the word that has them.
#[derive(Clone, Copy, Debug, PartialEq, Eq)]
pub struct Encoding {
    pub op0: u32,
    pub op1: u32,
    pub crn: u32,
    pub crm: u32,
    pub op2: u32,
}

impl Encoding {
    // Only an MRS or MSR has one. No `TryFrom`, since a syndrome is a u32 too.
    pub(crate) fn from_word(word: u32) -> Option<Encoding>
        ensures { result ≡ (if is_mrs_or_msr word then Some (encoding_of word) else None) }
    {
        is_mrs_or_msr(word).then(|| Encoding {
            op0: bits(word, 19, 19) + 2,
            op1: bits(word, 18, 16),
            crn: bits(word, 15, 12),
            crm: bits(word, 11, 8),
            op2: bits(word, 7, 5),
        })
    }

    // op0 has both of its bits here: the trap may be of another instruction.
    pub(crate) fn from_syndrome(iss: u32) -> Encoding
        ensures { result ≡ encoding_of_syndrome iss }
    {
        Encoding {
            op0: bits(iss, 21, 20),
            op1: bits(iss, 16, 14),
            crn: bits(iss, 13, 10),
            crm: bits(iss, 4, 1),
            op2: bits(iss, 19, 17),
        }
    }

    // The higher bit of op0 is bit 20, which is 1 in an MRS or MSR alone.
    pub(crate) fn to_word(self, mrs: bool, rt: u32) -> u32
        requires { FitsWord self rt }
        ensures { result ≡ word_with self mrs rt }
    {
        (0b1101010100 << 22)
            + (u32::from(mrs) << 21)
            + (self.op0 << 19)
            + (self.op1 << 16)
            + (self.crn << 12)
            + (self.crm << 8)
            + (self.op2 << 5)
            + rt
    }
}
