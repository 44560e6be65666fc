// What the bits of an instruction word say (RULES, 'Instruction words and register names').
ghost use Rattle.std.specs.Prelude.{◌≡◌};
ghost use Rattle.rules.specs.Names.{is_mrs_or_msr, is_mrs, rt_of};

use crate::bits::{bit, bits};

pub fn is_mrs_or_msr(word: u32) -> bool
    ensures { result ≡ is_mrs_or_msr word }
{
    bits(word, 31, 22) == 0b1101010100 && bit(word, 20)
}

pub fn is_mrs(word: u32) -> bool
    ensures { result ≡ is_mrs word }
{
    bit(word, 21)
}

// Five bits fit, and `try_from` would be no plainer.
pub fn rt(word: u32) -> u8
    ensures { result ≡ rt_of word }
{
    bits(word, 4, 0) as u8
}
