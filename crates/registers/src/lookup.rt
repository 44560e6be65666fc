// From an instruction word to a name.
ghost use Rattle.std.specs.Prelude.{◌≡◌, find};
ghost use Rattle.registers.specs.Rows.{has_encoding};
ghost use Rattle.rules.specs.Names.{name_of};

use crate::encoding::Encoding;
use crate::register::Register;
use rules::Name;

impl Register {
    // `copied`, since by reference the five numbers are compared one by one, which costs 3 to 14 ns.
    fn look_up(registers: &[Register], encoding: Encoding) -> Option<Register>
        ensures { result ≡ find (has_encoding encoding) registers.now }
    {
        registers
            .iter()
            .copied()
            .find(|register| register.encoding == encoding)
    }

    // The name that a word is taken to: none for one that is not MRS or MSR, and for one that is not in the table.
    #[tactic(auto, using(crate::proofs::Walk::walk), unfolding(rules::specs::Names::name_of, rules::specs::Names::name_table))]
    pub fn named_by(word: u32) -> Option<Name>
        ensures { result ≡ name_of word }
    {
        let encoding = Encoding::from_word(word)?;
        let register = Register::look_up(&Register::ALL, encoding)?;
        Some(register.name)
    }
}
