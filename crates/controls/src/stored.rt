// The fields of CNTKCTL and CNTHCTL that are there, by the masks of RULES, 'Stored bits'; every other bit is 0. The mask
// has made the cast fit, and `try_from` would be no plainer.
ghost use Rattle.std.specs.Prelude.{◌≡◌};
ghost use Rattle.rules.specs.Stored.{stored_cntkctl, stored_cnthctl};

#[tactic(auto, using(crate::proofs::Masks::masks))]
pub fn stored_cntkctl(ecv: bool, x: u64) -> u32
    ensures { result ≡ stored_cntkctl ecv x }
{
    let mask = if ecv { 0x2_03FF } else { 0x3FF };
    (x & mask) as u32
}

#[tactic(auto, using(crate::proofs::Masks::masks))]
pub fn stored_cnthctl(e2h: bool, ecv: bool, x: u64) -> u32
    ensures { result ≡ stored_cnthctl e2h ecv x }
{
    let mask = match (e2h, ecv) {
        (false, false) => 0xFF,
        (false, true) => 0x3_F0FF,
        (true, false) => 0xFFF,
        (true, true) => 0x3_FFFF,
    };
    (x & mask) as u32
}
