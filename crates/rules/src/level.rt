// The exception levels.
ghost use Rattle.std.specs.Prelude.{◌≡◌};
ghost use Rattle.rules.specs.Levels.{level_or_refused};

use crate::refusal::Refusal;

#[derive(Clone, Copy, Debug, PartialEq, Eq)]
pub enum Level {
    El0,
    El1,
    El2,
    El3,
}

impl TryFrom<u8> for Level {
    type Error = Refusal;

    ghost try_from_gives = { λ n result. result ≡ level_or_refused n };

    fn try_from(level: u8) -> Result<Level, Refusal> {
        match level {
            0 => Ok(Level::El0),
            1 => Ok(Level::El1),
            2 => Ok(Level::El2),
            3 => Ok(Level::El3),
            _ => Err(Refusal::ImpossibleContext),
        }
    }
}
