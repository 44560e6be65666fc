// The bits of a word, by the numbers that the paper gives them. No crate hands them out, nor `bit` of `gates`, since what is handed out
// asks nothing of its callers.
ghost use Rattle.std.specs.Prelude.{◌≡◌, ◌≤◌, ◌<◌, ◌-◌};
ghost use Rattle.rules.specs.Bits.{bits, bit};

pub(crate) fn bits(word: u32, high: u32, low: u32) -> u32
    requires in_order { low ≤ high }
    requires in_word { high < 32 }
    requires narrower { high - low < 31 }
    ensures { result ≡ bits high low word }
{
    (word >> low) % (1 << (high - low + 1))
}

pub(crate) fn bit(word: u32, k: u32) -> bool
    requires { k < 32 }
    ensures { result ≡ bit k word }
{
    bits(word, k, k) == 1
}
