// A datum on its way between bytes and a word.
#![tactic(auto)]

ghost use Rattle.std.specs.Prelude.{◌≡◌};
ghost use Rattle.unit_funnel.specs.Funnel.{joined, first_half, second_half};

// Two bytes to a word, by the order of the halves.
pub fn join(high: bool, first: u16, second: u16) -> u16
    ensures { result ≡ joined high first second }
{
    if high {
        first % 256 * 256 + second % 256
    } else {
        second % 256 * 256 + first % 256
    }
}

// The byte of a word that is moved first, and the one that is moved second.
pub fn first_half(high: bool, word: u16) -> u16
    ensures { result ≡ first_half high word }
{
    if high { word / 256 } else { word % 256 }
}

pub fn second_half(high: bool, word: u16) -> u16
    ensures { result ≡ second_half high word }
{
    first_half(!high, word)
}
