// The channels, their registers, and the pointer that names a port.
#![tactic(auto)]

ghost use Rattle.std.specs.Prelude.{◌≡◌};
ghost use Rattle.port.specs.Ports.{kept_pointer, other, channel_number, channel_at};

use refusal::Refusal;

// Which channel.
#[derive(Clone, Copy, Debug, PartialEq, Eq)]
pub enum Which {
    One,
    Two,
}

impl From<Which> for u8 {
    ghost from_gives = { λ w n. n ≡ channel_number w };

    fn from(w: Which) -> u8 {
        match w {
            Which::One => 1,
            Which::Two => 2,
        }
    }
}

impl TryFrom<u32> for Which {
    type Error = Refusal;

    ghost try_from_gives = { λ n r. r ≡ channel_at n };

    #[tactic(auto, using(facts::proofs::Look::look_none), unfolding(facts::specs::Look::look, crate::specs::Ports::channel_at))]
    fn try_from(n: u32) -> Result<Which, Refusal> {
        match n {
            1 => Ok(Which::One),
            2 => Ok(Which::Two),
            _ => Err(Refusal::NoChannel),
        }
    }
}

// A register of a channel that is read and written.
#[derive(Clone, Copy, Debug, PartialEq, Eq)]
pub enum Register {
    CurrentAUpper,
    CurrentALower,
    CurrentBUpper,
    CurrentBLower,
    BaseAUpper,
    BaseALower,
    BaseBUpper,
    BaseBLower,
    CurrentCount,
    BaseCount,
    Pattern,
    Mask,
    Vector,
    ModeLow,
    ChainUpper,
    ChainLower,
}

// The pointer keeps bits 1 to 6.
pub fn kept_pointer(w: u16) -> u16
    ensures { result ≡ kept_pointer w }
{
    w & 0x7E
}

pub fn other(w: Which) -> Which
    ensures { result ≡ other w }
{
    match w {
        Which::One => Which::Two,
        Which::Two => Which::One,
    }
}
