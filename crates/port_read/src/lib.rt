// Which register stands at the pointer, for reads.
#![tactic(auto)]

ghost use Rattle.std.specs.Prelude.{◌≡◌};
ghost use Rattle.port_read.specs.Readable.{read_port};

use port::{Register, Which};

// What a read at the pointer reads.
#[derive(Clone, Copy, Debug, PartialEq, Eq)]
pub enum ReadPort {
    MasterMode,
    Status(Which),
    Save(Which),
    ModeHigh(Which),
    Of(Which, Register),
}

#[tactic(auto, using(facts::proofs::Look::find_none), unfolding(facts::specs::Look::find, crate::specs::Readable::read_port))]
pub fn read_port(pointer: u16) -> Option<ReadPort>
    ensures { result ≡ read_port pointer }
{
    match pointer {
        0x38 => Some(ReadPort::MasterMode),
        0x2E => Some(ReadPort::Status(Which::One)),
        0x2C => Some(ReadPort::Status(Which::Two)),
        0x2A => Some(ReadPort::Save(Which::One)),
        0x28 => Some(ReadPort::Save(Which::Two)),
        0x56 => Some(ReadPort::ModeHigh(Which::One)),
        0x54 => Some(ReadPort::ModeHigh(Which::Two)),
        0x1A => Some(ReadPort::Of(Which::One, Register::CurrentAUpper)),
        0x18 => Some(ReadPort::Of(Which::Two, Register::CurrentAUpper)),
        0x0A => Some(ReadPort::Of(Which::One, Register::CurrentALower)),
        0x08 => Some(ReadPort::Of(Which::Two, Register::CurrentALower)),
        0x12 => Some(ReadPort::Of(Which::One, Register::CurrentBUpper)),
        0x10 => Some(ReadPort::Of(Which::Two, Register::CurrentBUpper)),
        0x02 => Some(ReadPort::Of(Which::One, Register::CurrentBLower)),
        0x00 => Some(ReadPort::Of(Which::Two, Register::CurrentBLower)),
        0x1E => Some(ReadPort::Of(Which::One, Register::BaseAUpper)),
        0x1C => Some(ReadPort::Of(Which::Two, Register::BaseAUpper)),
        0x0E => Some(ReadPort::Of(Which::One, Register::BaseALower)),
        0x0C => Some(ReadPort::Of(Which::Two, Register::BaseALower)),
        0x16 => Some(ReadPort::Of(Which::One, Register::BaseBUpper)),
        0x14 => Some(ReadPort::Of(Which::Two, Register::BaseBUpper)),
        0x06 => Some(ReadPort::Of(Which::One, Register::BaseBLower)),
        0x04 => Some(ReadPort::Of(Which::Two, Register::BaseBLower)),
        0x32 => Some(ReadPort::Of(Which::One, Register::CurrentCount)),
        0x30 => Some(ReadPort::Of(Which::Two, Register::CurrentCount)),
        0x36 => Some(ReadPort::Of(Which::One, Register::BaseCount)),
        0x34 => Some(ReadPort::Of(Which::Two, Register::BaseCount)),
        0x4A => Some(ReadPort::Of(Which::One, Register::Pattern)),
        0x48 => Some(ReadPort::Of(Which::Two, Register::Pattern)),
        0x4E => Some(ReadPort::Of(Which::One, Register::Mask)),
        0x4C => Some(ReadPort::Of(Which::Two, Register::Mask)),
        0x5A => Some(ReadPort::Of(Which::One, Register::Vector)),
        0x58 => Some(ReadPort::Of(Which::Two, Register::Vector)),
        0x52 => Some(ReadPort::Of(Which::One, Register::ModeLow)),
        0x50 => Some(ReadPort::Of(Which::Two, Register::ModeLow)),
        0x26 => Some(ReadPort::Of(Which::One, Register::ChainUpper)),
        0x24 => Some(ReadPort::Of(Which::Two, Register::ChainUpper)),
        0x22 => Some(ReadPort::Of(Which::One, Register::ChainLower)),
        0x20 => Some(ReadPort::Of(Which::Two, Register::ChainLower)),
        _ => None,
    }
}
