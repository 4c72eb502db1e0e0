// Which register stands at the pointer, for writes.
#![tactic(auto)]

ghost use Rattle.std.specs.Prelude.{◌≡◌};
ghost use Rattle.port_write.specs.Writable.{write_port};

use port::{Register, Which};

// What a write at the pointer writes.
#[derive(Clone, Copy, Debug, PartialEq, Eq)]
pub enum WritePort {
    MasterMode,
    Command(Which),
    Of(Which, Register),
}

#[tactic(auto, using(facts::proofs::Look::find_none), unfolding(facts::specs::Look::find, crate::specs::Writable::write_port))]
pub fn write_port(pointer: u16) -> Option<WritePort>
    ensures { result ≡ write_port pointer }
{
    match pointer {
        0x38 => Some(WritePort::MasterMode),
        0x2E => Some(WritePort::Command(Which::One)),
        0x2C => Some(WritePort::Command(Which::Two)),
        0x1A => Some(WritePort::Of(Which::One, Register::CurrentAUpper)),
        0x18 => Some(WritePort::Of(Which::Two, Register::CurrentAUpper)),
        0x0A => Some(WritePort::Of(Which::One, Register::CurrentALower)),
        0x08 => Some(WritePort::Of(Which::Two, Register::CurrentALower)),
        0x12 => Some(WritePort::Of(Which::One, Register::CurrentBUpper)),
        0x10 => Some(WritePort::Of(Which::Two, Register::CurrentBUpper)),
        0x02 => Some(WritePort::Of(Which::One, Register::CurrentBLower)),
        0x00 => Some(WritePort::Of(Which::Two, Register::CurrentBLower)),
        0x1E => Some(WritePort::Of(Which::One, Register::BaseAUpper)),
        0x1C => Some(WritePort::Of(Which::Two, Register::BaseAUpper)),
        0x0E => Some(WritePort::Of(Which::One, Register::BaseALower)),
        0x0C => Some(WritePort::Of(Which::Two, Register::BaseALower)),
        0x16 => Some(WritePort::Of(Which::One, Register::BaseBUpper)),
        0x14 => Some(WritePort::Of(Which::Two, Register::BaseBUpper)),
        0x06 => Some(WritePort::Of(Which::One, Register::BaseBLower)),
        0x04 => Some(WritePort::Of(Which::Two, Register::BaseBLower)),
        0x32 => Some(WritePort::Of(Which::One, Register::CurrentCount)),
        0x30 => Some(WritePort::Of(Which::Two, Register::CurrentCount)),
        0x36 => Some(WritePort::Of(Which::One, Register::BaseCount)),
        0x34 => Some(WritePort::Of(Which::Two, Register::BaseCount)),
        0x4A => Some(WritePort::Of(Which::One, Register::Pattern)),
        0x48 => Some(WritePort::Of(Which::Two, Register::Pattern)),
        0x4E => Some(WritePort::Of(Which::One, Register::Mask)),
        0x4C => Some(WritePort::Of(Which::Two, Register::Mask)),
        0x5A => Some(WritePort::Of(Which::One, Register::Vector)),
        0x58 => Some(WritePort::Of(Which::Two, Register::Vector)),
        0x52 => Some(WritePort::Of(Which::One, Register::ModeLow)),
        0x50 => Some(WritePort::Of(Which::Two, Register::ModeLow)),
        0x26 => Some(WritePort::Of(Which::One, Register::ChainUpper)),
        0x24 => Some(WritePort::Of(Which::Two, Register::ChainUpper)),
        0x22 => Some(WritePort::Of(Which::One, Register::ChainLower)),
        0x20 => Some(WritePort::Of(Which::Two, Register::ChainLower)),
        _ => None,
    }
}
