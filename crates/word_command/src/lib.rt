// A command byte, decoded from a listing: one entry of the table by the byte, one arm of the match by the entry.
#![tactic(auto)]

ghost use Rattle.std.specs.Prelude.{◌≡◌};
ghost use Rattle.word_command.specs.Command.{command_of};
ghost use Rattle.word_command.specs.Figure18.{command_at};

mod figure_18;

use figure_18::FIGURE_18;
use port::Which;

#[derive(Clone, Copy, Debug, PartialEq, Eq)]
pub enum Command {
    Reset,
    Interrupts {
        channel: Which,
        set: bool,
        cie: bool,
        ip: bool,
    },
    SoftwareRequest(Which, bool),
    Flip(Which, bool),
    HardwareMask(Which, bool),
    StartChain(Which),
}

const SET: bool = true;

const CLEAR: bool = false;

// The table's entry for the lower byte of a word; its upper byte is disregarded.
fn entry(word: u16) -> u8
    ensures { command_at result ≡ command_of word }
{
    let byte = (word % 256) as usize;
    FIGURE_18[byte]
}

// Set or Clear CIE, or, IP: E names CIE, P names IP.
fn interrupts(channel: Which, set: bool, e: bool, p: bool) -> Command
    ensures { result ≡ Command.Interrupts channel set e p }
{
    Command::Interrupts {
        channel,
        set,
        cie: e,
        ip: p,
    }
}

// The codes stand in Figure 18's order.
#[tactic(auto, using(facts::proofs::Look::look_none), unfolding(crate::specs::Figure18::command_at, crate::specs::Command::command_of, facts::specs::Look::look, facts::specs::Look::find))]
pub fn decode(word: u16) -> Option<Command>
    ensures { result ≡ command_of word }
{
    let code = entry(word);
    match code {
        0x00 => Some(Command::Reset),
        0xA0 => Some(Command::StartChain(Which::One)),
        0xA1 => Some(Command::StartChain(Which::Two)),
        0x42 => Some(Command::SoftwareRequest(Which::One, SET)),
        0x43 => Some(Command::SoftwareRequest(Which::Two, SET)),
        0x40 => Some(Command::SoftwareRequest(Which::One, CLEAR)),
        0x41 => Some(Command::SoftwareRequest(Which::Two, CLEAR)),
        0x82 => Some(Command::HardwareMask(Which::One, SET)),
        0x83 => Some(Command::HardwareMask(Which::Two, SET)),
        0x80 => Some(Command::HardwareMask(Which::One, CLEAR)),
        0x81 => Some(Command::HardwareMask(Which::Two, CLEAR)),
        0x22 => Some(interrupts(Which::One, SET, false, false)),
        0x23 => Some(interrupts(Which::Two, SET, false, false)),
        0x20 => Some(interrupts(Which::One, CLEAR, false, false)),
        0x21 => Some(interrupts(Which::Two, CLEAR, false, false)),
        0x26 => Some(interrupts(Which::One, SET, false, true)),
        0x27 => Some(interrupts(Which::Two, SET, false, true)),
        0x24 => Some(interrupts(Which::One, CLEAR, false, true)),
        0x25 => Some(interrupts(Which::Two, CLEAR, false, true)),
        0x32 => Some(interrupts(Which::One, SET, true, false)),
        0x33 => Some(interrupts(Which::Two, SET, true, false)),
        0x30 => Some(interrupts(Which::One, CLEAR, true, false)),
        0x31 => Some(interrupts(Which::Two, CLEAR, true, false)),
        0x36 => Some(interrupts(Which::One, SET, true, true)),
        0x37 => Some(interrupts(Which::Two, SET, true, true)),
        0x34 => Some(interrupts(Which::One, CLEAR, true, true)),
        0x35 => Some(interrupts(Which::Two, CLEAR, true, true)),
        0x62 => Some(Command::Flip(Which::One, SET)),
        0x63 => Some(Command::Flip(Which::Two, SET)),
        0x60 => Some(Command::Flip(Which::One, CLEAR)),
        0x61 => Some(Command::Flip(Which::Two, CLEAR)),
        _ => None,
    }
}
