// The words of the console: the lines that hold no answer of the controller.
#![tactic(auto)]

ghost use Rattle.std.specs.Prelude.{◌≡◌, ◌++◌};
ghost use Rattle.text_scan.specs.Words.{bytes};
ghost use Rattle.text_print.specs.Text.{written, appended, line, hex2_of};
ghost use Rattle.console_message.specs.Phrases.{pointer_of, lent_of, poked_of, bytes_of, row_of, not_understood_of, too_large_of, help_of};

use console_line::LentSpace;
use text_print::Text;

pub fn reset() -> Text
    ensures { written result ≡ line (bytes "reset") }
{
    text_print::of(b"reset")
}

#[tactic(auto, using(text_print::proofs::Laws::twice), unfolding(crate::specs::Phrases::pointer_of))]
pub fn pointer(w: u16) -> Text
    ensures { written result ≡ line (pointer_of w) }
{
    text_print::of(b"pointer ").hex4(w)
}

#[tactic(auto, using(text_print::proofs::Laws::twice), unfolding(crate::specs::Phrases::lent_of))]
pub fn lent(space: LentSpace, n: u32) -> Text
    ensures { written result ≡ line (lent_of space n) }
{
    match space {
        LentSpace::Memory => text_print::of(b"memory ").decimal(n as u64),
        LentSpace::Io => text_print::of(b"io ").decimal(n as u64),
    }
}

#[tactic(auto, using(text_print::proofs::Laws::twice), unfolding(crate::specs::Phrases::poked_of))]
pub fn poked(n: usize) -> Text
    ensures { written result ≡ line (poked_of n) }
{
    text_print::of(b"poked ").decimal(n as u64)
}

#[tactic(auto, using(text_print::proofs::Laws::twice))]
fn blank_and_byte(t: Text, b: u8) -> Text
    ensures { written result ≡ appended (written t) (bytes " " ++ hex2_of b) }
{
    t.with(b" ").hex2(b)
}

#[tactic(auto, using(text_print::proofs::Laws::room, text_print::proofs::Laws::twice, crate::proofs::Laws::one_more), unfolding(crate::specs::Phrases::bytes_of))]
fn row_bytes(mut t: Text, bytes: &[u8]) -> Text
    ensures { written result ≡ appended (written t) (bytes_of bytes.now) }
{
    for &b in bytes {
        t = blank_and_byte(t, b);
    }
    t
}

#[tactic(auto, using(text_print::proofs::Laws::twice), unfolding(crate::specs::Phrases::row_of))]
pub fn row(at: usize, bytes: &[u8]) -> Text
    ensures { written result ≡ line (row_of at bytes.now) }
{
    row_bytes(text_print::empty().hex6(at), bytes)
}

pub fn not_understood(number: u64) -> Text
    ensures { written result ≡ line (not_understood_of number) }
{
    let t = text_print::of(b"error ").decimal(number);
    t.with(b" not understood")
}

#[tactic(auto, using(text_print::proofs::Laws::twice), unfolding(crate::specs::Phrases::too_large_of))]
pub fn too_large(number: u64) -> Text
    ensures { written result ≡ line (too_large_of number) }
{
    let t = text_print::of(b"error ").decimal(number);
    t.with(b" too large")
}

// The help: a line for each call, then for each word of the bench.
const HELP: [&[u8]; 17] = [
    b"reset                        pull the reset line",
    b"pointer HHHH                 write the pointer, and show what it keeps",
    b"pointer                      read the pointer",
    b"write HHHH                   write the register at the pointer",
    b"read                         read the register at the pointer",
    b"set HHHH HHHH                write the pointer, then its register",
    b"get HHHH                     write the pointer, then read its register",
    b"line C active|inactive       set the level of channel C's request line",
    b"acknowledge                  acknowledge an interrupt",
    b"step [eop]                   make one step, with EOP given or not",
    b"run N                        make up to N steps, at most 65536",
    b"why C                        say why channel C stands still",
    b"memory N, io N               lend N bytes of 00 anew",
    b"poke memory|io AAAAAA HH ..  store 1 to 64 bytes from an address on",
    b"peek memory|io AAAAAA N      show N bytes from an address on",
    b"state                        show all that the controller holds",
    b"help                         show this list",
];

pub fn help(n: u8) -> Text
    ensures { written result ≡ line (help_of n) }
{
    text_print::of(HELP[(n as usize).min(HELP.len() - 1)])
}
