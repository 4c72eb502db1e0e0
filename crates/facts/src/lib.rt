// What every crate shares: definitions and laws of numbers, masks and tables, a word's bits as flags, and a flag's worth.
#![tactic(auto)]

ghost use Rattle.std.specs.Prelude.{◌≡◌, ◌≤◌};
ghost use Rattle.facts.specs.Bits.{bit_at, bit_if, with_bit};

// A bit's worth where its flag is set.
pub fn worth(on: bool, v: u16) -> u16
    ensures { (result ≡ bit_if on v) × (result ≤ v) }
{
    if on { v } else { 0 }
}

// Bit k of a word; past bit 15 none is set.
#[inline]
#[tactic(auto, using(crate::proofs::OneBit::read_at))]
pub fn bit(w: u16, k: u32) -> bool
    ensures { result ≡ bit_at k w }
{
    w.unbounded_shr(k) & 1 == 1
}

// The word with bit k anew; past bit 15 there is none.
#[inline]
#[tactic(auto, using(crate::proofs::OneBit::set_as, crate::proofs::OneBit::taken))]
pub fn with_bit(w: u16, k: u32, set: bool) -> u16
    ensures { result ≡ with_bit k set w }
{
    let v = 1u16.unbounded_shl(k);
    (w | v) - worth(!set, v)
}
