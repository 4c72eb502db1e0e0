// The upper/tag word of an address register: its fields by shifts and masks.
#![tactic(auto)]

ghost use Rattle.std.specs.Prelude.{◌≡◌};
ghost use Rattle.word_tag.specs.Tag.{kept_tag, kept_chain, is_memory, is_normal, step_of, waits_of};

// Bits 5 and 0 are absent.
pub fn kept_tag(w: u16) -> u16
    ensures { result ≡ kept_tag w }
{
    w & 0xFFDE
}

// The chain's upper word keeps bits 15-8 and 2-1.
pub fn kept_chain(w: u16) -> u16
    ensures { result ≡ kept_chain w }
{
    w & 0xFF06
}

pub fn is_memory(w: u16) -> bool
    ensures { result ≡ is_memory w }
{
    facts::bit(w, 6)
}

// Normal or System, for request E8.
pub fn is_normal(w: u16) -> bool
    ensures { result ≡ is_normal w }
{
    facts::bit(w, 7)
}

// The step field: 0 up, 1 down, 2 and 3 hold.
pub fn step_of(w: u16) -> u16
    ensures { result ≡ step_of w }
{
    (w >> 3) & 3
}

// The programmed waits: 0, 1, 2 or 4; for request E7.
#[tactic(auto, using(facts::proofs::Masks::and_3), unfolding(crate::specs::Tag::waits_of))]
pub fn waits_of(w: u16) -> u16
    ensures { result ≡ waits_of w }
{
    let field = (w >> 1) & 3;
    if field == 3 { 4 } else { field }
}
