// What a unit does with its datum: it is compared with the pattern, each half with its own.
#![tactic(auto)]

ghost use Rattle.std.specs.Prelude.{◌≡◌};
ghost use Rattle.unit_comparison.specs.Comparison.{both_halves, differing, is_hit, meets, told, told_of, comparison};

use space::Width;

// What a comparison tells: both halves' flags, and whether the operation's condition is met.
#[derive(Clone, Copy)]
pub struct Compared {
    pub mch: bool,
    pub mcl: bool,
    pub met: bool,
}

// A byte stands in both halves for the comparison.
fn widened(w: Width, datum: u16) -> u16
    ensures { result ≡ both_halves w datum }
{
    match w {
        Width::Byte => (datum % 256) * 257,
        Width::Word => datum,
    }
}

// A mask bit of 1 means that its bit is not compared. A half matches where it has none of these bits.
fn differing(datum: u16, pattern: u16, mask: u16) -> u16
    ensures { result ≡ differing 65535 datum pattern mask }
{
    (datum ^ pattern) & !mask
}

// Match control stays its field's number: document 01, E2 and demand 2 state both tests on it, and an enum of its codes would ask the same two.
// Match control 3 takes either half for a match, the others both.
fn is_hit(control: u16, high: bool, low: bool) -> bool
    ensures { result ≡ is_hit control high low }
{
    if control == 3 { high | low } else { high & low }
}

// Match control 0 and 1 stop on no match, 2 and 3 on match.
fn is_met(control: u16, hit: bool) -> bool
    ensures { result ≡ meets control hit }
{
    if 2 <= control { hit } else { !hit }
}

fn tell(control: u16, high: bool, low: bool) -> Compared
    ensures { result ≡ told control high low }
{
    Compared {
        mch: high,
        mcl: low,
        met: is_met(control, is_hit(control, high, low)),
    }
}

// Of a byte, which stands in both halves, both flags tell whether all sixteen bits match.
fn tell_of(w: Width, control: u16, high: bool, low: bool) -> Compared
    ensures { result ≡ told_of w control high low }
{
    match w {
        Width::Byte => tell(control, high & low, high & low),
        Width::Word => tell(control, high, low),
    }
}

#[tactic(auto, using(crate::proofs::Bitwise::halves), unfolding(crate::specs::Comparison::comparison))]
pub fn compare(w: Width, datum: u16, pattern: u16, mask: u16, control: u16) -> Compared
    ensures { result ≡ comparison w datum pattern mask control }
{
    let wrong = differing(widened(w, datum), pattern, mask);
    tell_of(w, control, wrong / 256 == 0, wrong % 256 == 0)
}
