// The words of a line, and the numbers among them.
#![tactic(auto)]

ghost use Rattle.std.specs.Prelude.{◌≡◌, ◌<◌, ◌≤◌, length, IfSome};
ghost use Rattle.text_scan.specs.Words.{is_blank, is_word, is_code, leading_of, past_of, code_of, first_of, rest_of};
ghost use Rattle.text_scan.specs.Numbers.{digit_of, with_digit, number_of, hex_of, up_to_255};

#[tactic(auto, unfolding(crate::specs::Words::is_blank))]
fn is_blank(b: u8) -> bool
    ensures { result ≡ is_blank b }
{
    matches!(b, b' ' | b'\t' | b'\r')
}

// Each chain stands in a function of its own, whose contract says what it counts.

fn blanks(s: &[u8]) -> usize
    ensures value { result ≡ leading_of is_blank s.now }
    ensures fits { result ≤ length s.now }
{
    s.iter().take_while(|b| is_blank(**b)).count()
}

#[tactic(auto, unfolding(crate::specs::Words::is_word))]
fn word_length(s: &[u8]) -> usize
    ensures value { result ≡ leading_of is_word s.now }
    ensures fits { result ≤ length s.now }
{
    s.iter().take_while(|b| !is_blank(**b)).count()
}

#[tactic(auto, unfolding(crate::specs::Words::is_code))]
fn code_length(line: &[u8]) -> usize
    ensures value { result ≡ leading_of is_code line.now }
    ensures fits { result ≤ length line.now }
{
    line.iter().take_while(|b| **b != b'#').count()
}

fn past_blanks(s: &[u8]) -> &[u8]
    ensures { result.now ≡ past_of is_blank s.now }
{
    let n = blanks(s);
    &s[n..]
}

// A line without its comment, from its first word on.
#[tactic(auto, unfolding(crate::specs::Words::code_of))]
pub fn code(line: &[u8]) -> &[u8]
    ensures { result.now ≡ code_of line.now }
{
    let n = code_length(line);
    past_blanks(&line[..n])
}

// The word that a text starts with.
#[tactic(auto, unfolding(crate::specs::Words::first_of))]
pub fn first(s: &[u8]) -> &[u8]
    ensures { result.now ≡ first_of s.now }
{
    let n = word_length(s);
    &s[..n]
}

// What follows the first word, from the next word on.
#[tactic(auto, unfolding(crate::specs::Words::rest_of))]
pub fn rest(s: &[u8]) -> &[u8]
    ensures { result.now ≡ rest_of s.now }
{
    let n = word_length(s);
    past_blanks(&s[n..])
}

#[tactic(auto, unfolding(crate::specs::Numbers::worth_of, crate::specs::Numbers::digit_of))]
fn digit<const RADIX: u32>(b: u8) -> Option<u32>
    requires { (2 ≤ RADIX) × (RADIX ≤ 16) }
    ensures value { result ≡ digit_of RADIX b }
    ensures fits { IfSome result (λ d. d < RADIX) }
{
    (b as char).to_digit(RADIX)
}

// A number beyond 100,000,000 is above every limit and takes no more digits.
#[tactic(auto, unfolding(crate::specs::Numbers::with_digit))]
fn with_digit<const RADIX: u32>(value: u32, d: u32) -> u32
    requires { (RADIX ≤ 16) × (d < RADIX) }
    ensures { result ≡ with_digit value RADIX d }
{
    if 100_000_000 < value {
        return value;
    }
    value * RADIX + d
}

#[tactic(auto, using(crate::proofs::Laws::digit_on, crate::proofs::Laws::digit_ends, crate::proofs::Laws::digit_none, crate::proofs::Laws::number_none, crate::proofs::Laws::number_some))]
fn number<const RADIX: u32>(s: &[u8]) -> Option<u32>
    requires { (2 ≤ RADIX) × (RADIX ≤ 16) }
    ensures { result ≡ number_of RADIX s.now }
{
    if s.is_empty() {
        return None;
    }
    let mut value = 0;
    for b in s {
        value = with_digit::<RADIX>(value, digit::<RADIX>(*b)?);
    }
    Some(value)
}

// A hexadecimal number of at most so many digits, as HH, HHHH and AAAAAA of the console's language.
#[tactic(auto, unfolding(crate::specs::Numbers::hex_of))]
pub fn hexadecimal<const DIGITS: usize>(s: &[u8]) -> Option<u32>
    ensures { result ≡ hex_of DIGITS s.now }
{
    if DIGITS < s.len() {
        return None;
    }
    number::<16>(s)
}

// A decimal of any length.
pub fn decimal(s: &[u8]) -> Option<u32>
    ensures { result ≡ number_of 10 s.now }
{
    number::<10>(s)
}

// C of the console's language: a decimal up to 255.
#[tactic(auto, unfolding(crate::specs::Numbers::up_to_255))]
pub fn channel(s: &[u8]) -> Option<u8>
    ensures { result ≡ up_to_255 (number_of 10 s.now) }
{
    u8::try_from(decimal(s)?).ok()
}
