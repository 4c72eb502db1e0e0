// A line in the making, none as long as 96 bytes, and the numbers in it.
#![tactic(auto)]

ghost use Rattle.std.specs.Prelude.{◌≡◌, [], ◌<◌};
ghost use Rattle.text_print.specs.Text.{written, appended, glyph_of, hex2_of, hex4_of, hex6_of, decimal_of, bit_of, channel_of, line};

mod text;

use arrayvec::ArrayVec;
use itoa::Buffer;
use port::Which;
pub use text::Text;

fn glyph(d: u8) -> u8
    requires { d < 16 }
    ensures { result ≡ glyph_of d }
{
    if d < 10 {
        return b'0' + d;
    }
    b'A' - 10 + d
}

#[tactic(auto, unfolding(crate::specs::Text::written))]
pub fn empty() -> Text
    ensures { written result ≡ [] }
{
    Text {
        bytes: ArrayVec::new(),
    }
}

// A line that starts with words.
pub fn of(s: &[u8]) -> Text
    ensures { written result ≡ line s.now }
{
    empty().with(s)
}

impl Text {
    // A byte that there is no room for is lost.
    #[tactic(auto, using(crate::proofs::Laws::filled, crate::proofs::Laws::fits), unfolding(crate::specs::Text::written))]
    pub fn with(mut self, s: &[u8]) -> Text
        ensures { written result ≡ appended (written self) s.now }
    {
        let n = self.bytes.remaining_capacity().min(s.len());
        self.bytes.try_extend_from_slice(&s[..n]).unwrap();
        self
    }

    #[tactic(auto, unfolding(crate::specs::Text::written))]
    pub fn as_bytes(&self) -> &[u8]
        ensures { result.now ≡ written self.now }
    {
        self.bytes.as_slice()
    }

    // HH, HHHH and AAAAAA, each by the one before: one function of the number of digits would take any number, and have no type to say how large.
    #[tactic(auto, unfolding(crate::specs::Text::hex2_of))]
    pub fn hex2(self, b: u8) -> Text
        ensures { written result ≡ appended (written self) (hex2_of b) }
    {
        self.with(&[glyph(b / 16), glyph(b % 16)])
    }

    #[tactic(auto, using(crate::proofs::Laws::twice), unfolding(crate::specs::Text::hex4_of))]
    pub fn hex4(self, w: u16) -> Text
        ensures { written result ≡ appended (written self) (hex4_of w) }
    {
        self.hex2((w / 256) as u8).hex2((w % 256) as u8)
    }

    #[tactic(auto, using(crate::proofs::Laws::twice), unfolding(crate::specs::Text::hex6_of))]
    pub fn hex6(self, a: usize) -> Text
        ensures { written result ≡ appended (written self) (hex6_of a) }
    {
        self.hex2((a / 65536 % 256) as u8).hex4((a % 65536) as u16)
    }

    #[tactic(auto, using(crate::proofs::Laws::decimal_is))]
    pub fn decimal(self, n: u64) -> Text
        ensures { written result ≡ appended (written self) (decimal_of n) }
    {
        let mut digits = Buffer::new();
        self.with(digits.format(n).as_bytes())
    }

    #[tactic(auto, unfolding(crate::specs::Text::bit_of))]
    pub fn bit(self, b: bool) -> Text
        ensures { written result ≡ appended (written self) (bit_of b) }
    {
        if b { self.with(b"1") } else { self.with(b"0") }
    }

    #[tactic(auto, unfolding(crate::specs::Text::channel_of))]
    pub fn channel(self, w: Which) -> Text
        ensures { written result ≡ appended (written self) (channel_of w) }
    {
        match w {
            Which::One => self.with(b"1"),
            Which::Two => self.with(b"2"),
        }
    }
}
