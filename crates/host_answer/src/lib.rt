// Each answer as one number, for a host in another language.
#![tactic(auto)]

ghost use Rattle.std.specs.Prelude.{◌≡◌, ℕ};
ghost use Rattle.standstill.specs.Answers.{cause_number};
ghost use Rattle.host_answer.specs.Numbers.{unit_half, fetch_half, word_kind, step_number, run_number, packed, number_of, read_number, acknowledged_told, cause_told};

use call_acknowledge::Acknowledgement;
use port::Which;
use refusal::Refusal;
use standstill::Cause;
use step::Answer;
use step_bus::Back;
use word_mode::Reasons;

// The upper half of a unit's answer: the channel, the end reasons above it, and the number of changes of bits 23-16 above them.
fn unit_half(channel: u8, why: Reasons, upper: u16) -> u16
    ensures { result ≡ unit_half channel why upper }
{
    channel as u16
        + facts::worth(why.tc, 0x100)
        + facts::worth(why.mc, 0x200)
        + facts::worth(why.eop, 0x400)
        + upper % 4 * 0x1000
}

// A fetch has no end reasons.
fn fetch_half(channel: u8, upper: bool) -> u16
    ensures { result ≡ fetch_half channel upper }
{
    channel as u16 + facts::worth(upper, 0x1000)
}

// A kind in bits 15-8, and the upper half.
fn pack(kind: u8, upper: u16) -> u32
    ensures { result ≡ packed kind upper }
{
    kind as u32 * 256 + upper as u32 * 65536
}

pub fn step_number(a: Answer) -> u32
    ensures { result ≡ step_number a }
{
    match a {
        Answer::Refused(r) => u8::from(r) as u32,
        Answer::Disabled => pack(0, 0),
        Answer::Idle => pack(1, 0),
        Answer::GivenBack(b) => match b {
            Back::Note => pack(2, 0),
            Back::Bus => pack(3, 0),
        },
        Answer::Holding(w) => pack(4, u8::from(w) as u16),
        Answer::Fetched(w, d) => pack(5, fetch_half(u8::from(w), d.upper)),
        Answer::Dropped(w) => pack(6, u8::from(w) as u16),
        Answer::Unit(w, d) => pack(7, unit_half(u8::from(w), d.why, d.upper)),
        Answer::Ended(w) => pack(8, u8::from(w) as u16),
    }
}

// The number of steps stands above the last answer's 32 bits.
pub fn run_number(steps: u32, a: Answer) -> u64
    ensures { result ≡ run_number steps a }
{
    steps as u64 * 4294967296 + step_number(a) as u64
}

// The channel, with bit 2 set: there is a word.
fn word_kind(w: Which) -> u8
    ensures { result ≡ word_kind w }
{
    match w {
        Which::One => 5,
        Which::Two => 6,
    }
}

// 13 to 15 are left for the reasons of later requests.
fn cause_number(c: Cause) -> u8
    ensures { result ≡ cause_number c }
{
    match c {
        Cause::NothingWrong => 0,
        Cause::Disabled => 1,
        Cause::ChainOnTheOther => 2,
        Cause::GiveBackNote => 3,
        Cause::BusKeptByTheOther => 4,
        Cause::Ca => 5,
        Cause::Sip => 6,
        Cause::Nac => 7,
        Cause::Masked => 8,
        Cause::NoRequest => 9,
        Cause::OddChain => 10,
        Cause::NotCarried => 11,
        Cause::OddWord => 12,
        Cause::TurnOfTheOther => 16,
    }
}

// What a call that was carried out tells, above bits 7-0.
pub trait Told {
    ghost told: { Self → ℕ };

    fn told(self) -> u32
        ensures { result ≡ told self };
}

impl Told for () {
    ghost told = { λ _. 0 };

    fn told(self) -> u32 {
        0
    }
}

// The register that was read.
impl Told for u16 {
    ghost told = { packed 0 };

    fn told(self) -> u32 {
        pack(0, self)
    }
}

impl Told for Acknowledgement {
    ghost told = { acknowledged_told };

    fn told(self) -> u32 {
        match self {
            Acknowledgement::Word(w, v) => pack(word_kind(w), v),
            Acknowledgement::NoWord(w) => pack(u8::from(w), 0),
        }
    }
}

impl Told for Cause {
    ghost told = { cause_told };

    fn told(self) -> u32 {
        pack(cause_number(self), 0)
    }
}

// The answer of a call that may be refused.
pub fn number<A: Told>(answer: Result<A, Refusal>) -> u32
    ensures { result ≡ number_of A.told answer }
{
    match answer {
        Err(r) => u8::from(r) as u32,
        Ok(a) => a.told(),
    }
}

// Of a read, under its own name: no contract of `number` cites what is told of this one call.
pub fn read_number(answer: Result<u16, Refusal>) -> u32
    ensures { result ≡ read_number answer }
{
    number(answer)
}
