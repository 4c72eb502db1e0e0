// What a line of the console asks for.
#![tactic(auto)]

ghost use Rattle.std.specs.Prelude.{◌≡◌, []};
ghost use Rattle.console_line.specs.Names.{named, names};
ghost use Rattle.console_line.specs.Reading.{last_of, word_at, byte_at, address_at, decimal_at, channel_at, pointer_of, set_of, level_at, line_of, step_of, limit_of, within_of, lend_of, space_of, space_at, peek_of, bytes_from, poke_of, ask_of, word_of, read_of};

mod poke_bytes;

pub use poke_bytes::PokeBytes;

// ---- what the first word of a line names

// The first word of a line.
#[derive(Clone, Copy, Debug, PartialEq, Eq)]
pub enum Name {
    Reset,
    Pointer,
    Write,
    Read,
    Set,
    Get,
    Line,
    Acknowledge,
    Step,
    Run,
    Why,
    Poke,
    Peek,
    State,
    Help,
}

#[tactic(auto, unfolding(crate::specs::Names::named))]
pub fn name_of(s: &[u8]) -> Option<Name>
    ensures { result ≡ named s.now names }
{
    match s {
        b"reset" => Some(Name::Reset),
        b"pointer" => Some(Name::Pointer),
        b"write" => Some(Name::Write),
        b"read" => Some(Name::Read),
        b"set" => Some(Name::Set),
        b"get" => Some(Name::Get),
        b"line" => Some(Name::Line),
        b"acknowledge" => Some(Name::Acknowledge),
        b"step" => Some(Name::Step),
        b"run" => Some(Name::Run),
        b"why" => Some(Name::Why),
        b"poke" => Some(Name::Poke),
        b"peek" => Some(Name::Peek),
        b"state" => Some(Name::State),
        b"help" => Some(Name::Help),
        _ => None,
    }
}

// ---- what the line asks for

// The most bytes that are lent, and that are looked at.
const MEMORY: u32 = 1048576;

const IO: u32 = 65536;

const PEEK: u32 = 65536;

#[derive(Clone, Copy, Debug, PartialEq, Eq)]
pub enum LentSpace {
    Memory,
    Io,
}

// The host's calls that reach the controller alone, with what they are given.
#[derive(Clone, Copy, Debug, PartialEq, Eq)]
pub enum RegisterCall {
    Reset,
    WritePointer(u16),
    ReadPointer,
    Write(u16),
    Read,
    Set(u16, u16),
    Get(u16),
    Line(u8, bool),
    Acknowledge,
}

// The host's calls that reach both spaces.
#[derive(Clone, Copy, Debug, PartialEq, Eq)]
pub enum Advance {
    Step(bool),
    Run(u32),
}

// What is asked, with the bytes of a poke.
#[derive(Clone, Copy, Debug)]
pub enum Request {
    Lend(LentSpace, u32),
    Make(RegisterCall),
    Advance(Advance),
    Why(u8),
    Poke(LentSpace, u32, PokeBytes),
    Peek(LentSpace, u32, u32),
    State,
    Help,
}

// Why a line asks for nothing.
#[derive(Clone, Copy, Debug, PartialEq, Eq)]
pub enum LineError {
    NotUnderstood,
    TooLarge,
}

// ---- the words that follow

// What a line asks whose last word was read, if nothing follows it.
#[tactic(auto, unfolding(crate::specs::Reading::last_of))]
fn last(more: &[u8], asked: Request) -> Result<Request, LineError>
    ensures { result ≡ last_of more.now asked }
{
    if more.is_empty() {
        Ok(asked)
    } else {
        Err(LineError::NotUnderstood)
    }
}

#[tactic(auto, unfolding(crate::specs::Reading::word_at))]
fn word(s: &[u8]) -> Result<u16, LineError>
    ensures { result ≡ word_at s.now }
{
    let w = text_scan::hexadecimal::<4>(text_scan::first(s)).ok_or(LineError::NotUnderstood)?;
    Ok((w % 65536) as u16)
}

#[tactic(auto, unfolding(crate::specs::Reading::byte_at))]
fn byte(s: &[u8]) -> Result<u8, LineError>
    ensures { result ≡ byte_at s.now }
{
    let b = text_scan::hexadecimal::<2>(text_scan::first(s)).ok_or(LineError::NotUnderstood)?;
    Ok((b % 256) as u8)
}

#[tactic(auto, unfolding(crate::specs::Reading::address_at))]
fn address(s: &[u8]) -> Result<u32, LineError>
    ensures { result ≡ address_at s.now }
{
    text_scan::hexadecimal::<6>(text_scan::first(s)).ok_or(LineError::NotUnderstood)
}

#[tactic(auto, unfolding(crate::specs::Reading::decimal_at))]
fn decimal(s: &[u8]) -> Result<u32, LineError>
    ensures { result ≡ decimal_at s.now }
{
    text_scan::decimal(text_scan::first(s)).ok_or(LineError::NotUnderstood)
}

#[tactic(auto, unfolding(crate::specs::Reading::channel_at))]
fn channel(s: &[u8]) -> Result<u8, LineError>
    ensures { result ≡ channel_at s.now }
{
    text_scan::channel(text_scan::first(s)).ok_or(LineError::NotUnderstood)
}

#[tactic(auto, unfolding(crate::specs::Reading::space_of))]
fn space_named(s: &[u8]) -> Option<LentSpace>
    ensures { result ≡ space_of s.now }
{
    match s {
        b"memory" => Some(LentSpace::Memory),
        b"io" => Some(LentSpace::Io),
        _ => None,
    }
}

#[tactic(auto, unfolding(crate::specs::Reading::space_at))]
fn space(s: &[u8]) -> Result<LentSpace, LineError>
    ensures { result ≡ space_at s.now }
{
    space_named(text_scan::first(s)).ok_or(LineError::NotUnderstood)
}

#[tactic(auto, unfolding(crate::specs::Reading::pointer_of))]
fn pointer(s: &[u8]) -> Result<Request, LineError>
    ensures { result ≡ pointer_of s.now }
{
    if s.is_empty() {
        return Ok(Request::Make(RegisterCall::ReadPointer));
    }
    let w = word(s)?;
    last(
        text_scan::rest(s),
        Request::Make(RegisterCall::WritePointer(w)),
    )
}

#[tactic(auto, unfolding(crate::specs::Reading::set_of))]
fn set(s: &[u8]) -> Result<Request, LineError>
    ensures { result ≡ set_of s.now }
{
    let p = word(s)?;
    let s = text_scan::rest(s);
    let w = word(s)?;
    last(text_scan::rest(s), Request::Make(RegisterCall::Set(p, w)))
}

#[tactic(auto, unfolding(crate::specs::Reading::level_at))]
fn level(s: &[u8]) -> Result<bool, LineError>
    ensures { result ≡ level_at s.now }
{
    match text_scan::first(s) {
        b"active" => Ok(true),
        b"inactive" => Ok(false),
        _ => Err(LineError::NotUnderstood),
    }
}

#[tactic(auto, unfolding(crate::specs::Reading::level_of, crate::specs::Reading::line_of))]
fn line(s: &[u8]) -> Result<Request, LineError>
    ensures { result ≡ line_of s.now }
{
    let c = channel(s)?;
    let s = text_scan::rest(s);
    let active = level(s)?;
    last(
        text_scan::rest(s),
        Request::Make(RegisterCall::Line(c, active)),
    )
}

#[tactic(auto, unfolding(crate::specs::Reading::step_of))]
fn step(s: &[u8]) -> Result<Request, LineError>
    ensures { result ≡ step_of s.now }
{
    if s.is_empty() {
        return Ok(Request::Advance(Advance::Step(false)));
    }
    match text_scan::first(s) {
        b"eop" => last(text_scan::rest(s), Request::Advance(Advance::Step(true))),
        _ => Err(LineError::NotUnderstood),
    }
}

#[tactic(auto, unfolding(crate::specs::Reading::limit_of))]
fn limit(space: LentSpace) -> u32
    ensures { result ≡ limit_of space }
{
    match space {
        LentSpace::Memory => MEMORY,
        LentSpace::Io => IO,
    }
}

// A line is read whole before its count is compared.
#[tactic(auto, unfolding(crate::specs::Reading::within_of))]
fn within(limit: u32, n: u32, asked: Result<Request, LineError>) -> Result<Request, LineError>
    ensures { result ≡ within_of limit n asked }
{
    let asked = asked?;
    if limit < n {
        return Err(LineError::TooLarge);
    }
    Ok(asked)
}

#[tactic(auto, unfolding(crate::specs::Reading::lend_of))]
fn lend(space: LentSpace, s: &[u8]) -> Result<Request, LineError>
    ensures { result ≡ lend_of space s.now }
{
    let n = decimal(s)?;
    let asked = last(text_scan::rest(s), Request::Lend(space, n));
    within(limit(space), n, asked)
}

// The words of a text, each a byte.
#[tactic(auto, using(crate::proofs::Laws::bytes_none, crate::proofs::Laws::bytes_full, crate::proofs::Laws::bytes_bad, crate::proofs::Laws::bytes_on))]
fn bytes_of(s: &[u8]) -> Result<PokeBytes, LineError>
    ensures { result ≡ bytes_from 64 s.now [] }
{
    let mut bytes = PokeBytes::new();
    let mut left = s;
    while !left.is_empty() {
        if bytes.is_full() {
            return Err(LineError::NotUnderstood);
        }
        bytes.push(byte(left)?);
        left = text_scan::rest(left);
    }
    Ok(bytes)
}

#[tactic(auto, unfolding(crate::specs::Reading::poke_of))]
fn poke(s: &[u8]) -> Result<Request, LineError>
    ensures { result ≡ poke_of s.now }
{
    let space = space(s)?;
    let s = text_scan::rest(s);
    let at = address(s)?;
    let bytes = bytes_of(text_scan::rest(s))?;
    if bytes.is_empty() {
        return Err(LineError::NotUnderstood);
    }
    Ok(Request::Poke(space, at, bytes))
}

#[tactic(auto, unfolding(crate::specs::Reading::peek_of))]
fn peek(s: &[u8]) -> Result<Request, LineError>
    ensures { result ≡ peek_of s.now }
{
    let space = space(s)?;
    let s = text_scan::rest(s);
    let at = address(s)?;
    let s = text_scan::rest(s);
    let n = decimal(s)?;
    let asked = last(text_scan::rest(s), Request::Peek(space, at, n));
    within(PEEK, n, asked)
}

// What a line of a name asks, with the words that follow.
#[tactic(auto, unfolding(crate::specs::Reading::ask_of))]
fn ask(name: Name, s: &[u8]) -> Result<Request, LineError>
    ensures { result ≡ ask_of name s.now }
{
    match name {
        Name::Reset => last(s, Request::Make(RegisterCall::Reset)),
        Name::Pointer => pointer(s),
        Name::Write => last(
            text_scan::rest(s),
            Request::Make(RegisterCall::Write(word(s)?)),
        ),
        Name::Read => last(s, Request::Make(RegisterCall::Read)),
        Name::Set => set(s),
        Name::Get => last(
            text_scan::rest(s),
            Request::Make(RegisterCall::Get(word(s)?)),
        ),
        Name::Line => line(s),
        Name::Acknowledge => last(s, Request::Make(RegisterCall::Acknowledge)),
        Name::Step => step(s),
        Name::Run => last(
            text_scan::rest(s),
            Request::Advance(Advance::Run(decimal(s)?)),
        ),
        Name::Why => last(text_scan::rest(s), Request::Why(channel(s)?)),
        Name::Poke => poke(s),
        Name::Peek => peek(s),
        Name::State => last(s, Request::State),
        Name::Help => last(s, Request::Help),
    }
}

#[tactic(auto, unfolding(crate::specs::Reading::word_of))]
fn ask_by_word(word: &[u8], s: &[u8]) -> Result<Request, LineError>
    ensures { result ≡ word_of word.now (space_of word.now) s.now }
{
    if let Some(space) = space_named(word) {
        return lend(space, s);
    }
    ask(name_of(word).ok_or(LineError::NotUnderstood)?, s)
}

// A line of words; an empty one asks for nothing.
#[tactic(auto, unfolding(crate::specs::Reading::read_of))]
pub fn read_line(typed: &[u8]) -> Result<Option<Request>, LineError>
    ensures { result ≡ read_of typed.now }
{
    let s = text_scan::code(typed);
    if s.is_empty() {
        return Ok(None);
    }
    let asked = ask_by_word(text_scan::first(s), text_scan::rest(s))?;
    Ok(Some(asked))
}
