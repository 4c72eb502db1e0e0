// The words of the console: the line that each answer prints.
#![tactic(auto)]

ghost use Rattle.std.specs.Prelude.{◌≡◌, ◌++◌};
ghost use Rattle.text_scan.specs.Words.{bytes};
ghost use Rattle.text_print.specs.Text.{written, appended, line, channel_of};
ghost use Rattle.console_answer.specs.Wording.{if_so, reasons_of, upper_of, answer_of, write_of, read_of, level_of, line_of, acknowledge_of, run_of, cause_of, why_of};

use call_acknowledge::Acknowledgement;
use port::Which;
use refusal::Refusal;
use standstill::Cause;
use step::Answer;
use text_print::Text;
use word_mode::Reasons;

// A word where it applies.
#[tactic(auto, using(text_print::proofs::Laws::room), unfolding(crate::specs::Wording::if_so))]
fn if_so(t: Text, applies: bool, words: &[u8]) -> Text
    ensures { written result ≡ appended (written t) (if_so applies words.now) }
{
    if applies {
        return t.with(words);
    }
    t
}

#[tactic(auto, using(text_print::proofs::Laws::twice), unfolding(crate::specs::Wording::reasons_of))]
fn reasons(t: Text, why: Reasons) -> Text
    ensures { written result ≡ appended (written t) (reasons_of why) }
{
    if_so(
        if_so(if_so(t, why.tc, b" TC"), why.mc, b" MC"),
        why.eop,
        b" EOP",
    )
}

// How often the upper address byte changed, where it did.
#[tactic(auto, using(text_print::proofs::Laws::room, text_print::proofs::Laws::twice), unfolding(crate::specs::Wording::if_so, crate::specs::Wording::upper_of))]
fn upper(t: Text, changes: u16) -> Text
    ensures { written result ≡ appended (written t) (upper_of changes) }
{
    if changes == 0 {
        return t;
    }
    t.with(b" upper ").decimal(changes as u64)
}

#[tactic(auto, using(text_print::proofs::Laws::twice), unfolding(crate::specs::Wording::answer_of))]
fn answer(t: Text, a: Answer) -> Text
    ensures { written result ≡ appended (written t) (answer_of a) }
{
    match a {
        Answer::Refused(r) => console_refusal::refusal(t, r),
        Answer::Disabled => t.with(b"0 disabled"),
        Answer::Idle => t.with(b"0 idle"),
        Answer::GivenBack(_) => t.with(b"0 given back"),
        Answer::Holding(w) => t.channel(w).with(b" holding"),
        Answer::Fetched(w, d) => if_so(t.channel(w).with(b" fetched"), d.upper, b" upper 1"),
        Answer::Dropped(w) => t.channel(w).with(b" dropped"),
        Answer::Unit(w, d) => upper(reasons(t.channel(w).with(b" unit"), d.why), d.upper),
        Answer::Ended(w) => t.channel(w).with(b" ended"),
    }
}

#[tactic(auto, unfolding(crate::specs::Wording::write_of))]
pub fn write(a: Result<(), Refusal>) -> Text
    ensures { written result ≡ line (write_of a) }
{
    match a {
        Err(r) => console_refusal::refusal(text_print::empty(), r),
        Ok(()) => text_print::of(b"written"),
    }
}

#[tactic(auto, using(text_print::proofs::Laws::twice), unfolding(crate::specs::Wording::read_of))]
pub fn read(a: Result<u16, Refusal>) -> Text
    ensures { written result ≡ line (read_of a) }
{
    match a {
        Err(r) => console_refusal::refusal(text_print::empty(), r),
        Ok(w) => text_print::of(b"read ").hex4(w),
    }
}

#[tactic(auto, using(text_print::proofs::Laws::twice), unfolding(crate::specs::Wording::level_of))]
fn level(c: u8, active: bool) -> Text
    ensures { written result ≡ line (level_of c active) }
{
    let t = text_print::of(b"line ").decimal(c as u64);
    if active {
        return t.with(b" active");
    }
    t.with(b" inactive")
}

#[tactic(auto, unfolding(crate::specs::Wording::line_of))]
pub fn line(c: u8, active: bool, a: Result<(), Refusal>) -> Text
    ensures { written result ≡ line (line_of c active a) }
{
    match a {
        Err(r) => console_refusal::refusal(text_print::empty(), r),
        Ok(()) => level(c, active),
    }
}

#[tactic(auto, using(text_print::proofs::Laws::twice))]
fn acknowledged(w: Which) -> Text
    ensures { written result ≡ line (bytes "acknowledged " ++ channel_of w) }
{
    text_print::of(b"acknowledged ").channel(w)
}

#[tactic(auto, using(text_print::proofs::Laws::twice), unfolding(crate::specs::Wording::acknowledge_of))]
pub fn acknowledge(a: Result<Acknowledgement, Refusal>) -> Text
    ensures { written result ≡ line (acknowledge_of a) }
{
    match a {
        Err(r) => console_refusal::refusal(text_print::empty(), r),
        Ok(Acknowledgement::Word(w, word)) => acknowledged(w).with(b" ").hex4(word),
        Ok(Acknowledgement::NoWord(w)) => acknowledged(w),
    }
}

pub fn step(a: Answer) -> Text
    ensures { written result ≡ line (answer_of a) }
{
    answer(text_print::empty(), a)
}

#[tactic(auto, using(text_print::proofs::Laws::twice), unfolding(crate::specs::Wording::run_of))]
pub fn run(steps: u32, a: Answer) -> Text
    ensures { written result ≡ line (run_of steps a) }
{
    let t = text_print::of(b"ran ").decimal(steps as u64);
    answer(t.with(b" "), a)
}

// Bytes and no Display, as a refusal's.
#[tactic(auto, unfolding(crate::specs::Wording::cause_of))]
fn cause(why: Cause) -> &'static [u8]
    ensures { result.now ≡ cause_of why }
{
    match why {
        Cause::NothingWrong => b"nothing wrong",
        Cause::Disabled => b"disabled",
        Cause::ChainOnTheOther => b"chain under way on the other channel",
        Cause::GiveBackNote => b"give-back note",
        Cause::BusKeptByTheOther => b"bus kept by the other channel",
        Cause::Ca => b"CA",
        Cause::Sip => b"SIP",
        Cause::Nac => b"NAC",
        Cause::Masked => b"masked with the line active",
        Cause::NoRequest => b"no request",
        Cause::OddChain => b"odd chain address",
        Cause::NotCarried => b"operation not carried",
        Cause::OddWord => b"odd word address",
        Cause::TurnOfTheOther => b"other channel's turn",
    }
}

#[tactic(auto, using(text_print::proofs::Laws::twice), unfolding(crate::specs::Wording::why_of))]
pub fn why(c: u8, a: Result<Cause, Refusal>) -> Text
    ensures { written result ≡ line (why_of c a) }
{
    match a {
        Err(r) => console_refusal::refusal(text_print::empty(), r),
        Ok(why) => {
            let t = text_print::empty().decimal(c as u64);
            t.with(b" ").with(cause(why))
        }
    }
}
