// The words of the console: a refusal with its number.
#![tactic(auto)]

ghost use Rattle.std.specs.Prelude.{◌≡◌};
ghost use Rattle.text_print.specs.Text.{written, appended};
ghost use Rattle.console_refusal.specs.Refusals.{refusal_words, refusal_of};

use refusal::Refusal;
use text_print::Text;

// Bytes and no Display: a text takes bytes, and its contract says which.
#[tactic(auto, unfolding(crate::specs::Refusals::refusal_words))]
fn refusal_words(r: Refusal) -> &'static [u8]
    ensures { result.now ≡ refusal_words r }
{
    match r {
        Refusal::NoRegister => b"no register at the pointer for this direction",
        Refusal::Busy => b"a channel keeps the bus or a chain is under way",
        Refusal::NoCommand => b"command kind 6 or 7",
        Refusal::OtherChannelsIp => b"IP named at the other channel's port",
        Refusal::CannotChain => b"Start Chain with CA or SIP set",
        Refusal::OddChain => b"first fetch of a chain from an odd address",
        Refusal::NotCarried => b"operation not carried",
        Refusal::OddWord => b"word side at an odd address",
        Refusal::NothingToAcknowledge => b"nothing to acknowledge",
        Refusal::NoChannel => b"channel other than 1 or 2",
        Refusal::LongRun => b"run of more than 65536",
    }
}

#[tactic(auto, using(text_print::proofs::Laws::twice), unfolding(crate::specs::Refusals::refusal_of))]
pub fn refusal(t: Text, r: Refusal) -> Text
    ensures { written result ≡ appended (written t) (refusal_of r) }
{
    let number = u8::from(r);
    let t = t.with(b"refused ").decimal(number as u64);
    t.with(b" ").with(refusal_words(r))
}
