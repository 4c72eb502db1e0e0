// What the rules ask of the registers, and what they intend for the channel that keeps the bus and for a candidate.
#![tactic(auto)]

ghost use Rattle.std.specs.Prelude.{◌≡◌, true};
ghost use Rattle.facts.specs.First.{first_some};
ghost use Rattle.step_rules.specs.Rules.{is_enabled, is_interleaved, turn_by, beginning, fetch_refusals, refused_or};
ghost use Rattle.word_mode.specs.Mode.{is_interleave};
ghost use Rattle.step_rules_code.specs.Channels.{keeper};
ghost use Rattle.channel.specs.Candidate.{interleaves};

use channel::Channel;
use port::Which;
use refusal::Refusal;
use step_rules::Choice;
use word_mode::RequestMode;
use word_reload::Stage;

pub fn is_enabled(master: u16) -> bool
    ensures { result ≡ is_enabled master }
{
    facts::bit(master, 0)
}

pub fn is_interleaved(master: u16) -> bool
    ensures { result ≡ is_interleaved master }
{
    facts::bit(master, 1)
}

pub fn is_interleave(mode: RequestMode) -> bool
    ensures { result ≡ is_interleave mode }
{
    mode == RequestMode::DemandInterleave
}

// Of two units in demand interleave the channel not served last comes next.
fn other_turn(served: Option<Which>) -> Option<Which>
    ensures { result ≡ turn_by true true true served }
{
    match served {
        None => Some(Which::One),
        Some(w) => Some(port::other(w)),
    }
}

pub fn whose_turn(first: bool, second: bool, both: bool, served: Option<Which>) -> Option<Which>
    ensures { result ≡ turn_by first second both served }
{
    if first {
        if second {
            if both {
                return other_turn(served);
            }
            return Some(Which::One);
        }
        return Some(Which::One);
    }
    if second { Some(Which::Two) } else { None }
}

// Rule 4, for a channel that keeps the bus.
#[tactic(auto, unfolding(crate::specs::Channels::keeper))]
pub fn keeper_intent(w: Which, c: Channel) -> Choice
    ensures { result ≡ keeper w c }
{
    if channel_request::is_requesting(c.mode, c.line) {
        return Choice::Unit(w);
    }
    let mode = c.mode.request_mode();
    match mode {
        RequestMode::Single => Choice::Release,
        RequestMode::DemandHold => Choice::Hold(w),
        RequestMode::DemandRelease => Choice::Release,
        RequestMode::DemandInterleave => Choice::Release,
    }
}

// Rule 5: a candidate begins its chain or does a unit.
pub fn begin_intent(pending: bool, w: Which) -> Choice
    ensures { result ≡ beginning pending w }
{
    if pending {
        Choice::Fetch(w, Stage::Reload)
    } else {
        Choice::Unit(w)
    }
}

// What a fetch is refused by, if by anything.
pub fn fetch_refusal(stage: Stage, odd: bool) -> Option<Refusal>
    ensures { result ≡ first_some (fetch_refusals odd stage) }
{
    match stage {
        Stage::Reload => {
            if odd {
                return Some(Refusal::OddChain);
            }
            None
        }
        Stage::Entries(_) => None,
    }
}

// What is intended, or its refusal.
pub fn refused_or(refusal: Option<Refusal>, intent: Choice) -> Choice
    ensures { result ≡ refused_or refusal intent }
{
    match refusal {
        None => intent,
        Some(r) => Choice::Refused(r),
    }
}

#[tactic(auto, unfolding(channel::specs::Candidate::interleaves))]
pub fn is_interleaving(c: Channel) -> bool
    ensures { result ≡ interleaves c }
{
    !c.pending & is_interleave(c.mode.request_mode())
}
