// The interrupt acknowledge.
#![tactic(auto)]

ghost use Rattle.std.specs.Prelude.{◌≡◌};
ghost use Rattle.call_acknowledge.specs.Acknowledge.{interrupts, finished_later, acknowledged, is_vectorless, acknowledged_at, acknowledge_of};

use channel::Channel;
use port::Which;
use refusal::Refusal;
use step::{Controller, Done};

// The channel and its save word, or the channel alone where master mode says so.
#[derive(Clone, Copy)]
pub enum Acknowledgement {
    Word(Which, u16),
    NoWord(Which),
}

fn is_interrupting(c: Channel) -> bool
    ensures { result ≡ interrupts c }
{
    c.interrupt.cie & (c.interrupt.ip | c.interrupt.sip)
}

// The end that waited is finished; its chain is left pending.
#[tactic(auto, unfolding(crate::specs::Acknowledge::finished_later))]
fn finish_later(c: Channel) -> Channel
    ensures { result ≡ finished_later c }
{
    let why = c.status.why;
    let chains = c.mode.chains().enables(why);
    let mut next = c.finish(why);
    let pending = next.pending | chains;
    next.pending = pending;
    next
}

#[tactic(auto, using(crate::proofs::CodeLaws::second), unfolding(crate::specs::Acknowledge::acknowledged))]
fn acknowledge_channel(w: Which, c: Channel) -> Channel
    ensures { result ≡ acknowledged w c }
{
    if c.interrupt.sip {
        let mut next = c;
        next.interrupt.sip = false;
        return finish_later(next.with_ip(w));
    }
    c
}

fn is_vectorless(master: u16) -> bool
    ensures { result ≡ is_vectorless master }
{
    facts::bit(master, 3)
}

// The save word is answered as it stood before the call.
#[tactic(auto, unfolding(crate::specs::Acknowledge::acknowledged_at))]
fn acknowledge_at(w: Which, u: Controller) -> Done<Result<Acknowledgement, Refusal>>
    ensures { result ≡ acknowledged_at w u }
{
    let c = u.channel(w);
    let next = u.with_channel(w, acknowledge_channel(w, c));
    if is_vectorless(u.master) {
        return Done {
            state: next,
            answer: Ok(Acknowledgement::NoWord(w)),
        };
    }
    Done {
        state: next,
        answer: Ok(Acknowledgement::Word(w, c.interrupt.save)),
    }
}

#[tactic(auto, unfolding(crate::specs::Acknowledge::acknowledge_of))]
pub fn acknowledge(u: Controller) -> Done<Result<Acknowledgement, Refusal>>
    ensures { result ≡ acknowledge_of u }
{
    if is_interrupting(u.one) {
        return acknowledge_at(Which::One, u);
    }
    if is_interrupting(u.two) {
        return acknowledge_at(Which::Two, u);
    }
    Done {
        state: u,
        answer: Err(Refusal::NothingToAcknowledge),
    }
}
