// The lines of the state.
#![tactic(auto)]

ghost use Rattle.std.specs.Prelude.{◌≡◌, cond, ◌++◌};
ghost use Rattle.word_reload.specs.Length.{words_left};
ghost use Rattle.text_print.specs.Text.{written, appended, line, channel_of};
ghost use Rattle.console_state.specs.State.{which_of, stage_of, chain_of, words_text, controller_of, two_words, address_of, set_of, current_of, base_of, compared_of, modes_of, status_line};

use port::Which;
use step::Controller;
use text_print::Text;
use word_address::{Address, Set};
use word_reload::{Progress, Stage};

// ---- the controller's

// A channel, or 0 where there is none.
#[tactic(auto, unfolding(crate::specs::State::which_of))]
fn which(t: Text, w: Option<Which>) -> Text
    ensures { written result ≡ appended (written t) (which_of w) }
{
    match w {
        None => t.with(b"0"),
        Some(w) => t.channel(w),
    }
}

fn fetched(second: bool) -> u32
    ensures { result ≡ cond second 2 1 }
{
    if second {
        return 2;
    }
    1
}

// The words of a chain that are still to fetch: those of its table less the ones that were fetched.
fn words_left(p: Progress) -> u32
    ensures { result ≡ words_left p }
{
    word_reload::words(p.left).saturating_sub(fetched(p.second))
}

#[tactic(auto, using(text_print::proofs::Laws::twice), unfolding(crate::specs::State::stage_of))]
fn stage(t: Text, s: Stage) -> Text
    ensures { written result ≡ appended (written t) (stage_of s) }
{
    match s {
        Stage::Reload => t.with(b" start"),
        Stage::Entries(p) => t.with(b" ").decimal(words_left(p) as u64),
    }
}

#[tactic(auto, using(text_print::proofs::Laws::twice), unfolding(crate::specs::State::chain_of))]
fn chain_under_way(t: Text, c: Option<(Which, Stage)>) -> Text
    ensures { written result ≡ appended (written t) (chain_of c) }
{
    match c {
        None => t.with(b"0"),
        Some((w, s)) => stage(t.channel(w), s),
    }
}

#[tactic(auto, using(text_print::proofs::Laws::twice), unfolding(crate::specs::State::words_text))]
fn words(u: Controller) -> Text
    ensures { written result ≡ line (words_text u) }
{
    let t = text_print::of(b"pointer ").hex4(u.pointer);
    t.with(b" master ").hex4(u.master)
}

pub fn controller(u: Controller) -> Text
    ensures { written result ≡ line (controller_of u) }
{
    let k = u.control;
    let chain = k.chain;
    let bus = k.bus;
    let served = k.served;
    let t = which(words(u).with(b" served "), served);
    let t = t.with(b" note ").bit(k.note);
    let t = which(t.with(b" bus "), bus);
    chain_under_way(t.with(b" chain "), chain)
}

// ---- a channel's

fn line_of(w: Which) -> Text
    ensures { written result ≡ line (channel_of w) }
{
    text_print::empty().channel(w)
}

#[tactic(auto, using(text_print::proofs::Laws::twice), unfolding(crate::specs::State::two_words))]
fn two_words(t: Text, upper: u16, lower: u16) -> Text
    ensures { written result ≡ appended (written t) (two_words upper lower) }
{
    t.hex4(upper).with(b" ").hex4(lower)
}

#[tactic(auto, using(text_print::proofs::Laws::twice), unfolding(crate::specs::State::address_of))]
fn register(t: Text, name: &[u8], a: Address) -> Text
    ensures { written result ≡ appended (written t) (name.now ++ address_of a) }
{
    two_words(t.with(name), a.upper, a.lower)
}

#[tactic(auto, using(text_print::proofs::Laws::twice), unfolding(crate::specs::State::set_of))]
fn register_set(t: Text, s: Set) -> Text
    ensures { written result ≡ appended (written t) (set_of s) }
{
    let t = register(register(t, b" A ", s.a), b" B ", s.b);
    t.with(b" count ").hex4(s.count)
}

#[tactic(auto, using(text_print::proofs::Laws::twice), unfolding(crate::specs::State::current_of))]
pub fn current(w: Which, u: Controller) -> Text
    ensures { written result ≡ line (current_of w u) }
{
    register_set(line_of(w), u.channel(w).current)
}

#[tactic(auto, using(text_print::proofs::Laws::twice), unfolding(crate::specs::State::base_of))]
pub fn base(w: Which, u: Controller) -> Text
    ensures { written result ≡ line (base_of w u) }
{
    register_set(line_of(w).with(b" base"), u.channel(w).base)
}

pub fn compared(w: Which, u: Controller) -> Text
    ensures { written result ≡ line (compared_of w u) }
{
    let c = u.channel(w);
    let t = line_of(w).with(b" pattern ").hex4(c.pattern);
    let t = t.with(b" mask ").hex4(c.mask);
    let t = t.with(b" vector ").hex2(c.interrupt.vector);
    t.with(b" save ").hex4(c.interrupt.save)
}

#[tactic(auto, using(text_print::proofs::Laws::twice), unfolding(crate::specs::State::modes_of))]
pub fn modes(w: Which, u: Controller) -> Text
    ensures { written result ≡ line (modes_of w u) }
{
    let c = u.channel(w);
    let t = two_words(line_of(w).with(b" mode "), c.mode.high, c.mode.low);
    register(t, b" chain ", c.chain)
}

pub fn status(w: Which, u: Controller) -> Text
    ensures { written result ≡ line (status_line w u) }
{
    let c = u.channel(w);
    let word = c.flags(call_read::waits_for_bus(w, u)).status();
    let t = line_of(w).with(b" status ").hex4(word);
    let t = t.with(b" change ").bit(c.line.change);
    t.with(b" pending ").bit(c.pending)
}
